//! The files of a part, put.

ghost use Rattle.std.specs.Prelude.{◌≡◌, ◌≢◌, ◌++◌, ◌∷◌, [], ℕ, List, Some, IfOk, IfErr, OnOk, map};
ghost use Rattle.ept_base.specs.Causes.{HasCauseOf};
ghost use Rattle.ept_base.specs.Files.{Files, SameFiles, SameBut, Tells, Puts, StepsBy};
ghost use Rattle.ept_base.specs.Moves.{Moves, IsSettled};
ghost use Rattle.ept_point.specs.Packed.{tile};
ghost use Rattle.ept_ckpt.specs.Body.{body};
ghost use Rattle.ept_ckpt.specs.Facts.{facts};
ghost use Rattle.ept_save.specs.Gates.{IsOpen};
ghost use Rattle.ept_publish.specs.Publishing.{PutsAll};
ghost use Rattle.ept_tree.specs.Grown.{nodes_of};
ghost use Rattle.ept_part.specs.Errors.{IsStores};
ghost use Rattle.ept_part.specs.Names.{part_gate, part_body, part_tile};
ghost use Rattle.ept_part.specs.Filling.{tile_file, filling, Fills};

use crate::error::PartError;
use crate::names::{part_body, part_gate, part_tile};
use ept_base::{Store, put_kept};
use ept_ckpt::{Checkpoint, write_ckpt};
use ept_grid::Grid;
use ept_point::{Memory, tile_bytes};
use ept_save::{SaveError, close_gate};
use ept_space::Key;
use ept_tree::Tree;
use std::alloc::Global;

/// Closes the gate of the part, and makes what is read stable.
pub(crate) fn close_part<T: Store>(
    alloc: Global,
    store: &mut T,
    octants: u8,
) -> Result<(), PartError>
    ensures any_moment { Moves T.files T.may_leave T.moment T.image_since
        (SameBut (part_gate octants)) store.old store.new }
    ensures stood_shut { (all : Files) → T.files store.old ≡ Some all → ¬ IsOpen all (part_gate octants)
        → Moves T.files T.may_leave T.moment T.image_since SameFiles store.old store.new }
    ensures shut { OnOk result (Tells (λ all. ¬ IsOpen all (part_gate octants)) (T.files store.new)) }
    ensures settled { OnOk result (IsSettled (T.files store.new) (T.may_leave store.new)) }
    ensures only { IfErr result IsStores }
    ensures cause { HasCauseOf PartError.StoreFault (T.faults store.old) (T.faults store.new) result }
{
    let gate = part_gate(alloc, octants)?;
    match close_gate(alloc, store, gate.as_str()) {
        Ok(()) => Ok(()),
        Err(SaveError::StoreFault) => Err(PartError::StoreFault),
        Err(_) => Err(PartError::Memory),
    }
}

/// Puts the tiles of the nodes and the body, and makes them stable.
pub(crate) fn fill<T: Store>(
    alloc: Global,
    store: &mut T,
    octants: u8,
    tree: &Tree,
    checkpoint: &Checkpoint,
) -> Result<(), PartError>
    ensures puts { OnOk result (StepsBy (PutsAll (filling octants (nodes_of tree.now) checkpoint.now))
        (T.files store.old) (T.files store.new)) }
    ensures fills { Moves T.files T.may_leave T.moment T.image_since (Fills octants) store.old store.new }
    ensures settled { OnOk result (IsSettled (T.files store.new) (T.may_leave store.new)) }
    ensures only { IfErr result IsStores }
    ensures cause { HasCauseOf PartError.StoreFault (T.faults store.old) (T.faults store.new) result }
{
    put_tiles(alloc, store, octants, tree)?;
    put_body(alloc, store, octants, checkpoint)
}

/// Opens the gate of the part, and makes it stable.
pub(crate) fn open_part<T: Store>(
    alloc: Global,
    store: &mut T,
    octants: u8,
) -> Result<(), PartError>
    ensures puts { OnOk result (StepsBy (Puts (part_gate octants) (1 ∷ [])) (T.files store.old) (T.files store.new)) }
    ensures one_gate { Moves T.files T.may_leave T.moment T.image_since (SameBut (part_gate octants)) store.old store.new }
    ensures settled { OnOk result (IsSettled (T.files store.new) (T.may_leave store.new)) }
    ensures only { IfErr result IsStores }
    ensures cause { HasCauseOf PartError.StoreFault (T.faults store.old) (T.faults store.new) result }
{
    let gate = part_gate(alloc, octants)?;
    put_kept(store, gate.as_str(), &[1])?;
    Ok(())
}

// Puts the tile of each node.
fn put_tiles<T: Store>(
    alloc: Global,
    store: &mut T,
    octants: u8,
    tree: &Tree,
) -> Result<(), PartError>
    ensures puts { OnOk result (StepsBy (PutsAll (map (tile_file octants) (nodes_of tree.now)))
        (T.files store.old) (T.files store.new)) }
    ensures fills { Moves T.files T.may_leave T.moment T.image_since (Fills octants) store.old store.new }
    ensures only { IfErr result IsStores }
    ensures cause { HasCauseOf PartError.StoreFault (T.faults store.old) (T.faults store.new) result }
{
    for (key, node) in tree.nodes().iter() {
        let bytes = tile_of(alloc, node)?;
        put_tile(alloc, store, octants, key, &bytes)?;
    }
    Ok(())
}

// The bytes of a node's tile.
fn tile_of(alloc: Global, node: &Grid) -> Result<Vec<u8>, Memory>
    ensures { IfOk result (λ bytes. bytes.items ≡ tile node.now.points) }
{
    let mut points = Vec::new(alloc);
    node.points_into(&mut points)?;
    let mut bytes = Vec::new(alloc);
    tile_bytes(&points, &mut bytes)?;
    Ok(bytes)
}

// Puts the tile of a key.
fn put_tile<T: Store>(
    alloc: Global,
    store: &mut T,
    octants: u8,
    key: &Key,
    bytes: &[u8],
) -> Result<(), PartError>
    ensures puts { OnOk result (StepsBy (Puts (part_tile octants key.now) bytes.now)
        (T.files store.old) (T.files store.new)) }
    ensures one_tile { Moves T.files T.may_leave T.moment T.image_since
        (SameBut (part_tile octants key.now)) store.old store.new }
    ensures only { IfErr result IsStores }
    ensures cause { HasCauseOf PartError.StoreFault (T.faults store.old) (T.faults store.new) result }
{
    let name = part_tile(alloc, octants, key)?;
    store.put(name.as_str(), bytes)?;
    Ok(())
}

// Puts the body, and makes what is read stable.
fn put_body<T: Store>(
    alloc: Global,
    store: &mut T,
    octants: u8,
    checkpoint: &Checkpoint,
) -> Result<(), PartError>
    ensures puts { OnOk result (StepsBy (Puts (part_body octants) (body (facts checkpoint.now)))
        (T.files store.old) (T.files store.new)) }
    ensures one_body { Moves T.files T.may_leave T.moment T.image_since (SameBut (part_body octants)) store.old store.new }
    ensures settled { OnOk result (IsSettled (T.files store.new) (T.may_leave store.new)) }
    ensures only { IfErr result IsStores }
    ensures cause { HasCauseOf PartError.StoreFault (T.faults store.old) (T.faults store.new) result }
{
    let mut bytes = Vec::new(alloc);
    write_ckpt(checkpoint, &mut bytes)?;
    let name = part_body(alloc, octants)?;
    put_kept(store, name.as_str(), &bytes)?;
    Ok(())
}
