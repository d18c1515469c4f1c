//! Making the next checkpoint: begun, and tile by tile.

ghost use Rattle.std.specs.Prelude.{◌≡◌, true, List, length, IfErr, OnOk, OnErr};
ghost use Rattle.ept_base.specs.Causes.{HasCauseOf};
ghost use Rattle.ept_base.specs.Files.{SameBut, Puts, StepsBy};
ghost use Rattle.ept_base.specs.Moves.{Moves, IsSettled};
ghost use Rattle.ept_point.specs.declared.layout.Layout.TheVariants.{Old};
ghost use Rattle.ept_point.specs.Packed.{tile};
ghost use Rattle.ept_ckpt.specs.declared.node_line.NodeLine.{NodeLine};
ghost use Rattle.ept_save.specs.Names.{gate_name, work_tile_name};
ghost use Rattle.ept_save.specs.Gates.{Closes};
ghost use Rattle.ept_save.specs.Current.{Keeps};
ghost use Rattle.ept_save.specs.View.{StandsFor, next_letter};
ghost use Rattle.ept_save.specs.Lines.{free_letter, with_line};
ghost use Rattle.ept_save.specs.Tiles.{IsOfLayout};
ghost use Rattle.ept_save.specs.Errors.{IsStores};

use crate::error::SaveError;
use crate::gates::close_gate;
use crate::names::{gate_name, work_tile_name};
use crate::saved::Saved;
use ept_base::Store;
use ept_ckpt::Letter;
use ept_point::{Point, tile_bytes};
use ept_space::Key;
use std::alloc::Global;

/// Begins the next checkpoint. It closes the gate of its letter, the one that is not current, by the byte 0 if it is open.
/// Then it flushes what is read.
pub fn begin<T: Store>(alloc: Global, store: &mut T, saved: &mut Saved) -> Result<(), SaveError>
    ensures begun { OnOk result (saved.new ≡ record saved.old { begun = true }) }
    ensures unchanged { OnErr result (saved.new ≡ saved.old) }
    ensures puts { OnOk result (StepsBy (Closes (gate_name (next_letter saved.old.current)))
        (T.files store.old) (T.files store.new)) }

    // At every moment only this gate changes, and the current checkpoint stays.
    ensures gate { Moves T.files T.may_leave T.moment T.image_since
        (SameBut (gate_name (next_letter saved.old.current))) store.old store.new }
    ensures keeps { StandsFor saved.old (T.files store.old) (T.may_leave store.old)
        → Moves T.files T.may_leave T.moment T.image_since (Keeps saved.old.current) store.old store.new }
    ensures stands { OnOk result (StandsFor saved.old (T.files store.old) (T.may_leave store.old)
        → StandsFor saved.new (T.files store.new) (T.may_leave store.new)) }
    ensures settled { OnOk result (IsSettled (T.files store.new) (T.may_leave store.new)) }
    ensures only { IfErr result IsStores }
    ensures cause { HasCauseOf SaveError.StoreFault (T.faults store.old) (T.faults store.new) result }
{
    let gate = gate_name(saved.next_letter());
    close_gate(alloc, store, gate)?;
    saved.begun = true;
    Ok(())
}

/// Puts the tile of a node for the next checkpoint, under the version that the current checkpoint does not
/// name for it. `mask` has a bit for each octant of the node that goes down, bit o for octant o.
pub fn save_tile<T: Store>(
    alloc: Global,
    store: &mut T,
    saved: &mut Saved,
    key: Key,
    mask: u8,
    points: &[Point],
) -> Result<(), SaveError>
    requires newest { ¬ IsOfLayout Old saved.old.current }
    ensures line { OnOk result (saved.new ≡ record saved.old {
      lines = with_line
          (record { key = key; count = length points.now; mask = mask; letter = free_letter saved.old.current key })
          saved.old.lines;
    }) }
    ensures puts { OnOk result (StepsBy
        (Puts (work_tile_name (free_letter saved.old.current key) key) (tile points.now))
        (T.files store.old) (T.files store.new)) }
    ensures unchanged { OnErr result (saved.new ≡ saved.old) }

    // At every moment only this tile changes, and the current checkpoint stays.
    ensures one_tile { Moves T.files T.may_leave T.moment T.image_since
        (SameBut (work_tile_name (free_letter saved.old.current key) key)) store.old store.new }
    ensures keeps { Moves T.files T.may_leave T.moment T.image_since
        (Keeps saved.old.current) store.old store.new }
    ensures stands { StandsFor saved.old (T.files store.old) (T.may_leave store.old)
        → StandsFor saved.new (T.files store.new) (T.may_leave store.new) }
    ensures only { IfErr result IsStores }
    ensures cause { HasCauseOf SaveError.StoreFault (T.faults store.old) (T.faults store.new) result }
{
    save_points(alloc, store, saved, key, mask, points)
}

/// Puts the tile of a node, as [`save_tile`] does, whatever the layout of the current checkpoint's tiles.
pub(crate) fn save_points<T: Store>(
    alloc: Global,
    store: &mut T,
    saved: &mut Saved,
    key: Key,
    mask: u8,
    points: &[Point],
) -> Result<(), SaveError>
    ensures line { OnOk result (saved.new ≡ record saved.old {
      lines = with_line
          (record { key = key; count = length points.now; mask = mask; letter = free_letter saved.old.current key })
          saved.old.lines;
    }) }
    ensures puts { OnOk result (StepsBy
        (Puts (work_tile_name (free_letter saved.old.current key) key) (tile points.now))
        (T.files store.old) (T.files store.new)) }
    ensures unchanged { OnErr result (saved.new ≡ saved.old) }
    ensures one_tile { Moves T.files T.may_leave T.moment T.image_since
        (SameBut (work_tile_name (free_letter saved.old.current key) key)) store.old store.new }
    ensures keeps { Moves T.files T.may_leave T.moment T.image_since
        (Keeps saved.old.current) store.old store.new }
    ensures stands { StandsFor saved.old (T.files store.old) (T.may_leave store.old)
        → StandsFor saved.new (T.files store.new) (T.may_leave store.new) }
    ensures only { IfErr result IsStores }
    ensures cause { HasCauseOf SaveError.StoreFault (T.faults store.old) (T.faults store.new) result }
{
    let mut bytes = Vec::new(alloc);
    tile_bytes(points, &mut bytes)?;
    put_free_tile(alloc, store, saved, &key, &bytes)?;
    let letter = saved.free_letter(&key);
    saved.note(key, points.len() as u64, mask, letter)?;
    Ok(())
}

// Puts the tile of a key under the version that the current checkpoint does not name.
fn put_free_tile<T: Store>(
    alloc: Global,
    store: &mut T,
    saved: &Saved,
    key: &Key,
    bytes: &[u8],
) -> Result<(), SaveError>
    ensures puts { OnOk result (StepsBy
        (Puts (work_tile_name (free_letter saved.now.current key.now) key.now) bytes.now)
        (T.files store.old) (T.files store.new)) }
    ensures one_tile { Moves T.files T.may_leave T.moment T.image_since
        (SameBut (work_tile_name (free_letter saved.now.current key.now) key.now)) store.old store.new }
    ensures keeps { Moves T.files T.may_leave T.moment T.image_since
        (Keeps saved.now.current) store.old store.new }
    ensures stands { (lines : List NodeLine) → StandsFor saved.now (T.files store.old) (T.may_leave store.old)
        → StandsFor (record saved.now { lines = lines }) (T.files store.new) (T.may_leave store.new) }
    ensures only { IfErr result IsStores }
    ensures cause { HasCauseOf SaveError.StoreFault (T.faults store.old) (T.faults store.new) result }
{
    key.known();
    let letter = saved.free_letter(key);
    put_tile(alloc, store, letter, key, bytes)
}

// Puts the tile of a letter and a key.
fn put_tile<T: Store>(
    alloc: Global,
    store: &mut T,
    letter: Letter,
    key: &Key,
    bytes: &[u8],
) -> Result<(), SaveError>
    ensures puts { OnOk result (StepsBy (Puts (work_tile_name letter key.now) bytes.now)
        (T.files store.old) (T.files store.new)) }
    ensures one_tile { Moves T.files T.may_leave T.moment T.image_since
        (SameBut (work_tile_name letter key.now)) store.old store.new }
    ensures only { IfErr result IsStores }
    ensures cause { HasCauseOf SaveError.StoreFault (T.faults store.old) (T.faults store.new) result }
{
    let name = work_tile_name(alloc, letter, key)?;
    store.put(name.as_str(), bytes)?;
    Ok(())
}
