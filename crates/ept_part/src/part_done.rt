//! A part of a build.

ghost use Rattle.std.specs.Prelude.{◌≡◌, ◌≢◌, ◌⊎◌, List, Some, Err, IsOk, IfOk, IfErr, OnOk, length};
ghost use Rattle.ept_base.specs.Causes.{HasCauseOf};
ghost use Rattle.ept_base.specs.Files.{Files, Tells};
ghost use Rattle.ept_base.specs.Moves.{Moves, IsSettled};
ghost use Rattle.ept_point.specs.declared.point.Point as p;
ghost use Rattle.ept_config.specs.declared.config.Config as c;
ghost use Rattle.ept_save.specs.Gates.{IsOpen};
ghost use Rattle.ept_tree.specs.Grown.{nodes_of};
ghost use Rattle.ept_part.specs.Names.{part_gate};
ghost use Rattle.ept_part.specs.Files.{HasPart, IsPartSound, ChangesPart};
ghost use Rattle.ept_part.specs.Errors.{IsStores};
ghost use Rattle.ept_part.specs.Filling.{HaveKeys};
ghost use Rattle.ept_part.specs.Making.{IsReady, IsPartOf, IsMade, IsAccepted, IsRefused, IsDefinite, Fails};

use crate::error::PartError;
use crate::filling::{close_part, fill, open_part};
use crate::making::{Ready, prepare};
use ept_base::{Shelf, Store};
use ept_config::Config;
use std::alloc::Global;

/// What a part has.
#[derive(Clone, Copy, Debug, PartialEq, Eq)]
pub struct PartDone {
    /// How many points of the inputs lie in its octants.
    pub points: u64,
    /// How many nodes their sampling has.
    pub nodes: u32,
}

/// Makes a part of a build: of these octants of the root's box, bit o for octant o. The points of the inputs that lie
/// there are sampled. The tiles of their nodes are put into the part's folder, with a body that lists them.
///
/// The inputs are scanned first, as for a build. The part is sampled in memory, on one thread. The gate of the part
/// is shut while its files change, and is opened once they are flushed. So a part may be made again, at any time.
///
/// # Errors
///
/// The first cause in the order in which [`PartError`] lists them. Of these, nothing is put before the last two.
pub fn part<H: Shelf, T: Store>(
    alloc: Global,
    config: &Config,
    octants: u8,
    shelf: &mut H,
    store: &mut T,
) -> Result<PartDone, PartError>
    requires some { octants ≢ 0 }

    // On success the part is there: of the points of the inputs those in its octants, and the nodes of their sampling.
    ensures made { IfOk result (λ done. (all : Files) → H.files shelf.old ≡ Some all
        → Tells (IsMade all config.now octants done) (T.files store.new)) }
    ensures settled { OnOk result (IsSettled (T.files store.new) (T.may_leave store.new)) }

    // Whatever the moment, no name outside the part's folder changes, and the part is sound.
    ensures folder { Moves T.files T.may_leave T.moment T.image_since (ChangesPart octants) store.old store.new }
    ensures own { (all start : Files) → H.files shelf.old ≡ Some all → T.files store.old ≡ Some start
        → IsSettled (T.files store.old) (T.may_leave store.old) → IsPartSound all start octants
        → Moves T.files T.may_leave T.moment T.image_since
        (λ (old : Files) (new : Files). IsPartSound all new octants) store.old store.new }

    // Why it is refused, and when, and what a refusal leaves.
    ensures refused { IfErr result (λ e. Tells (λ all. IsRefused all config.now octants e) (H.files shelf.old)) }
    ensures comes { Tells (λ all. (e : PartError) → IsDefinite e → IsRefused all config.now octants e
        → (result ≡ Err e) ⊎ Fails result) (H.files shelf.old) }
    ensures accepted { Tells (λ all. IsAccepted all config.now octants → IsOk result ⊎ Fails result)
        (H.files shelf.old) }
    ensures early { IfErr result (λ e. e ≢ PartError.StoreFault → e ≢ PartError.Memory → store.new ≡ store.old) }
    ensures files { H.files shelf.new ≡ H.files shelf.old }
    ensures sources { HasCauseOf PartError.SourceFault (H.faults shelf.old) (H.faults shelf.new) result }
    ensures stores { HasCauseOf PartError.StoreFault (T.faults store.old) (T.faults store.new) result }
{
    let ready = prepare(alloc, config, octants, shelf)?;
    put_part(alloc, store, octants, &ready)?;
    Ok(done_of(&ready))
}

// Puts a part that is ready.
fn put_part<T: Store>(
    alloc: Global,
    store: &mut T,
    octants: u8,
    ready: &Ready,
) -> Result<(), PartError>
    requires keys { HaveKeys (nodes_of ready.now.tree) }
    ensures part { OnOk result ((all : Files) (config : c.Config) (points : List p.Point) → IsReady config ready.now
        → IsPartOf all config octants ready.now points
        → Tells (λ files. HasPart all files octants ready.now.checkpoint points) (T.files store.new)) }
    ensures opened { OnOk result (Tells (λ files. IsOpen files (part_gate octants)) (T.files store.new)) }
    ensures settled { OnOk result (IsSettled (T.files store.new) (T.may_leave store.new)) }
    ensures folder { Moves T.files T.may_leave T.moment T.image_since (ChangesPart octants) store.old store.new }
    ensures own { (all start : Files) (config : c.Config) (points : List p.Point) → IsReady config ready.now
        → IsPartOf all config octants ready.now points → T.files store.old ≡ Some start
        → IsSettled (T.files store.old) (T.may_leave store.old) → IsPartSound all start octants
        → Moves T.files T.may_leave T.moment T.image_since
        (λ (old : Files) (new : Files). IsPartSound all new octants) store.old store.new }
    ensures only { IfErr result IsStores }
    ensures cause { HasCauseOf PartError.StoreFault (T.faults store.old) (T.faults store.new) result }
{
    close_part(alloc, store, octants)?;
    fill(alloc, store, octants, &ready.tree, &ready.checkpoint)?;
    open_part(alloc, store, octants)
}

// What the part has.
fn done_of(ready: &Ready) -> PartDone
    ensures points { result.points ≡ ready.now.checkpoint.inserted }
    ensures nodes { result.nodes ≡ length ready.now.checkpoint.nodes }
{
    PartDone {
        points: ready.checkpoint.inserted,
        nodes: ready.checkpoint.nodes.as_slice().len() as u32,
    }
}
