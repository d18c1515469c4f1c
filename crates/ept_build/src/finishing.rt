//! The end of a build: the files of the output, and the opening of the done gate.

ghost use Rattle.std.specs.Prelude.{◌≡◌, ◌≢◌, List, Err, OnOk, IfErr, length};
ghost use Rattle.ept_base.specs.Causes.{HasCauseOf};
ghost use Rattle.ept_base.specs.Files.{Files, Tells};
ghost use Rattle.ept_base.specs.Moves.{IsSettled, Moves};
ghost use Rattle.ept_point.specs.declared.layout.Layout.TheVariants.{Old};
ghost use Rattle.ept_point.specs.declared.point.Point.{Point};
ghost use Rattle.ept_space.specs.VoxelKey.{VoxelKey};
ghost use Rattle.ept_config.specs.Extents.{HasExtent};
ghost use Rattle.ept_meta.specs.Output.{File};
ghost use Rattle.ept_save.specs.Complete.{IsComplete};
ghost use Rattle.ept_save.specs.Tiles.{IsOfLayout};
ghost use Rattle.ept_save.specs.View.{StandsFor};
ghost use Rattle.ept_plan.specs.Plans.{IsOf, inserted_by};
ghost use Rattle.ept_build.specs.Phases.{IsFit, IsSoundAt, AreOfShelf, IsOnWay, HasDamage, IsEndFault};

use crate::error::BuildError;
use ept_base::Store;
use ept_meta::{output_names_law, output_once_law};
use ept_plan::Plan;
use ept_publish::{publish, published_law};
use ept_save::{Saved, open_done, sound_law, sound_steps_law};
use ept_space::Bounds;
use std::alloc::Global;

/// Puts the files of the output, and opens the done gate once they are flushed. The current checkpoint has all points
/// of the output. Its tiles are copied.
pub(crate) fn finish<T: Store>(
    alloc: Global,
    store: &mut T,
    saved: &Saved,
    plan: &Plan,
    extent: &Option<Bounds>,
) -> Result<(), BuildError>
    requires fit { IsFit plan.now }
    requires all { IsOf plan.now saved.now.current }
    requires inserted { inserted_by saved.now.current ≡ plan.now.points }
    requires newest { ¬ IsOfLayout Old saved.now.current }
    ensures complete { OnOk result ((shelf : Files) (points : List Point) (output : List File)
        → AreOfShelf shelf plan.now points output → length points ≡ plan.now.points → HasExtent points extent.now
        → IsOnWay shelf points output saved.now (T.files store.old) (T.may_leave store.old)
        → Tells (IsComplete plan.now.kept points) (T.files store.new)) }
    ensures sound { (shelf : Files) (points : List Point) (output : List File)
        → AreOfShelf shelf plan.now points output → length points ≡ plan.now.points → HasExtent points extent.now
        → IsOnWay shelf points output saved.now (T.files store.old) (T.may_leave store.old)
        → Moves T.files T.may_leave T.moment T.image_since (λ (a b : Files). IsSoundAt shelf saved.now.current b) store.old store.new }
    ensures settled { OnOk result (IsSettled (T.files store.new) (T.may_leave store.new)) }
    ensures only { IfErr result IsEndFault }
    ensures damaged { (key : VoxelKey) → result ≡ Err (BuildError.TileDamaged key)
        → StandsFor saved.now (T.files store.old) (T.may_leave store.old)
        → HasDamage saved.now.current key (T.files store.new) }
    ensures undamaged { (shelf : Files) (points : List Point) (output : List File)
        → IsOnWay shelf points output saved.now (T.files store.old) (T.may_leave store.old)
        → (key : VoxelKey) → result ≢ Err (BuildError.TileDamaged key) }
    ensures stores { HasCauseOf BuildError.StoreFault (T.faults store.old) (T.faults store.new) result }
{
    let counts = plan.counts.as_slice();
    published_law();
    sound_law();
    sound_steps_law();
    output_names_law();
    output_once_law();
    publish(alloc, store, saved, &plan.kept, counts, extent, plan.points)?;
    open_done(store)?;
    Ok(())
}
