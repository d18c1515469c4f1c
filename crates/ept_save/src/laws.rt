//! What holds of sound files, and of a store that matches a [`Saved`]. Each law is the contract of a function that does
//! nothing.

ghost use Rattle.ept_save.specs.View.{StandsFor, IsInEachImage};
ghost use Rattle.ept_save.specs.Before.{BeforeIsSound};
ghost use Rattle.ept_save.specs.SoundLaws.{EmptyIsSound, CurrentIsOne, CurrentIsNotBad, SoundHasNoBad, DoneIsComplete, KeepingKeepsSound, SameIsSound, BesideKeepsSound, InputsAreEnough, DoneIsPublished, GuardingKeepsSound, PuttingKeepsSound, CommittingKeepsSound, MigratingKeepsSound};

use crate::saved::Saved;
use ept_base::Store;
use ept_meta::{output_names_law, output_once_law};
use ept_scan::numbered_law;

/// A folder without files is sound. Files have one current checkpoint, and no bad one if they have that. Sound files have
/// one, and are complete if their done gate is open. A folder that a build of the old layout left is sound too.
pub fn sound_law()
    ensures empty { EmptyIsSound }
    ensures one { CurrentIsOne }
    ensures not_bad { CurrentIsNotBad }
    ensures none_bad { SoundHasNoBad }
    ensures complete { DoneIsComplete }
    ensures published { DoneIsPublished }
    ensures before { BeforeIsSound }
{
    numbered_law();
}

/// Sound files stay sound if what is current is kept. Of the shelf only the inputs of the current checkpoint matter, and
/// of names only a build's. They also stay sound if the done gate is closed, or opened with the output all there. So they
/// do if files of the output change while it is closed. They stay so if the next checkpoint is committed with its tiles,
/// and if one with tiles of the old layout is migrated.
pub fn sound_steps_law()
    ensures same { SameIsSound }
    ensures shelf { InputsAreEnough }
    ensures keeping { KeepingKeepsSound }
    ensures beside { BesideKeepsSound }
    ensures guarding { GuardingKeepsSound }
    ensures putting { PuttingKeepsSound }
    ensures committing { CommittingKeepsSound }
    ensures migrating { MigratingKeepsSound }
{
    output_once_law();
    output_names_law();
}

/// If a store matches a [`Saved`], each image that a crash may leave has its current checkpoint, with the tiles that are
/// read. If the next one is begun, its letter counts in no image.
pub fn images_law<T: Store>(store: &T, saved: &Saved)
    ensures { (stands : StandsFor saved.now (T.files store.now) (T.may_leave store.now))
        → IsInEachImage saved.now stands.all (T.may_leave store.now) }
{}
