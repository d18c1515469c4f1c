//! A run of the program.

ghost use Rattle.std.specs.Prelude.{◌≡◌, ◌≢◌, ◌⊎◌, ◌↔◌, ◌≤◌, ◌+◌, ◌^◌, ℕ, List, Some, ⊤};
ghost use Rattle.std.specs.Io.KnownBytes.{Appends};
ghost use Rattle.ept_base.specs.Causes.{Rose};
ghost use Rattle.ept_base.specs.Files.{Files, SameFiles, Tells};
ghost use Rattle.ept_base.specs.Moves.{Moves, IsSettled};
ghost use Rattle.ept_space.specs.declared.box3.Box3 as space;
ghost use Rattle.ept_filter.specs.declared.sift.Sift.{Sift};
ghost use Rattle.ept_ckpt.specs.declared.letter.Letter.{Letter};
ghost use Rattle.ept_save.specs.Opening.{IsBad};
ghost use Rattle.ept_save.specs.Sound.{IsSound};
ghost use Rattle.ept_part.specs.Files.{ChangesPart, IsPartSound};
ghost use Rattle.ept_build.specs.Building.{BeginsWith};
ghost use Rattle.ept_merge.specs.Merging.{AreSoundParts};
ghost use Rattle.ept_command.specs.declared.refusal.Refusal as cause;
ghost use Rattle.ept_command.specs.declared.refusal.Refusal.TheVariants.{BadCheckpoint};
ghost use Rattle.ept_command.specs.Words.{bytes_of, IsBuild, IsPart, IsMerge, IsInfo, IsQuery, IsSelect, IsCheck, IsTrial, IsUsage};
ghost use Rattle.ept_run.specs.Requests.{IsDoneAt, ComesAt, DiffersAt, ComesToDamageAt, IsConfigured, HasSpilled, IsDefinite};
ghost use Rattle.ept_run.specs.Answers.{YieldsRefusal, YieldsDifference, YieldsDamage, CanBeDone, EndsWell, SaysOfStore, IsAskedFor, AsksBuild, AsksInfo, AsksPart, AsksForParts, AsksMerge, AsksQuery, AsksDataset, HasOwnEnd, Ends, IsFaulty, Refuses, IsCut, EndsTrial};
ghost use Rattle.ept_run.specs.Queries.{EndsQuery, EndsSelect};
ghost use Rattle.ept_run.specs.Parts.{EndsPart};
ghost use Rattle.ept_run.specs.Merges.{EndsMerge};
ghost use Rattle.ept_run.specs.Checks.{EndsCheck};

use crate::carrying::carry_out;
use ept_base::{Gate, Room, Shelf, Sink, Store};
use std::alloc::Global;
use std::sync::Wait;
use std::thread::Threads;

/// Carries out the command that the words are, over these devices, and returns the status with which the
/// program ends. The words are those after the program's name.
///
/// - `build CONFIG OUT` reads the configuration from the shelf, and the LAS files that it names. It puts the octree of
///   their points into the store, and writes its numbers of points and nodes to the sink. Nodes beyond those that the
///   configuration allows in memory at a time are in spill files of the room meanwhile.
/// - `part CONFIG OUT OCTANTS` puts one part of that octree, of some octants of the root, into a folder of its own in
///   the store. It writes the part's numbers of points and nodes.
/// - `merge CONFIG OUT OCTANTS ..` makes a checkpoint of such parts, which have each octant once, and then does what
///   `build CONFIG OUT` does.
/// - `info LAS` reads the header of a LAS file from the shelf and writes what it says to the sink.
/// - `query OUT BOX DEPTHS` writes to the sink the packed points of a box and of some depths of the dataset in the
///   store.
/// - `select OUT BOX DEPTHS CLASSES TIME DIMS` writes those of these points that have some classes and some GPS time,
///   each with the dimensions that are asked for.
/// - `check OUT` writes whether the dataset in the store is the sampling of its own points.
/// - `trial N WORKERS CACHE` builds the octree of generated scans of N points in memory, and writes to the sink what
///   it comes to.
///
/// A refusal is one line on the sink. A query or a selection that is refused writes no line.
pub fn run<H: Shelf, T: Store, M: Room, O: Sink, G: Gate + Sync, R: Threads + Wait + Sync>(
    rt: &R,
    alloc: Global,
    words: &[String],
    shelf: &mut H,
    store: &mut T,
    room: &mut M,
    out: &mut O,
    gate: &G,
) -> u8
where
    H::Source: Send,
    M::File: Send + Sync,
    // The statuses: 0 done; 2 no command; 3 the configuration; 4 a scan; 5 too many; 6 another configuration, no
    // octants, parts that are missing or do not belong here, or no complete dataset; 7 a device; 8 a damaged file or an
    // unfit dataset; 9 memory.

    // Words that are no command, and nothing else, are faulty.
    ensures usage { (result ≡ 2) ↔ IsUsage (bytes_of words.now) }

    // What is done.
    ensures done { result ≡ 0
        → Ends (bytes_of words.now) (H.files shelf.old)
        (BeginsWith M.File.held (H.files shelf.old) (T.files store.old) (T.may_leave store.old)) (T.files store.new)
        (Appends (O.written out.old) (O.written out.new)) ⊎ HasOwnEnd (bytes_of words.now) }
    ensures settled { (config folder : List ℕ) → IsBuild (bytes_of words.now) config folder
        → result ≡ 0 → IsSettled (T.files store.new) (T.may_leave store.new) }
    ensures kept { (config folder : List ℕ) → IsBuild (bytes_of words.now) config folder → result ≡ 0
        → (all start : Files) → BeginsWith M.File.held (H.files shelf.old) (T.files store.old) (T.may_leave store.old) all start
        → HasSpilled all start (M.keeps room.old) (M.keeps room.new) config }
    ensures done_already { (all start : Files) → BeginsWith M.File.held (H.files shelf.old) (T.files store.old) (T.may_leave store.old) all start
        → AsksBuild (bytes_of words.now) (IsDoneAt all start)
        → Moves T.files T.may_leave T.moment T.image_since SameFiles store.old store.new }

    // What can be done is done, unless a device fails or memory runs out.
    ensures comes { CanBeDone (bytes_of words.now) (H.files shelf.old) (T.files store.old)
        (BeginsWith M.File.held (H.files shelf.old) (T.files store.old) (T.may_leave store.old))
        → EndsWell result
        (Rose (H.faults shelf.old) (H.faults shelf.new) ⊎ Rose (T.faults store.old) (T.faults store.new)
        ⊎ Rose (M.faults room.old) (M.faults room.new) ⊎ Rose (O.faults out.old) (O.faults out.new)) }

    // Whatever a build returns and whenever it stops, each image that is left is sound.
    ensures sound { (config folder : List ℕ) → IsBuild (bytes_of words.now) config folder
        → (all start : Files) → BeginsWith M.File.held (H.files shelf.old) (T.files store.old) (T.may_leave store.old) all start
        → Moves T.files T.may_leave T.moment T.image_since (λ (a b : Files). IsSound all b) store.old store.new }

    // A query ends as the query of its area and depths does, and leaves the store as it was.
    ensures query { (folder : List ℕ) (area : space.Box3) (first last : ℕ) → IsQuery (bytes_of words.now) folder area first last
        → EndsQuery area first last result (T.files store.old) (O.written out.old) (O.written out.new)
        (Rose (T.faults store.old) (T.faults store.new)) (Rose (O.faults out.old) (O.faults out.new)) }
    ensures query_puts_nothing { AsksQuery (bytes_of words.now)
        → Moves T.files T.may_leave T.moment T.image_since SameFiles store.old store.new }

    // So does a selection; it has the statuses of a query.
    ensures select { (folder : List ℕ) (area : space.Box3) (first last : ℕ) (sift : Sift) → IsSelect (bytes_of words.now) folder area first last sift
        → EndsSelect sift area first last result (T.files store.old) (O.written out.old) (O.written out.new)
        (Rose (T.faults store.old) (T.faults store.new)) (Rose (O.faults out.old) (O.faults out.new)) }

    // A check ends with the verdict on its folder or a refusal, each with its line.
    ensures check { (folder : List ℕ) → IsCheck (bytes_of words.now) folder
        → EndsCheck result (T.files store.old) (O.written out.old) (O.written out.new)
        (Rose (T.faults store.old) (T.faults store.new)) (Rose (O.faults out.old) (O.faults out.new)) }

    // A part ends with what it has or a refusal, each with its line.
    ensures part { (path folder : List ℕ) (octants : ℕ) → IsPart (bytes_of words.now) path folder octants
        → EndsPart path octants result (H.files shelf.old) (T.files store.new)
        (IsSettled (T.files store.new) (T.may_leave store.new)) (store.new ≡ store.old)
        (O.written out.old) (O.written out.new) (Rose (H.faults shelf.old) (H.faults shelf.new))
        (Rose (T.faults store.old) (T.faults store.new)) (Rose (O.faults out.old) (O.faults out.new)) }
    ensures part_folder { (path folder : List ℕ) (octants : ℕ) → IsPart (bytes_of words.now) path folder octants
        → Moves T.files T.may_leave T.moment T.image_since (ChangesPart octants) store.old store.new }
    ensures part_own { (path folder : List ℕ) (octants : ℕ) → IsPart (bytes_of words.now) path folder octants
        → (all start : Files) → H.files shelf.old ≡ Some all → T.files store.old ≡ Some start
        → IsSettled (T.files store.old) (T.may_leave store.old) → IsPartSound all start octants
        → Moves T.files T.may_leave T.moment T.image_since (λ (a b : Files). IsPartSound all b octants) store.old store.new }
    ensures part_sound { AsksPart (bytes_of words.now) (λ _ _. ⊤) → (all start : Files) → T.files store.old ≡ Some start
        → IsSettled (T.files store.old) (T.may_leave store.old) → IsSound all start
        → Moves T.files T.may_leave T.moment T.image_since (λ (a b : Files). IsSound all b) store.old store.new }

    // A merge ends with what the build after it has or a refusal, each with its line.
    ensures merge { (path folder parts : List ℕ) → IsMerge (bytes_of words.now) path folder parts
        → EndsMerge path parts result (H.files shelf.old) (T.files store.old)
        (BeginsWith M.File.held (H.files shelf.old) (T.files store.old) (T.may_leave store.old)) (T.files store.new)
        (IsSettled (T.files store.new) (T.may_leave store.new)) (Moves T.files T.may_leave T.moment T.image_since SameFiles store.old store.new)
        (O.written out.old) (O.written out.new) (Rose (H.faults shelf.old) (H.faults shelf.new))
        (Rose (T.faults store.old) (T.faults store.new)) (Rose (M.faults room.old) (M.faults room.new))
        (Rose (O.faults out.old) (O.faults out.new)) }
    ensures merge_sound { (path folder parts : List ℕ) → IsMerge (bytes_of words.now) path folder parts
        → (all start : Files) → BeginsWith M.File.held (H.files shelf.old) (T.files store.old) (T.may_leave store.old) all start
        → AreSoundParts all start parts
        → Moves T.files T.may_leave T.moment T.image_since (λ (a b : Files). IsSound all b) store.old store.new }

    // A trial ends with the line of what its octree comes to, whatever the files are, or because memory runs out.
    ensures trial { (count workers cache : ℕ) → IsTrial (bytes_of words.now) count workers cache
        → EndsTrial count result (O.written out.old) (O.written out.new) (Rose (O.faults out.old) (O.faults out.new)) }

    // Any other refusal has its cause and its line. Or a command is carried out, and its line is cut.
    ensures refused { result ≢ 0
        → Refuses (bytes_of words.now) (H.files shelf.old)
        (BeginsWith M.File.held (H.files shelf.old) (T.files store.old) (T.may_leave store.old))
        (SaysOfStore (bytes_of words.now) (H.files shelf.old) (T.files store.old) (T.files store.new)
        (IsSettled (T.files store.old) (T.may_leave store.old))) result
        (Rose (H.faults shelf.old) (H.faults shelf.new)) (Rose (T.faults store.old) (T.faults store.new))
        (Rose (M.faults room.old) (M.faults room.new)) (Rose (O.faults out.old) (O.faults out.new))
        (O.written out.old) (O.written out.new)
        (Moves T.files T.may_leave T.moment T.image_since SameFiles store.old store.new)
        ⊎ IsCut (bytes_of words.now) (H.files shelf.old)
        (BeginsWith M.File.held (H.files shelf.old) (T.files store.old) (T.may_leave store.old)) result (T.files store.new)
        (Rose (O.faults out.old) (O.faults out.new)) (O.written out.old) (O.written out.new)
        ⊎ HasOwnEnd (bytes_of words.now) }
    ensures refusal_comes { Tells (λ all. (r : cause.Refusal) → IsDefinite r
        → IsFaulty (bytes_of words.now) all r
        → YieldsRefusal r result (O.written out.old) (O.written out.new)
        (Rose (O.faults out.old) (O.faults out.new))) (H.files shelf.old) }
    ensures build_refusal_comes { (all start : Files) → BeginsWith M.File.held (H.files shelf.old) (T.files store.old) (T.may_leave store.old) all start
        → (r : cause.Refusal) → AsksBuild (bytes_of words.now) (ComesAt all start r)
        → YieldsRefusal r result (O.written out.old) (O.written out.new) (Rose (O.faults out.old) (O.faults out.new)) }
    ensures differs_comes { (all start : Files) → H.files shelf.old ≡ Some all → T.files store.old ≡ Some start
        → AsksBuild (bytes_of words.now) (DiffersAt all start)
        → YieldsDifference result (O.written out.old) (O.written out.new) (Rose (O.faults out.old) (O.faults out.new)) }
    ensures damaged_comes { (all start : Files) → H.files shelf.old ≡ Some all → T.files store.old ≡ Some start
        → AsksBuild (bytes_of words.now) (ComesToDamageAt all start)
        → YieldsDamage result (O.written out.old) (O.written out.new) (Rose (O.faults out.old) (O.faults out.new)) }
    ensures bad_comes { (all start : Files) (letter : Letter) → H.files shelf.old ≡ Some all → T.files store.old ≡ Some start
        → IsBad start letter → AsksBuild (bytes_of words.now) (IsConfigured all)
        → YieldsRefusal (BadCheckpoint letter) result (O.written out.old) (O.written out.new)
        (Rose (O.faults out.old) (O.faults out.new)) }
    ensures fault { result ≡ 7 → Rose (H.faults shelf.old) (H.faults shelf.new)
        ⊎ Rose (T.faults store.old) (T.faults store.new) ⊎ Rose (M.faults room.old) (M.faults room.new)
        ⊎ Rose (O.faults out.old) (O.faults out.new) }

    // What is opened, and how much of a file is read. `info` reads the first 375 bytes of a LAS file. At most 16 MiB
    // and one byte of a file that is no configuration are read.
    ensures asked { (start : Files) → T.files store.old ≡ Some start
        → IsAskedFor (bytes_of words.now) (H.files shelf.old) start (H.asked shelf.old) (H.asked shelf.new) }
    ensures header_given { (las : List ℕ) → IsInfo (bytes_of words.now) las
        → H.given shelf.new ≤ H.given shelf.old + 375 }
    ensures configuration_given { result ≡ 3 → H.given shelf.new ≤ H.given shelf.old + (2 ^ 24 + 1) }

    // What stays as it was.
    ensures others_put_nothing { AsksBuild (bytes_of words.now) (λ _. ⊤) ⊎ AsksForParts (bytes_of words.now)
        ⊎ Moves T.files T.may_leave T.moment T.image_since SameFiles store.old store.new }
    ensures same_store { AsksBuild (bytes_of words.now) (λ _. ⊤) ⊎ HasOwnEnd (bytes_of words.now) ⊎ (store.new ≡ store.old) }
    ensures same_shelf { AsksBuild (bytes_of words.now) (λ _. ⊤) ⊎ AsksInfo (bytes_of words.now) (λ _. ⊤)
        ⊎ AsksForParts (bytes_of words.now) ⊎ (shelf.new ≡ shelf.old) }
    ensures files { H.files shelf.new ≡ H.files shelf.old }
    ensures same_room { AsksBuild (bytes_of words.now) (λ _. ⊤) ⊎ AsksMerge (bytes_of words.now) (λ _ _. ⊤) ⊎ (room.new ≡ room.old) }
{
    carry_out(rt, alloc, words, shelf, store, room, out, gate).status
}
