//! A run of the program, and why it ends as it does.

ghost use Rattle.std.specs.Prelude.{◌≡◌, ◌≢◌, ◌⊎◌, ◌↔◌, ◌≤◌, ◌+◌, ◌^◌, ℕ, List, None, Some, ⊤};
ghost use Rattle.std.specs.Io.KnownBytes.{Appends};
ghost use Rattle.ept_base.specs.Causes.{Rose};
ghost use Rattle.ept_base.specs.Files.{Files, SameFiles, Tells};
ghost use Rattle.ept_base.specs.Moves.{Moves, IsSettled};
ghost use Rattle.ept_space.specs.declared.box3.Box3 as space;
ghost use Rattle.ept_filter.specs.declared.sift.Sift.{Sift};
ghost use Rattle.ept_ckpt.specs.declared.letter.Letter.{Letter};
ghost use Rattle.ept_save.specs.Opening.{IsBad};
ghost use Rattle.ept_save.specs.Sound.{IsSound};
ghost use Rattle.ept_part.specs.Files.{ChangesPart, IsPartSound};
ghost use Rattle.ept_build.specs.Building.{BeginsWith};
ghost use Rattle.ept_merge.specs.Merging.{AreSoundParts};
ghost use Rattle.ept_command.specs.declared.ended.Failure.TheVariants.{Refused};
ghost use Rattle.ept_command.specs.declared.refusal.Refusal as cause;
ghost use Rattle.ept_command.specs.declared.refusal.Refusal.TheVariants.{BadCheckpoint};
ghost use Rattle.ept_command.specs.Words.{bytes_of, IsBuild, IsPart, IsMerge, IsInfo, IsQuery, IsSelect, IsCheck, IsTrial, IsUsage};
ghost use Rattle.ept_run.specs.Requests.{IsDoneAt, ComesAt, DiffersAt, ComesToDamageAt, IsConfigured, HasSpilled, IsDefinite};
ghost use Rattle.ept_run.specs.Answers.{YieldsRefusal, YieldsDifference, YieldsDamage, CanBeDone, EndsWell, SaysOfStore, IsAskedFor, AsksBuild, AsksInfo, AsksPart, AsksForParts, AsksMerge, AsksQuery, AsksDataset, HasOwnEnd, Ends, IsFaulty, Refuses, IsCut, IsUnwritten, EndsTrial};
ghost use Rattle.ept_run.specs.Queries.{query_failure, EndsQuery, EndsSelect};
ghost use Rattle.ept_run.specs.Parts.{EndsPart, FailsAsPart};
ghost use Rattle.ept_run.specs.Merges.{EndsMerge, FailsAsMerge};
ghost use Rattle.ept_run.specs.Checks.{EndsCheck, FailsCheck};

use crate::answers::{finish, refuse_usage};
use crate::checking::answer_check;
use crate::commands::{build_line, info_line, trial_line};
use crate::merging::answer_merge;
use crate::parting::answer_part;
use crate::querying::{answer_query, answer_select};
use ept_base::{Gate, Room, Shelf, Sink, Store};
use ept_class::class_set_law;
use ept_command::{Command, Ended, command_of};
use ept_filter::sift_text_law;
use ept_http::query_words_law;
use std::alloc::Global;
use std::sync::Wait;
use std::thread::Threads;

/// Carries out the command that the words are, as [`run`](crate::run) does, and reports why it ends so.
pub fn carry_out<H: Shelf, T: Store, M: Room, O: Sink, G: Gate + Sync, R: Threads + Wait + Sync>(
    rt: &R,
    alloc: Global,
    words: &[String],
    shelf: &mut H,
    store: &mut T,
    room: &mut M,
    out: &mut O,
    gate: &G,
) -> Ended
where
    H::Source: Send,
    M::File: Send + Sync,
    // The statuses: 0 done; 2 no command; 3 the configuration; 4 a scan; 5 too many; 6 another configuration, no
    // octants, parts that are missing or do not belong here, or no complete dataset; 7 a device; 8 a damaged file or an
    // unfit dataset; 9 memory.

    // There is a failure at each status but 0.
    ensures failure { (result.status ≡ 0) ↔ (result.failure ≡ None) }

    // Words that are no command, and nothing else, are faulty.
    ensures usage { (result.status ≡ 2) ↔ IsUsage (bytes_of words.now) }

    // What is done.
    ensures done { result.status ≡ 0
        → Ends (bytes_of words.now) (H.files shelf.old)
        (BeginsWith M.File.held (H.files shelf.old) (T.files store.old) (T.may_leave store.old)) (T.files store.new)
        (Appends (O.written out.old) (O.written out.new)) ⊎ HasOwnEnd (bytes_of words.now) }
    ensures settled { (config folder : List ℕ) → IsBuild (bytes_of words.now) config folder
        → result.status ≡ 0 → IsSettled (T.files store.new) (T.may_leave store.new) }
    ensures kept { (config folder : List ℕ) → IsBuild (bytes_of words.now) config folder → result.status ≡ 0
        → (all start : Files) → BeginsWith M.File.held (H.files shelf.old) (T.files store.old) (T.may_leave store.old) all start
        → HasSpilled all start (M.keeps room.old) (M.keeps room.new) config }
    ensures done_already { (all start : Files) → BeginsWith M.File.held (H.files shelf.old) (T.files store.old) (T.may_leave store.old) all start
        → AsksBuild (bytes_of words.now) (IsDoneAt all start)
        → Moves T.files T.may_leave T.moment T.image_since SameFiles store.old store.new }

    // What can be done is done, unless a device fails or memory runs out.
    ensures comes { CanBeDone (bytes_of words.now) (H.files shelf.old) (T.files store.old)
        (BeginsWith M.File.held (H.files shelf.old) (T.files store.old) (T.may_leave store.old))
        → EndsWell result.status
        (Rose (H.faults shelf.old) (H.faults shelf.new) ⊎ Rose (T.faults store.old) (T.faults store.new)
        ⊎ Rose (M.faults room.old) (M.faults room.new) ⊎ Rose (O.faults out.old) (O.faults out.new)) }

    // Whatever a build returns and whenever it stops, each image that is left is sound.
    ensures sound { (config folder : List ℕ) → IsBuild (bytes_of words.now) config folder
        → (all start : Files) → BeginsWith M.File.held (H.files shelf.old) (T.files store.old) (T.may_leave store.old) all start
        → Moves T.files T.may_leave T.moment T.image_since (λ (a b : Files). IsSound all b) store.old store.new }

    // A query ends as the query of its area and depths does, whose refusal is the failure, and leaves the store as it
    // was.
    ensures query { (folder : List ℕ) (area : space.Box3) (first last : ℕ) → IsQuery (bytes_of words.now) folder area first last
        → (ends : EndsQuery area first last result.status (T.files store.old) (O.written out.old) (O.written out.new)
        (Rose (T.faults store.old) (T.faults store.new)) (Rose (O.faults out.old) (O.faults out.new)))
        × (result.failure ≡ query_failure ends.answer) }
    ensures query_puts_nothing { AsksQuery (bytes_of words.now)
        → Moves T.files T.may_leave T.moment T.image_since SameFiles store.old store.new }

    // So does a selection; it has the statuses of a query.
    ensures select { (folder : List ℕ) (area : space.Box3) (first last : ℕ) (sift : Sift) → IsSelect (bytes_of words.now) folder area first last sift
        → (ends : EndsSelect sift area first last result.status (T.files store.old) (O.written out.old) (O.written out.new)
        (Rose (T.faults store.old) (T.faults store.new)) (Rose (O.faults out.old) (O.faults out.new)))
        × (result.failure ≡ query_failure ends.answer) }

    // A check ends with the verdict on its folder or a refusal, each with its line, and the failure says which.
    ensures check { (folder : List ℕ) → IsCheck (bytes_of words.now) folder
        → (ends : EndsCheck result.status (T.files store.old) (O.written out.old) (O.written out.new)
        (Rose (T.faults store.old) (T.faults store.new)) (Rose (O.faults out.old) (O.faults out.new)))
        × FailsCheck ends.answer result.failure }

    // A part ends with what it has or a refusal, each with its line, and the failure says which.
    ensures part { (path folder : List ℕ) (octants : ℕ) → IsPart (bytes_of words.now) path folder octants
        → (ends : EndsPart path octants result.status (H.files shelf.old) (T.files store.new)
        (IsSettled (T.files store.new) (T.may_leave store.new)) (store.new ≡ store.old)
        (O.written out.old) (O.written out.new) (Rose (H.faults shelf.old) (H.faults shelf.new))
        (Rose (T.faults store.old) (T.faults store.new)) (Rose (O.faults out.old) (O.faults out.new)))
        × FailsAsPart ends.outcome result.failure }
    ensures part_folder { (path folder : List ℕ) (octants : ℕ) → IsPart (bytes_of words.now) path folder octants
        → Moves T.files T.may_leave T.moment T.image_since (ChangesPart octants) store.old store.new }
    ensures part_own { (path folder : List ℕ) (octants : ℕ) → IsPart (bytes_of words.now) path folder octants
        → (all start : Files) → H.files shelf.old ≡ Some all → T.files store.old ≡ Some start
        → IsSettled (T.files store.old) (T.may_leave store.old) → IsPartSound all start octants
        → Moves T.files T.may_leave T.moment T.image_since (λ (a b : Files). IsPartSound all b octants) store.old store.new }
    ensures part_sound { AsksPart (bytes_of words.now) (λ _ _. ⊤) → (all start : Files) → T.files store.old ≡ Some start
        → IsSettled (T.files store.old) (T.may_leave store.old) → IsSound all start
        → Moves T.files T.may_leave T.moment T.image_since (λ (a b : Files). IsSound all b) store.old store.new }

    // A merge ends with what the build after it has or a refusal, each with its line, and the failure says which.
    ensures merge { (path folder parts : List ℕ) → IsMerge (bytes_of words.now) path folder parts
        → (ends : EndsMerge path parts result.status (H.files shelf.old) (T.files store.old)
        (BeginsWith M.File.held (H.files shelf.old) (T.files store.old) (T.may_leave store.old)) (T.files store.new)
        (IsSettled (T.files store.new) (T.may_leave store.new)) (Moves T.files T.may_leave T.moment T.image_since SameFiles store.old store.new)
        (O.written out.old) (O.written out.new) (Rose (H.faults shelf.old) (H.faults shelf.new))
        (Rose (T.faults store.old) (T.faults store.new)) (Rose (M.faults room.old) (M.faults room.new))
        (Rose (O.faults out.old) (O.faults out.new)))
        × FailsAsMerge ends.outcome result.failure }
    ensures merge_sound { (path folder parts : List ℕ) → IsMerge (bytes_of words.now) path folder parts
        → (all start : Files) → BeginsWith M.File.held (H.files shelf.old) (T.files store.old) (T.may_leave store.old) all start
        → AreSoundParts all start parts
        → Moves T.files T.may_leave T.moment T.image_since (λ (a b : Files). IsSound all b) store.old store.new }

    // A trial ends with the line of what its octree comes to, whatever the files are, or because memory runs out.
    ensures trial { (count workers cache : ℕ) → IsTrial (bytes_of words.now) count workers cache
        → EndsTrial count result.status (O.written out.old) (O.written out.new) (Rose (O.faults out.old) (O.faults out.new)) }

    // Any other refusal has its cause, which is the failure, and its line. If a command is carried out but its line is
    // cut, the failure has this line.
    ensures refused { result.status ≢ 0
        → ((refuses : Refuses (bytes_of words.now) (H.files shelf.old)
        (BeginsWith M.File.held (H.files shelf.old) (T.files store.old) (T.may_leave store.old))
        (SaysOfStore (bytes_of words.now) (H.files shelf.old) (T.files store.old) (T.files store.new)
        (IsSettled (T.files store.old) (T.may_leave store.old))) result.status
        (Rose (H.faults shelf.old) (H.faults shelf.new)) (Rose (T.faults store.old) (T.faults store.new))
        (Rose (M.faults room.old) (M.faults room.new)) (Rose (O.faults out.old) (O.faults out.new))
        (O.written out.old) (O.written out.new)
        (Moves T.files T.may_leave T.moment T.image_since SameFiles store.old store.new))
        × (result.failure ≡ Some (Refused refuses.cause)))
        ⊎ ((cut : IsCut (bytes_of words.now) (H.files shelf.old)
        (BeginsWith M.File.held (H.files shelf.old) (T.files store.old) (T.may_leave store.old)) result.status (T.files store.new)
        (Rose (O.faults out.old) (O.faults out.new)) (O.written out.old) (O.written out.new))
        × IsUnwritten result.failure cut.ends.line)
        ⊎ HasOwnEnd (bytes_of words.now) }
    ensures refusal_comes { Tells (λ all. (r : cause.Refusal) → IsDefinite r
        → IsFaulty (bytes_of words.now) all r
        → YieldsRefusal r result.status (O.written out.old) (O.written out.new)
        (Rose (O.faults out.old) (O.faults out.new))) (H.files shelf.old) }
    ensures build_refusal_comes { (all start : Files) → BeginsWith M.File.held (H.files shelf.old) (T.files store.old) (T.may_leave store.old) all start
        → (r : cause.Refusal) → AsksBuild (bytes_of words.now) (ComesAt all start r)
        → YieldsRefusal r result.status (O.written out.old) (O.written out.new) (Rose (O.faults out.old) (O.faults out.new)) }
    ensures differs_comes { (all start : Files) → H.files shelf.old ≡ Some all → T.files store.old ≡ Some start
        → AsksBuild (bytes_of words.now) (DiffersAt all start)
        → YieldsDifference result.status (O.written out.old) (O.written out.new) (Rose (O.faults out.old) (O.faults out.new)) }
    ensures damaged_comes { (all start : Files) → H.files shelf.old ≡ Some all → T.files store.old ≡ Some start
        → AsksBuild (bytes_of words.now) (ComesToDamageAt all start)
        → YieldsDamage result.status (O.written out.old) (O.written out.new) (Rose (O.faults out.old) (O.faults out.new)) }
    ensures bad_comes { (all start : Files) (letter : Letter) → H.files shelf.old ≡ Some all → T.files store.old ≡ Some start
        → IsBad start letter → AsksBuild (bytes_of words.now) (IsConfigured all)
        → YieldsRefusal (BadCheckpoint letter) result.status (O.written out.old) (O.written out.new)
        (Rose (O.faults out.old) (O.faults out.new)) }
    ensures fault { result.status ≡ 7 → Rose (H.faults shelf.old) (H.faults shelf.new)
        ⊎ Rose (T.faults store.old) (T.faults store.new) ⊎ Rose (M.faults room.old) (M.faults room.new)
        ⊎ Rose (O.faults out.old) (O.faults out.new) }

    // What is opened, and how much of a file is read. `info` reads the first 375 bytes of a LAS file. At most 16 MiB
    // and one byte of a file that is no configuration are read.
    ensures asked { (start : Files) → T.files store.old ≡ Some start
        → IsAskedFor (bytes_of words.now) (H.files shelf.old) start (H.asked shelf.old) (H.asked shelf.new) }
    ensures header_given { (las : List ℕ) → IsInfo (bytes_of words.now) las
        → H.given shelf.new ≤ H.given shelf.old + 375 }
    ensures configuration_given { result.status ≡ 3 → H.given shelf.new ≤ H.given shelf.old + (2 ^ 24 + 1) }

    // What stays as it was.
    ensures others_put_nothing { AsksBuild (bytes_of words.now) (λ _. ⊤) ⊎ AsksForParts (bytes_of words.now)
        ⊎ Moves T.files T.may_leave T.moment T.image_since SameFiles store.old store.new }
    ensures same_store { AsksBuild (bytes_of words.now) (λ _. ⊤) ⊎ HasOwnEnd (bytes_of words.now) ⊎ (store.new ≡ store.old) }
    ensures same_shelf { AsksBuild (bytes_of words.now) (λ _. ⊤) ⊎ AsksInfo (bytes_of words.now) (λ _. ⊤)
        ⊎ AsksForParts (bytes_of words.now) ⊎ (shelf.new ≡ shelf.old) }
    ensures files { H.files shelf.new ≡ H.files shelf.old }
    ensures same_room { AsksBuild (bytes_of words.now) (λ _. ⊤) ⊎ AsksMerge (bytes_of words.now) (λ _ _. ⊤) ⊎ (room.new ≡ room.old) }
{
    match command_of(words) {
        Command::Build { config, .. } => {
            let line = build_line(rt, alloc, config, shelf, store, room, gate);
            finish(alloc, out, line)
        }
        Command::Info { las } => {
            let line = info_line(alloc, shelf, las);
            finish(alloc, out, line)
        }
        Command::Query { area, depths, .. } => {
            query_words_law();
            answer_query(alloc, &area, depths, store, out)
        }
        Command::Select {
            area,
            depths,
            sift,
            ..
        } => {
            query_words_law();
            sift_text_law();
            answer_select(alloc, &area, depths, &sift, store, out)
        }
        Command::Check { .. } => answer_check(alloc, store, out),
        Command::Part {
            config,
            octants,
            ..
        } => {
            class_set_law();
            answer_part(alloc, config, octants, shelf, store, out)
        }
        Command::Merge { config, parts, .. } => {
            class_set_law();
            answer_merge(
                rt,
                alloc,
                config,
                parts.as_slice(),
                shelf,
                store,
                room,
                out,
                gate,
            )
        }
        Command::Trial {
            points,
            workers,
            cache,
        } => {
            let line = trial_line(rt, alloc, points, workers, cache);
            finish(alloc, out, line)
        }
        Command::Usage => refuse_usage(out),
    }
}
