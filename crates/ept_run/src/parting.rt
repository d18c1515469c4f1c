//! The part of a run.

ghost use Rattle.std.specs.Prelude.{◌≡◌, ◌≢◌, ◌⊎◌, ◌↔◌, ◌≤◌, ◌+◌, ◌^◌, None, Some, Ok, Err, IfErr};
ghost use Rattle.ept_base.specs.Causes.{Rose};
ghost use Rattle.ept_base.specs.Files.{Files};
ghost use Rattle.ept_base.specs.Moves.{Moves, IsSettled};
ghost use Rattle.ept_config_text.specs.declared.config_error.ConfigError.{ConfigError};
ghost use Rattle.ept_save.specs.Sound.{IsSound};
ghost use Rattle.ept_part.specs.Files.{ChangesPart, IsPartSound};
ghost use Rattle.ept_command.specs.declared.refusal.Refusal.TheVariants as refusal;
ghost use Rattle.ept_command.specs.declared.refusal.PartRefusal.TheVariants.{AsBuild, Shallow};
ghost use Rattle.ept_run.specs.Parts.{ComesToPart, IsPartReported, EndsPart, FailsAsPart};

use crate::answers::{refuse, refuse_memory, say, write_line};
use crate::lines::{SHALLOW_LINE, part_line};
use crate::refusal::part_refusal_of;
use ept_base::{Shelf, Sink, Store};
use ept_command::status::SHALLOW;
use ept_command::{Ended, Failure, PartRefusal, read_configuration};
use ept_part::{PartDone, part, part_law};
use ept_save::sound_steps_law;
use std::alloc::Global;

/// Makes the part of these octants of the build of the configuration of this path, and writes the line that says so, or
/// why not.
pub(crate) fn answer_part<H: Shelf, T: Store, O: Sink>(
    alloc: Global,
    path: &str,
    octants: u8,
    shelf: &mut H,
    store: &mut T,
    out: &mut O,
) -> Ended
    requires some { octants ≢ 0 }
    ensures ends { (ends : EndsPart path.now octants result.status (H.files shelf.old) (T.files store.new)
        (IsSettled (T.files store.new) (T.may_leave store.new)) (store.new ≡ store.old)
        (O.written out.old) (O.written out.new) (Rose (H.faults shelf.old) (H.faults shelf.new))
        (Rose (T.faults store.old) (T.faults store.new)) (Rose (O.faults out.old) (O.faults out.new)))
        × FailsAsPart ends.outcome result.failure }
    ensures failure { (result.status ≡ 0) ↔ (result.failure ≡ None) }
    ensures not_usage { result.status ≢ 2 }
    ensures fault { result.status ≡ 7 → Rose (H.faults shelf.old) (H.faults shelf.new)
        ⊎ Rose (T.faults store.old) (T.faults store.new) ⊎ Rose (O.faults out.old) (O.faults out.new) }
    ensures folder { Moves T.files T.may_leave T.moment T.image_since (ChangesPart octants) store.old store.new }
    ensures own { (all start : Files) → H.files shelf.old ≡ Some all → T.files store.old ≡ Some start
        → IsSettled (T.files store.old) (T.may_leave store.old) → IsPartSound all start octants
        → Moves T.files T.may_leave T.moment T.image_since (λ (a b : Files). IsPartSound all b octants) store.old store.new }
    ensures sound { (all start : Files) → T.files store.old ≡ Some start → IsSettled (T.files store.old) (T.may_leave store.old)
        → IsSound all start
        → Moves T.files T.may_leave T.moment T.image_since (λ (a b : Files). IsSound all b) store.old store.new }
    ensures given { result.status ≡ 3 → H.given shelf.new ≤ H.given shelf.old + (2 ^ 24 + 1) }
    ensures files { H.files shelf.new ≡ H.files shelf.old }
{
    part_law();
    sound_steps_law();
    let outcome = make_part(alloc, path, octants, shelf, store);
    report(alloc, out, outcome)
}

// Makes the part of these octants of the build of the configuration of this path.
fn make_part<H: Shelf, T: Store>(
    alloc: Global,
    path: &str,
    octants: u8,
    shelf: &mut H,
    store: &mut T,
) -> Result<PartDone, PartRefusal>
    requires some { octants ≢ 0 }
    ensures comes_to { ComesToPart path.now octants result (H.files shelf.old) (T.files store.new)
        (IsSettled (T.files store.new) (T.may_leave store.new)) (store.new ≡ store.old)
        (Rose (H.faults shelf.old) (H.faults shelf.new)) (Rose (T.faults store.old) (T.faults store.new)) }
    ensures named { IfErr result (λ r. (r ≢ AsBuild refusal.Usage) × (r ≢ AsBuild refusal.SpillFault)) }
    ensures folder { Moves T.files T.may_leave T.moment T.image_since (ChangesPart octants) store.old store.new }
    ensures own { (all start : Files) → H.files shelf.old ≡ Some all → T.files store.old ≡ Some start
        → IsSettled (T.files store.old) (T.may_leave store.old) → IsPartSound all start octants
        → Moves T.files T.may_leave T.moment T.image_since (λ (a b : Files). IsPartSound all b octants) store.old store.new }
    ensures given { (error : ConfigError) → result ≡ Err (AsBuild (refusal.BadConfiguration error))
        → H.given shelf.new ≤ H.given shelf.old + (2 ^ 24 + 1) }
    ensures files { H.files shelf.new ≡ H.files shelf.old }
{
    part_law();
    let config = read_configuration(alloc, shelf, path)?;
    match part(alloc, &config, octants, shelf, store) {
        Ok(done) => Ok(done),
        Err(error) => Err(part_refusal_of(error)),
    }
}

// Writes the line of what a part comes to. If there is no memory to make it, the part ends as one that ran out of it.
fn report<O: Sink>(alloc: Global, out: &mut O, outcome: Result<PartDone, PartRefusal>) -> Ended
    ensures { IsPartReported outcome result.status result.failure (O.written out.old) (O.written out.new) (Rose (O.faults out.old) (O.faults out.new))
        ⊎ IsPartReported (Err (AsBuild refusal.Memory)) result.status result.failure (O.written out.old) (O.written out.new) (Rose (O.faults out.old) (O.faults out.new)) }
{
    match outcome {
        Ok(done) => report_made(alloc, out, &done),
        Err(PartRefusal::AsBuild(refusal)) => refuse(alloc, out, refusal),
        Err(PartRefusal::Shallow) => refuse_shallow(out),
    }
}

// Writes the line of a part that is made.
fn report_made<O: Sink>(alloc: Global, out: &mut O, done: &PartDone) -> Ended
    ensures { IsPartReported (Ok done.now) result.status result.failure (O.written out.old) (O.written out.new) (Rose (O.faults out.old) (O.faults out.new))
        ⊎ IsPartReported (Err (AsBuild refusal.Memory)) result.status result.failure (O.written out.old) (O.written out.new) (Rose (O.faults out.old) (O.faults out.new)) }
{
    match part_line(alloc, done) {
        Ok(line) => say(out, line),
        Err(_) => refuse_memory(out),
    }
}

/// Writes the line of a part, or a merge, of a root without octants. It takes no memory.
pub(crate) fn refuse_shallow<O: Sink>(out: &mut O) -> Ended
    ensures { IsPartReported (Err Shallow) result.status result.failure (O.written out.old) (O.written out.new) (Rose (O.faults out.old) (O.faults out.new)) }
{
    write_line(out, SHALLOW_LINE);
    Ended {
        status: SHALLOW,
        failure: Some(Failure::Shallow),
    }
}
