//! How a command ends, and the line that is written for it.

ghost use Rattle.std.specs.Prelude.{◌≡◌, Some};
ghost use Rattle.ept_base.specs.Causes.{Rose};
ghost use Rattle.ept_run.specs.Answers.{Says, IsReported, IsSaidFor, EndsFor};
ghost use Rattle.ept_run.specs.Lines.{line_of};
ghost use Rattle.ept_command.specs.declared.ended.Failure.TheVariants.{Refused};
ghost use Rattle.ept_command.specs.declared.refusal.Refusal.TheVariants as refusal;

use crate::lines::{MEMORY_LINE, USAGE_LINE, refusal_line};
use ept_base::{Sink, write_full};
use ept_command::status::DEVICE;
use ept_command::{Ended, Failure, Refusal};
use std::alloc::Global;

/// Writes the line that a command ends with, or that of its refusal.
pub(crate) fn finish<O: Sink>(alloc: Global, out: &mut O, line: Result<Vec<u8>, Refusal>) -> Ended
    ensures { EndsFor line result.status result.failure (O.written out.old) (O.written out.new)
        (Rose (O.faults out.old) (O.faults out.new)) }
{
    match line {
        Ok(line) => say(out, line),
        Err(refusal) => refuse(alloc, out, refusal),
    }
}

/// Writes the line of a command that is carried out.
pub(crate) fn say<O: Sink>(out: &mut O, line: Vec<u8>) -> Ended
    ensures { IsSaidFor line result.status result.failure (O.written out.old) (O.written out.new)
        (Rose (O.faults out.old) (O.faults out.new)) }
{
    match write_full(out, &line) {
        Ok(()) => Ended::done(),
        Err(_) => Ended {
            status: DEVICE,
            failure: Some(Failure::LineNotWritten(line)),
        },
    }
}

/// Writes the line of a refusal. If the line can't be written, the run ends in the same way. If there is no
/// memory to make the line, that of [`Refusal::Memory`] is written instead, which takes no memory. The run
/// then ends with that refusal.
pub fn refuse<O: Sink>(alloc: Global, out: &mut O, refusal: Refusal) -> Ended
    ensures { IsReported refusal result.status result.failure (O.written out.old) (O.written out.new)
        (Rose (O.faults out.old) (O.faults out.new)) }
{
    match refusal {
        Refusal::Usage => refuse_usage(out),
        Refusal::Memory => refuse_memory(out),
        other => tell(alloc, out, other),
    }
}

// Writes the line of a refusal that takes memory.
fn tell<O: Sink>(alloc: Global, out: &mut O, refusal: Refusal) -> Ended
    ensures { IsReported refusal result.status result.failure (O.written out.old) (O.written out.new)
        (Rose (O.faults out.old) (O.faults out.new)) }
{
    match refusal_line(alloc, &refusal) {
        Ok(line) => {
            write_line(out, &line);
            Ended::refused(&refusal)
        }
        Err(_) => refuse_memory(out),
    }
}

/// Writes the line of words that are no command. It takes no memory.
#[tactic(auto, unfolding(crate::specs::Lines::refusal_text))]
pub(crate) fn refuse_usage<O: Sink>(out: &mut O) -> Ended
    ensures status { result.status ≡ 2 }
    ensures failure { result.failure ≡ Some (Refused refusal.Usage) }
    ensures says { Says (line_of refusal.Usage) (O.written out.old) (O.written out.new)
        (Rose (O.faults out.old) (O.faults out.new)) }
{
    write_line(out, USAGE_LINE);
    Ended::refused(&Refusal::Usage)
}

/// Writes the line of out of memory. It takes no memory.
#[tactic(auto, unfolding(crate::specs::Lines::refusal_text))]
pub(crate) fn refuse_memory<O: Sink>(out: &mut O) -> Ended
    ensures status { result.status ≡ 9 }
    ensures failure { result.failure ≡ Some (Refused refusal.Memory) }
    ensures says { Says (line_of refusal.Memory) (O.written out.old) (O.written out.new)
        (Rose (O.faults out.old) (O.faults out.new)) }
{
    write_line(out, MEMORY_LINE);
    Ended::refused(&Refusal::Memory)
}

/// Writes a line, as far as the sink takes it.
pub(crate) fn write_line<O: Sink>(out: &mut O, line: &[u8])
    ensures { Says line.now (O.written out.old) (O.written out.new)
        (Rose (O.faults out.old) (O.faults out.new)) }
{
    // A line that can't be written changes no status.
    let _ = write_full(out, line);
}
