//! The check of a run.

ghost use Rattle.std.specs.Prelude.{◌≡◌, ◌⊎◌, ◌↔◌, None, Some, Ok, Err};
ghost use Rattle.ept_base.specs.Causes.{Rose};
ghost use Rattle.ept_base.specs.Files.{SameFiles};
ghost use Rattle.ept_base.specs.Moves.{Moves};
ghost use Rattle.ept_check.specs.declared.check_error.CheckError.TheVariants.{Memory};
ghost use Rattle.ept_check.specs.declared.verdict.Verdict.TheVariants.{Fit, Unfit};
ghost use Rattle.ept_command.specs.declared.ended.Failure.TheVariants.{CheckRefused};
ghost use Rattle.ept_run.specs.Answers.{Says};
ghost use Rattle.ept_run.specs.Checks.{EndsCheck, FailsCheck, IsCheckReported};

use crate::answers::{say, write_line};
use crate::lines::{
    DAMAGED_LINE, MEMORY_LINE, NOT_COMPLETE_LINE, STORE_LINE, fit_line, unfit_line,
};
use ept_base::{Sink, Store};
use ept_check::{CheckError, Fault, Verdict, check};
use ept_command::status::{DAMAGED, DEVICE, MEMORY, NOT_COMPLETE};
use ept_command::{Ended, Failure};
use ept_space::Key;
use std::alloc::Global;

/// Checks whether the dataset in a store is the sampling of its own points, and writes the line that says so, or why
/// not.
pub(crate) fn answer_check<T: Store, O: Sink>(alloc: Global, store: &mut T, out: &mut O) -> Ended
    ensures ends { (ends : EndsCheck result.status (T.files store.old) (O.written out.old) (O.written out.new)
        (Rose (T.faults store.old) (T.faults store.new)) (Rose (O.faults out.old) (O.faults out.new)))
        × FailsCheck ends.answer result.failure }
    ensures failure { (result.status ≡ 0) ↔ (result.failure ≡ None) }
    ensures any_moment { Moves T.files T.may_leave T.moment T.image_since SameFiles store.old store.new }
{
    let answer = check(alloc, store);
    report(alloc, out, answer)
}

// Writes the line of what a check returns. If there is no memory to make it, the check ends as one that ran out of it.
fn report<O: Sink>(alloc: Global, out: &mut O, answer: Result<Verdict, CheckError>) -> Ended
    ensures { IsCheckReported answer result.status result.failure (O.written out.old) (O.written out.new) (Rose (O.faults out.old) (O.faults out.new))
        ⊎ IsCheckReported (Err Memory) result.status result.failure (O.written out.old) (O.written out.new) (Rose (O.faults out.old) (O.faults out.new)) }
{
    match answer {
        Ok(verdict) => report_verdict(alloc, out, verdict),
        Err(error) => report_refused(out, error),
    }
}

// Writes the line of a verdict.
fn report_verdict<O: Sink>(alloc: Global, out: &mut O, verdict: Verdict) -> Ended
    ensures { IsCheckReported (Ok verdict) result.status result.failure (O.written out.old) (O.written out.new) (Rose (O.faults out.old) (O.faults out.new))
        ⊎ IsCheckReported (Err Memory) result.status result.failure (O.written out.old) (O.written out.new) (Rose (O.faults out.old) (O.faults out.new)) }
{
    match verdict {
        Verdict::Fit { points, nodes } => report_fit(alloc, out, points, nodes),
        Verdict::Unfit { key, why } => report_unfit(alloc, out, &key, why),
    }
}

// Writes the line of a dataset that is fit.
fn report_fit<O: Sink>(alloc: Global, out: &mut O, points: u64, nodes: u64) -> Ended
    ensures { IsCheckReported (Ok (Fit points nodes)) result.status result.failure (O.written out.old) (O.written out.new) (Rose (O.faults out.old) (O.faults out.new))
        ⊎ IsCheckReported (Err Memory) result.status result.failure (O.written out.old) (O.written out.new) (Rose (O.faults out.old) (O.faults out.new)) }
{
    match fit_line(alloc, points, nodes) {
        Ok(line) => say(out, line),
        Err(_) => report_refused(out, CheckError::Memory),
    }
}

// Writes the line of a dataset that is unfit.
fn report_unfit<O: Sink>(alloc: Global, out: &mut O, key: &Key, why: Fault) -> Ended
    ensures { IsCheckReported (Ok (Unfit key.now why)) result.status result.failure (O.written out.old) (O.written out.new) (Rose (O.faults out.old) (O.faults out.new))
        ⊎ IsCheckReported (Err Memory) result.status result.failure (O.written out.old) (O.written out.new) (Rose (O.faults out.old) (O.faults out.new)) }
{
    match unfit_line(alloc, key, why) {
        Ok(line) => {
            write_line(out, &line);
            Ended {
                status: DAMAGED,
                failure: Some(Failure::Unfit { key: *key, why }),
            }
        }
        Err(_) => report_refused(out, CheckError::Memory),
    }
}

// Writes the line of a check that is refused. It takes no memory.
fn report_refused<O: Sink>(out: &mut O, error: CheckError) -> Ended
    ensures { IsCheckReported (Err error) result.status result.failure (O.written out.old) (O.written out.new) (Rose (O.faults out.old) (O.faults out.new)) }
{
    match error {
        CheckError::NotComplete => refuse_with(out, NOT_COMPLETE, NOT_COMPLETE_LINE, error),
        CheckError::StoreFault => refuse_with(out, DEVICE, STORE_LINE, error),
        CheckError::Damaged { .. } => refuse_with(out, DAMAGED, DAMAGED_LINE, error),
        CheckError::Memory => refuse_with(out, MEMORY, MEMORY_LINE, error),
    }
}

// Ends with this status, and writes this line.
fn refuse_with<O: Sink>(out: &mut O, status: u8, line: &[u8], error: CheckError) -> Ended
    ensures status { result.status ≡ status }
    ensures failure { result.failure ≡ Some (CheckRefused error) }
    ensures says { Says line.now (O.written out.old) (O.written out.new) (Rose (O.faults out.old) (O.faults out.new)) }
{
    write_line(out, line);
    Ended {
        status,
        failure: Some(Failure::CheckRefused(error)),
    }
}
