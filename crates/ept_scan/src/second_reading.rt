//! The second reading of the inputs, in batches.

ghost use Rattle.std.specs.Prelude.{◌≡◌, ◌≢◌, ◌+◌, ◌-◌, ◌++◌, ℕ, List, Err, Some, None, IfErr, OnOk, OnErr, is_ok, if◌then◌else◌, length, take, drop, All};
ghost use Rattle.ept_point.specs.declared.point.Point as at;
ghost use Rattle.ept_scan.specs.Changes.{IfChanged};
ghost use Rattle.ept_scan.specs.Queue.{LiesIn, AreDrawn, IsFirstChanged};
ghost use Rattle.ept_scan.specs.Reader.{drawn_of, allowed_of, left_of, refusal_of, batch_of, HasFault, files_of, IsRest, ReadsNoFurther, GivesNoMore, IsReader};

use crate::queue::Queue;
use crate::read_error::ReadError;
use ept_base::Source;
use ept_point::Point;

/// The second reading. It reads the records of all inputs again, in the order of the inputs and of their records, a
/// batch at a time. It holds at most one piece of a file. A file is rewound after its last record was read, so few
/// files are open at a time.
#[derive(Debug)]
pub struct Reader<S> {
    pub(crate) queue: Queue<S>,
    pub(crate) drawn: u64,
    pub(crate) left: u64,
    pub(crate) allowed: u64,
    pub(crate) refused: Option<ReadError>,
}

impl<S: Source> Reader<S> {
    /// Sets how many more records may be drawn. Before the first call this number is 0. It takes no memory.
    pub fn allow(&mut self, n: u64)
        requires reader { IsReader S.whole S.left S.given S.faults self.old }
        ensures allowed { allowed_of self.new ≡ n }
        ensures drawn { drawn_of self.new ≡ drawn_of self.old }
        ensures left { left_of self.new ≡ left_of self.old }
        ensures refusal { refusal_of self.new ≡ refusal_of self.old }
        ensures files { files_of S.whole self.new ≡ files_of S.whole self.old }
        ensures rest { (points : List at.Point) → IsRest S.whole self.old points
            → IsRest S.whole self.new points }
        ensures far { ReadsNoFurther S.whole S.left self.old → ReadsNoFurther S.whole S.left self.new }
        ensures given { GivesNoMore S.whole S.given self.old → GivesNoMore S.whole S.given self.new }
        ensures faults { HasFault S.faults self.old → HasFault S.faults self.new }
        ensures reader { IsReader S.whole S.left S.given S.faults self.new }
    {
        self.allowed = n;
    }

    /// How many records were drawn, counted from the first record of the first input.
    pub fn drawn(&self) -> u64
        ensures { result ≡ drawn_of self.now }
    {
        self.drawn
    }

    /// Appends the next records: n of them, or fewer if the allowance or the records end.
    ///
    /// # Errors
    ///
    /// `Memory` leaves the reader and the list as they were. After `SourceFault` and `SourceChanged` the list is as it
    /// was, and the reader returns the same error from then on.
    pub fn next_batch(&mut self, n: usize, out: &mut Vec<Point>) -> Result<(), ReadError>
        requires reader { IsReader S.whole S.left S.given S.faults self.old }

        // Whatever the sources make visible, `batch_of n` records are drawn. The point of each lies within the extent
        // that the first reading found for its file.
        ensures drawn { drawn_of self.new
            ≡ drawn_of self.old + (if is_ok result then batch_of n self.old else 0) }
        ensures allowed { allowed_of self.new
            ≡ allowed_of self.old - (if is_ok result then batch_of n self.old else 0) }
        ensures left { OnOk result (left_of self.new + batch_of n self.old ≡ left_of self.old) }
        ensures left_unchanged { OnErr result (left_of self.new ≡ left_of self.old) }
        ensures points { OnOk result
            ((points : List at.Point) × (out.new.items ≡ out.old.items ++ points)
            × (length points ≡ batch_of n self.old) × All (LiesIn (files_of S.whole self.old)) points) }

        // They are the next records of the files, each with the point that its file has at that record.
        ensures records { OnOk result
            ((points : List at.Point) × (out.new.items ≡ out.old.items ++ points)
            × AreDrawn (files_of S.whole self.old) (left_of self.old) points) }

        // If the sources hold the bytes that were scanned, the batch is the next points.
        ensures rest { (points : List at.Point) → IsRest S.whole self.old points
            → OnOk result ((out.new.items ≡ out.old.items ++ take (batch_of n self.old) points)
            × IsRest S.whole self.new (drop (batch_of n self.old) points)) }
        ensures no_change { (points : List at.Point) → IsRest S.whole self.old points
            → refusal_of self.old ≡ None → (source number : ℕ)
            → result ≢ Err (ReadError.SourceChanged source number) }

        // The causes of a refusal, and what it leaves.
        ensures fault { result ≡ Err ReadError.SourceFault → HasFault S.faults self.new }
        ensures changed { refusal_of self.old ≡ None → IfErr result (IfChanged
            (IsFirstChanged (files_of S.whole self.old) (left_of self.old) (batch_of n self.old))) }
        ensures unchanged { OnErr result (out.new.items ≡ out.old.items) }
        ensures memory { result ≡ Err ReadError.Memory → self.new ≡ self.old }
        ensures refusal { IfErr result (λ e. e ≢ ReadError.Memory → refusal_of self.new ≡ Some e) }
        ensures again { (e : ReadError) → refusal_of self.old ≡ Some e → result ≡ Err e }
        ensures none { OnOk result (refusal_of self.new ≡ None) }

        ensures files { files_of S.whole self.new ≡ files_of S.whole self.old }
        ensures far { ReadsNoFurther S.whole S.left self.old → ReadsNoFurther S.whole S.left self.new }
        ensures given { GivesNoMore S.whole S.given self.old → GivesNoMore S.whole S.given self.new }
        ensures faults { HasFault S.faults self.old → HasFault S.faults self.new }
        ensures reader { IsReader S.whole S.left S.given S.faults self.new }
    {
        if let Some(refused) = self.refused {
            return Err(refused);
        }
        let count = n.min(self.allowed.min(self.left) as usize);
        out.reserve(count)?;
        match self.queue.next_points(count, out) {
            Ok(()) => {
                self.drawn += count as u64;
                self.left -= count as u64;
                self.allowed -= count as u64;
                Ok(())
            }
            Err(refused) => {
                self.refused = Some(refused);
                Err(refused)
            }
        }
    }
}
