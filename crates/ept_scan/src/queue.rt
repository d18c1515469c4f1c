//! The files of the second reading, one after the other.

ghost use Rattle.std.specs.Prelude.{◌≡◌, ◌≢◌, ◌<◌, ◌≤◌, ◌+◌, ◌∷◌, ◌++◌, ℕ, List, Err, IfOk, IfErr, OnOk, OnErr, IsTrue, length, take, drop, false, All, vec_len, vec_capacity};
ghost use Rattle.ept_base.specs.Causes.{HasCauseOf};
ghost use Rattle.ept_base.specs.Files.{Tells};
ghost use Rattle.ept_point.specs.declared.point.Point as at;
ghost use Rattle.ept_scan.specs.Extents.{IsAllowed};
ghost use Rattle.ept_scan.specs.Changes.{IsChange, IfChanged, HasRecord};
ghost use Rattle.ept_scan.specs.Places.{StandsAt, GivenAt};
ghost use Rattle.ept_scan.specs.Reach.{ReadsNoFurther, TakesOfFile};
ghost use Rattle.ept_scan.specs.Queue.{held_of, records_left, RestOf, LiesIn, IsDrawn, AreDrawn, IsQueue, AreNear, AreRewound, GiveNoMore, HasFault, HasChanged, IsFirstChanged};

use crate::draw::draw;
use crate::part::{Cursor, Part};
use crate::read_error::ReadError;
use crate::window::Window;
use ept_base::Source;
use ept_point::Point;

/// Files that are read one after the other.
#[derive(Debug)]
pub(crate) struct Queue<S> {
    /// The files of which records were left.
    pub(crate) parts: Vec<Part<S>>,
    /// The place of the file that is read, or the place after the last file.
    pub(crate) at: usize,
    /// The place in it.
    pub(crate) cursor: Cursor,
    pub(crate) window: Window,
}

// A point that was drawn, and whether it was the last of its file.
#[derive(Debug, Drop)]
struct Drawn {
    point: Point,
    last: bool,
}

impl<S: Source> Queue<S> {
    /// Reads the next record. There has to be one.
    #[inline(always)]
    pub(crate) fn next(&mut self) -> Result<Point, ReadError>
        requires queue { IsQueue S.whole S.left S.given self.old }
        requires more { self.old.at < length self.old.parts.items }
        ensures queue { OnOk result (IsQueue S.whole S.left S.given self.new) }
        ensures held { held_of S.whole self.new ≡ held_of S.whole self.old }
        ensures left { OnOk result (records_left self.new + 1 ≡ records_left self.old) }
        ensures lies { IfOk result (LiesIn (held_of S.whole self.old)) }
        ensures drawn { IfOk result (IsDrawn (held_of S.whole self.old) (records_left self.old)) }
        ensures rest { (points : List at.Point) → RestOf S.whole self.old points
            → IfOk result (λ p. (rest : List at.Point) × (points ≡ p ∷ rest)
            × RestOf S.whole self.new rest) }
        ensures no_change { (points : List at.Point) → RestOf S.whole self.old points
            → (source number : ℕ) → result ≢ Err (ReadError.SourceChanged source number) }
        ensures changed { IfErr result (IfChanged
            (HasChanged (held_of S.whole self.old) (records_left self.old))) }
        ensures enough { result ≢ Err ReadError.Memory }
        ensures near { AreNear S.whole S.left self.old → AreNear S.whole S.left self.new }
        ensures given { GiveNoMore S.whole S.given self.old → GiveNoMore S.whole S.given self.new }
        ensures rewound { AreRewound S.whole S.left self.old → AreRewound S.whole S.left self.new }
        ensures fault { result ≡ Err ReadError.SourceFault → HasFault S.faults self.new }
        ensures faults { HasFault S.faults self.old → HasFault S.faults self.new }
    {
        let drawn = draw_on(&mut self.window, &mut self.parts[self.at], &mut self.cursor)?;
        if !drawn.last {
            return Ok(drawn.point);
        }
        self.at += 1;
        self.cursor = Cursor::before(0);
        Ok(drawn.point)
    }

    /// Appends the next `count` records to a list that has room for them. At least that number of records has to be
    /// left. After a refusal the list is as it was.
    pub(crate) fn next_points(
        &mut self,
        count: usize,
        out: &mut Vec<Point>,
    ) -> Result<(), ReadError>
        requires queue { IsQueue S.whole S.left S.given self.old }
        requires enough { count ≤ records_left self.old }
        requires room { vec_len out.old + count ≤ vec_capacity out.old }
        ensures queue { OnOk result (IsQueue S.whole S.left S.given self.new) }
        ensures held { held_of S.whole self.new ≡ held_of S.whole self.old }
        ensures left { OnOk result (records_left self.new + count ≡ records_left self.old) }
        ensures points { OnOk result
            ((drawn : List at.Point) × (out.new.items ≡ out.old.items ++ drawn)
            × (length drawn ≡ count) × All (LiesIn (held_of S.whole self.old)) drawn) }
        ensures records { OnOk result
            ((drawn : List at.Point) × (out.new.items ≡ out.old.items ++ drawn)
            × AreDrawn (held_of S.whole self.old) (records_left self.old) drawn) }
        ensures rest { (points : List at.Point) → RestOf S.whole self.old points
            → OnOk result ((out.new.items ≡ out.old.items ++ take count points)
            × RestOf S.whole self.new (drop count points)) }
        ensures unchanged { OnErr result (out.new.items ≡ out.old.items) }
        ensures no_change { (points : List at.Point) → RestOf S.whole self.old points
            → (source number : ℕ) → result ≢ Err (ReadError.SourceChanged source number) }
        ensures changed { IfErr result (IfChanged
            (IsFirstChanged (held_of S.whole self.old) (records_left self.old) count)) }
        ensures memory { result ≢ Err ReadError.Memory }
        ensures near { AreNear S.whole S.left self.old → AreNear S.whole S.left self.new }
        ensures given { GiveNoMore S.whole S.given self.old → GiveNoMore S.whole S.given self.new }
        ensures rewound { AreRewound S.whole S.left self.old → AreRewound S.whole S.left self.new }
        ensures fault { result ≡ Err ReadError.SourceFault → HasFault S.faults self.new }
        ensures faults { HasFault S.faults self.old → HasFault S.faults self.new }
    {
        let kept = out.len();
        for _ in 0..count {
            match self.next() {
                Ok(point) => out.push_reserved(point),
                Err(refused) => {
                    out.truncate(kept);
                    return Err(refused);
                }
            }
        }
        Ok(())
    }
}

// Reads the next record of a file. After the last record it rewinds the file.
#[inline(always)]
fn draw_on<S: Source>(
    window: &mut Window,
    part: &mut Part<S>,
    cursor: &mut Cursor,
) -> Result<Drawn, ReadError>
    requires more { cursor.old.number < part.old.points }
    requires at { StandsAt part.old.reading part.old.points (S.whole part.old.source)
        (S.left part.old.source) window.old cursor.old.number cursor.old.header }
    requires given_at { GivenAt (S.given part.old.source) window.old cursor.old.number cursor.old.header }
    ensures allowed { IfOk result (λ d. IsAllowed part.old.reading.limits d.point) }
    ensures origin { IfOk result (λ d. d.point.origin ≡ part.old.reading.origin) }
    ensures number { IfOk result (λ d. d.point.number ≡ cursor.old.number) }
    ensures record { IfOk result (λ d. Tells
        (λ file. HasRecord part.old.reading part.old.points file cursor.old.number d.point)
        (S.whole part.old.source)) }
    ensures changed { IfErr result (IsChange part.old.reading part.old.points cursor.old.number
        (S.whole part.old.source)) }
    ensures enough { result ≢ Err ReadError.Memory }
    ensures next { OnOk result (cursor.new.number ≡ cursor.old.number + 1) }
    ensures last { IfOk result (λ d. IsTrue d.last → (cursor.new.number ≡ part.old.points)
        × (S.left part.new.source ≡ S.whole part.old.source)) }
    ensures on { IfOk result (λ d. d.last ≡ false → (cursor.new.number < part.old.points)
        × StandsAt part.old.reading part.old.points (S.whole part.old.source)
        (S.left part.new.source) window.new cursor.new.number cursor.new.header) }
    ensures given_at { OnOk result (GivenAt (S.given part.new.source) window.new cursor.new.number
        cursor.new.header) }
    ensures far { ReadsNoFurther part.old.reading (S.whole part.old.source) (S.left part.new.source) }
    ensures given { Tells (λ file. TakesOfFile part.old.reading file 0 (S.given part.new.source))
        (S.whole part.old.source) }
    ensures same { S.whole part.new.source ≡ S.whole part.old.source }
    ensures reading { part.new.reading ≡ part.old.reading }
    ensures points { part.new.points ≡ part.old.points }
    ensures cause { HasCauseOf ReadError.SourceFault (S.faults part.old.source)
        (S.faults part.new.source) result }
{
    let point = draw(window, part, cursor)?;
    let last = cursor.number == part.points;
    if last {
        part.source.rewind()?;
    }
    Ok(Drawn { point, last })
}
