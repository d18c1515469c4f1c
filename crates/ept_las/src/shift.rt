//! How raw coordinates become stored ones.

ghost use Rattle.std.specs.Prelude.{◌≤◌, ◌≤ℤ◌, ◌^◌, pos, slice_index_or, unsigned_abs};

/// How raw coordinates become stored ones. They are multiplied by `factor`, which is from 1 to 10^9. Then `by` is
/// added, in stored units on each axis, with an absolute value of at most 10^15.
#[derive(Clone, Copy, Debug, PartialEq, Eq)]
pub struct Shift {
    pub factor: i64,
    pub by: [i64; 3],
    ghost least_factor: { pos 1 ≤ℤ factor },
    ghost greatest_factor: { factor ≤ℤ pos (10 ^ 9) },
    ghost x_bound: { unsigned_abs (slice_index_or by 0 (pos 0)) ≤ 10 ^ 15 },
    ghost y_bound: { unsigned_abs (slice_index_or by 1 (pos 0)) ≤ 10 ^ 15 },
    ghost z_bound: { unsigned_abs (slice_index_or by 2 (pos 0)) ≤ 10 ^ 15 },
}

impl Shift {
    ghost use Rattle.ept_las.specs.Shifts.{IsIdentity};

    /// The shift that stores raw coordinates unchanged.
    pub fn identity() -> Shift
        ensures { IsIdentity result }
    {
        Shift {
            factor: 1,
            by: [0; 3],
        }
    }
}
