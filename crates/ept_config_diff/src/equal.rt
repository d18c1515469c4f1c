//! Whether parts of two configurations are the same.

ghost use Rattle.std.specs.Prelude.{◌≡◌, ◌↔◌, IsTrue};
ghost use Rattle.ept_config_diff.specs.Differing.{ArePrefix};
ghost use Rattle.ept_config_diff.specs.Alike.{AreAlikeTo};

use ept_class::ClassSet;
use ept_config::{EXPECT_WIDTH, Input, Srs};
use ept_point::Text;
use ept_space::Bounds;

/// Whether two spatial references are the same.
pub(crate) fn is_same_srs(a: &Srs, b: &Srs) -> bool
    ensures { IsTrue result ↔ (b.now ≡ a.now) }
{
    let authority = is_same_text(&a.authority, &b.authority);
    let horizontal = is_same_text(&a.horizontal, &b.horizontal);
    let vertical = is_same_text(&a.vertical, &b.vertical);
    let wkt = is_same_text(&a.wkt, &b.wkt);
    authority && horizontal && vertical && wkt
}

fn is_same_text(a: &Option<Text>, b: &Option<Text>) -> bool
    ensures { IsTrue result ↔ (b.now ≡ a.now) }
{
    match (a, b) {
        (None, None) => true,
        (Some(a), Some(b)) => is_same(a, b),
        _ => false,
    }
}

fn is_same(a: &Text, b: &Text) -> bool
    ensures { IsTrue result ↔ (b.now ≡ a.now) }
{
    a.as_str() == b.as_str()
}

fn is_same_expect(a: &Option<[u8; EXPECT_WIDTH]>, b: &Option<[u8; EXPECT_WIDTH]>) -> bool
    ensures { IsTrue result ↔ (b.now ≡ a.now) }
{
    match (a, b) {
        (None, None) => true,
        (Some(a), Some(b)) => a == b,
        _ => false,
    }
}

/// Whether two offsets on x, y and z are the same.
pub(crate) fn is_same_offset(a: &[i64; 3], b: &[i64; 3]) -> bool
    ensures { IsTrue result ↔ (b.now ≡ a.now) }
{
    b == a
}

fn is_same_corner(a: &[i32; 3], b: &[i32; 3]) -> bool
    ensures { IsTrue result ↔ (b.now ≡ a.now) }
{
    b == a
}

/// Whether two sets of classes are the same.
pub(crate) fn is_same_set(a: &ClassSet, b: &ClassSet) -> bool
    ensures { IsTrue result ↔ (b.now ≡ a.now) }
{
    b.bytes == a.bytes
}

/// Whether two bounds are the same.
pub(crate) fn is_same_bounds(a: &Bounds, b: &Bounds) -> bool
    ensures { IsTrue result ↔ (b.now ≡ a.now) }
{
    let min = is_same_corner(&a.min, &b.min);
    let max = is_same_corner(&a.max, &b.max);
    min && max
}

fn is_same_input(a: &Input, b: &Input) -> bool
    ensures { IsTrue result ↔ (b.now ≡ a.now) }
{
    let path = is_same(&a.path, &b.path);
    let scale = a.scale == b.scale;
    let shift = is_same_offset(&a.shift, &b.shift);
    let expect = is_same_expect(&a.expect, &b.expect);
    path & scale & shift & expect
}

/// How many inputs at the start of both lists are the same.
pub(crate) fn alike(kept: &[Input], given: &[Input]) -> usize
    ensures { AreAlikeTo result kept.now given.now }
{
    let mut at = 0;
    while at < kept.len() && at < given.len() {
        if !is_same_input(&kept[at], &given[at]) {
            return at;
        }
        at += 1;
    }
    at
}

/// Whether the kept inputs are the first of the given ones.
pub(crate) fn is_prefix(kept: &[Input], given: &[Input]) -> bool
    ensures { IsTrue result ↔ ArePrefix kept.now given.now }
{
    alike(kept, given) == kept.len()
}
