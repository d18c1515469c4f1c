//! What points do to the node that they are given to: which of them lose and which octants are open afterwards. Then
//! which points stay and which go down.

ghost use Rattle.std.specs.Prelude.{◌≡◌, ◌≤◌, ◌<◌, ℕ, ◌==◌, ◌||◌, not, nat_lt, true, false, filter, count_by, length, IfOk, slice_index_or};
ghost use Rattle.ept_space.specs.VoxelKey.{child};
ghost use Rattle.ept_space.specs.OctreeCube.{InCube, InBox};
ghost use Rattle.ept_sample.specs.Place.{place, AllInCube, AllInBox};
ghost use Rattle.ept_sample.specs.Arrivals.{loses, octant, has_too_many, goes};

use crate::place::place_of;
use crate::rank::beats;
use ept_point::{Memory, Point};
use ept_space::{Key, Rules, child, octant};
use std::alloc::Global;

/// How many octants a box has.
pub const OCTANTS: usize = 8;

/// Whether a point loses among the points given to a node of that depth: one of them beats it.
#[tactic(auto, unfolding(crate::specs::Arrivals::loses))]
pub fn loses(rules: &Rules, depth: u8, given: &[Point], point: &Point) -> bool
    requires low { depth ≤ rules.now.cube.depth }
    requires given_inside { AllInCube rules.now.cube given.now }
    requires inside { InCube rules.now.cube (place point.now) }
    ensures beaten { result ≡ loses rules.now depth given.now point.now }
{
    given.iter().any(|other| beats(rules, depth, other, point))
}

/// The points given to a node of that depth that lose, in the order of the given points.
pub fn losing(
    alloc: Global,
    rules: &Rules,
    depth: u8,
    given: &[Point],
) -> Result<Vec<Point>, Memory>
    requires low { depth ≤ rules.now.cube.depth }
    requires inside { AllInCube rules.now.cube given.now }
    ensures losers { IfOk result (λ v. v.items ≡ filter (loses rules.now depth given.now) given.now) }
{
    let mut losers = Vec::new(alloc);
    for point in given {
        if loses(rules, depth, given, point) {
            losers.push(*point)?;
        }
    }
    Ok(losers)
}

/// The points that lie in one octant of the key's box, in the order of the given points.
pub fn in_octant(
    alloc: Global,
    rules: &Rules,
    key: &Key,
    points: &[Point],
    which: u8,
) -> Result<Vec<Point>, Memory>
    requires has_children { key.now.depth < rules.now.cube.depth }
    requires inside { AllInBox rules.now.cube key.now points.now }
    ensures found { IfOk result (λ v. v.items ≡ filter (λ p. octant rules.now key.now.depth p == which) points.now) }
{
    let mut found = Vec::new(alloc);
    for point in points {
        if octant(&rules.cube, key, place_of(point)) == which {
            found.push(*point)?;
        }
    }
    Ok(found)
}

/// How many of the points lie in one octant of the key's box.
pub fn count_in_octant(rules: &Rules, key: &Key, points: &[Point], which: u8) -> usize
    requires has_children { key.now.depth < rules.now.cube.depth }
    requires inside { AllInBox rules.now.cube key.now points.now }
    ensures count { result ≡ count_by (λ p. octant rules.now key.now.depth p == which) points.now }
{
    points
        .iter()
        .filter(|point| octant(&rules.cube, key, place_of(point)) == which)
        .count()
}

/// Whether the key is above the greatest depth, so that points may go down from its node.
pub fn has_children(rules: &Rules, key: &Key) -> bool
    ensures above { result ≡ nat_lt key.now.depth rules.now.cube.depth }
{
    key.depth < rules.cube.depth
}

/// The key of an octant of a key above the greatest depth.
pub fn child_of(rules: &Rules, key: &Key, which: u8) -> Key
    requires has_children { key.now.depth < rules.now.cube.depth }
    requires one_of_eight { which < 8 }
    ensures below { result ≡ child key.now which }
{
    prove!(rules.cube.depth <= Key::MAX_DEPTH);
    child(key, which)
}

/// Whether `count` losers of an octant are more than the threshold, and so go down.
pub fn is_too_many(rules: &Rules, count: usize) -> bool
    ensures more { result ≡ nat_lt rules.now.threshold count }
{
    count as u64 > rules.threshold
}

// Whether an octant is open once these losers have arrived.
fn opens(rules: &Rules, key: &Key, was_open: bool, losers: &[Point], which: u8) -> bool
    requires has_children { key.now.depth < rules.now.cube.depth }
    requires inside { AllInBox rules.now.cube key.now losers.now }
    ensures opened { result ≡ (was_open || has_too_many rules.now key.now.depth losers.now which) }
{
    was_open || is_too_many(rules, count_in_octant(rules, key, losers, which))
}

/// Which octants are open once points have arrived of which these lose. Open octants stay open. Above the greatest
/// depth, octants that have too many of the losers open.
pub fn opening(rules: &Rules, key: &Key, was: &[bool; OCTANTS], losers: &[Point]) -> [bool; OCTANTS]
    requires inside { AllInBox rules.now.cube key.now losers.now }
    ensures opened { (o : ℕ) → o < 8 → slice_index_or result o false
        ≡ (slice_index_or was.now o false || has_too_many rules.now key.now.depth losers.now o) }
    ensures eight { length result ≡ 8 }
{
    let mut opened = *was;
    if has_children(rules, key) {
        for which in 0..OCTANTS {
            opened[which] = opens(rules, key, was[which], losers, which as u8);
        }
    }
    opened
}

/// Whether a point leaves the node for the child of its octant: it loses among the given points, and
/// its octant is open. At the greatest depth no octant is open.
pub fn leaves(
    rules: &Rules,
    key: &Key,
    given: &[Point],
    opened: &[bool; OCTANTS],
    point: &Point,
) -> bool
    requires low { key.now.depth ≤ rules.now.cube.depth }
    requires given_inside { AllInCube rules.now.cube given.now }
    requires inside { InBox rules.now.cube key.now (place point.now) }
    requires in_cube { InCube rules.now.cube (place point.now) }
    requires bottom { (o : ℕ) → o < 8 → slice_index_or opened.now o false ≡ true → key.now.depth < rules.now.cube.depth }
    ensures goes { result ≡ goes rules.now key.now.depth given.now opened.now point.now }
{
    if !has_children(rules, key) {
        return false;
    }
    let which = octant(&rules.cube, key, place_of(point));
    opened[which as usize] && loses(rules, key.depth, given, point)
}

/// The given points that stay in the node, in the order in which they are given. All stay except those that leave it
/// for the child of an open octant. At the greatest depth no octant is open.
pub fn staying(
    alloc: Global,
    rules: &Rules,
    key: &Key,
    given: &[Point],
    opened: &[bool; OCTANTS],
) -> Result<Vec<Point>, Memory>
    requires low { key.now.depth ≤ rules.now.cube.depth }
    requires inside { AllInBox rules.now.cube key.now given.now }
    requires in_cube { AllInCube rules.now.cube given.now }
    requires bottom { (o : ℕ) → o < 8 → slice_index_or opened.now o false ≡ true → key.now.depth < rules.now.cube.depth }
    ensures kept { IfOk result (λ v. v.items ≡ filter (λ p. not (goes rules.now key.now.depth given.now opened.now p)) given.now) }
{
    let mut points = Vec::new(alloc);
    for point in given {
        if !leaves(rules, key, given, opened, point) {
            points.push(*point)?;
        }
    }
    Ok(points)
}
