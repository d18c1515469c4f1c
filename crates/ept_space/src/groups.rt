//! The group of a point: which points come before others whatever their places.

ghost use Rattle.std.specs.Prelude.{◌≡◌, ◌≤◌, ◌↔◌, false};
ghost use Rattle.ept_space.specs.Group.{is_withheld, comes_later, group_of, HaveNoGroups};

use crate::cube::Rules;

// The class flag of a withheld point, as the number of its bit.
const WITHHELD: u8 = 2;

/// The group of a point of that class and those class flags, 0 to 3. Points of a lower group come first. It is 2 for a
/// withheld point if such points come last. It is 1 more if some classes come first and this class is not one of them.
#[tactic(auto, unfolding(crate::specs::Group::group_of))]
pub fn group(rules: &Rules, class: u8, flags: u8) -> u8
    ensures group { result ≡ group_of rules.now class flags }
    ensures small { result ≤ 3 }
{
    let is_last = rules.withheld_last && is_withheld(flags);
    2 * u8::from(is_last) + u8::from(comes_later(rules, class))
}

/// Whether points may be in different groups: some class comes first, or withheld points come last.
pub fn has_groups(rules: &Rules) -> bool
    ensures { result ≡ false ↔ HaveNoGroups rules.now }
{
    rules.withheld_last || !rules.first.is_empty()
}

// Whether the flag of a withheld point is set.
fn is_withheld(flags: u8) -> bool
    ensures { result ≡ is_withheld flags }
{
    flags >> WITHHELD & 1 == 1
}

// Whether some classes come first, and this class is not one of them.
fn comes_later(rules: &Rules, class: u8) -> bool
    ensures { result ≡ comes_later rules.now class }
{
    !rules.first.is_empty() && !rules.first.contains(class)
}
