//! Tests of `ept_table`, and of `ept_slots` below it. Both are proved once for them.
#![tactic(auto)]

#[cfg(test)]
mod load;
#[cfg(test)]
mod session;
#[cfg(test)]
mod sessions;
#[cfg(test)]
mod slots;
#[cfg(test)]
mod trade;
