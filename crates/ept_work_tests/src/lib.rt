//! Tests of `ept_work`, which is proved once for them.
#![tactic(auto)]

mod hands;
#[cfg(test)]
mod plans;
#[cfg(test)]
mod steps;
#[cfg(test)]
mod turns;
#[cfg(test)]
mod visits;
#[cfg(test)]
mod workers;

pub use hands::{Doing, Hand, Pair, Past};
