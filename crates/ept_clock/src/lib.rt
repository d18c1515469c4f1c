//! Which of the resident nodes is to be evicted next: a hand that goes around their slots.
#![tactic(auto)]

mod clock;

pub use clock::Clock;
