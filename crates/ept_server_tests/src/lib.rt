//! Tests of the servers over the loopback, and of the lines that they log.
#![tactic(auto)]

#[cfg(test)]
mod folder;
#[cfg(test)]
mod listening;
#[cfg(test)]
mod logs;
#[cfg(test)]
mod peer;
#[cfg(test)]
mod terminal;
