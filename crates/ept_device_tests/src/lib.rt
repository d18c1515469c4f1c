//! Tests of the devices: those in memory, those that never fail, those of the machine, and the gate at which workers
//! meet.
#![tactic(auto)]

#[cfg(test)]
mod disk;
#[cfg(test)]
mod flushes;
#[cfg(test)]
mod folder;
#[cfg(test)]
mod meeting;
#[cfg(test)]
mod memory;
#[cfg(test)]
mod memory_store;
#[cfg(test)]
mod progress;
#[cfg(test)]
mod reads;
#[cfg(test)]
mod rooms;
#[cfg(test)]
mod sources;
#[cfg(test)]
mod stores;
#[cfg(test)]
mod streams;
#[cfg(test)]
mod sure;
