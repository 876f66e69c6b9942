//! The calendar of a shared link: how many bytes are booked in each slot of a ring of 1,048,576,
//! and the first slot where a plan would pass the link's capacity, which may change over the slots.
#![tactic(auto)]

mod booking;
mod calendar;
pub mod laws;
mod profiles;
mod ring;

pub use calendar::{Calendar, Overflow};
pub use profiles::{CapStep, MAX_CAPACITY, MAX_STEPS, Profile};
pub use ring::RING_SLOTS;

#[cfg(test)]
mod tests;
