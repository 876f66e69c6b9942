//! The book of a shared link for all threads: each takes its lock, and gets its answer from one
//! legal history.
#![tactic(auto)]

mod answers;
pub mod laws;
mod ledger;
mod seat;
mod station;

pub use answers::{Booking, Looked, Offered, PlayRefused};
pub use seat::Seat;
pub use station::Station;

#[cfg(test)]
mod tests;
