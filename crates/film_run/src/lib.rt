//! What of a film a play sends, by which plan, and what a pause leaves of it.
//!
//! A run is a range of a film's units that is sent in one or more plays, one after the other. Each
//! play sends what was not sent yet, by the optimal smoothing plan (Salehi, Zhang, Kurose and
//! Towsley, IEEE/ACM Transactions on Networking 6(4), 1998) for what is still to be played. A
//! film's units are its pictures; a trace is a list of sizes, one a picture.
#![tactic(auto)]

pub mod laws;
mod pauses;
mod plans;
mod runs;
mod seeks;
mod units;

pub use pauses::run_after;
pub use plans::{Playback, plan_of};
pub use runs::{Run, full_run};
pub use seeks::run_between;
pub use units::{Trace, Units};

#[cfg(test)]
mod tests;
