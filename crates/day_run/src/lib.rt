//! A link's day on one thread: scripts of plays, pauses, resumes, looks, offers and slots, run
//! against one calendar.
#![tactic(auto)]

mod booked_sums;
mod client_set;
mod clients;
mod fairs;
pub mod laws;
mod machine;
mod media;
mod media_sources;
mod null_link;
mod play_start;
mod script_run;
mod trace_media;

pub use fairs::fair;
pub use media::Source;
pub use script_run::{Day, run_script};

#[cfg(test)]
mod tests;
