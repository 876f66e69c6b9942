//! The films of a server as streams (RFC 2326 and 3550): which film a URL names, what SETUP settles
//! for its client, and the numbers that packets and reports carry.
#![tactic(auto)]

mod films;
mod settings;
mod setups;
mod stream_numbers;

pub use films::{Asked, asked_film, length_ms, milliseconds_at};
pub use settings::Settings;
pub use setups::{Setup, buffer_of, channels_of, delay_of, read_setup};
pub use stream_numbers::{
    Counts, NOTHING_SENT, StreamSource, counts_after, identity_of, source_of, timestamp_at,
};

#[cfg(test)]
mod tests;
