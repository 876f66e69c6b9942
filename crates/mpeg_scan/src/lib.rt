//! The pictures of an MPEG-1 video elementary stream (ISO/IEC 11172-2), read in one pass from the
//! start, in one piece or in chunks.
#![tactic(auto)]

mod codes;
mod collector;
mod faults;
mod films;
mod header_bytes;
pub mod laws;
mod progress;
mod scanner;
mod tallies;
mod units;
mod visitor;

pub use codes::Prefix;
pub use faults::{FilmFault, ScanRefused};
pub use films::{Film, scan};
pub use scanner::{Ending, Scanner};
pub use units::{
    Kind, MAX_FILM_BYTES, MAX_GROUP_PICTURES, MAX_UNIT_HEAD_BYTES, Unit, picture_time,
};
pub use visitor::Found;
pub use vod_base::MAX_FILM_PICTURES;

#[cfg(test)]
mod tests;
