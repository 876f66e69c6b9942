//! Plans of straight segments, the bytes that they send in each slot, and the text of their
//! certificates.
#![tactic(auto)]

mod cert_reader;
mod cert_writer;
mod cursors;
pub mod laws;
mod plans;
mod segments;
mod sums;

pub use cert_reader::{CertRead, CertText, read_cert};
pub use cert_writer::write_cert;
pub use cursors::PlanCursor;
pub use plans::Plan;
pub use sums::{has_bytes, has_slots};

/// A straight part of a plan: `bytes` bytes sent evenly over `slots` slots.
///
/// Slot j of it, from 0, sends floor((j + 1) * bytes / slots) - floor(j * bytes / slots) bytes.
#[derive(Clone, Copy, Debug, PartialEq, Eq)]
pub struct Segment {
    /// Over how many slots.
    pub slots: u64,
    /// How many bytes in all.
    pub bytes: u64,
}

#[cfg(test)]
mod tests;
