//! Sends a track's bytes by a plan: in each slot what the plan has through that slot, less what was
//! sent before, in the track's frames and reports (RFC 2326 section 10.12). It can stop at the end
//! of a frame, so that a reply goes out between frames, and it can be halted there for good.
#![tactic(auto)]

pub mod laws;
mod link_writes;
mod pacers;

pub use pacers::{Pacer, Stepped};

#[cfg(test)]
mod tests;
