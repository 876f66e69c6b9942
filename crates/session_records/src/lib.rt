//! What a session notes for its connection's report: the station's answers, the plays and the
//! offers, with the room that is reserved for them.
#![tactic(auto)]

mod notes;
mod records;

pub use notes::{Notes, OfferNote, PlayNote, Receipt};
pub use records::{RESERVED_LOOKS, Records};

#[cfg(test)]
mod tests;
