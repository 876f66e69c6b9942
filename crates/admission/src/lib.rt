//! The book that admits plays on a shared link: a journal of entries, each with the answer that the
//! admission machine gives in the state after the entries before it.
#![tactic(auto)]

mod book;
mod entries;
pub mod laws;
mod operations;

pub use book::{Book, LATEST_SLOT, MAX_ENTRIES};
pub use entries::{Answer, Command, Entry, Full, Noted, PlayFull};

#[cfg(test)]
mod tests;
