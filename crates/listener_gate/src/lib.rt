//! A gate that takes connections from a listening socket: where it listens, how many connections
//! each of its parts gives, and which failures it waits out.
#![tactic(auto)]

mod codes;
mod gates;
mod histories;
pub mod laws;
mod listeners;
mod memory_listeners;

pub use codes::accept_error_of;
pub use gates::ListenerGate;
pub use histories::{GateHistory, GateNote, PartHistory, PartNote};
pub use listeners::{AcceptError, Listener, ListenerDoing, ListenerFault};
pub use memory_listeners::MemoryListener;

#[cfg(test)]
mod tests;
