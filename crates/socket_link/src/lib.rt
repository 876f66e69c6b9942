//! A connection over a socket. What the link reports is proved to follow from the calls of its
//! socket, which is a trait here: the machine's socket stands elsewhere, and is one system call for
//! each method.
#![tactic(auto)]

mod buffers;
mod clocks;
mod closes;
mod histories;
pub mod laws;
mod limits;
mod links;
mod memory_sockets;
mod sockets;

pub use limits::{FIRST_SEND_LIMIT, IDLE_LIMIT, LINGER, STUCK_LIMIT};
pub use links::{LinkBuffer, SocketLink};
pub use memory_sockets::{MemorySocket, ScriptedRead, ScriptedWrite};
pub use sockets::{Purpose, ReadOutcome, Socket, SocketFault, WriteOutcome};

#[cfg(test)]
mod tests;
