//! The real folder, output, sockets and clock that `vodserve` runs on. They expose none of their
//! content to contracts: they promise that a call fails only where their count of faults rose in
//! it, and that each result of a system call means what the manual of Linux says.
#![tactic(auto)]

// Where a loop ends by its body alone, it counts to 2^64 - 1, which it never reaches, and an error
// stands after it: a call must be proved to end.
mod dials;
mod faults;
mod files;
mod gates;
mod links;
mod outcomes;
mod outputs;
mod slots;

pub use dials::DialGate;
pub use files::FileLibrary;
pub use gates::{TcpGate, TcpPort};
pub use links::{TcpLink, TcpSocket};
pub use outputs::OutSink;

#[cfg(test)]
mod tests;
