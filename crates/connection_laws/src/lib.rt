//! What a connection sends, as places in its stream, and what its client makes of that: laws on
//! every course of a connection, and the promise from a server to its client's meter, by which a
//! film comes back complete and the buffer runs neither over nor empty.
#![tactic(auto)]

pub mod laws;
mod watch_laws;
