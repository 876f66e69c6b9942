//! The video of MPEG-1 system streams (ISO/IEC 11172-1): packs and packets are taken off chunk by
//! chunk, without memory.
#![tactic(auto)]

mod faults;
mod headers;
pub mod laws;
mod parser_states;
mod stream_parser;
mod unwrapper;

pub use faults::SystemFault;
pub use stream_parser::Fed;
pub use unwrapper::Unwrapper;

#[cfg(test)]
mod tests;
