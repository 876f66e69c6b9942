//! How a program starts and ends: its arguments, the seed that it draws, and its exit status.
#![tactic(auto)]

mod arguments;
mod exits;
mod seeds;

pub use arguments::program_args;
pub use exits::exit_code;
pub use seeds::{ByteSource, NoRandomBytes, SystemBytes, draw_seed};

#[cfg(test)]
mod tests;
