//! The base of `vodserve`: I/O as traits with a written meaning, objects in memory that satisfy it,
//! and the numbers, names and lines by which every input is read.
#![tactic(auto)]

mod appends;
mod blanks;
mod buffers;
mod errors;
mod fault_injection;
mod files;
mod gates;
pub mod laws;
mod limits;
mod lines;
mod links;
mod memory_gates;
mod memory_libraries;
mod memory_links;
mod memory_sinks;
mod names;
mod numbers;
mod output;
mod part_links;
mod reads;
mod splits;

pub use appends::{push, push_field};
pub use blanks::{is_blank, trim};
pub use buffers::move_to_front;
pub use errors::{GateFault, LinkFault, NoMemory, SinkFault, StoreFault};
pub use files::Library;
pub use gates::{Gate, Opening};
pub use limits::{MAX_BYTES, MAX_DELAY, MAX_FILM_PICTURES, MAX_SLOTS, number_within};
pub use lines::{Line, line_end};
pub use links::{Heard, LATEST_SLOT, Link, MAX_EVENTS, MAX_READ_BYTES};
pub use memory_gates::{MemoryGate, MemoryPart};
pub use memory_libraries::MemoryLibrary;
pub use memory_links::{Event, MemoryLink};
pub use memory_sinks::MemorySink;
pub use names::good_name;
pub use numbers::{NumberFault, are_digits, is_decimal, push_number, read_number};
pub use output::Sink;
pub use splits::split_at_first;

#[cfg(test)]
mod tests;
