//! The planner: the taut line between two curves, which is the plan that sends the fewest bytes
//! above any rate (Salehi, Zhang, Kurose and Towsley 1998). It is found with the funnel of Lee and
//! Preparata (1984).
#![tactic(auto)]

mod chains;
pub mod laws;
mod paths;
mod plans;
mod points;
mod queues;

pub use plans::plan;

#[cfg(test)]
mod tests;
