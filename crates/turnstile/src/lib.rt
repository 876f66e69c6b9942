//! A ticket lock: one caller at a time holds the value that all share, in the order in which they
//! drew their tickets.
#![tactic(auto)]

mod acquire;
mod kept_value;
mod pass;
mod split_rules;
mod steps;
mod table;
mod turn;
mod turnstile;
mod view;
mod wakers;

pub use kept_value::Kept;
pub use pass::Pass;
pub use turn::Turn;
pub use turnstile::Turnstile;
pub use view::{Joined, OwnEntry, PassStage, Terms, View};

#[cfg(test)]
mod tests;
