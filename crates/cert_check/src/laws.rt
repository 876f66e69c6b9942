//! What is proved of all of this crate: public functions without a body, whose contracts are
//! the laws.

pub use crate::checker::{law_checked_plan_is_optimal, law_faults_are_tried_in_order};
