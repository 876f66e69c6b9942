//! What is proved of this crate as a whole: public functions without a body, whose contracts are
//! the laws.

pub use crate::error_lines::law_error_line_determines_error;
pub use crate::exit_statuses::law_exit_status_determines_cause;
