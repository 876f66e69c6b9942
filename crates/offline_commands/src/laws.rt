//! What is proved of the entire crate: public functions without a body, whose contracts are
//! the laws.

pub use crate::days::law_playable_script_is_not_refused;
pub use crate::scans::law_scan_is_unique;
pub use crate::text_laws::{
    law_help_shows_each_command_and_key, law_scan_text_determines_units,
    law_verdict_text_determines_fault,
};
