//! The settings of a server.

/// What a server is set to for all its sessions.
#[derive(Clone, Copy, Debug, PartialEq, Eq)]
pub struct Settings {
    /// The length of a slot in 1/360,000 second, 360 to 360,000.
    pub slot_units: u32,
    /// The bytes of a client's buffer where its SETUP names none, 1 to 2^42.
    pub buffer: u64,
    /// The slots that pass before the first picture is used where a SETUP names none, 0 to 10,000.
    pub startup: u64,
}
