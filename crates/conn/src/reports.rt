//! What is left of a connection, and of a worker's part of a gate.

use session::{OfferNote, PlayNote, Receipt};

/// How a connection ended.
#[derive(Clone, Copy, Debug, PartialEq, Eq)]
pub enum ConnEnd {
    /// The peer ended.
    Ended,
    /// The 200 of a TEARDOWN was sent.
    TornDown,
    /// The link failed.
    LinkFault,
    /// More than 131,072 bytes would have waited.
    TooMuchInput,
    /// A request's first 16,384 bytes have no empty line.
    HeadTooLong,
    /// A request's body is longer than 65,536 bytes.
    BodyTooLong,
    /// As many events arrived as a connection may have, 2^40.
    TurnsSpent,
    /// There was no memory for the connection. No event arrived and nothing was sent.
    NoMemory,
}

/// What is left of a connection.
#[derive(Debug, Drop)]
pub struct ConnReport {
    /// The number of the worker that served it.
    pub worker: u32,
    /// Its words: two of the session's id, the SSRC, the first sequence number (the low 16 bits),
    /// and the timestamp at which the first run begins.
    pub words: [u32; 5],
    /// How it ended.
    pub end: ConnEnd,
    /// The station's answers, in order.
    pub receipts: Vec<Receipt>,
    /// The plays that were admitted, in order.
    pub plays: Vec<PlayNote>,
    /// The slots that were missed while plays were sent.
    pub late: u64,
    /// The offers that were made, in order.
    pub offers: Vec<OfferNote>,
}

/// How a worker ended.
#[derive(Clone, Copy, Debug, PartialEq, Eq)]
pub enum PartEnd {
    /// Its part of the gate gives no more connections.
    AllTaken,
    /// Its part of the gate failed.
    GateFault,
    /// There was no memory for a report.
    NoMemory,
}

/// What is left of a worker's connections.
#[derive(Debug, Drop)]
pub struct PartReport {
    /// How the worker ended.
    pub end: PartEnd,
    /// The connections' reports, in order.
    pub reports: Vec<ConnReport>,
}
