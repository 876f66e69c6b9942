//! The checker of sending plans: whether a list of segments is the taut line between a client's two
//! curves, and the law that such a list is the best of all.
//!
//! After Salehi, Zhang, Kurose and Towsley, "Supporting stored video: reducing rate variability and
//! end-to-end resource requirements through optimal smoothing", IEEE/ACM Transactions on
//! Networking, 1998.
#![tactic(auto)]

mod bends;
mod checker;
pub mod laws;
mod sums;
mod walk;

pub use checker::check;
use thiserror::Error;

/// A fault of a list of segments. Faults are tried in this order, and within one kind the least
/// number is named.
#[derive(Clone, Copy, Debug, PartialEq, Eq, Error)]
pub enum CertFault {
    /// This segment, from 0, has no slots.
    #[error("segment {0} has no slots")]
    EmptySegment(u64),
    /// The slots of the segments don't add up to those of the curves.
    #[error("the slots aren't those of the curves")]
    WrongLength,
    /// The bytes of the segments don't add up to what the curves lead to.
    #[error("the bytes aren't those of the curves")]
    WrongTotal,
    /// The exact line at the end of this slot is below the lower curve.
    #[error("slot {0} ends below the lower curve")]
    BelowLow(u64),
    /// The exact line at the end of this slot is above the upper curve.
    #[error("slot {0} ends above the upper curve")]
    AboveUp(u64),
    /// This segment and the next one have equal slopes.
    #[error("segment {0} and the next have equal slopes")]
    EqualSlopes(u64),
    /// The slope rises after this segment, and the line there isn't on the upper curve.
    #[error("the slope rises after segment {0} off the upper curve")]
    RiseOffUpper(u64),
    /// The slope falls after this segment, and the line there isn't on the lower curve.
    #[error("the slope falls after segment {0} off the lower curve")]
    FallOffLower(u64),
}

#[cfg(test)]
mod tests;
