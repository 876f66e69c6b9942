//! The two curves between which a sending plan has to stay.
//!
//! A client plays pictures at fixed times from a buffer of a known size. What it has used by the
//! end of a slot must have been sent by then, which is the lower curve; what it hasn't used yet
//! must fit in its buffer, which gives the upper one. The terms are those of Salehi, Zhang, Kurose
//! and Towsley, "Supporting stored video: reducing rate variability and end-to-end resource
//! requirements through optimal smoothing", IEEE/ACM Transactions on Networking 6(4), 1998.
#![tactic(auto)]

mod curves;
mod film;
pub mod laws;

pub use curves::Curves;
pub use film::{CurveFault, CurveRefused, Timing, film_curves};

#[cfg(test)]
mod tests;
