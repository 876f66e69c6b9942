//! Why a request is refused.

ghost use Rattle.std.specs.Prelude.{◌≡◌};
ghost use Rattle.rtsp_methods.specs.Refusals.{curve_refusal, fault_refusal};

use rtsp_text::RequestFault;
use wire_curve::{CurveFault, CurveRefused};

/// Why a request is refused; none changes the state (RFC 2326 section 7.1.1).
#[derive(Clone, Copy, Debug, PartialEq, Eq)]
pub enum Refusal {
    /// It is no request of RTSP.
    BadRequest,
    /// Its version isn't 1.0.
    Version,
    /// Its method isn't spoken.
    Method,
    /// It requires an option; none is known.
    Option,
    /// It needs a session that doesn't exist, or names another.
    Session,
    /// It names no film of the server, or another than the session's.
    Film,
    /// Its method isn't valid in this state.
    State,
    /// It asks for a transport that isn't offered.
    Transport,
    /// A parameter has no meaning.
    Parameter,
    /// The client's buffer is too small: it must hold at least so many bytes.
    Buffer(u64),
    /// Its range has no meaning for the film.
    Range,
    /// Memory ran out.
    Memory,
}

impl From<RequestFault> for Refusal {
    ghost from_gives = { λ fault refusal. refusal ≡ fault_refusal fault };

    /// The refusal of a request that isn't well formed.
    fn from(fault: RequestFault) -> Refusal {
        match fault {
            // RFC 2326 section 7.1.1 has a code of its own for a version; the rest is 400.
            RequestFault::BadVersion => Refusal::Version,
            RequestFault::BadLine
            | RequestFault::BadHeader(_)
            | RequestFault::NoSequenceNumber
            | RequestFault::BadLength => Refusal::BadRequest,
        }
    }
}

impl From<CurveRefused> for Refusal {
    ghost from_gives = { λ refused refusal. refusal ≡ curve_refusal refused };

    /// The refusal of a play whose units have no curves.
    fn from(refused: CurveRefused) -> Refusal {
        match refused {
            CurveRefused::NoMemory => Refusal::Memory,
            CurveRefused::Fault(fault) => match fault {
                // Too few or too many pictures: another range may do, a larger buffer won't.
                CurveFault::NoPictures | CurveFault::TooManySlots { .. } => Refusal::Range,
                CurveFault::BufferTooSmall { least, .. } => Refusal::Buffer(least),
            },
        }
    }
}
