//! What the error numbers of the system mean.

ghost use Rattle.std.specs.Prelude.{◌≡◌};
ghost use Rattle.listener_gate.specs.Codes.{error_of_code};

use crate::listeners::AcceptError;

/// The numbers of ENOMEM, ENFILE, EMFILE and ENOBUFS in Linux.
const SHORTAGES: [i32; 4] = [12, 23, 24, 105];

/// The numbers of EPERM, EINTR, ENONET, EPROTO, ENOPROTOOPT, EOPNOTSUPP, ENETDOWN, ENETUNREACH,
/// ECONNABORTED, EHOSTDOWN and EHOSTUNREACH in Linux. A signal came, or `accept` hands on an error
/// of the connection that it was to accept: accept(2) says to try again.
const TRANSIENTS: [i32; 11] = [1, 4, 64, 71, 92, 95, 100, 101, 103, 112, 113];

/// Returns why an `accept` failed, by the error number of Linux; None is an error that the system
/// doesn't have.
pub fn accept_error_of(code: Option<i32>) -> AcceptError
    ensures { result ≡ error_of_code code }
{
    match code {
        Some(code) if SHORTAGES.contains(&code) => AcceptError::Shortage,
        Some(code) if TRANSIENTS.contains(&code) => AcceptError::Transient,
        _ => AcceptError::Broken,
    }
}
