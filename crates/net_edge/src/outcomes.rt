//! What the result of a system call means.

ghost use Rattle.std.specs.Prelude.{◌≡◌, ◌<◌, ◌-◌, ◌^◌, false, min, None, Some, Ok, Err};
ghost use Rattle.std.specs.Prelude.{IfOk, IfErr, IsErrAnd, OnOk};
ghost use Rattle.std.specs.IoError.{error_kind};
ghost use Rattle.std.specs.Duration.{as_nanos};

use socket_link::{ReadOutcome, WriteOutcome};
use std::io;
use std::io::ErrorKind;
use std::time::Duration;

/// What a read of a non-blocking socket did, by read(2).
///
/// # Errors
///
/// Each error of the read, except that nothing came yet, or that a signal came.
pub(crate) fn read_outcome(read: io::Result<usize>) -> io::Result<ReadOutcome>
    ensures end { IfOk read (λ count. count ≡ 0 → result ≡ Ok ReadOutcome.End) }
    ensures bytes { IfOk read (λ count. 0 < count → result ≡ Ok (ReadOutcome.Bytes count)) }
    ensures nothing { IfErr read (λ error. error_kind error ≡ ErrorKind.WouldBlock →
        result ≡ Ok ReadOutcome.Nothing) }
    ensures interrupted { IfErr read (λ error. error_kind error ≡ ErrorKind.Interrupted →
        result ≡ Ok ReadOutcome.Interrupted) }
    ensures failed { IfErr read (λ error. (error_kind error ≡ ErrorKind.WouldBlock → ⊥) →
        (error_kind error ≡ ErrorKind.Interrupted → ⊥) → result ≡ Err error) }
{
    match read {
        // read(2): 0 is the end of the stream, as a socket is never read into an empty buffer.
        Ok(0) => Ok(ReadOutcome::End),
        Ok(count) => Ok(ReadOutcome::Bytes(count)),
        Err(error) => match error.kind() {
            ErrorKind::WouldBlock => Ok(ReadOutcome::Nothing),
            ErrorKind::Interrupted => Ok(ReadOutcome::Interrupted),
            _ => Err(error),
        },
    }
}

/// What a write to a non-blocking socket did, by write(2). At least one byte is to be written.
///
/// # Errors
///
/// Each error of the write, except that there is no room now, or that a signal came; and a write
/// that takes none of the bytes.
pub(crate) fn write_outcome(written: io::Result<usize>) -> io::Result<WriteOutcome>
    ensures none { IfOk written (λ count. count ≡ 0 → IsErrAnd result (λ error.
        error_kind error ≡ ErrorKind.WriteZero)) }
    ensures bytes { IfOk written (λ count. 0 < count → result ≡ Ok (WriteOutcome.Bytes count)) }
    ensures nothing { IfErr written (λ error. error_kind error ≡ ErrorKind.WouldBlock →
        result ≡ Ok WriteOutcome.Nothing) }
    ensures interrupted { IfErr written (λ error. error_kind error ≡ ErrorKind.Interrupted →
        result ≡ Ok WriteOutcome.Interrupted) }
    ensures failed { IfErr written (λ error. (error_kind error ≡ ErrorKind.WouldBlock → ⊥) →
        (error_kind error ≡ ErrorKind.Interrupted → ⊥) → result ≡ Err error) }
{
    match written {
        // write(2) answers 0 only if there is nothing to write. As an outcome it would make a flush
        // repeat itself without end.
        Ok(0) => Err(io::Error::from(ErrorKind::WriteZero)),
        Ok(count) => Ok(WriteOutcome::Bytes(count)),
        Err(error) => match error.kind() {
            ErrorKind::WouldBlock => Ok(WriteOutcome::Nothing),
            ErrorKind::Interrupted => Ok(WriteOutcome::Interrupted),
            _ => Err(error),
        },
    }
}

/// Whether a wait found something ready. One that a signal ended found nothing.
///
/// # Errors
///
/// Each error of the wait, except that a signal came.
pub(crate) fn wait_outcome(waited: io::Result<()>, is_ready: bool) -> io::Result<bool>
    ensures waited { OnOk waited (result ≡ Ok is_ready) }
    ensures interrupted { IfErr waited (λ error. error_kind error ≡ ErrorKind.Interrupted →
        result ≡ Ok false) }
    ensures failed { IfErr waited (λ error. (error_kind error ≡ ErrorKind.Interrupted → ⊥) →
        result ≡ Err error) }
{
    match waited {
        Ok(()) => Ok(is_ready),
        Err(error) => match error.kind() {
            ErrorKind::Interrupted => Ok(false),
            _ => Err(error),
        },
    }
}

/// A time in nanoseconds, at most 2^64 - 1, which is 584 years.
///
/// # Errors
///
/// The error of the clock.
pub(crate) fn nanoseconds(elapsed: io::Result<Duration>) -> io::Result<u64>
    ensures time { IfOk elapsed (λ time. result ≡ Ok (min (as_nanos time) (2 ^ 64 - 1))) }
    ensures failed { IfErr elapsed (λ error. result ≡ Err error) }
{
    match elapsed {
        Ok(elapsed) => Ok(elapsed.as_nanos().min(u64::MAX as u128) as u64),
        Err(error) => Err(error),
    }
}

/// The size of a file in bytes, or None where there is no such file.
///
/// # Errors
///
/// Each error, except that there is no such file.
pub(crate) fn size_outcome(size: io::Result<u64>) -> io::Result<Option<u64>>
    ensures found { IfOk size (λ size. result ≡ Ok (Some size)) }
    ensures none { IfErr size (λ error. error_kind error ≡ ErrorKind.NotFound →
        result ≡ Ok None) }
    ensures failed { IfErr size (λ error. (error_kind error ≡ ErrorKind.NotFound → ⊥) →
        result ≡ Err error) }
{
    match size {
        Ok(size) => Ok(Some(size)),
        Err(error) => match error.kind() {
            // A missing file is a fault of the input (status 3), and every other error one of the
            // folder or the disk (status 4).
            ErrorKind::NotFound => Ok(None),
            _ => Err(error),
        },
    }
}
