//! The lines of refused certificates.

use super::refusal_text;
use cert_check::CertFault;
use vod_base::NoMemory;

/// Each fault of a certificate, with its name and number as they are printed.
#[test]
fn each_fault_has_its_name(rt: HostRuntime) -> Result<(), NoMemory> {
    for (fault, line) in [
        (CertFault::EmptySegment(7), "refused EmptySegment 7\n"),
        (CertFault::WrongLength, "refused WrongLength\n"),
        (CertFault::WrongTotal, "refused WrongTotal\n"),
        (CertFault::BelowLow(7), "refused BelowLow 7\n"),
        (CertFault::AboveUp(7), "refused AboveUp 7\n"),
        (CertFault::EqualSlopes(7), "refused EqualSlopes 7\n"),
        (CertFault::RiseOffUpper(7), "refused RiseOffUpper 7\n"),
        (CertFault::FallOffLower(7), "refused FallOffLower 7\n"),
    ] {
        let text = refusal_text(rt.alloc(), &fault)?;
        assert_eq!(rt; text.as_slice(), line.as_bytes());
    }
    Ok(())
}
