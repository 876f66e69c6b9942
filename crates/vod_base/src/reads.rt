//! A read of bytes that are held in memory.

ghost use Rattle.std.specs.Prelude.{◌≡◌, ◌-◌, length, min};
ghost use Rattle.vod_base.specs.IoState.{IsRead};

/// Copies the bytes from `at` on to the start of `into`, as many as fit, and returns how many.
pub(crate) fn copy_from(bytes: &[u8], at: u64, into: &mut [u8]) -> usize
    ensures read { IsRead bytes.now at result into.new }
    ensures most { result ≡ min (length into.new) (length bytes.now - at) }
{
    // Compared in 64 bits: a place past the end is no index, and no byte is read there.
    if at >= bytes.len() as u64 {
        return 0;
    }
    let rest = &bytes[at as usize..];
    let count = rest.len().min(into.len());
    into[..count].copy_from_slice(&rest[..count]);
    count
}
