//! Moves bytes within a buffer to its start.

ghost use Rattle.std.specs.Prelude.{◌≡◌, ◌≤◌, length, drop, vec_capacity};

/// Moves the bytes from `start` on to the start of the buffer, and drops all others. `start` is at
/// most the buffer's length. It takes no memory.
pub fn move_to_front(bytes: &mut Vec<u8>, start: usize)
    requires { start ≤ length bytes.old.items }
    ensures items { bytes.new.items ≡ drop start bytes.old.items }
    ensures capacity { vec_capacity bytes.new ≡ vec_capacity bytes.old }
{
    // Within the buffer, and not into a new one: its reserved room stays for the bytes that follow.
    let rest = bytes.len() - start;
    bytes.copy_within(start.., 0);
    bytes.truncate(rest);
}
