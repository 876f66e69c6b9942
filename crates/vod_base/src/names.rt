//! Names of files.

ghost use Rattle.std.specs.Prelude.{◌≡◌};
ghost use Rattle.std.specs.List.{list_all};
ghost use Rattle.vod_base.specs.Names.{good_name, is_name_byte};

/// Returns whether `name` can name a film, trace, certificate or script: 1 to 64 bytes of letters,
/// digits, `.`, `_` and `-`, the first not `.`.
pub fn good_name(name: &[u8]) -> bool
    ensures { result ≡ good_name name.now }
{
    // Without a first dot there is no `.`, no `..` and no hidden file. Without `/` and backslash a
    // name stays in its folder.
    if name.is_empty() || name.len() > 64 || name[0] == b'.' {
        return false;
    }
    has_name_bytes(name)
}

/// Whether a byte may stand in a name.
fn is_name_byte(byte: u8) -> bool
    ensures { result ≡ is_name_byte byte }
{
    byte.is_ascii_alphanumeric() || byte == b'.' || byte == b'_' || byte == b'-'
}

/// Whether all bytes may.
fn has_name_bytes(name: &[u8]) -> bool
    ensures { result ≡ list_all is_name_byte name.now }
{
    name.iter().all(|byte| is_name_byte(*byte))
}
