//! The bytes that a file's name may have.
ghost use Rattle.std.specs.Prelude.{◌≡◌};
ghost use Rattle.std.specs.List.{list_all};
ghost use Rattle.dg_bytes.specs.Portable as word;

/// Whether the byte is of the portable filename character set (POSIX.1, 3.282) or `+`: a letter, a
/// digit or one of `.`, `_`, `-` and `+`.
fn is_portable(byte: u8) -> bool
    ensures { result ≡ word.is_portable byte }
{
    matches!(byte, b'A'..=b'Z' | b'a'..=b'z' | b'0'..=b'9' | b'.' | b'_' | b'+' | b'-')
}

/// Whether each byte is one of these.
pub fn are_portable(text: &[u8]) -> bool
    ensures { result ≡ list_all word.is_portable text.now }
{
    text.iter().all(|byte| is_portable(*byte))
}
