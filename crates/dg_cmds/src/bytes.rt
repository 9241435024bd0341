//! Sets of bytes, texts trimmed of them, and texts joined to one another.
ghost use Rattle.std.specs.Prelude.{◌≡◌, ◌≤◌, ◌++◌, IfOk, length};
ghost use Rattle.dg_cmds.specs.Bytes.{IsSetOf, member, trimmed, trimmed_left, trimmed_right};

use dg_bytes::Bytes;
use std::alloc::{AllocError, Global};

/// Space, tab, newline, vertical tab, form feed and carriage return.
pub(crate) const BLANKS: [u8; 6] = [b' ', b'\t', b'\n', 0x0b, 0x0c, b'\r'];

/// For each byte whether it is one of these.
pub(crate) fn set_of(bytes: &[u8]) -> [bool; 256]
    ensures { IsSetOf result bytes.now }
{
    let mut marks = [false; 256];
    for byte in bytes {
        marks[*byte as usize] = true;
    }
    marks
}

/// A text without the bytes of a set that stand at its front.
pub(crate) fn trimmed_left<'a>(text: &'a [u8], bytes: &[u8]) -> &'a [u8]
    ensures value { result.now ≡ trimmed_left (member bytes.now) text.now }
    ensures bound { length result.now ≤ length text.now }
{
    let set = set_of(bytes);
    let mut rest = text;
    while let Some((first, behind)) = rest.split_first() {
        if !set[*first as usize] {
            break;
        }
        rest = behind;
    }
    rest
}

/// A text without the bytes of a set that stand at its end.
pub(crate) fn trimmed_right<'a>(text: &'a [u8], bytes: &[u8]) -> &'a [u8]
    ensures { result.now ≡ trimmed_right (member bytes.now) text.now }
{
    let set = set_of(bytes);
    let mut rest = text;
    while let Some((last, front)) = rest.split_last() {
        if !set[*last as usize] {
            break;
        }
        rest = front;
    }
    rest
}

/// A text without the bytes of a set that stand at either end.
pub(crate) fn trimmed<'a>(text: &'a [u8], bytes: &[u8]) -> &'a [u8]
    ensures { result.now ≡ trimmed (member bytes.now) text.now }
{
    trimmed_right(trimmed_left(text, bytes), bytes)
}

/// Two texts, one behind the other.
pub(crate) fn two_texts(alloc: Global, first: &[u8], second: &[u8]) -> Result<Bytes, AllocError>
    ensures { IfOk result (λ b. b ≡ first.now ++ second.now) }
{
    let mut text = Bytes::from_slice(alloc, first)?;
    text.extend(second)?;
    Ok(text)
}

/// Three texts, one behind the other.
pub(crate) fn three_texts(
    alloc: Global,
    first: &[u8],
    second: &[u8],
    third: &[u8],
) -> Result<Bytes, AllocError>
    ensures { IfOk result (λ b. b ≡ first.now ++ second.now ++ third.now) }
{
    let mut text = two_texts(alloc, first, second)?;
    text.extend(third)?;
    Ok(text)
}
