//! The canonical text of a list, by Tcl(n).
ghost use Rattle.std.specs.Prelude.{◌≡◌, ◌++◌, ◌+◌, ◌<◌, ◌^◌, IfOk, OnOk, false};
ghost use Rattle.dg_bytes.specs.Canonical.{begins_with_hash, brace_step, element_text, escaped_byte, escaped_text, further_text, is_plain, is_special, may_be_braced, text_of_list};

use crate::text::Text;
use std::alloc::{AllocError, Global};

/// Blanks, newlines and `" { } [ ] $ ; \`.
pub(crate) fn is_special(byte: u8) -> bool
    ensures { result ≡ is_special byte }
{
    matches!(
        byte,
        9 | b'\n' | 11 | 12 | 13 | b' ' | b'"' | b'$' | b';' | b'[' | b'\\' | b']' | b'{' | b'}'
    )
}

/// Whether no byte is special.
pub(crate) fn is_plain(element: &[u8]) -> bool
    ensures { result ≡ is_plain element.now }
{
    for byte in element {
        if is_special(*byte) {
            return false;
        }
    }
    true
}

/// Whether a byte may stand there in braces, and how many braces are open after it.
fn brace_step(paired: bool, depth: u64, byte: u8) -> Option<(bool, u64)>
    requires { depth + 1 < 2 ^ 64 }
    ensures { result ≡ brace_step paired depth byte }
{
    match (paired, byte) {
        (true, b'\n') => None,
        (true, _) => Some((false, depth)),
        (false, b'\\') => Some((true, depth)),
        (false, b'{') => Some((false, depth + 1)),
        (false, b'}') if depth == 0 => None,
        (false, b'}') => Some((false, depth - 1)),
        (false, _) => Some((false, depth)),
    }
}

/// Whether the element can stand in braces as it is.
pub(crate) fn may_be_braced(element: &[u8]) -> bool
    ensures { result ≡ may_be_braced false 0 element.now }
{
    let mut paired = false;
    let mut depth = 0u64;
    for byte in element {
        let Some((next_paired, next_depth)) = brace_step(paired, depth, *byte) else {
            return false;
        };
        paired = next_paired;
        depth = next_depth;
    }
    !paired && depth == 0
}

pub(crate) fn begins_with_hash(element: &[u8]) -> bool
    ensures { result ≡ begins_with_hash element.now }
{
    match element {
        [] => false,
        [byte, ..] => *byte == b'#',
    }
}

/// Adds a byte of an element, with a backslash before it if it is special.
fn push_escaped_byte(text: &mut Vec<u8>, byte: u8) -> Result<(), AllocError>
    ensures { OnOk result (text.new.items ≡ text.old.items ++ escaped_byte byte) }
{
    if byte == b'\n' {
        text.extend_from_slice(b"\\n")
    } else if is_special(byte) {
        text.extend_from_slice(&[b'\\', byte])
    } else {
        text.extend_from_slice(&[byte])
    }
}

/// Adds each byte of an element, with a backslash before those that are special.
fn push_escaped(text: &mut Vec<u8>, element: &[u8]) -> Result<(), AllocError>
    ensures { OnOk result (text.new.items ≡ text.old.items ++ escaped_text element.now) }
{
    for byte in element {
        push_escaped_byte(text, *byte)?;
    }
    Ok(())
}

/// Adds the canonical text of one element, the list's first or not.
fn push_element(text: &mut Vec<u8>, first: bool, element: &[u8]) -> Result<(), AllocError>
    ensures { OnOk result (text.new.items ≡ text.old.items ++ element_text first element.now) }
{
    let hash = first && begins_with_hash(element);
    if element.is_empty() {
        text.extend_from_slice(b"{}")
    } else if !hash && is_plain(element) {
        text.extend_from_slice(element)
    } else if may_be_braced(element) {
        text.extend_from_slice(b"{")?;
        text.extend_from_slice(element)?;
        text.extend_from_slice(b"}")
    } else {
        if hash {
            text.extend_from_slice(b"\\")?;
        }
        push_escaped(text, element)
    }
}

/// Adds further elements, each behind a space.
fn push_further(text: &mut Vec<u8>, elements: &[Text]) -> Result<(), AllocError>
    ensures { OnOk result (text.new.items ≡ text.old.items ++ further_text elements.now) }
{
    for element in elements {
        text.extend_from_slice(b" ")?;
        push_element(text, false, element.as_slice())?;
    }
    Ok(())
}

/// How many bytes the text of an added element has room for at once.
const ROOM: usize = 32;

/// The text of elements that stand behind others.
pub(crate) fn further(alloc: Global, elements: &[Text]) -> Result<Vec<u8>, AllocError>
    ensures { IfOk result (λ text. text.items ≡ further_text elements.now) }
{
    let mut text = Vec::with_capacity(alloc, ROOM)?;
    push_further(&mut text, elements)?;
    Ok(text)
}

/// The canonical text of a list: its elements, joined by one space. An empty one is `{}`; one without
/// special bytes stands as it is, unless it begins the list with `#`; one that can stand in braces stands
/// in braces; in any other each special byte, and a `#` that begins the list, has a backslash before it,
/// and a newline is `\n`. (Tcl writes some elements otherwise, to the same effect.)
#[tactic(auto, unfolding(crate::specs::Canonical::text_of_list))]
pub(crate) fn whole(alloc: Global, elements: &[Text]) -> Result<Vec<u8>, AllocError>
    ensures { IfOk result (λ text. text.items ≡ text_of_list elements.now) }
{
    let mut text = Vec::new(alloc);
    if let [first, further @ ..] = elements {
        push_element(&mut text, true, first.as_slice())?;
        push_further(&mut text, further)?;
    }
    Ok(text)
}
