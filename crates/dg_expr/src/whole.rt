//! Whole numbers and truth, read from texts.
ghost use Rattle.std.specs.Prelude.{◌≡◌, ◌^◌, ◌≤◌, ◌<◌, false, IfSome, Some, None};
ghost use Rattle.dg_expr.specs.Number.{behind_zero, digits_in, drop_spaces, is_space, magnitude_of, negative, number_of, positive, trimmed};
ghost use Rattle.dg_expr.specs.Numbers.{BeginsNone, IsPlain, Reads};

/// So many decimal digits write a number that 63 bits hold.
const MOST_PLAIN_DIGITS: usize = 18;

/// Whether a byte is a blank or a newline.
pub(crate) fn is_space(byte: u8) -> bool
    ensures { result ≡ is_space byte }
{
    byte == b' ' || (9 <= byte && byte <= 13)
}

/// Without the blanks and newlines at its start.
fn trim_start(text: &[u8]) -> &[u8]
    ensures { result.now ≡ drop_spaces text.now }
{
    let mut rest = text;
    while let [first, others @ ..] = rest {
        if !is_space(*first) {
            break;
        }
        rest = others;
    }
    rest
}

/// Without the blanks and newlines round it.
fn trim(text: &[u8]) -> &[u8]
    ensures { result.now ≡ trimmed text.now }
{
    let mut rest = trim_start(text);
    while let [others @ .., last] = rest {
        if !is_space(*last) {
            break;
        }
        rest = others;
    }
    rest
}

/// The number that digits of a base write, of at most 64 bits.
fn digits(base: u32, text: &[u8]) -> Option<u64>
    requires low { 2 ≤ base }
    requires high { base ≤ 16 }
    ensures { Reads (digits_in base text.now) result }
{
    if text.is_empty() {
        return None;
    }
    let mut value: u64 = 0;
    let mut rest = text;
    while let [first, others @ ..] = rest {
        let digit = (*first as char).to_digit(base)?;
        value = value
            .checked_mul(u64::from(base))?
            .checked_add(u64::from(digit))?;
        rest = others;
    }
    Some(value)
}

/// Behind a zero: `x`, `o` and `b` begin other bases.
fn digits_behind_zero(text: &[u8]) -> Option<u64>
    ensures { Reads (behind_zero text.now) result }
{
    match text {
        [] => Some(0),
        [b'x' | b'X', rest @ ..] => digits(16, rest),
        [b'o' | b'O', rest @ ..] => digits(8, rest),
        [b'b' | b'B', rest @ ..] => digits(2, rest),
        _ => digits(8, text),
    }
}

/// A number without a sign, of at most 64 bits.
fn magnitude(text: &[u8]) -> Option<u64>
    ensures { Reads (magnitude_of text.now) result }
{
    match text {
        [b'0', rest @ ..] => digits_behind_zero(rest),
        _ => digits(10, text),
    }
}

/// The number that a text writes without a sign, if it is one of the signed 64-bit range.
fn positive(text: &[u8]) -> Option<i64>
    ensures { result ≡ positive (magnitude_of text.now) }
{
    i64::try_from(magnitude(text)?).ok()
}

/// The number that a text writes behind a minus sign, if it is one of the signed 64-bit range.
fn negative(text: &[u8]) -> Option<i64>
    ensures { result ≡ negative (magnitude_of text.now) }
{
    let size = magnitude(text)?;
    i64::try_from(-i128::from(size)).ok()
}

/// The number that a text of a few decimal digits writes.
fn few_digits(text: &[u8]) -> Option<u64>
    ensures { IfSome result (λ n. (digits_in 10 text.now ≡ Some n) × (n < 2 ^ 63)) }
{
    if text.is_empty() || text.len() > MOST_PLAIN_DIGITS {
        return None;
    }
    let mut value: u64 = 0;
    for byte in text {
        if !byte.is_ascii_digit() {
            return None;
        }
        value = value * 10 + u64::from(*byte - b'0');
    }
    Some(value)
}

/// The number that a text is in the form of nearly every number: a few decimal digits, with no zeros before
/// them.
fn plain_magnitude(text: &[u8]) -> Option<u64>
    ensures { IfSome result (IsPlain text.now) }
{
    match text {
        [b'0'] => Some(0),
        [b'0', ..] => None,
        _ => few_digits(text),
    }
}

/// The number that a text is in that form, perhaps behind a minus sign.
fn plain(text: &[u8]) -> Option<i64>
    ensures { IfSome result (λ n. number_of text.now ≡ Some n) }
{
    match text {
        [b'-', digits @ ..] => Some(-(plain_magnitude(digits)? as i64)),
        _ => Some(plain_magnitude(text)? as i64),
    }
}

/// Whether a number can begin with a byte, or the blanks before one.
fn begins_number(byte: u8) -> bool
    ensures { result ≡ false → BeginsNone byte }
{
    is_space(byte) || byte.is_ascii_digit() || byte == b'-' || byte == b'+'
}

/// Whether a text's first byte leaves it open that the text is a number.
#[tactic(auto, using(crate::proofs::Plain::no_numbers))]
fn may_be_number(text: &[u8]) -> bool
    ensures { result ≡ false → number_of text.now ≡ None }
{
    match text {
        [first, ..] => begins_number(*first),
        [] => false,
    }
}

/// The number that a text is in any form.
#[tactic(auto, unfolding(crate::specs::Number::number_of))]
fn spelled(text: &[u8]) -> Option<i64>
    ensures { result ≡ number_of text.now }
{
    match trim(text) {
        [b'-', rest @ ..] => negative(rest),
        [b'+', rest @ ..] => positive(rest),
        text => positive(text),
    }
}

/// The whole number that a text is, if it is one of the signed 64-bit range: blanks and newlines round
/// it, a sign, and decimal digits, octal ones behind a `0` or `0o`, hexadecimal ones behind `0x`, binary
/// ones behind `0b`.
pub fn number(text: &[u8]) -> Option<i64>
    ensures { result ≡ number_of text.now }
{
    if let Some(value) = plain(text) {
        return Some(value);
    }
    if may_be_number(text) {
        spelled(text)
    } else {
        None
    }
}
