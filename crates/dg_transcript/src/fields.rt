//! The fields of a line, read one by one.
ghost use Rattle.std.specs.Prelude.{◌≡◌, ◌≤◌, ◌*◌, ◌/◌, ◌∷◌, IfOk, MatchResult, false, length, min, option_copied, true, position};
ghost use Rattle.std.specs.List.{slice_split, list_all};
ghost use Rattle.std.specs.Result.{result_ok};
ghost use Rattle.std.specs.Char.{is_ascii_digit};
ghost use Rattle.std.specs.Str.Parse.{digits_value};
ghost use Rattle.dg_transcript.specs.Fields.{Parses, is_space, is_numeral, number_of, within, code_of, hex_of, bytes_of, word_of, words_of, only_field, no_field, first_field};
ghost use Rattle.hex.specs.Hex.{decode_of};
ghost use Rattle.dg_transcript.specs.Spaced.{behind};
ghost use Rattle.dg_transcript.specs.Small.{is_small};

use crate::cause::Cause;
use crate::code::ErrorCode;
use crate::limits::MAX_WORDS;
use dg_bytes::{Bytes, Seq};
use hex::FromHexError;
use std::alloc::{AllocError, Global};

/// A number past every limit.
const PAST: u32 = 10_000_000;

/// How many bytes are decoded in place.
const FEW: usize = 16;

fn space_at(text: &[u8]) -> Option<usize>
    ensures { result ≡ position is_space text.now }
{
    text.iter().position(|b| *b == b' ')
}

/// The field in front of the first space, and what is behind it.
pub(crate) fn split(text: &[u8]) -> (&[u8], Option<&[u8]>)
    ensures { slice_split is_space text.now ≡ result.0.now ∷ behind (option_copied result.1) }
{
    match space_at(text) {
        Some(at) => (&text[..at], Some(&text[at + 1..])),
        None => (text, None),
    }
}

/// The first field of those behind a word, and what is behind it.
pub(crate) fn first_field(fields: Option<&[u8]>) -> Result<(&[u8], Option<&[u8]>), Cause>
    ensures { Parses (λ x. (x.0.now, behind (option_copied x.1))) result (first_field (behind (option_copied fields.entry))) }
{
    match fields {
        Some(fields) => Ok(split(fields)),
        None => Err(Cause::Field),
    }
}

/// The one field behind a word.
pub(crate) fn only_field(fields: Option<&[u8]>) -> Result<&[u8], Cause>
    ensures { Parses (λ x. x.now) result (only_field (behind (option_copied fields.entry))) }
{
    let (field, behind) = first_field(fields)?;
    match behind {
        None => Ok(field),
        Some(_) => Err(Cause::Field),
    }
}

/// Nothing behind a word.
pub(crate) fn no_field(fields: Option<&[u8]>) -> Result<(), Cause>
    ensures { Parses (λ u. u) result (no_field (behind (option_copied fields.entry))) }
{
    match fields {
        None => Ok(()),
        Some(_) => Err(Cause::Field),
    }
}

fn are_digits(text: &[u8]) -> bool
    ensures { result ≡ list_all is_ascii_digit text.now }
{
    text.iter().all(|b| b.is_ascii_digit())
}

fn is_numeral(text: &[u8]) -> bool
    ensures { result ≡ is_numeral text.now }
{
    if !are_digits(text) {
        return false;
    }
    if text.is_empty() {
        return false;
    }
    if text.len() == 1 {
        return true;
    }
    text[0] != b'0'
}

fn value_of(digits: &[u8]) -> u32
    requires { list_all is_ascii_digit digits.now ≡ true }
    ensures { result ≡ min (digits_value 10 digits.now) PAST }
{
    let mut value = 0;
    for digit in digits {
        value = (value * 10 + u32::from(*digit - b'0')).min(PAST);
    }
    value
}

/// The number that a numeral stands for.
#[tactic(auto, unfolding(crate::specs::Fields::number_of))]
pub(crate) fn number_of(text: &[u8]) -> Result<u32, Cause>
    ensures { Parses (λ n. n) result (number_of text.now) }
{
    if is_numeral(text) {
        Ok(value_of(text))
    } else {
        Err(Cause::Field)
    }
}

/// A number within limits.
#[tactic(auto, unfolding(crate::specs::Fields::within))]
pub(crate) fn within(low: u32, high: u32, text: &[u8]) -> Result<u32, Cause>
    ensures { Parses (λ n. n) result (within low high text.now) }
{
    let number = number_of(text)?;
    if low <= number && number <= high {
        Ok(number)
    } else {
        Err(Cause::Field)
    }
}

/// The code that a number stands for.
#[tactic(auto, unfolding(crate::specs::Fields::code_of))]
pub(crate) fn code_of(text: &[u8]) -> Result<ErrorCode, Cause>
    ensures { Parses (λ c. c) result (code_of text.now) }
{
    Ok(match within(1, 4, text)? {
        1 => ErrorCode::NotFound,
        2 => ErrorCode::NotPermitted,
        3 => ErrorCode::BrokenPipe,
        _ => ErrorCode::Other,
    })
}

/// Whether hexadecimal has no capital digit. The loop has no way out but its end, so that it can be
/// built to look at many bytes at once.
fn is_small(text: &[u8]) -> bool
    ensures { result ≡ list_all is_small text.now }
{
    let mut small = true;
    for b in text {
        small &= !matches!(*b, b'A'..=b'F');
    }
    small
}

/// Decodes hexadecimal into room for all of its bytes, and tells whether the text is that.
fn decode_whole(text: &[u8], room: &mut [u8]) -> bool
    requires { length room.old ≡ length text.now / 2 }
    ensures { MatchResult (decode_of text.now) (λ bytes. (result ≡ true) × (room.new ≡ bytes)) (λ _. result ≡ false) }
{
    hex::decode_to_slice(text, room).is_ok()
}

/// The bytes that a short text stands for, if it is hexadecimal. They need no block.
fn decode_few(alloc: Global, text: &[u8]) -> Result<Option<Bytes>, AllocError>
    requires { length text.now ≤ 2 * FEW }
    ensures { IfOk result (λ o. o ≡ result_ok (decode_of text.now)) }
{
    let count = text.len() / 2;
    let mut held = [0; FEW];
    if !decode_whole(text, &mut held[..count]) {
        return Ok(None);
    }
    Ok(Some(Bytes::from_slice(alloc, &held[..count])?))
}

/// The bytes that a text stands for, if it is hexadecimal.
fn decode(alloc: Global, text: &[u8]) -> Result<Option<Bytes>, AllocError>
    ensures { IfOk result (λ o. o ≡ result_ok (decode_of text.now)) }
{
    if text.len() <= 2 * FEW {
        return decode_few(alloc, text);
    }
    match hex::decode(alloc, text) {
        Ok(bytes) => Ok(Some(Bytes::from_vec(bytes))),
        Err(FromHexError::OutOfMemory) => Err(AllocError),
        Err(_) => Ok(None),
    }
}

/// The bytes, at least one, that lower-case hexadecimal stands for.
#[tactic(auto, using(crate::proofs::SmallDigits::spelled_again), unfolding(crate::specs::Fields::hex_of))]
pub(crate) fn hex_of(alloc: Global, text: &[u8]) -> Result<Bytes, Cause>
    ensures { Parses (λ b. b) result (hex_of text.now) }
{
    let Some(bytes) = decode(alloc, text)? else {
        return Err(Cause::Field);
    };
    if is_small(text) && !bytes.is_empty() {
        Ok(bytes)
    } else {
        Err(Cause::Field)
    }
}

/// At most so many bytes.
#[tactic(auto, unfolding(crate::specs::Fields::bytes_of))]
pub(crate) fn bytes_of(alloc: Global, most: usize, text: &[u8]) -> Result<Bytes, Cause>
    ensures { Parses (λ b. b) result (bytes_of most text.now) }
{
    let mut bytes = hex_of(alloc, text)?;
    if bytes.len() > most {
        return Err(Cause::Field);
    }
    bytes.keep(alloc)?;
    Ok(bytes)
}

#[tactic(auto, unfolding(crate::specs::Fields::word_of))]
fn word_of(alloc: Global, text: &[u8]) -> Result<Bytes, Cause>
    ensures { Parses (λ b. b) result (word_of text.now) }
{
    if text == b"-".as_slice() {
        return Ok(Bytes::new(alloc));
    }
    hex_of(alloc, text)
}

/// The words, 1 to 64 of them.
pub(crate) fn words_of(alloc: Global, fields: Option<&[u8]>) -> Result<Seq<Bytes>, Cause>
    ensures { Parses (λ w. w) result (words_of (behind (option_copied fields.entry))) }
{
    let mut words = Vec::new(alloc);
    let mut left = fields;
    while let Some(text) = left {
        if words.len() == MAX_WORDS {
            return Err(Cause::Field);
        }
        let (field, behind) = split(text);
        words.push(word_of(alloc, field)?)?;
        left = behind;
    }
    if words.is_empty() {
        return Err(Cause::Field);
    }
    Ok(Seq::from_vec(words))
}
