//! The fields of a format, and values in them.
ghost use Rattle.std.specs.Prelude.{◌≡◌, [], IfOk, MatchOption, None, Some, string_bytes};
ghost use Rattle.std.specs.Fmt.{decimal};
ghost use Rattle.dg_cmds.specs.Answers.{Gives};
ghost use Rattle.dg_cmds.specs.Formats.{field_of, minus, number_in, padded, size, style_of, text_behind, value_in, width_of};

use crate::answer::LONGEST;
use crate::bytes::{three_texts, trimmed_left};
use crate::fault::CmdFault;
use crate::numbers::read_number;
use dg_bytes::Bytes;
use std::alloc::{AllocError, Global};

/// A width that no value has.
pub(crate) const PAST: usize = LONGEST + 1;

/// How a value is written.
#[derive(Clone, Copy)]
pub(crate) enum Style {
    Text,
    Decimal,
    Hex,
    UpperHex,
    Octal,
}

impl Style {
    /// The style that a letter says.
    fn named(letter: u8) -> Option<Style>
        ensures { result ≡ style_of letter }
    {
        match letter {
            b's' => Some(Style::Text),
            b'd' | b'i' => Some(Style::Decimal),
            b'x' => Some(Style::Hex),
            b'X' => Some(Style::UpperHex),
            b'o' => Some(Style::Octal),
            _ => None,
        }
    }
}

/// A field: on its left or its right, with zeros or blanks, and how wide.
#[derive(Clone, Copy)]
pub(crate) struct Field {
    left: bool,
    zero: bool,
    width: usize,
    style: Style,
}

/// The width that digits write.
fn width_of(digits: &[u8]) -> usize
    ensures { result ≡ width_of digits.now }
{
    let mut width = 0;
    for digit in digits {
        width = (width * 10 + digit.saturating_sub(b'0') as usize).min(PAST);
    }
    width
}

/// The field after a percent sign, and the text after the field.
#[tactic(auto, unfolding(crate::specs::Formats::field_of, crate::specs::Formats::text_behind))]
pub(crate) fn read_field(part: &[u8]) -> Option<(Field, &[u8])>
    ensures { MatchOption result (field_of part.now ≡ None)
        (λ p. (field_of part.now ≡ Some p.0) × (p.1.now ≡ text_behind part.now)) }
{
    let unflagged = trimmed_left(part, b"-0");
    let behind = trimmed_left(unflagged, b"0123456789");
    let flags = &part[..part.len() - unflagged.len()];
    let digits = &unflagged[..unflagged.len() - behind.len()];
    let (letter, rest) = behind.split_first()?;
    let style = Style::named(*letter)?;
    let left = flags.contains(&b'-');
    let field = Field {
        left,
        zero: !left && flags.contains(&b'0'),
        width: width_of(digits),
        style,
    };
    Some((field, rest))
}

impl Field {
    /// A text in the field: its sign, if it has one, and the rest.
    fn padded(self, alloc: Global, sign: &[u8], rest: &[u8]) -> Result<Bytes, AllocError>
        ensures { IfOk result (λ b. b ≡ padded self sign.now rest.now) }
    {
        let gap = self
            .width
            .saturating_sub(sign.len())
            .saturating_sub(rest.len());
        let zeros = !self.left && self.zero;
        let filler = vec![in alloc; if zeros { b'0' } else { b' ' }; gap]?;
        if self.left {
            three_texts(alloc, sign, rest, filler.as_slice())
        } else if self.zero {
            three_texts(alloc, sign, filler.as_slice(), rest)
        } else {
            three_texts(alloc, filler.as_slice(), sign, rest)
        }
    }

    /// A number in decimal in the field.
    fn decimal_in(self, alloc: Global, number: i64) -> Result<Bytes, AllocError>
        ensures { IfOk result (λ b. b ≡ padded self (minus number) (decimal (size number))) }
    {
        let size = number.unsigned_abs();
        let text = format!(in alloc; "{size}")?;
        let sign: &[u8] = if number < 0 { b"-" } else { b"" };
        self.padded(alloc, sign, text.as_bytes())
    }

    /// Digits in the field.
    fn digits_in(self, alloc: Global, digits: String) -> Result<Bytes, AllocError>
        ensures { IfOk result (λ b. b ≡ padded self [] (string_bytes digits)) }
    {
        self.padded(alloc, b"", digits.as_bytes())
    }

    /// A number in the field.
    fn number_in(self, alloc: Global, number: i64) -> Result<Bytes, AllocError>
        ensures { IfOk result (λ b. b ≡ number_in self self.style number) }
    {
        let bits = number.cast_unsigned();
        match self.style {
            Style::Hex => self.digits_in(alloc, format!(in alloc; "{bits:x}")?),
            Style::UpperHex => self.digits_in(alloc, format!(in alloc; "{bits:X}")?),
            Style::Octal => self.digits_in(alloc, format!(in alloc; "{bits:o}")?),
            Style::Text | Style::Decimal => self.decimal_in(alloc, number),
        }
    }

    /// A word in the field.
    pub(crate) fn value_in(self, alloc: Global, word: &Bytes) -> Result<Bytes, CmdFault>
        ensures { Gives result (value_in self self.style word.now) }
    {
        if let Style::Text = self.style {
            return Ok(self.padded(alloc, b"", word.as_slice())?);
        }
        let number = read_number(alloc, word)?;
        Ok(self.number_in(alloc, number)?)
    }
}
