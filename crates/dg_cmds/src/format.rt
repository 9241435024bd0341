//! The command `format`, by format(n).
ghost use Rattle.std.specs.Prelude.{◌≡◌, ◌++◌, ◌∷◌, MatchOption, length};
ghost use Rattle.dg_cmds.specs.Answers.{Gives, Makes, limited};
ghost use Rattle.dg_cmds.specs.Formats.{format_of, with_field, with_parts};

use crate::answer::{add, fail, give, wrong_count};
use crate::fault::CmdFault;
use crate::field::read_field;
use crate::lists::cut;
use dg_bytes::Bytes;
use std::alloc::Global;

/// Adds a value in its field, and the text after the field.
#[tactic(auto, unfolding(crate::specs::Formats::with_field))]
fn add_field(alloc: Global, text: &mut Bytes, part: &Bytes, value: &Bytes) -> Result<(), CmdFault>
    ensures { Makes result text.new (with_field text.old part.now value.now) }
{
    let Some((field, behind)) = read_field(part.as_slice()) else {
        return fail(alloc, b"bad field specifier");
    };
    let shown = match field.value_in(alloc, value) {
        Ok(shown) => shown,
        Err(fault) => return Err(fault),
    };
    if let Err(fault) = add(text, shown.as_slice()) {
        return Err(fault);
    }
    add(text, behind)
}

/// Adds a percent sign, and the text after it.
fn add_plain(alloc: Global, text: &mut Bytes, plain: &Bytes) -> Result<(), CmdFault>
    ensures { Makes result text.new (limited (text.old ++ 37 ∷ plain.now)) }
{
    let mut bytes = Bytes::from_slice(alloc, b"%")?;
    bytes.extend(plain.as_slice())?;
    add(text, bytes.as_slice())
}

/// Behind a percent sign and nothing, another percent sign stands for itself: what stands behind that, and
/// the parts behind it.
fn plain_behind<'a>(part: &Bytes, later: &'a [Bytes]) -> Option<(&'a Bytes, &'a [Bytes])>
    ensures { MatchOption result (length part.now ≡ 0 → length later.now ≡ 0)
        (λ p. (length part.now ≡ 0) × (later.now ≡ p.0.now ∷ p.1.now)) }
{
    if !part.is_empty() {
        return None;
    }
    let (plain, rest) = later.split_first()?;
    Some((plain, rest))
}

/// A text, and the text after each further percent sign.
fn with_parts(
    alloc: Global,
    text: Bytes,
    parts: &[Bytes],
    values: &[Bytes],
) -> Result<Bytes, CmdFault>
    ensures { Gives result (with_parts text parts.now values.now) }
{
    let mut text = text;
    let mut parts = parts;
    let mut values = values;
    while let Some((part, later)) = parts.split_first() {
        if let Some((plain, rest)) = plain_behind(part, later) {
            if let Err(fault) = add_plain(alloc, &mut text, plain) {
                return Err(fault);
            }
            parts = rest;
            continue;
        }
        let Some((value, others)) = values.split_first() else {
            return fail(alloc, b"not enough arguments for all format specifiers");
        };
        if let Err(fault) = add_field(alloc, &mut text, part, value) {
            return Err(fault);
        }
        parts = later;
        values = others;
    }
    Ok(text)
}

/// What `format` gives for the words behind its name, by format(n): `%s %d %i %x %X %o %%`, the flags `-`
/// and `0`, and a width. `0` pads with zeros, `%s` too, but not with `-`; a negative number is written as
/// its two's complement of 64 bits by `%x`, `%X` and `%o`; further words are ignored.
///
/// # Errors
/// `Tcl` with the message of a script error, that of the first field from the left: that there is no word
/// left for it, that it is no field, or that its word is no number; `TooLong` for a value of more than
/// 1,048,576 bytes; `Memory` where a growth is refused.
pub fn run_format(alloc: Global, words: &[Bytes]) -> Result<Bytes, CmdFault>
    ensures { Gives result (format_of words.now) }
{
    let [format, values @ ..] = words else {
        return wrong_count(alloc, b"format");
    };
    let parts = cut(alloc, format.as_slice(), b"%")?;
    match parts.as_slice() {
        [] => Ok(Bytes::new(alloc)),
        [plain, further @ ..] => {
            with_parts(alloc, give(alloc, plain.as_slice())?, further, values)
        }
    }
}
