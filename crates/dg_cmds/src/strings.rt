//! The command `string`, by string(n).
ghost use Rattle.std.specs.Prelude.{◌≡◌, ◌≤◌, IfOk, Ok, length, map};
ghost use Rattle.std.specs.List.{repeat};
ghost use Rattle.dg_cmds.specs.Answers.{Gives, limited};
ghost use Rattle.dg_cmds.specs.Bytes.{trimmed, trimmed_left, trimmed_right};
ghost use Rattle.dg_cmds.specs.Strings.{byte_of, cased_of, compare_of, equal_of, first_of, first_place_from, in_case, keyword, last_of, length_of, mapped, match_of, operated, operation_of, range_of, repeat_of, string_of, trim_of};

use crate::answer::{LONGEST, fail, give, give_count, give_place, give_truth, within, wrong_count};
use crate::bytes::{BLANKS, three_texts, trimmed, trimmed_left, trimmed_right};
use crate::fault::CmdFault;
use crate::index::{part, read_index};
use crate::numbers::{at_least_zero, read_number};
use crate::places::{first_place, glob_matches, last_place};
use dg_bytes::Bytes;
use std::alloc::{AllocError, Global};
use std::cmp::Ordering;

/// The subcommands of `string`.
#[derive(Clone, Copy)]
enum Operation {
    Length,
    Index,
    Range,
    First,
    Last,
    Compare,
    Equal,
    Match,
    Lower,
    Upper,
    Trim,
    TrimLeft,
    TrimRight,
    Repeat,
}

const OPERATIONS: [Operation; 14] = [
    Operation::Length,
    Operation::Index,
    Operation::Range,
    Operation::First,
    Operation::Last,
    Operation::Compare,
    Operation::Equal,
    Operation::Match,
    Operation::Lower,
    Operation::Upper,
    Operation::Trim,
    Operation::TrimLeft,
    Operation::TrimRight,
    Operation::Repeat,
];

impl Operation {
    /// The subcommand.
    fn keyword(self) -> &'static [u8]
        ensures { result.now ≡ keyword self }
    {
        match self {
            Operation::Length => b"length",
            Operation::Index => b"index",
            Operation::Range => b"range",
            Operation::First => b"first",
            Operation::Last => b"last",
            Operation::Compare => b"compare",
            Operation::Equal => b"equal",
            Operation::Match => b"match",
            Operation::Lower => b"tolower",
            Operation::Upper => b"toupper",
            Operation::Trim => b"trim",
            Operation::TrimLeft => b"trimleft",
            Operation::TrimRight => b"trimright",
            Operation::Repeat => b"repeat",
        }
    }

    /// The operation that a word names, in full.
    #[tactic(auto, unfolding(crate::specs::Strings::operation_of))]
    fn named(word: &[u8]) -> Option<Operation>
        ensures { result ≡ operation_of word.now }
    {
        OPERATIONS
            .iter()
            .copied()
            .find(|operation| operation.keyword() == word)
    }
}

fn length(alloc: Global, args: &[Bytes]) -> Result<Bytes, CmdFault>
    ensures { Gives result (length_of args.now) }
{
    match args {
        [text] => give_count(alloc, text.len()),
        _ => wrong_count(alloc, b"string"),
    }
}

fn byte(alloc: Global, args: &[Bytes]) -> Result<Bytes, CmdFault>
    ensures { Gives result (byte_of args.now) }
{
    match args {
        [text, index] => {
            let at = read_index(alloc, index)?;
            give(alloc, part(text.as_slice(), at, at))
        }
        _ => wrong_count(alloc, b"string"),
    }
}

fn range(alloc: Global, args: &[Bytes]) -> Result<Bytes, CmdFault>
    ensures { Gives result (range_of args.now) }
{
    match args {
        [text, first, last] => {
            let first = read_index(alloc, first)?;
            let last = read_index(alloc, last)?;
            give(alloc, part(text.as_slice(), first, last))
        }
        _ => wrong_count(alloc, b"string"),
    }
}

/// The first place of a needle from a place on.
fn first_place_from(start: usize, needle: &[u8], text: &[u8]) -> Option<usize>
    requires { start ≤ length text.now }
    ensures { result ≡ first_place_from start needle.now text.now }
{
    Some(start + first_place(needle, &text[start..])?)
}

fn first(alloc: Global, args: &[Bytes]) -> Result<Bytes, CmdFault>
    ensures { Gives result (first_of args.now) }
{
    match args {
        [needle, text] => give_place(alloc, first_place(needle.as_slice(), text.as_slice())),
        [needle, text, index] => {
            let start = read_index(alloc, index)?.before(text.len());
            give_place(
                alloc,
                first_place_from(start, needle.as_slice(), text.as_slice()),
            )
        }
        _ => wrong_count(alloc, b"string"),
    }
}

fn last(alloc: Global, args: &[Bytes]) -> Result<Bytes, CmdFault>
    ensures { Gives result (last_of args.now) }
{
    match args {
        [needle, text] => give_place(alloc, last_place(needle.as_slice(), text.as_slice())),
        [needle, text, index] => {
            let end = read_index(alloc, index)?.through(text.len());
            give_place(
                alloc,
                last_place(needle.as_slice(), &text.as_slice()[..end]),
            )
        }
        _ => wrong_count(alloc, b"string"),
    }
}

fn compare(alloc: Global, args: &[Bytes]) -> Result<Bytes, CmdFault>
    ensures { Gives result (compare_of args.now) }
{
    match args {
        [one, other] => {
            let sign: &[u8] = match one.as_slice().cmp(other.as_slice()) {
                Ordering::Less => b"-1",
                Ordering::Equal => b"0",
                Ordering::Greater => b"1",
            };
            Ok(Bytes::from_slice(alloc, sign)?)
        }
        _ => wrong_count(alloc, b"string"),
    }
}

fn equal(alloc: Global, args: &[Bytes]) -> Result<Bytes, CmdFault>
    ensures { Gives result (equal_of args.now) }
{
    match args {
        [one, other] => give_truth(alloc, one.as_slice() == other.as_slice()),
        _ => wrong_count(alloc, b"string"),
    }
}

fn matches(alloc: Global, args: &[Bytes]) -> Result<Bytes, CmdFault>
    ensures { Gives result (match_of args.now) }
{
    match args {
        [pattern, text] => give_truth(alloc, glob_matches(pattern.as_slice(), text.as_slice())),
        _ => wrong_count(alloc, b"string"),
    }
}

/// Which case letters of ASCII are put in.
#[derive(Clone, Copy)]
enum Case {
    Lower,
    Upper,
}

impl Case {
    /// A byte in this case.
    fn of(self, byte: u8) -> u8
        ensures { result ≡ in_case self byte }
    {
        match self {
            Case::Lower => byte.to_ascii_lowercase(),
            Case::Upper => byte.to_ascii_uppercase(),
        }
    }

    /// The bytes of a text in this case.
    fn of_all(self, alloc: Global, text: &[u8]) -> Result<Vec<u8>, AllocError>
        ensures { IfOk result (λ v. v.items ≡ map (in_case self) text.now) }
    {
        text.iter().map(|byte| self.of(*byte)).collect(alloc)
    }

    /// A text with the bytes from one place to another in this case.
    fn mapped(
        self,
        alloc: Global,
        start: usize,
        end: usize,
        text: &[u8],
    ) -> Result<Bytes, AllocError>
        requires ordered { start ≤ end }
        requires inside { end ≤ length text.now }
        ensures { IfOk result (λ b. b ≡ mapped (in_case self) start end text.now) }
    {
        let middle = self.of_all(alloc, &text[start..end])?;
        three_texts(alloc, &text[..start], middle.as_slice(), &text[end..])
    }
}

fn cased(alloc: Global, case: Case, args: &[Bytes]) -> Result<Bytes, CmdFault>
    ensures { Gives result (cased_of (in_case case) args.now) }
{
    match args {
        [text] => within(Bytes::from_vec(case.of_all(alloc, text.as_slice())?)),
        [text, index] => {
            let start = read_index(alloc, index)?.before(text.len());
            let end = if start < text.len() { start + 1 } else { start };
            within(case.mapped(alloc, start, end, text.as_slice())?)
        }
        [text, first, last] => {
            let start = read_index(alloc, first)?.before(text.len());
            let end = read_index(alloc, last)?.through(text.len());
            within(case.mapped(alloc, start, end.max(start), text.as_slice())?)
        }
        _ => wrong_count(alloc, b"string"),
    }
}

fn trim(alloc: Global, args: &[Bytes]) -> Result<Bytes, CmdFault>
    ensures { Gives result (trim_of trimmed args.now) }
{
    match args {
        [text] => give(alloc, trimmed(text.as_slice(), &BLANKS)),
        [text, bytes] => give(alloc, trimmed(text.as_slice(), bytes.as_slice())),
        _ => wrong_count(alloc, b"string"),
    }
}

fn trim_left(alloc: Global, args: &[Bytes]) -> Result<Bytes, CmdFault>
    ensures { Gives result (trim_of trimmed_left args.now) }
{
    match args {
        [text] => give(alloc, trimmed_left(text.as_slice(), &BLANKS)),
        [text, bytes] => give(alloc, trimmed_left(text.as_slice(), bytes.as_slice())),
        _ => wrong_count(alloc, b"string"),
    }
}

fn trim_right(alloc: Global, args: &[Bytes]) -> Result<Bytes, CmdFault>
    ensures { Gives result (trim_of trimmed_right args.now) }
{
    match args {
        [text] => give(alloc, trimmed_right(text.as_slice(), &BLANKS)),
        [text, bytes] => give(alloc, trimmed_right(text.as_slice(), bytes.as_slice())),
        _ => wrong_count(alloc, b"string"),
    }
}

/// A text so many times.
#[tactic(auto, unfolding(crate::specs::Answers::limited))]
fn repeated(alloc: Global, text: &[u8], count: usize) -> Result<Bytes, CmdFault>
    ensures { Gives result (limited (repeat count text.now)) }
{
    if text.is_empty() {
        return Ok(Bytes::new(alloc));
    }
    if count > LONGEST / text.len() {
        return Err(CmdFault::TooLong);
    }
    let mut value = Bytes::new(alloc);
    for _ in 0..count {
        value.extend(text)?;
    }
    Ok(value)
}

fn repeat(alloc: Global, args: &[Bytes]) -> Result<Bytes, CmdFault>
    ensures { Gives result (repeat_of args.now) }
{
    match args {
        [text, count] => {
            let count = at_least_zero(read_number(alloc, count)?);
            repeated(alloc, text.as_slice(), count)
        }
        _ => wrong_count(alloc, b"string"),
    }
}

fn operated(alloc: Global, operation: Operation, args: &[Bytes]) -> Result<Bytes, CmdFault>
    ensures { Gives result (operated operation args.now) }
{
    match operation {
        Operation::Length => length(alloc, args),
        Operation::Index => byte(alloc, args),
        Operation::Range => range(alloc, args),
        Operation::First => first(alloc, args),
        Operation::Last => last(alloc, args),
        Operation::Compare => compare(alloc, args),
        Operation::Equal => equal(alloc, args),
        Operation::Match => matches(alloc, args),
        Operation::Lower => cased(alloc, Case::Lower, args),
        Operation::Upper => cased(alloc, Case::Upper, args),
        Operation::Trim => trim(alloc, args),
        Operation::TrimLeft => trim_left(alloc, args),
        Operation::TrimRight => trim_right(alloc, args),
        Operation::Repeat => repeat(alloc, args),
    }
}

/// What `string` gives for the words behind its name, by string(n): of bytes, with the case of ASCII's
/// letters; without flags.
///
/// # Errors
/// `Tcl` with the message of a script error: of a wrong count of words, of an unknown subcommand;
/// `TooLong` for a value of more than 1,048,576 bytes; `Memory` where a growth is refused.
#[tactic(auto, unfolding(crate::specs::Strings::string_of))]
pub fn run_string(alloc: Global, words: &[Bytes]) -> Result<Bytes, CmdFault>
    ensures { Gives result (string_of words.now) }
{
    let [word, args @ ..] = words else {
        return wrong_count(alloc, b"string");
    };
    match Operation::named(word.as_slice()) {
        None => fail(alloc, b"unknown subcommand"),
        Some(operation) => operated(alloc, operation, args),
    }
}
