//! The commands on lists, by Tcl(n).
ghost use Rattle.std.specs.Prelude.{◌≡◌, IfOk, [], ◌∷◌, ◌++◌, filter, map, position};
ghost use Rattle.std.specs.List.{flat_map, slice_split};
ghost use Rattle.dg_lists.specs.Canonical.{text_of_list};
ghost use Rattle.dg_cmds.specs.Answers.{Adds, Gives, GivesIfNamed, given_by, limited};
ghost use Rattle.dg_cmds.specs.Bytes.{member};
ghost use Rattle.dg_cmds.specs.Lists.{concat_of, count_of, element_at, is_some_text, join_of, joined, lindex_of, list_commands, list_of, llength_of, lrange_of, lsearch_of, parts_of, passes, read_list, search_named, search_of, split_of, without_blanks};

use crate::answer::{LONGEST, add, fail, fail_about, give, give_count, give_place, wrong_count};
use crate::bytes::{BLANKS, set_of, trimmed_left, trimmed_right};
use crate::fault::CmdFault;
use crate::index::{part, read_index};
use crate::places::glob_matches;
use dg_bytes::{Bytes, Seq, Text};
use dg_lists::{WordFault, fault_text, kept_elements, list_elements, list_fits, list_text};
use std::alloc::{AllocError, Global};

/// The elements of a list.
pub(crate) fn read_list(alloc: Global, text: &Bytes) -> Result<Seq<Bytes>, CmdFault>
    ensures { Gives result (read_list text.now) }
{
    match list_elements(alloc, text) {
        Ok(elements) => Ok(elements),
        Err(WordFault::Memory) => Err(CmdFault::Memory),
        Err(fault) => fail(alloc, fault_text(fault)),
    }
}

/// The canonical text of a list, if a value may have so many bytes. It isn't built if not.
#[tactic(auto, unfolding(crate::specs::Answers::limited))]
pub(crate) fn give_list(alloc: Global, elements: &[Bytes]) -> Result<Bytes, CmdFault>
    ensures { Gives result (limited (text_of_list elements.now)) }
{
    if !list_fits(elements, LONGEST) {
        return Err(CmdFault::TooLong);
    }
    match list_text(alloc, elements) {
        Ok(text) => Ok(text),
        Err(_) => Err(CmdFault::Memory),
    }
}

/// `list`: the list of the words.
pub(crate) fn list(alloc: Global, args: &[Bytes]) -> Result<Bytes, CmdFault>
    ensures { Gives result (list_of args.now) }
{
    give_list(alloc, args)
}

/// How many elements a list has. They aren't read where they are kept beside it.
fn count_of(alloc: Global, list: &Bytes) -> Result<usize, CmdFault>
    ensures { Gives result (count_of list.now) }
{
    if let Some(kept) = kept_elements(list) {
        return Ok(kept.len());
    }
    Ok(read_list(alloc, list)?.len())
}

/// `llength`: how many elements a list has.
pub(crate) fn llength(alloc: Global, args: &[Bytes]) -> Result<Bytes, CmdFault>
    ensures { Gives result (llength_of args.now) }
{
    match args {
        [list] => give_count(alloc, count_of(alloc, list)?),
        _ => wrong_count(alloc, b"llength"),
    }
}

/// A text without the blanks and newlines at its ends. One behind a backslash stays.
fn without_blanks(text: &[u8]) -> &[u8]
    ensures { result.now ≡ without_blanks text.now }
{
    let behind = trimmed_left(text, &BLANKS);
    let bare = trimmed_right(behind, &BLANKS);
    if bare.ends_with(b"\\") {
        &behind[..behind.len().min(bare.len() + 1)]
    } else {
        bare
    }
}

/// The words without the blanks at their ends, but for those that are empty then.
fn bare_words(alloc: Global, args: &[Bytes]) -> Result<Vec<Bytes>, AllocError>
    ensures { IfOk result (λ v. v.items ≡ filter is_some_text (map without_blanks args.now)) }
{
    let mut words = Vec::new(alloc);
    for word in args {
        let bare = without_blanks(word.as_slice());
        if !bare.is_empty() {
            words.push(Bytes::from_slice(alloc, bare)?)?;
        }
    }
    Ok(words)
}

/// Adds further texts at the end of a value, each behind another, if it may have so many bytes.
fn add_further(text: &mut Bytes, texts: &[Bytes], between: &[u8]) -> Result<(), CmdFault>
    ensures { Adds result text.old text.new (flat_map (λ y. between.now ++ y) texts.now) }
{
    for one in texts {
        if let Err(fault) = add(text, between) {
            return Err(fault);
        }
        if let Err(fault) = add(text, one.as_slice()) {
            return Err(fault);
        }
    }
    Ok(())
}

/// Adds texts at the end of an empty value, with another between each two, if it may have so many bytes.
fn add_all(text: &mut Bytes, texts: &[Bytes], between: &[u8]) -> Result<(), CmdFault>
    ensures { Adds result text.old text.new (joined between.now texts.now) }
{
    match texts {
        [] => Ok(()),
        [first, further @ ..] => {
            if let Err(fault) = add(text, first.as_slice()) {
                return Err(fault);
            }
            add_further(text, further, between)
        }
    }
}

/// Texts with another between each two, if a value may have so many bytes.
#[tactic(auto, unfolding(crate::specs::Answers::limited))]
fn joined(alloc: Global, texts: &[Bytes], between: &[u8]) -> Result<Bytes, CmdFault>
    ensures { Gives result (limited (joined between.now texts.now)) }
{
    let mut text = Bytes::new(alloc);
    match add_all(&mut text, texts, between) {
        Ok(()) => Ok(text),
        Err(fault) => Err(fault),
    }
}

/// `concat`: the words without blanks at their ends, but for those that are empty then, with a space between
/// each two, by concat(n).
///
/// # Errors
/// `TooLong` for a value of more than 1,048,576 bytes; `Memory` where a growth is refused.
pub fn concat(alloc: Global, args: &[Bytes]) -> Result<Bytes, CmdFault>
    ensures { Gives result (concat_of args.now) }
{
    let words = bare_words(alloc, args)?;
    joined(alloc, words.as_slice(), b" ")
}

/// The elements of a list with a text between each two.
fn join_list(alloc: Global, list: &Bytes, between: &[u8]) -> Result<Bytes, CmdFault>
    ensures { Gives result (join_of (list.now ∷ between.now ∷ [])) }
{
    let elements = read_list(alloc, list)?;
    joined(alloc, elements.as_slice(), between)
}

/// `join`: the elements of a list with a text between each two.
pub(crate) fn join(alloc: Global, args: &[Bytes]) -> Result<Bytes, CmdFault>
    ensures { Gives result (join_of args.now) }
{
    match args {
        [list] => join_list(alloc, list, b" "),
        [list, between] => join_list(alloc, list, between.as_slice()),
        _ => wrong_count(alloc, b"join"),
    }
}

/// Each byte of a text by itself.
fn single_bytes(alloc: Global, text: &[u8]) -> Result<Vec<Bytes>, AllocError>
    ensures { IfOk result (λ v. v.items ≡ map (λ c. c ∷ []) text.now) }
{
    let mut parts = Vec::new(alloc);
    for byte in text {
        parts.push(Bytes::from_slice(alloc, &[*byte])?)?;
    }
    Ok(parts)
}

/// The parts of a text between the bytes that separate them.
pub(crate) fn cut(alloc: Global, text: &[u8], separators: &[u8]) -> Result<Vec<Bytes>, AllocError>
    ensures { IfOk result (λ v. v.items ≡ slice_split (member separators.now) text.now) }
{
    let set = set_of(separators);
    let mut parts = Vec::new(alloc);
    let mut part = Bytes::new(alloc);
    for byte in text {
        if set[*byte as usize] {
            parts.push(part)?;
            part = Bytes::new(alloc);
            continue;
        }
        part.push(*byte)?;
    }
    parts.push(part)?;
    Ok(parts)
}

/// The parts of a text between the bytes that separate them, or each byte by itself if there are none.
fn parts(alloc: Global, text: &[u8], separators: &[u8]) -> Result<Vec<Bytes>, AllocError>
    ensures { IfOk result (λ v. v.items ≡ parts_of text.now separators.now) }
{
    if text.is_empty() {
        Ok(Vec::new(alloc))
    } else if separators.is_empty() {
        single_bytes(alloc, text)
    } else {
        cut(alloc, text, separators)
    }
}

/// The list of the parts of a text between these bytes.
fn split_text(alloc: Global, text: &Bytes, separators: &[u8]) -> Result<Bytes, CmdFault>
    ensures { Gives result (split_of (text.now ∷ separators.now ∷ [])) }
{
    let parts = parts(alloc, text.as_slice(), separators)?;
    give_list(alloc, parts.as_slice())
}

/// `split`: the list of the parts of a text.
pub(crate) fn split(alloc: Global, args: &[Bytes]) -> Result<Bytes, CmdFault>
    ensures { Gives result (split_of args.now) }
{
    match args {
        [text] => split_text(alloc, text, b" \t\n\r"),
        [text, bytes] => split_text(alloc, text, bytes.as_slice()),
        _ => wrong_count(alloc, b"split"),
    }
}

/// How elements are tested.
#[derive(Clone, Copy)]
enum Search {
    Exact,
    Glob,
}

/// The test that a flag says.
fn search_named(flag: &[u8]) -> Option<Search>
    ensures { result ≡ search_named flag.now }
{
    if flag == b"-exact".as_slice() {
        Some(Search::Exact)
    } else if flag == b"-glob".as_slice() {
        Some(Search::Glob)
    } else {
        None
    }
}

impl Search {
    /// Whether an element passes.
    fn passes(self, pattern: &[u8], element: &[u8]) -> bool
        ensures { result ≡ passes self pattern.now element.now }
    {
        match self {
            Search::Exact => element == pattern,
            Search::Glob => glob_matches(pattern, element),
        }
    }

    /// The place of the first element that passes.
    fn place(self, elements: &[Bytes], pattern: &[u8]) -> Option<usize>
        ensures { result ≡ position (passes self pattern.now) elements.now }
    {
        elements
            .iter()
            .position(|element| self.passes(pattern, element.as_slice()))
    }
}

/// The place of the first element that passes, or -1.
fn find_place(alloc: Global, how: Search, list: &Bytes, pattern: &Bytes) -> Result<Bytes, CmdFault>
    ensures { Gives result (search_of (passes how pattern.now) list.now) }
{
    let elements = read_list(alloc, list)?;
    give_place(alloc, how.place(elements.as_slice(), pattern.as_slice()))
}

/// `lsearch`: the place of the first element that a glob matches, or that is the same as a text.
pub(crate) fn lsearch(alloc: Global, args: &[Bytes]) -> Result<Bytes, CmdFault>
    ensures { Gives result (lsearch_of args.now) }
{
    match args {
        [list, pattern] => find_place(alloc, Search::Glob, list, pattern),
        [flag, list, pattern] => match search_named(flag.as_slice()) {
            Some(how) => find_place(alloc, how, list, pattern),
            None => fail_about(alloc, b"bad flag ", flag.as_slice()),
        },
        _ => wrong_count(alloc, b"lsearch"),
    }
}

/// An element that is kept, if a value may have so many bytes. It isn't copied.
#[tactic(auto, unfolding(crate::specs::Answers::limited))]
fn give_kept(element: &Text) -> Result<Bytes, CmdFault>
    ensures { Gives result (limited element.now) }
{
    if element.len() > LONGEST {
        return Err(CmdFault::TooLong);
    }
    Ok(Bytes::from_text(element.share()?))
}

/// The element at an index of a list, or the empty text. The list isn't read where its elements are kept
/// beside it.
fn element_at(alloc: Global, list: &Bytes, index: &Bytes) -> Result<Bytes, CmdFault>
    ensures { Gives result (element_at list.now index.now) }
{
    if let Some(kept) = kept_elements(list) {
        let at = read_index(alloc, index)?;
        return match part(kept, at, at) {
            [] => give(alloc, b""),
            [element, ..] => give_kept(element),
        };
    }
    let elements = read_list(alloc, list)?;
    let at = read_index(alloc, index)?;
    match part(elements.as_slice(), at, at) {
        [] => give(alloc, b""),
        [element, ..] => give(alloc, element.as_slice()),
    }
}

/// `lindex`: the element at an index, or the empty text.
pub(crate) fn lindex(alloc: Global, args: &[Bytes]) -> Result<Bytes, CmdFault>
    ensures { Gives result (lindex_of args.now) }
{
    let [list, index] = args else {
        return wrong_count(alloc, b"lindex");
    };
    element_at(alloc, list, index)
}

/// `lrange`: the list of the elements from one index to another, as far as there are any.
pub(crate) fn lrange(alloc: Global, args: &[Bytes]) -> Result<Bytes, CmdFault>
    ensures { Gives result (lrange_of args.now) }
{
    let [list, first, last] = args else {
        return wrong_count(alloc, b"lrange");
    };
    let elements = read_list(alloc, list)?;
    let first = read_index(alloc, first)?;
    let last = read_index(alloc, last)?;
    give_list(alloc, part(elements.as_slice(), first, last))
}

/// What the list command of this name gives for the words behind it. None where no list command has the
/// name.
pub(crate) fn run_list(
    alloc: Global,
    name: &[u8],
    words: &[Bytes],
) -> Option<Result<Bytes, CmdFault>>
    ensures { GivesIfNamed result (given_by list_commands name.now words.now) }
{
    if name == b"list".as_slice() {
        Some(list(alloc, words))
    } else if name == b"llength".as_slice() {
        Some(llength(alloc, words))
    } else if name == b"lindex".as_slice() {
        Some(lindex(alloc, words))
    } else if name == b"lrange".as_slice() {
        Some(lrange(alloc, words))
    } else if name == b"concat".as_slice() {
        Some(concat(alloc, words))
    } else if name == b"join".as_slice() {
        Some(join(alloc, words))
    } else if name == b"split".as_slice() {
        Some(split(alloc, words))
    } else if name == b"lsearch".as_slice() {
        Some(lsearch(alloc, words))
    } else {
        None
    }
}
