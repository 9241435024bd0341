//! `-re` patterns: whether they are known to be read, and the patterns of `expect`, each built once.
ghost use Rattle.std.specs.Prelude.{◌≡◌, ◌≢◌, [], ◌∷◌, IfOk, MatchOption};
ghost use Rattle.dg_language.specs.ExpectWords.{patterns_in, regexes_in};
ghost use Rattle.dg_language.specs.Patterns.{is_read};
ghost use Rattle.dg_machine.specs.Patterns.{Knows, Makes};

use dg_bytes::{Bytes, Seq, TryCopy};
use dg_forms::split;
use dg_language::{Awaited, Pair, State};
use dg_match::{Pattern, PatternFault, Programs, Reading};
use dg_world::{Answer, Question};
use std::alloc::{AllocError, Global};
use std::marker::Model;

/// How far some `-re` patterns are known.
#[derive(Drop)]
pub(crate) enum Known {
    /// All of them are read.
    AllRead,
    /// One is not, and all before it are.
    OneUnread,
    /// This question has no answer yet.
    Unasked(Question),
}

/// Whether an answer is that a pattern is read.
fn is_read(answer: &Answer) -> bool
    ensures { result ≡ is_read answer.now }
{
    matches!(answer, Answer::Reading(Reading::Read))
}

/// Whether a `-re` pattern is known to be read.
pub(crate) fn reading_of(alloc: Global, state: &State, text: &Bytes) -> Result<Known, AllocError>
    ensures { IfOk result (Knows (text.now ∷ []) state.now) }
{
    let question = Question::Pattern(text.copy(alloc)?);
    let Some(answer) = state.answer_to(&question) else {
        return Ok(Known::Unasked(question));
    };
    if is_read(answer) {
        Ok(Known::AllRead)
    } else {
        Ok(Known::OneUnread)
    }
}

/// Whether some `-re` patterns are known to be read, which are asked for in order.
pub(crate) fn readings_of(
    alloc: Global,
    state: &State,
    texts: &[Bytes],
) -> Result<Known, AllocError>
    ensures { IfOk result (Knows texts.now state.now) }
{
    let mut left = texts;
    'texts: loop {
        let Some((text, others)) = split(left) else {
            return Ok(Known::AllRead);
        };
        match reading_of(alloc, state, text)? {
            Known::AllRead => {}
            Known::OneUnread => return Ok(Known::OneUnread),
            Known::Unasked(question) => return Ok(Known::Unasked(question)),
        }
        left = others;
    }
}

/// What is made of what a pair waits for.
#[derive(Drop)]
pub(crate) enum Made {
    /// A pattern.
    Made(Pattern),
    /// It waits for no output.
    Nothing,
    /// A `-re` pattern that can't be built.
    Lost,
}

/// Makes the pattern of what a pair waits for.
fn make_pattern(
    alloc: Global,
    programs: &mut Programs,
    awaited: &Awaited,
) -> Result<Made, AllocError>
    ensures { IfOk result (Makes awaited.now) }
{
    match awaited {
        Awaited::Glob(glob) => Ok(Made::Made(Pattern::Glob(glob.copy(alloc)?))),
        Awaited::Exact(text) => Ok(Made::Made(Pattern::Exact(text.copy(alloc)?))),
        Awaited::Regex(text) => match programs.build(alloc, text) {
            Ok(pattern) => Ok(Made::Made(pattern)),
            Err(PatternFault::Memory) => Err(AllocError),
            Err(PatternFault::Syntax | PatternFault::TooLarge) => Ok(Made::Lost),
        },
        Awaited::Timeout | Awaited::End | Awaited::Default => Ok(Made::Nothing),
    }
}

/// Makes the patterns of pairs, in order, or gives none where a `-re` pattern can't be built.
#[tactic(auto, unfolding(dg_language::specs::ExpectWords::patterns_in, dg_language::specs::ExpectWords::regexes_in))]
fn make_patterns(
    alloc: Global,
    programs: &mut Programs,
    pairs: &[Pair],
) -> Result<Option<Seq<Pattern>>, AllocError>
    ensures { IfOk result (λ o. MatchOption o (regexes_in pairs.now ≢ []) (λ ps. ps ≡ patterns_in pairs.now)) }
{
    let mut patterns = Seq::new(alloc);
    let mut left = pairs;
    'pairs: loop {
        let Some((pair, others)) = split(left) else {
            return Ok(Some(patterns));
        };
        match make_pattern(alloc, programs, &pair.awaited)? {
            Made::Made(pattern) => patterns.push(pattern)?,
            Made::Nothing => {}
            Made::Lost => return Ok(None),
        }
        left = others;
    }
}

/// The pairs of an `expect`, with the patterns of those that wait for output. A contract sees the pairs.
#[derive(Drop)]
pub(crate) struct Prepared {
    pairs: Seq<Pair>,
    patterns: Seq<Pattern>,
}

impl Model for Prepared {
    ghost use Rattle.std.specs.Prelude.{◌≡◌, List};
    ghost use Rattle.dg_language.specs.declared.expect.Pair.{Pair};
    ghost use Rattle.dg_language.specs.ExpectWords.{patterns_in};

    ghost Value = { List Pair };

    ghost view = { λ p. p.pairs };

    ghost invariant = { λ p. p.patterns ≡ patterns_in p.pairs };
}

impl Prepared {
    /// Makes the patterns of pairs, or gives nothing where a `-re` pattern can't be built.
    pub(crate) fn new(
        alloc: Global,
        programs: &mut Programs,
        pairs: Seq<Pair>,
    ) -> Result<Option<Prepared>, AllocError>
        ensures { IfOk result (λ o. MatchOption o (regexes_in pairs ≢ []) (λ p. p ≡ pairs)) }
    {
        match make_patterns(alloc, programs, pairs.as_slice())? {
            Some(patterns) => Ok(Some(Prepared { pairs, patterns })),
            None => Ok(None),
        }
    }

    /// The pairs.
    pub(crate) fn pairs(&self) -> &[Pair]
        ensures { result.now ≡ self.now }
    {
        self.pairs.as_slice()
    }

    /// The patterns of those that wait for output, in order.
    pub(crate) fn patterns(&self) -> &[Pattern]
        ensures { result.now ≡ patterns_in self.now }
    {
        self.patterns.as_slice()
    }
}
