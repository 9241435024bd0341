//! The reading of a command, of the words of a list, and of an operand.
ghost use Rattle.std.specs.Prelude.{◌≡◌, ◌∷◌, [], ◌+◌, ◌<◌, ◌≤◌, ◌≢◌, ◌^◌, ◌⊎◌, OnOk, IfErr, IfOk, MatchOption, MatchResult, length, drop, Ok, Err, ℕ, List};
ghost use Rattle.dg_words.specs.Answers.{ReadsAs, Made};
ghost use Rattle.dg_words.specs.First.{FirstCommand, FirstFault};
ghost use Rattle.dg_words.specs.Grammar.Spelling.{IsCommandFault, IsOperandFault, IsWordsFault, SpellsCommand, SpellsOperand};
ghost use Rattle.dg_words.specs.Grammar.Words.{WordsOf};
ghost use Rattle.dg_words.specs.Machine.{Go, follow, follow_inside, fresh, has_room, is_none, leaves, read, context_of, step, stop, stopped, take_transition};
ghost use Rattle.dg_words.specs.Reading.{command_at, kind_of, operand_at, words_of};
ghost use Rattle.dg_words.specs.Runs.{Reaches};

use crate::draft::Draft;
use crate::kinds::{Level, Opener};
use crate::run::{comment_run, text_run};
use crate::transition::ends;
use crate::word::{Parsed, Word};
use dg_bytes::Seq;
use dg_lists::{
    Context, Effect, Ending, Mode, Target, Transition, WordFault, braced_run, class_of,
};
use std::alloc::{AllocError, Global};
use std::marker::Model;

/// Brackets and indices that may be open inside each other.
const NESTING: usize = 100;

/// The outcome of a byte: the reading goes on, is over with so many bytes more, or has failed.
#[derive(Clone, Copy)]
pub enum Step {
    Go,
    Over(usize),
    Bad(WordFault),
}

/// The brackets and indices that are open in brackets. A contract sees the innermost first.
#[derive(Drop)]
struct Openers {
    inner: Vec<Opener>,
}

impl Model for Openers {
    ghost use Rattle.std.specs.Prelude.{List, reverse};
    ghost use Rattle.dg_words.specs.declared.kinds.Opener.{Opener};

    ghost Value = { List Opener };

    ghost view = { λ o. reverse o.inner.items };
}

impl Openers {
    fn new(alloc: Global) -> Openers
        ensures { result ≡ [] }
    {
        Openers {
            inner: Vec::new(alloc),
        }
    }

    fn len(&self) -> usize
        ensures { result ≡ length self.now }
    {
        self.inner.len()
    }

    fn is_empty(&self) -> bool
        ensures { result ≡ is_none self.now }
    {
        self.inner.is_empty()
    }

    fn push(&mut self, opener: Opener) -> Result<(), AllocError>
        ensures { OnOk result (self.new ≡ opener ∷ self.old) }
    {
        self.inner.push(opener)?;
        Ok(())
    }

    fn pop(&mut self) -> Option<Opener>
        ensures { MatchOption result ((self.old ≡ []) × (self.new ≡ [])) (λ o. self.old ≡ o ∷ self.new) }
    {
        self.inner.pop()
    }
}

impl Opener {
    fn context(self) -> Context
        ensures { result ≡ context_of self }
    {
        match self {
            Opener::Bracket(context) | Opener::Paren(context) => context,
        }
    }
}

/// A reading that is under way.
#[derive(Drop)]
struct Scanner {
    mode: Mode,
    depth: u64,
    inner: Openers,
    draft: Draft,
}

impl Model for Scanner {
    ghost use Rattle.dg_words.specs.Machine.{State};

    ghost Value = { State };

    ghost view = { λ s. record { mode = s.mode; depth = s.depth; inner = s.inner; draft = s.draft } };
}

impl Scanner {
    fn new(alloc: Global, mode: Mode) -> Scanner
        ensures { result ≡ fresh mode }
    {
        Scanner {
            mode,
            depth: 0,
            inner: Openers::new(alloc),
            draft: Draft::new(alloc),
        }
    }

    /// Whether one more bracket or index may open.
    fn has_room(&self) -> bool
        ensures { result ≡ has_room self.now.draft self.now.inner }
    {
        let open = self.draft.open();
        open < NESTING && self.inner.len() < NESTING - open
    }

    /// Goes there outside of brackets.
    fn follow(&mut self, next: Target) -> Result<Step, AllocError>
        requires inner { self.now.inner ≡ [] }
        requires depth { self.now.depth + 1 < 2 ^ 64 }
        ensures { IfOk result (λ made. Made (follow next self.old.depth self.old.draft) made self.new) }
    {
        match next {
            Target::To(mode) => self.mode = mode,
            Target::Deeper => {
                self.mode = Mode::Braced;
                self.depth += 1;
            }
            Target::Shallower => {
                self.mode = Mode::Braced;
                self.depth = self.depth.saturating_sub(1);
            }
            Target::Bracket(context) => {
                if !self.has_room() {
                    return Ok(Step::Bad(WordFault::MissingBracket));
                }
                self.draft.close()?;
                self.inner.push(Opener::Bracket(context))?;
                self.mode = Mode::Start;
            }
            Target::Paren(context) => {
                if !self.has_room() {
                    return Ok(Step::Bad(WordFault::MissingParen));
                }
                self.draft.open_index(context)?;
                self.mode = Mode::In(Context::Index);
            }
            Target::Leave => {
                let context = self.draft.close_index()?;
                self.mode = Mode::In(context.unwrap_or(Context::Bare));
            }
            Target::End => return Ok(Step::Over(1)),
            Target::Rest => return Ok(Step::Over(0)),
            Target::Bad(fault) => return Ok(Step::Bad(fault)),
        }
        Ok(Step::Go)
    }

    /// The innermost bracket or index within brackets ends.
    fn leave(&mut self, byte: u8) -> Result<(), AllocError>
        ensures { OnOk result (leaves self.old.inner self.old.depth self.old.draft byte ≡ Go self.new) }
    {
        let Some(opener) = self.inner.pop() else {
            self.mode = Mode::In(Context::Bare);
            return Ok(());
        };
        self.mode = Mode::In(opener.context());
        if self.inner.is_empty() {
            self.draft.command()
        } else {
            self.draft.put(byte)
        }
    }

    /// Goes there within brackets, whose text every byte belongs to. Behind a command another may begin.
    fn follow_inside(&mut self, next: Target, byte: u8) -> Result<Step, AllocError>
        requires { self.now.depth + 1 < 2 ^ 64 }
        ensures { IfOk result (λ made. Made (follow_inside next self.old.depth self.old.inner self.old.draft byte) made self.new) }
    {
        match next {
            Target::To(mode) => self.mode = mode,
            Target::Deeper => {
                self.mode = Mode::Braced;
                self.depth += 1;
            }
            Target::Shallower => {
                self.mode = Mode::Braced;
                self.depth = self.depth.saturating_sub(1);
            }
            Target::Bracket(context) => {
                if !self.has_room() {
                    return Ok(Step::Bad(WordFault::MissingBracket));
                }
                self.inner.push(Opener::Bracket(context))?;
                self.mode = Mode::Start;
            }
            Target::Paren(context) => {
                if !self.has_room() {
                    return Ok(Step::Bad(WordFault::MissingParen));
                }
                self.inner.push(Opener::Paren(context))?;
                self.mode = Mode::In(Context::Index);
            }
            Target::Leave => {
                self.leave(byte)?;
                return Ok(Step::Go);
            }
            Target::End | Target::Rest => self.mode = Mode::Start,
            Target::Bad(fault) => return Ok(Step::Bad(fault)),
        }
        self.draft.put(byte)?;
        Ok(Step::Go)
    }

    fn take_transition(&mut self, transition: Transition, byte: u8) -> Result<Step, AllocError>
        requires { self.now.depth + 1 < 2 ^ 64 }
        ensures { IfOk result (λ made. Made (take_transition transition self.old.depth self.old.inner self.old.draft byte) made self.new) }
    {
        if !self.inner.is_empty() {
            return self.follow_inside(transition.next, byte);
        }
        self.draft.perform(transition.first)?;
        self.draft.perform(transition.second)?;
        self.follow(transition.next)
    }

    /// One more byte.
    #[tactic(auto, unfolding(crate::specs::Machine::step))]
    fn step(&mut self, level: Level, byte: u8) -> Result<Step, AllocError>
        requires { self.now.depth + 1 < 2 ^ 64 }
        ensures { IfOk result (λ made. Made (step level self.old byte) made self.new) }
    {
        let here = if self.inner.is_empty() {
            level
        } else {
            Level::Inside
        };
        let transition = here.transition(self.mode, self.depth > 0, class_of(byte), byte);
        self.take_transition(transition, byte)
    }

    /// Passes over the bytes from a place on that only add to the open item, and gives the place after them.
    fn pass(&mut self, text: &[u8], from: usize) -> Result<usize, AllocError>
        requires within { from ≤ length text.now }
        requires deep { self.now.depth ≤ from }
        ensures { IfOk result (λ to. Reaches text.now from self.old to self.new) }
    {
        match self.mode {
            Mode::Braced => {
                let run = braced_run(text, from, self.depth);
                self.depth = run.depth;
                self.draft.put_all(&text[from..run.end])?;
                Ok(run.end)
            }
            Mode::In(context) => {
                let end = text_run(context, text, from);
                self.draft.put_all(&text[from..end])?;
                Ok(end)
            }
            Mode::Comment => {
                let end = comment_run(text, from);
                if self.inner.is_empty() {
                    return Ok(end);
                }
                self.draft.put_all(&text[from..end])?;
                Ok(end)
            }
            _ => Ok(from),
        }
    }

    /// The text ends: gives its words, or the end that is missing.
    #[tactic(auto, unfolding(crate::specs::Machine::stop))]
    fn stop(self) -> Result<Seq<Word>, WordFault>
        ensures { MatchResult result (λ words. stop self ≡ Ok words) (λ f. (f ≡ WordFault.Memory) ⊎ (stop self ≡ Err f)) }
    {
        let ending = ends(self.mode, self.inner.is_empty());
        let Scanner { draft, .. } = self;
        match ending {
            Ending::Word(first, second) => Ok(draft.ended(first, second)?),
            Ending::Done => Ok(draft.into_words()),
            Ending::Bad(fault) => Err(fault),
        }
    }

    /// The text ends at a place: gives the words and that place, or the end that is missing.
    fn at_end(self, place: usize) -> Result<Parsed, WordFault>
        ensures { ReadsAs (λ p. (p.words, p.next)) result (stopped (stop self) place) }
    {
        match self.stop() {
            Ok(words) => Ok(Parsed { words, next: place }),
            Err(fault) => Err(fault),
        }
    }

    /// The whole words.
    fn into_words(self) -> Seq<Word>
        ensures { result ≡ self.draft.words }
    {
        let Scanner { draft, .. } = self;
        draft.into_words()
    }

    /// Reads on from a place until what is read is over, and tells the place behind it, or none where the
    /// text ends.
    fn read_on(&mut self, level: Level, text: &[u8], at: usize) -> Result<Option<usize>, WordFault>
        requires within { at ≤ length text.now }
        requires deep { self.now.depth ≤ at }
        ensures { let answer = read level (drop at text.now) self.old at in
            MatchResult result
            (λ next. MatchOption next (answer ≡ stopped (stop self.new) (length text.now)) (λ n. answer ≡ Ok (self.new.draft.words, n)))
            (λ f. (f ≡ WordFault.Memory) ⊎ (kind_of answer ≡ Err f)) }
    {
        let mut place = at;
        while place < text.len() {
            match self.step(level, text[place])? {
                Step::Go => place = self.pass(text, place + 1)?,
                Step::Over(taken) => return Ok(Some(place + taken)),
                Step::Bad(fault) => return Err(fault),
            }
        }
        Ok(None)
    }
}

/// Reads from a place on: the words, the place behind them, or the first fault.
fn scan(
    alloc: Global,
    level: Level,
    mode: Mode,
    text: &[u8],
    at: usize,
) -> Result<Parsed, WordFault>
    requires { at ≤ length text.now }
    ensures { ReadsAs (λ p. (p.words, p.next)) result (read level (drop at text.now) (fresh mode) at) }
{
    let mut scanner = Scanner::new(alloc, mode);
    match scanner.read_on(level, text, at) {
        Ok(Some(next)) => Ok(Parsed {
            words: scanner.into_words(),
            next,
        }),
        Ok(None) => scanner.at_end(text.len()),
        Err(fault) => Err(fault),
    }
}

/// Reads one command from a place on, by Tcl(n): its words, and the place just behind the newline or
/// `;` that ends it, or the length of the text. Newlines, `;`, blanks and comments before it are
/// skipped; there are no words only at the end of the text. By the grammar a command of these words is
/// spelled there, up to that place, and no other.
///
/// # Errors
/// The first fault of the text from there on, or `Memory` where a growth is refused. What stands before a
/// fault's place can go on to a command, nothing that begins with the bytes up to the one there begins with
/// one, and the kind says what is wrong: which end is missing, that a word has ended, or that an escape
/// writes no character.
pub fn parse_command(alloc: Global, text: &[u8], at: usize) -> Result<Parsed, WordFault>
    requires { at ≤ length text.now }
    ensures reading { MatchResult result (λ p. command_at text.now at ≡ Ok (p.words, p.next)) (λ f. (f ≡ WordFault.Memory) ⊎ (command_at text.now at ≡ Err f)) }
    // The place behind is within the text, and further on where there are words.
    ensures within { IfOk result (λ p. p.next ≤ length text.now) }
    ensures onward { IfOk result (λ p. p.words ≢ [] → at < p.next) }
    // No words: nothing is left.
    ensures over { IfOk result (λ p. p.words ≡ [] → p.next ≡ length text.now) }
    // By the grammar these words are spelled there, up to the place behind.
    ensures spelled { IfOk result (λ p. SpellsCommand text.now at p.words p.next) }
    // Before the fault the text can go on to a command, up to it nothing begins with one, and its kind says what is wrong.
    ensures fault { IfErr result (λ f. (f ≡ WordFault.Memory) ⊎ IsCommandFault f (drop at text.now)) }
{
    scan(alloc, Level::Top, Mode::Start, text, at)
}

/// Reads the words of a text, by the same rules, but newlines are blanks, and `;` and `#` stand for
/// themselves. By the grammar the text spells these words, and no others.
///
/// # Errors
/// The first fault of the text, or `Memory` where a growth is refused. A fault has its place and says what
/// is wrong there, as for a command.
pub fn parse_words(alloc: Global, text: &[u8]) -> Result<Seq<Word>, WordFault>
    ensures reading { MatchResult result (λ ws. words_of text.now ≡ Ok ws) (λ f. (f ≡ WordFault.Memory) ⊎ (words_of text.now ≡ Err f)) }
    // By the grammar the text spells these words.
    ensures spelled { IfOk result (λ ws. WordsOf text.now ws) }
    // Before the fault the text can go on to words, up to it nothing spells any, and its kind says what is wrong.
    ensures fault { IfErr result (λ f. (f ≡ WordFault.Memory) ⊎ IsWordsFault f text.now) }
{
    match scan(alloc, Level::List, Mode::Gap, text, 0) {
        Ok(Parsed { words, .. }) => Ok(words),
        Err(fault) => Err(fault),
    }
}

/// Reads the operand at a place, by the same rules: a quoted or a braced text, a variable, an element or
/// a command, as one word, and the place just behind it, whatever stands there. A dollar sign that begins
/// no variable is a text; where nothing else begins there the word has no parts and takes no bytes. By the
/// grammar this operand is spelled there, up to that place, and no other.
///
/// # Errors
/// The first fault of the text from there on, or `Memory` where a growth is refused. A fault has its place
/// and says what is wrong there, as for a command.
pub fn parse_operand(alloc: Global, text: &[u8], at: usize) -> Result<Parsed, WordFault>
    requires { at ≤ length text.now }
    ensures reading { MatchResult result (λ p. operand_at text.now at ≡ Ok (p.words, p.next)) (λ f. (f ≡ WordFault.Memory) ⊎ (operand_at text.now at ≡ Err f)) }
    // The place behind is within the text.
    ensures within { IfOk result (λ p. p.next ≤ length text.now) }
    // By the grammar this operand is spelled there, up to the place behind.
    ensures spelled { IfOk result (λ p. SpellsOperand text.now at p.words p.next) }
    // Before the fault the text can go on to an operand, up to it nothing begins with one, and its kind says what is wrong.
    ensures fault { IfErr result (λ f. (f ≡ WordFault.Memory) ⊎ IsOperandFault f (drop at text.now)) }
{
    scan(alloc, Level::Alone, Mode::Operand, text, at)
}

/// A law: the fault of a text is the first. It stands at the end of the text, or no text that begins with
/// the bytes up to the one where it stands is read.
pub fn first_fault()
    ensures { (text : List ℕ) (fault : WordFault) (place : ℕ) → read Level.Top text (fresh Mode.Start) 0 ≡ Err (fault, place) → FirstFault text fault place }
{}

/// A law: a command that ends before the text does is read so whatever follows it.
pub fn first_command()
    ensures { (text : List ℕ) (words : List Word) (next : ℕ) → read Level.Top text (fresh Mode.Start) 0 ≡ Ok (words, next) → FirstCommand text words next }
{}
