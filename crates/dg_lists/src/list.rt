//! Lists and their canonical text, by Tcl(n).
ghost use Rattle.std.specs.Prelude.{◌≡◌, ◌++◌, ◌+◌, ◌<◌, ◌≤◌, ◌^◌, ◌⊎◌, OnOk, OnErr, IfOk, IfErr, IfSome, MatchResult, length, Ok, Err, ℕ, List};
ghost use Rattle.dg_lists.specs.Appending.{Appends, Refuses};
ghost use Rattle.dg_lists.specs.Canonical.{text_of_list};
ghost use Rattle.dg_lists.specs.Elements.{elements_of, list_bare, list_behind, list_braced, list_effect, list_ends, list_follow, list_gap, list_join, list_number_ends, list_numbered, list_pair, list_quoted, list_context, list_context_ends, list_step, list_stop, list_transition, unread};
ghost use Rattle.dg_lists.specs.Grammar.Lists.{ListOf};
ghost use Rattle.dg_lists.specs.Grammar.Spelling.{IsListFault};
ghost use Rattle.dg_lists.specs.ListRuns.{Passes};
ghost use Rattle.dg_lists.specs.Transitions.{with_digit};

use crate::fault::{ListFault, WordFault};
use crate::kinds::{Class, Context, Delimiter, Digits, Effect, Ending, Mode, Target, Transition};
use crate::measure::list_fits;
use crate::run::braced_run;
use crate::transition::{class_of, counted, escaped, in_braces, is_space, push_code};
use dg_bytes::{Bytes, Growth, Seq, Text, TryCopy};
use std::alloc::{AllocError, Global};
use std::marker::Model;
use std::mem;

/// Between elements.
fn in_gap(class: Class, byte: u8) -> Transition
    ensures { result ≡ list_gap class byte }
{
    match class {
        Class::Blank | Class::Newline => Transition::goes(Mode::Gap),
        Class::Quote => Transition::goes(Mode::In(Context::Quoted)),
        Class::Open => Transition::goes(Mode::Braced),
        Class::Backslash => Transition::goes(Mode::Pair(Context::Bare)),
        _ => Transition::puts(byte, Mode::In(Context::Bare)),
    }
}

fn in_bare(class: Class, byte: u8) -> Transition
    ensures { result ≡ list_bare class byte }
{
    match class {
        Class::Blank | Class::Newline => Transition::does(Effect::Word, Target::To(Mode::Gap)),
        Class::Backslash => Transition::goes(Mode::Pair(Context::Bare)),
        _ => Transition::puts(byte, Mode::In(Context::Bare)),
    }
}

fn in_quoted(class: Class, byte: u8) -> Transition
    ensures { result ≡ list_quoted class byte }
{
    match class {
        Class::Quote => Transition::does(Effect::Word, Target::To(Mode::Behind(Delimiter::Quote))),
        Class::Backslash => Transition::goes(Mode::Pair(Context::Quoted)),
        _ => Transition::puts(byte, Mode::In(Context::Quoted)),
    }
}

impl Context {
    fn in_list(self, class: Class, byte: u8) -> Transition
        ensures { result ≡ list_context self class byte }
    {
        match self {
            Context::Quoted => in_quoted(class, byte),
            _ => in_bare(class, byte),
        }
    }

    fn list_join(self, class: Class, byte: u8) -> Transition
        ensures { result ≡ list_join self class byte }
    {
        if is_space(byte) {
            Transition::goes(Mode::Join(self))
        } else {
            self.in_list(class, byte)
        }
    }

    fn list_numbered(self, digits: Digits, class: Class, byte: u8) -> Transition
        ensures { result ≡ list_numbered self digits class byte (with_digit digits byte) }
    {
        match digits.with(byte) {
            Some(value) => counted(self, digits.escape, digits.left, value),
            None => self.in_list(class, byte).behind_number(digits.whole()),
        }
    }

    /// The list ends in an element, behind a last effect.
    fn list_ends(self, effect: Effect) -> Ending
        ensures { result ≡ list_context_ends self effect }
    {
        match self {
            Context::Quoted => Ending::Bad(WordFault::ListQuote),
            _ => Ending::Word(Effect::Nothing, effect),
        }
    }

    fn list_number_ends(self, effect: Option<Effect>) -> Ending
        ensures { result ≡ list_number_ends self effect }
    {
        match (self, effect) {
            (_, Some(effect)) => self.list_ends(effect),
            (Context::Quoted, None) => Ending::Bad(WordFault::ListQuote),
            (_, None) => Ending::Bad(WordFault::BadCodePoint),
        }
    }
}

/// A joined line is a space of the element.
fn in_pair(context: Context, class: Class, byte: u8) -> Transition
    ensures { result ≡ list_pair context class byte }
{
    match class {
        Class::Newline => Transition::puts(b' ', Mode::Join(context)),
        _ => escaped(context, byte),
    }
}

/// A braced element is taken as it stands.
fn in_braced(deep: bool, class: Class, byte: u8) -> Transition
    ensures { result ≡ list_braced deep class byte }
{
    in_braces(Transition::puts(byte, Mode::BracedPair), deep, class, byte)
}

fn behind(class: Class) -> Transition
    ensures { result ≡ list_behind class }
{
    match class {
        Class::Blank | Class::Newline => Transition::goes(Mode::Gap),
        _ => Transition::does(Effect::Nothing, Target::Bad(WordFault::ListAfter)),
    }
}

impl Mode {
    #[tactic(auto, unfolding(crate::specs::Elements::list_transition))]
    fn list_transition(self, deep: bool, class: Class, byte: u8) -> Transition
        ensures { result ≡ list_transition deep self class byte }
    {
        match self {
            Mode::Gap => in_gap(class, byte),
            Mode::In(context) => context.in_list(class, byte),
            Mode::Pair(context) => in_pair(context, class, byte),
            Mode::Join(context) => context.list_join(class, byte),
            Mode::Number(context, digits) => context.list_numbered(digits, class, byte),
            Mode::Braced => in_braced(deep, class, byte),
            Mode::BracedPair => Transition::puts(byte, Mode::Braced),
            _ => behind(class),
        }
    }

    #[tactic(auto, unfolding(crate::specs::Elements::list_ends))]
    fn list_ends(self) -> Ending
        ensures { result ≡ list_ends self }
    {
        match self {
            Mode::In(context) | Mode::Join(context) => context.list_ends(Effect::Nothing),
            Mode::Pair(context) => context.list_ends(Effect::Byte(b'\\')),
            Mode::Number(context, digits) => context.list_number_ends(digits.whole()),
            Mode::Braced | Mode::BracedPair => Ending::Bad(WordFault::ListBrace),
            _ => Ending::Done,
        }
    }
}

/// A list whose reading is under way.
#[derive(Drop)]
struct Listing {
    alloc: Global,
    mode: Mode,
    depth: u64,
    elements: Seq<Bytes>,
    text: Bytes,
}

impl Model for Listing {
    ghost use Rattle.dg_lists.specs.Elements.{Listing};

    ghost Value = { Listing };

    ghost view = { λ s. record { mode = s.mode; depth = s.depth; elements = s.elements; text = s.text } };
}

impl Listing {
    fn new(alloc: Global) -> Listing
        ensures { result ≡ unread }
    {
        Listing {
            alloc,
            mode: Mode::Gap,
            depth: 0,
            elements: Seq::new(alloc),
            text: Bytes::new(alloc),
        }
    }

    fn end_element(&mut self) -> Result<(), AllocError>
        ensures { OnOk result (self.new ≡ list_effect Effect.Word self.old) }
    {
        let text = mem::replace(&mut self.text, Bytes::new(self.alloc));
        self.elements.push(text)?;
        Ok(())
    }

    /// Applies the effect of a byte.
    fn perform(&mut self, effect: Effect) -> Result<(), AllocError>
        ensures { OnOk result (self.new ≡ list_effect effect self.old) }
    {
        match effect {
            Effect::Byte(byte) => self.text.push(byte),
            Effect::Code(code) => push_code(&mut self.text, code),
            Effect::Word => self.end_element(),
            _ => Ok(()),
        }
    }

    /// Goes there, or fails.
    fn follow(&mut self, next: Target) -> Result<(), WordFault>
        requires { self.now.depth + 1 < 2 ^ 64 }
        ensures { MatchResult result (λ _. list_follow next self.old ≡ Ok self.new) (λ f. list_follow next self.old ≡ Err f) }
    {
        match next {
            Target::To(mode) => self.mode = mode,
            Target::Deeper => {
                self.mode = Mode::Braced;
                self.depth += 1;
            }
            Target::Shallower => {
                self.mode = Mode::Braced;
                self.depth = self.depth.saturating_sub(1);
            }
            Target::Bad(fault) => return Err(fault),
            _ => return Err(WordFault::ListAfter),
        }
        Ok(())
    }

    /// One more byte.
    #[tactic(auto, unfolding(crate::specs::Elements::list_step))]
    fn step(&mut self, byte: u8) -> Result<(), WordFault>
        requires { self.now.depth + 1 < 2 ^ 64 }
        ensures { MatchResult result (λ _. list_step self.old byte ≡ Ok self.new) (λ f. (f ≡ WordFault.Memory) ⊎ (list_step self.old byte ≡ Err f)) }
    {
        let transition = self
            .mode
            .list_transition(self.depth > 0, class_of(byte), byte);
        self.perform(transition.first)?;
        self.perform(transition.second)?;
        self.follow(transition.next)
    }

    /// Passes over the bytes from a place on that only add to the element that is open, and tells the
    /// place behind them.
    fn pass(&mut self, text: &[u8], from: usize) -> Result<usize, AllocError>
        requires within { from ≤ length text.now }
        requires deep { self.now.depth ≤ from }
        ensures { IfOk result (λ to. Passes text.now from self.old to self.new) }
    {
        match self.mode {
            Mode::Braced => {
                let run = braced_run(text, from, self.depth);
                self.depth = run.depth;
                self.text.extend(&text[from..run.end])?;
                Ok(run.end)
            }
            Mode::In(context) => {
                let end = context.element_run(text, from);
                self.text.extend(&text[from..end])?;
                Ok(end)
            }
            _ => Ok(from),
        }
    }

    /// The list ends: gives its elements, or the end that is missing.
    #[tactic(auto, unfolding(crate::specs::Elements::list_stop))]
    fn stop(mut self) -> Result<Seq<Bytes>, WordFault>
        ensures { MatchResult result (λ xs. list_stop self ≡ Ok xs) (λ f. (f ≡ WordFault.Memory) ⊎ (list_stop self ≡ Err f)) }
    {
        match self.mode.list_ends() {
            Ending::Word(first, second) => {
                self.perform(first)?;
                self.perform(second)?;
                self.end_element()?;
            }
            Ending::Done => {}
            Ending::Bad(fault) => return Err(fault),
        }
        let Listing { elements, .. } = self;
        Ok(elements)
    }
}

/// The elements, or the first fault.
fn read_list(alloc: Global, text: &[u8]) -> Result<Seq<Bytes>, WordFault>
    ensures { MatchResult result (λ xs. elements_of text.now ≡ Ok xs) (λ f. (f ≡ WordFault.Memory) ⊎ (elements_of text.now ≡ Err f)) }
{
    let mut listing = Listing::new(alloc);
    let mut place = 0;
    while place < text.len() {
        match listing.step(text[place]) {
            Ok(()) => place = listing.pass(text, place + 1)?,
            Err(fault) => return Err(fault),
        }
    }
    match listing.stop() {
        Ok(elements) => Ok(elements),
        Err(fault) => Err(fault),
    }
}

/// Reads the elements of a list, by Tcl(n): they are separated by blanks and newlines, and each is
/// braced (taken as it stands), quoted or bare, the last two with the escapes of a script's words. The
/// canonical text of a list is read as just that list. By the grammar the text spells this list, and no
/// other.
///
/// # Errors
/// The first fault of the text: `ListBrace` or `ListQuote` where it ends inside an element, `ListAfter`
/// where a braced or quoted one is followed by more, `BadCodePoint`; or `Memory` where a growth is
/// refused. What stands before a fault's place can go on to a list, and nothing that begins with the bytes
/// up to the one there is one.
pub fn split_list(alloc: Global, text: &[u8]) -> Result<Seq<Bytes>, WordFault>
    ensures reading { MatchResult result (λ xs. elements_of text.now ≡ Ok xs) (λ f. (f ≡ WordFault.Memory) ⊎ (elements_of text.now ≡ Err f)) }
    // A canonical text gives its list back.
    ensures canonical { (xs : List (List ℕ)) → text.now ≡ text_of_list xs → MatchResult result (λ ys. ys ≡ xs) (λ f. f ≡ WordFault.Memory) }
    // By the grammar the text spells this list.
    ensures spelled { IfOk result (λ xs. ListOf text.now xs) }
    // Before the fault the text can go on to a list, up to it nothing is one, and its kind says what is wrong.
    ensures fault { IfErr result (λ f. (f ≡ WordFault.Memory) ⊎ IsListFault f text.now) }
{
    read_list(alloc, text)
}

/// The canonical text of a list: its elements, joined by one space. An empty one is `{}`; one without
/// special bytes stands as it is, unless it begins the list with `#`; one that can stand in braces stands
/// in braces; in any other each special byte, and a `#` that begins the list, has a backslash before it,
/// and a newline is `\n`. (Tcl writes some elements otherwise, to the same effect.) The elements stay
/// beside it.
///
/// # Errors
/// `Memory` where a growth is refused.
pub fn list_text(alloc: Global, elements: &[Bytes]) -> Result<Bytes, WordFault>
    ensures { MatchResult result (λ text. text ≡ text_of_list elements.now) (λ f. f ≡ WordFault.Memory) }
{
    Ok(Bytes::from_list(alloc, elements)?)
}

/// The elements of a list, where they are kept beside its text.
#[tactic(auto, using(crate::proofs::RoundTrip::kept_reads))]
pub fn kept_elements(list: &Bytes) -> Option<&[Text]>
    ensures { IfSome result (λ e. elements_of list.now ≡ Ok e.now) }
{
    list.elements()
}

/// Texts as they are, with no copy of their bytes.
fn shared(alloc: Global, texts: &[Text]) -> Result<Seq<Bytes>, AllocError>
    ensures { IfOk result (λ s. s ≡ texts.now) }
{
    let mut items = Vec::with_capacity(alloc, texts.len())?;
    for text in texts {
        items.push(Bytes::from_text(text.share()?))?;
    }
    Ok(Seq::from_vec(items))
}

/// The elements of a list, as `split_list` reads them. Those that are kept beside the text are shared.
///
/// # Errors
/// As `split_list`.
pub fn list_elements(alloc: Global, list: &Bytes) -> Result<Seq<Bytes>, WordFault>
    ensures reading { MatchResult result (λ xs. elements_of list.now ≡ Ok xs) (λ f. (f ≡ WordFault.Memory) ⊎ (elements_of list.now ≡ Err f)) }
    // By the grammar the text spells this list, or it has a first fault, as for `split_list`.
    ensures spelled { IfOk result (λ xs. ListOf list.now xs) }
    ensures fault { IfErr result (λ f. (f ≡ WordFault.Memory) ⊎ IsListFault f list.now) }
{
    if let Some(kept) = kept_elements(list) {
        return Ok(shared(alloc, kept)?);
    }
    read_list(alloc, list.as_slice())
}

/// The canonical text of the elements of a text and of more, if it has at most so many bytes.
fn longer_list(
    alloc: Global,
    text: &[u8],
    more: &[Bytes],
    longest: usize,
) -> Result<Bytes, ListFault>
    ensures { MatchResult result (Appends text.now more.now longest) (Refuses text.now more.now longest) }
{
    let mut elements = match read_list(alloc, text) {
        Ok(elements) => elements,
        Err(WordFault::Memory) => return Err(ListFault::Memory),
        Err(fault) => return Err(ListFault::NoList(fault)),
    };
    push_all(alloc, &mut elements, more)?;
    if !list_fits(elements.as_slice(), longest) {
        return Err(ListFault::TooLong);
    }
    Ok(Bytes::from_list(alloc, elements.as_slice())?)
}

/// Adds elements at the end.
fn push_all(alloc: Global, elements: &mut Seq<Bytes>, more: &[Bytes]) -> Result<(), AllocError>
    ensures { OnOk result (elements.new ≡ elements.old ++ more.now) }
{
    for element in more {
        elements.push(element.copy(alloc)?)?;
    }
    Ok(())
}

/// Adds elements at the end of the list that a text is, or changes nothing: it becomes the canonical text
/// of all of them (Tcl(n), lappend), and they stay beside it. Where the text has its elements beside it and
/// is held once it grows in place, at the cost of what is added.
///
/// # Errors
/// `NoList` with the fault of a text that is no list; `TooLong` where the canonical text would have more
/// than `longest` bytes, which is told before it is made; `Memory` where a growth is refused.
#[tactic(auto, using(crate::proofs::RoundTrip::kept_reads))]
pub fn append_elements(
    alloc: Global,
    text: &mut Bytes,
    more: &[Bytes],
    longest: usize,
) -> Result<(), ListFault>
    ensures done { OnOk result (Appends text.old more.now longest text.new) }
    ensures refused { IfErr result (Refuses text.old more.now longest) }
    ensures err { OnErr result (text.new ≡ text.old) }
{
    match text.extend_list(alloc, more, longest)? {
        Growth::Done => Ok(()),
        Growth::TooLong => Err(ListFault::TooLong),
        Growth::Unlisted => {
            *text = longer_list(alloc, text.as_slice(), more, longest)?;
            Ok(())
        }
    }
}
