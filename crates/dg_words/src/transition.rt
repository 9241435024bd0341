//! The effect of one more byte on the open items of a script, by Tcl(n).
ghost use Rattle.std.specs.Prelude.{◌≡◌};
ghost use Rattle.dg_lists.specs.Transitions.{is_space, with_digit};
ghost use Rattle.dg_words.specs.Transitions.{after, behind, behind_pair, behind_star, ends, heard, in_bare, in_brace_first, in_brace_star, in_braced, in_braced_join, in_braced_pair, in_colon, in_comment, in_dollar, in_gap, in_gap_pair, in_index, in_join, in_name, in_name_brace, in_operand, in_pair, in_quoted, in_context, in_star_pair, in_start, in_start_pair, number_ends, numbered, context_ends, transition};

use crate::kinds::Level;
use dg_lists::{
    Class, Context, Delimiter, Digits, Effect, Ending, Mode, Target, Transition, WordFault,
    counted, escaped, in_braces, is_space,
};

impl Level {
    /// The class of a byte between words: `]` ends only a bracket, and a list has no commands.
    fn heard(self, class: Class) -> Class
        ensures { result ≡ heard self class }
    {
        match (self, class) {
            (Level::Inside, class) => class,
            (Level::List, Class::Newline) => Class::Blank,
            (Level::List, Class::Semicolon | Class::Hash) => Class::Plain,
            (_, Class::RightBracket) => Class::Plain,
            (_, class) => class,
        }
    }

    fn in_bare(self, class: Class, byte: u8) -> Transition
        ensures { result ≡ in_bare self class byte }
    {
        match class {
            Class::Blank => Transition::does(Effect::Word, Target::To(Mode::Gap)),
            Class::Newline | Class::Semicolon => Transition::does(Effect::Word, Target::End),
            Class::LeftBracket => Transition::does(Effect::Nothing, Target::Bracket(Context::Bare)),
            Class::RightBracket => Transition::does(Effect::Nothing, Target::Leave),
            Class::Backslash => Transition::goes(Mode::Pair(Context::Bare)),
            Class::Dollar => Transition::goes(Mode::Dollar(Context::Bare)),
            _ => Transition::puts(byte, Mode::In(Context::Bare)),
        }
    }

    /// Where parts stand.
    fn in_context(self, context: Context, class: Class, byte: u8) -> Transition
        ensures { result ≡ in_context self context class byte }
    {
        match context {
            Context::Bare => self.in_bare(self.heard(class), byte),
            Context::Quoted => in_quoted(class, byte),
            Context::Index => in_index(class, byte),
            Context::Alone => Transition::does(Effect::Word, Target::Rest),
        }
    }

    fn in_join(self, context: Context, class: Class, byte: u8) -> Transition
        ensures { result ≡ in_join self context class byte }
    {
        if is_space(byte) {
            Transition::goes(Mode::Join(context))
        } else {
            self.in_context(context, class, byte)
        }
    }

    fn in_dollar(self, context: Context, class: Class, byte: u8) -> Transition
        ensures { result ≡ in_dollar self context class byte }
    {
        match class {
            Class::Name => Transition::puts(byte, Mode::Name(context)).behind(Effect::Close),
            Class::Colon => Transition::goes(Mode::Colon(context)),
            Class::LeftParen => Transition::does(Effect::Nothing, Target::Paren(context)).behind(
                Effect::Close,
            ),
            Class::Open => Transition::does(Effect::Close, Target::To(Mode::NameBrace(context))),
            _ => self.in_context(context, class, byte).behind(Effect::Dollar),
        }
    }

    fn in_colon(self, context: Context, class: Class, byte: u8) -> Transition
        ensures { result ≡ in_colon self context class byte }
    {
        match class {
            Class::Colon => Transition::does(Effect::Global, Target::To(Mode::Name(context))),
            _ => self
                .in_context(context, class, byte)
                .behind(Effect::DollarColon),
        }
    }

    fn in_name(self, context: Context, class: Class, byte: u8) -> Transition
        ensures { result ≡ in_name self context class byte }
    {
        match class {
            Class::Name => Transition::puts(byte, Mode::Name(context)),
            Class::LeftParen => Transition::does(Effect::Nothing, Target::Paren(context)),
            _ => self.in_context(context, class, byte).behind(Effect::Value),
        }
    }

    fn numbered(self, context: Context, digits: Digits, class: Class, byte: u8) -> Transition
        ensures { result ≡ numbered self context digits class byte (with_digit digits byte) }
    {
        match digits.with(byte) {
            Some(value) => counted(context, digits.escape, digits.left, value),
            None => self
                .in_context(context, class, byte)
                .behind_number(digits.whole()),
        }
    }

    /// Between words.
    fn in_gap(self, class: Class, byte: u8) -> Transition
        ensures { result ≡ in_gap self class byte }
    {
        match class {
            Class::Blank => Transition::goes(Mode::Gap),
            Class::Newline | Class::Semicolon => Transition::does(Effect::Nothing, Target::End),
            Class::Quote => Transition::goes(Mode::In(Context::Quoted)),
            Class::Open => Transition::goes(Mode::BraceFirst),
            Class::Backslash => Transition::goes(Mode::GapPair),
            _ => self.in_bare(class, byte),
        }
    }

    /// Before a command.
    fn in_start(self, class: Class, byte: u8) -> Transition
        ensures { result ≡ in_start self class byte }
    {
        match class {
            Class::Blank | Class::Newline | Class::Semicolon => Transition::goes(Mode::Start),
            Class::Hash => Transition::goes(Mode::Comment),
            Class::Backslash => Transition::goes(Mode::StartPair),
            _ => self.in_gap(class, byte),
        }
    }

    /// The byte after `{*}` decides whether it is a prefix or a word.
    fn behind_star(self, class: Class, byte: u8) -> Transition
        ensures { result ≡ behind_star self class byte }
    {
        match class {
            Class::Blank => Transition::does(Effect::Word, Target::To(Mode::Gap)),
            Class::Newline | Class::Semicolon => Transition::does(Effect::Word, Target::End),
            Class::RightBracket => Transition::does(Effect::Nothing, Target::Leave),
            Class::Backslash => Transition::goes(Mode::StarPair),
            Class::Quote => Transition::does(Effect::Expand, Target::To(Mode::In(Context::Quoted))),
            Class::Open => Transition::does(Effect::Expand, Target::To(Mode::Braced)),
            _ => self.in_bare(class, byte).behind(Effect::Expand),
        }
    }

    /// Behind a braced or a quoted word.
    fn behind(self, delimiter: Delimiter, class: Class) -> Transition
        ensures { result ≡ behind self delimiter class }
    {
        match (self, class) {
            (Level::Alone, _) => Transition::does(Effect::Nothing, Target::Rest),
            (_, Class::Blank) => Transition::goes(Mode::Gap),
            (_, Class::Newline | Class::Semicolon) => Transition::does(
                Effect::Nothing,
                Target::End,
            ),
            (_, Class::RightBracket) => Transition::does(Effect::Nothing, Target::Leave),
            (_, Class::Backslash) => Transition::goes(Mode::BehindPair(delimiter)),
            _ => Transition::does(Effect::Nothing, Target::Bad(after(delimiter))),
        }
    }

    /// The effect of a byte; deep says whether braces are open inside of a braced word.
    #[tactic(auto, unfolding(crate::specs::Transitions::transition))]
    pub fn transition(self, mode: Mode, deep: bool, class: Class, byte: u8) -> Transition
        ensures { result ≡ transition self deep mode class byte }
    {
        match mode {
            Mode::Start => self.in_start(self.heard(class), byte),
            Mode::StartPair => in_start_pair(class, byte),
            Mode::Comment => in_comment(class),
            Mode::CommentPair => Transition::goes(Mode::Comment),
            Mode::Gap => self.in_gap(self.heard(class), byte),
            Mode::GapPair => in_gap_pair(class, byte),
            Mode::Operand => in_operand(class),
            Mode::In(context) => self.in_context(context, class, byte),
            Mode::Pair(context) => in_pair(context, class, byte),
            Mode::Join(context) => self.in_join(context, class, byte),
            Mode::Dollar(context) => self.in_dollar(context, class, byte),
            Mode::Colon(context) => self.in_colon(context, class, byte),
            Mode::Name(context) => self.in_name(context, class, byte),
            Mode::NameBrace(context) => in_name_brace(context, class, byte),
            Mode::Number(context, digits) => self.numbered(context, digits, class, byte),
            Mode::BraceFirst => in_brace_first(class, byte),
            Mode::BraceStar => in_brace_star(class, byte),
            Mode::BehindStar => self.behind_star(self.heard(class), byte),
            Mode::StarPair => in_star_pair(class, byte),
            Mode::Braced => in_braced(deep, class, byte),
            Mode::BracedPair => in_braced_pair(class, byte),
            Mode::BracedJoin => in_braced_join(deep, class, byte),
            Mode::Behind(delimiter) => self.behind(delimiter, self.heard(class)),
            Mode::BehindPair(delimiter) => behind_pair(delimiter, class),
        }
    }
}

fn in_quoted(class: Class, byte: u8) -> Transition
    ensures { result ≡ in_quoted class byte }
{
    match class {
        Class::Quote => Transition::does(Effect::Word, Target::To(Mode::Behind(Delimiter::Quote))),
        Class::LeftBracket => Transition::does(Effect::Nothing, Target::Bracket(Context::Quoted)),
        Class::Backslash => Transition::goes(Mode::Pair(Context::Quoted)),
        Class::Dollar => Transition::goes(Mode::Dollar(Context::Quoted)),
        _ => Transition::puts(byte, Mode::In(Context::Quoted)),
    }
}

fn in_index(class: Class, byte: u8) -> Transition
    ensures { result ≡ in_index class byte }
{
    match class {
        Class::RightParen => Transition::does(Effect::Nothing, Target::Leave),
        Class::LeftBracket => Transition::does(Effect::Nothing, Target::Bracket(Context::Index)),
        Class::Backslash => Transition::goes(Mode::Pair(Context::Index)),
        Class::Dollar => Transition::goes(Mode::Dollar(Context::Index)),
        _ => Transition::puts(byte, Mode::In(Context::Index)),
    }
}

fn in_pair(context: Context, class: Class, byte: u8) -> Transition
    ensures { result ≡ in_pair context class byte }
{
    match (class, context) {
        (Class::Newline, Context::Bare) => Transition::does(Effect::Word, Target::To(Mode::Gap)),
        (Class::Newline, _) => Transition::puts(b' ', Mode::Join(context)),
        _ => escaped(context, byte),
    }
}

fn in_gap_pair(class: Class, byte: u8) -> Transition
    ensures { result ≡ in_gap_pair class byte }
{
    match class {
        Class::Newline => Transition::goes(Mode::Gap),
        _ => escaped(Context::Bare, byte),
    }
}

fn in_start_pair(class: Class, byte: u8) -> Transition
    ensures { result ≡ in_start_pair class byte }
{
    match class {
        Class::Newline => Transition::goes(Mode::Start),
        _ => escaped(Context::Bare, byte),
    }
}

fn in_name_brace(context: Context, class: Class, byte: u8) -> Transition
    ensures { result ≡ in_name_brace context class byte }
{
    match class {
        Class::Close => Transition::does(Effect::Value, Target::To(Mode::In(context))),
        _ => Transition::puts(byte, Mode::NameBrace(context)),
    }
}

fn in_comment(class: Class) -> Transition
    ensures { result ≡ in_comment class }
{
    match class {
        Class::Newline => Transition::goes(Mode::Start),
        Class::Backslash => Transition::goes(Mode::CommentPair),
        _ => Transition::goes(Mode::Comment),
    }
}

fn in_operand(class: Class) -> Transition
    ensures { result ≡ in_operand class }
{
    match class {
        Class::Quote => Transition::goes(Mode::In(Context::Quoted)),
        Class::Open => Transition::goes(Mode::Braced),
        Class::LeftBracket => Transition::does(Effect::Nothing, Target::Bracket(Context::Alone)),
        Class::Dollar => Transition::goes(Mode::Dollar(Context::Alone)),
        _ => Transition::does(Effect::Word, Target::Rest),
    }
}

/// Inside braces, where others may be open within.
fn in_braced(deep: bool, class: Class, byte: u8) -> Transition
    ensures { result ≡ in_braced deep class byte }
{
    in_braces(Transition::goes(Mode::BracedPair), deep, class, byte)
}

/// Both bytes of a pair stay, but for a joined line.
fn in_braced_pair(class: Class, byte: u8) -> Transition
    ensures { result ≡ in_braced_pair class byte }
{
    match class {
        Class::Newline => Transition::puts(b' ', Mode::BracedJoin),
        _ => Transition::puts(byte, Mode::Braced).behind(Effect::Byte(b'\\')),
    }
}

fn in_braced_join(deep: bool, class: Class, byte: u8) -> Transition
    ensures { result ≡ in_braced_join deep class byte }
{
    if is_space(byte) {
        Transition::goes(Mode::BracedJoin)
    } else {
        in_braced(deep, class, byte)
    }
}

fn in_brace_first(class: Class, byte: u8) -> Transition
    ensures { result ≡ in_brace_first class byte }
{
    match class {
        Class::Star => Transition::puts(byte, Mode::BraceStar),
        _ => in_braced(false, class, byte),
    }
}

fn in_brace_star(class: Class, byte: u8) -> Transition
    ensures { result ≡ in_brace_star class byte }
{
    match class {
        Class::Close => Transition::goes(Mode::BehindStar),
        _ => in_braced(false, class, byte),
    }
}

fn in_star_pair(class: Class, byte: u8) -> Transition
    ensures { result ≡ in_star_pair class byte }
{
    match class {
        Class::Newline => Transition::does(Effect::Word, Target::To(Mode::Gap)),
        _ => escaped(Context::Bare, byte).behind(Effect::Expand),
    }
}

fn behind_pair(delimiter: Delimiter, class: Class) -> Transition
    ensures { result ≡ behind_pair delimiter class }
{
    match class {
        Class::Newline => Transition::goes(Mode::Gap),
        _ => Transition::does(Effect::Nothing, Target::Bad(after(delimiter))),
    }
}

/// More stands behind a word in braces or in quotes.
fn after(delimiter: Delimiter) -> WordFault
    ensures { result ≡ after delimiter }
{
    match delimiter {
        Delimiter::Brace => WordFault::AfterBrace,
        Delimiter::Quote => WordFault::AfterQuote,
    }
}

/// The effect of the end of the text, outside brackets or within.
#[tactic(auto, unfolding(crate::specs::Transitions::ends))]
pub fn ends(mode: Mode, top: bool) -> Ending
    ensures { result ≡ ends top mode }
{
    match mode {
        Mode::In(context) | Mode::Join(context) => context_ends(context, top, Effect::Nothing),
        Mode::Pair(context) => context_ends(context, top, Effect::Byte(b'\\')),
        Mode::Dollar(context) => context_ends(context, top, Effect::Dollar),
        Mode::Colon(context) => context_ends(context, top, Effect::DollarColon),
        Mode::Name(context) => context_ends(context, top, Effect::Value),
        Mode::Number(context, digits) => number_ends(context, top, digits.whole()),
        Mode::NameBrace(_)
        | Mode::BraceFirst
        | Mode::BraceStar
        | Mode::Braced
        | Mode::BracedPair
        | Mode::BracedJoin => Ending::Bad(WordFault::MissingBrace),
        _ if !top => Ending::Bad(WordFault::MissingBracket),
        Mode::StartPair | Mode::GapPair => Ending::Word(Effect::Nothing, Effect::Byte(b'\\')),
        Mode::Operand | Mode::BehindStar => Ending::Word(Effect::Nothing, Effect::Nothing),
        Mode::StarPair => Ending::Word(Effect::Expand, Effect::Byte(b'\\')),
        Mode::BehindPair(delimiter) => Ending::Bad(after(delimiter)),
        _ => Ending::Done,
    }
}

/// The text ends while parts stand open, behind a last effect.
fn context_ends(context: Context, top: bool, effect: Effect) -> Ending
    ensures { result ≡ context_ends top context Effect.Nothing effect }
{
    match context {
        Context::Quoted => Ending::Bad(WordFault::MissingQuote),
        Context::Index => Ending::Bad(WordFault::MissingParen),
        _ if top => Ending::Word(Effect::Nothing, effect),
        _ => Ending::Bad(WordFault::MissingBracket),
    }
}

/// The text ends while an escape by number stands open.
fn number_ends(context: Context, top: bool, effect: Option<Effect>) -> Ending
    ensures { result ≡ number_ends top context effect }
{
    match (context, effect) {
        (_, Some(effect)) => context_ends(context, top, effect),
        (Context::Bare | Context::Alone, None) if top => Ending::Bad(WordFault::BadCodePoint),
        (_, None) => context_ends(context, top, Effect::Nothing),
    }
}
