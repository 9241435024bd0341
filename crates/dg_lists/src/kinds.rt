//! Classes of bytes, states of the reading, and effects of one more byte, for lists and scripts alike.
use crate::fault::WordFault;

/// The class of a byte in the grammar.
#[derive(Clone, Copy)]
pub enum Class {
    Blank,
    Newline,
    Semicolon,
    Hash,
    Quote,
    Open,
    Close,
    LeftBracket,
    RightBracket,
    LeftParen,
    RightParen,
    Backslash,
    Dollar,
    Colon,
    Star,
    Name,
    Plain,
}

/// Where parts stand: in a bare or a quoted word, in an index, or alone.
#[derive(Clone, Copy)]
pub enum Context {
    Bare,
    Quoted,
    Index,
    Alone,
}

/// An escape by number: `\7`, `\x`, `\u`, `\U`.
#[derive(Clone, Copy)]
pub enum Escape {
    Octal,
    Byte,
    Short,
    Long,
}

/// The digits of an escape: how many may still come, and their value so far.
#[derive(Clone, Copy)]
pub struct Digits {
    pub escape: Escape,
    pub left: u32,
    pub value: u32,
}

/// The surroundings of a word.
#[derive(Clone, Copy)]
pub enum Delimiter {
    Brace,
    Quote,
}

/// The innermost open item. A pair is a backslash whose second byte is still to come; behind a joined
/// line spaces and tabs are left out.
#[derive(Clone, Copy)]
pub enum Mode {
    Start,
    StartPair,
    Comment,
    CommentPair,
    Gap,
    GapPair,
    Operand,
    In(Context),
    Pair(Context),
    Join(Context),
    Dollar(Context),
    Colon(Context),
    Name(Context),
    NameBrace(Context),
    Number(Context, Digits),
    BraceFirst,
    BraceStar,
    BehindStar,
    StarPair,
    Braced,
    BracedPair,
    BracedJoin,
    Behind(Delimiter),
    BehindPair(Delimiter),
}

/// An effect on the open word.
#[derive(Clone, Copy)]
pub enum Effect {
    Nothing,
    /// One more byte of text.
    Byte(u8),
    /// A character in UTF-8.
    Code(char),
    /// A dollar sign that begins no variable, and one with a colon.
    Dollar,
    DollarColon,
    /// The text becomes a part.
    Close,
    /// A name with a leading `::` begins.
    Global,
    /// The text is the name of a variable.
    Value,
    /// The text was the prefix `{*}`.
    Expand,
    /// The word ends.
    Word,
}

/// Where the reading goes.
#[derive(Clone, Copy)]
pub enum Target {
    To(Mode),
    /// A brace within a braced word opens or closes.
    Deeper,
    Shallower,
    /// A bracket or an index opens, or the innermost of them closes.
    Bracket(Context),
    Paren(Context),
    Leave,
    /// The command ends with the byte, or before it.
    End,
    Rest,
    Bad(WordFault),
}

/// The effect of a byte: two effects on the open word, and the next state.
#[derive(Clone, Copy)]
pub struct Transition {
    pub first: Effect,
    pub second: Effect,
    pub next: Target,
}

/// What the end of the text makes: the word that is open ends after two effects, no word is open, or
/// something is missing.
#[derive(Clone, Copy)]
pub enum Ending {
    Word(Effect, Effect),
    Done,
    Bad(WordFault),
}
