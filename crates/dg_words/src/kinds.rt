//! The kinds of texts that are read, and the items that may be open.
use dg_lists::Context;

/// The kind of a text: commands, the words of a list, commands within brackets, or an operand alone.
#[derive(Clone, Copy)]
pub enum Level {
    Top,
    List,
    Inside,
    Alone,
}

/// The open items around the innermost one, and where that stands.
#[derive(Clone, Copy)]
pub enum Opener {
    Bracket(Context),
    Paren(Context),
}
