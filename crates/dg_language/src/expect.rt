//! What the words of `expect` say.
ghost use Rattle.std.specs.Prelude.{◌≡◌};

use dg_bytes::{Bytes, Seq};

/// The kind of a pattern of `expect`.
#[derive(Clone, Copy, Debug, PartialEq, Eq)]
pub enum PatternKind {
    /// `-gl`.
    Glob,
    /// `-ex`.
    Exact,
    /// `-re`.
    Regex,
}

/// What a pair of `expect` waits for (expect(1)).
#[derive(Drop)]
pub enum Awaited {
    /// `-gl`: output in which this glob has a match.
    Glob(Bytes),
    /// `-ex`: output in which these bytes stand.
    Exact(Bytes),
    /// `-re`: output in which the regular expression of this text has a match.
    Regex(Bytes),
    /// `timeout`: the limit passes.
    Timeout,
    /// `eof`: the output ends.
    End,
    /// `default`: either of these.
    Default,
}

/// A pair of `expect`: what it waits for, and the action that is then evaluated, if there is one.
pub struct Pair {
    pub awaited: Awaited,
    pub action: Option<Bytes>,
}

impl Drop for Pair {
    fn drop(self) {
        let Pair {
            awaited: _,
            action: _,
        } = self;
    }
}

/// The words of `expect`: the values of its flags, and its pairs in order.
pub struct Expectation {
    pub timeout: Option<Bytes>,
    pub id: Option<Bytes>,
    pub pairs: Seq<Pair>,
}

impl Drop for Expectation {
    fn drop(self) {
        let Expectation {
            timeout: _,
            id: _,
            pairs: _,
        } = self;
    }
}

impl Expectation {
    /// The limit and the id that the flags give, and the pairs.
    pub fn into_parts(self) -> (Option<Bytes>, Option<Bytes>, Seq<Pair>)
        ensures { result ≡ record { 0 = self.timeout; 1 = self.id; 2 = self.pairs } }
    {
        let Expectation { timeout, id, pairs } = self;
        (timeout, id, pairs)
    }
}
