//! The lines of a transcript's text, and the order in which they come.
ghost use Rattle.std.specs.Prelude.{◌≡◌};
ghost use Rattle.dg_transcript.specs.Fields.{keyword, kind_of};
ghost use Rattle.dg_transcript.specs.Order.{admits, after_role, opens_session};

use crate::entry::Entry;

/// What an entry does in its session.
#[derive(Clone, Copy)]
pub(crate) enum Role {
    Start,
    Failure,
    Talk,
    End,
    Wait,
}

/// What the lines so far lead to.
#[derive(Clone, Copy)]
pub(crate) enum Place {
    /// Nothing was read.
    Top,
    /// A session or the last line comes next.
    Between,
    /// A session has begun and has no entry.
    Opened,
    /// Its child has started.
    Running,
    /// Its child's output has ended, or the session was closed.
    Ended,
    /// The last line was read.
    Over,
}

/// What a line says.
#[derive(Drop)]
pub(crate) enum Line {
    Header,
    Session(u32),
    Said(Entry),
    Done,
}

impl Place {
    /// Whether an entry may come here.
    pub(crate) fn admits(self, role: Role) -> bool
        ensures { result ≡ admits self role }
    {
        match self {
            Place::Opened => matches!(role, Role::Start | Role::Failure),
            Place::Running => matches!(role, Role::Talk | Role::End),
            Place::Ended => matches!(role, Role::Wait),
            Place::Top | Place::Between | Place::Over => false,
        }
    }

    /// Whether the session that is open may end here.
    pub(crate) fn opens_session(self) -> bool
        ensures { result ≡ opens_session self }
    {
        matches!(self, Place::Between | Place::Running | Place::Ended)
    }
}

impl Role {
    /// The place after an entry.
    pub(crate) fn after(self) -> Place
        ensures { result ≡ after_role self }
    {
        match self {
            Role::Start | Role::Talk => Place::Running,
            Role::End => Place::Ended,
            Role::Failure | Role::Wait => Place::Between,
        }
    }
}

/// The kind of a line behind the first, which its first word names.
#[derive(Clone, Copy)]
pub(crate) enum Kind {
    Session,
    Started,
    NoStart,
    Sent,
    NoSend,
    Chunk,
    End,
    NoRead,
    Silence,
    Closed,
    NoClose,
    Exited,
    Killed,
    NoWait,
    Done,
}

const KINDS: [Kind; 15] = [
    Kind::Session,
    Kind::Started,
    Kind::NoStart,
    Kind::Sent,
    Kind::NoSend,
    Kind::Chunk,
    Kind::End,
    Kind::NoRead,
    Kind::Silence,
    Kind::Closed,
    Kind::NoClose,
    Kind::Exited,
    Kind::Killed,
    Kind::NoWait,
    Kind::Done,
];

impl Kind {
    /// The first word of a line of this kind.
    fn keyword(self) -> &'static [u8]
        ensures { result.now ≡ keyword self }
    {
        match self {
            Kind::Session => b"session",
            Kind::Started => b"started",
            Kind::NoStart => b"nostart",
            Kind::Sent => b"sent",
            Kind::NoSend => b"nosend",
            Kind::Chunk => b"chunk",
            Kind::End => b"end",
            Kind::NoRead => b"noread",
            Kind::Silence => b"silence",
            Kind::Closed => b"closed",
            Kind::NoClose => b"noclose",
            Kind::Exited => b"exited",
            Kind::Killed => b"killed",
            Kind::NoWait => b"nowait",
            Kind::Done => b"done",
        }
    }

    /// The kind that a line's first word names.
    pub(crate) fn named(word: &[u8]) -> Option<Kind>
        ensures { result ≡ kind_of word.now }
    {
        for kind in KINDS {
            if kind.keyword() == word {
                return Some(kind);
            }
        }
        None
    }
}
