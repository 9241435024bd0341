//! What stands round an evaluation.
ghost use Rattle.std.specs.Prelude.{◌≡◌, IfOk};
ghost use Rattle.dg_language.specs.Play.{plain};

use crate::boxed::Boxed;
use crate::patterns::Prepared;
use dg_bytes::{Bytes, Seq};
use dg_compiled::{Body, Calculation, Condition, Making, Script};
use dg_language::{Ask, Clause, Close, Code, Pair, Queue};
use dg_results::Verdict;
use dg_transcript::{Action, Entry};
use dg_world::Question;
use std::alloc::{AllocError, Global};

/// The rounds of a loop over values.
#[derive(Drop)]
pub(crate) struct Rounds {
    /// The names that get the values of a round.
    pub names: Seq<Bytes>,
    pub body: Body,
    /// The values that are left.
    pub values: Queue<Bytes>,
    /// The next name that gets a value, while a round begins.
    pub given: Option<usize>,
    /// The most rounds that are left.
    pub left: u32,
    pub depth: u32,
}

/// An `if` whose condition is computed.
#[derive(Drop)]
pub(crate) struct Choice {
    /// What runs where the condition is true.
    pub body: Bytes,
    /// The clauses that are left.
    pub left: Queue<Clause>,
    /// What runs where no condition is true.
    pub otherwise: Option<Bytes>,
    pub depth: u32,
}

/// What of a loop over a condition runs.
#[derive(Clone, Copy, Debug, PartialEq, Eq)]
pub(crate) enum LoopPart {
    /// The first script of `for`.
    Start,
    Test,
    Body,
    /// The third script of `for`.
    Next,
}

/// A loop over a condition.
#[derive(Drop)]
pub(crate) struct Repetition {
    pub stage: LoopPart,
    pub test: Condition,
    /// The third script of `for`.
    pub next: Option<Body>,
    pub body: Body,
    /// The most tests that are left.
    pub left: u32,
    pub depth: u32,
}

/// What is done with the entry that answers an action.
#[derive(Drop)]
pub(crate) enum After {
    /// The session that was started by these words gets a name in `spawn_id`.
    Spawned(Seq<Bytes>),
    /// A call that failed is an error.
    Reported,
    /// The child is waited for.
    ToWait,
    /// The value of `wait` tells how the child ended.
    Waited,
}

/// An action on a session, which goes on from entry to entry of its record.
#[derive(Drop)]
pub(crate) struct Acting {
    pub session: u32,
    pub action: Action,
    pub after: After,
}

/// How far a round of `expect` is.
#[derive(Clone, Copy, Debug, PartialEq, Eq)]
pub(crate) enum Reach {
    /// It begins: what was read is tried.
    Trying,
    /// The session is read, for so many milliseconds at most.
    Reading(u32),
    /// An action is evaluated.
    InAction,
}

/// What `expect` waits for.
#[derive(Drop)]
pub(crate) struct Wait {
    pub session: u32,
    pub pairs: Prepared,
    /// The limit of a round in milliseconds.
    pub limit: u32,
    /// The most rounds that are left.
    pub left: u32,
    pub depth: u32,
}

/// An `expect` whose limit is not known yet.
#[derive(Drop)]
pub(crate) struct Limiting {
    /// The value of `-timeout`.
    pub timeout: Option<Bytes>,
    pub session: u32,
    pub pairs: Seq<Pair>,
    pub depth: u32,
}

/// An `expect` whose `-re` patterns are not known yet.
#[derive(Drop)]
pub(crate) struct Compiling {
    pub session: u32,
    pub pairs: Seq<Pair>,
    /// The limit of a round in milliseconds.
    pub limit: u32,
    pub depth: u32,
}

/// What an action on a session comes to at its next entry.
#[derive(Drop)]
pub(crate) enum Came {
    /// The entry is not known yet.
    Stands(Boxed<Ask>),
    /// The whole test has ended.
    Over(Boxed<Closing>),
    /// The entry was passed over, and the next one is wanted.
    Passed,
    /// This entry has answered.
    Answered(Entry),
    /// The limit has passed.
    Late,
}

/// What is opened for a test, in this order.
#[derive(Drop)]
pub(crate) enum Opening {
    /// The board's file.
    Board,
    /// The board's file has been evaluated, or there is none.
    AfterBoard,
    /// The tool, whose library is opened.
    Tool,
    /// The tool's library, in the file of this name.
    Library(Bytes),
    /// The test's script.
    Script,
}

/// What is known of a file.
#[derive(Drop)]
pub(crate) enum FileText {
    /// This question has no answer yet.
    Unanswered(Question),
    /// The bytes of the file, if there is one.
    Known(Option<Bytes>),
}

/// What is done when its turn comes, or when what stands inside of it has ended.
#[derive(Drop)]
pub(crate) enum Frame {
    /// A file of the test is opened.
    Opening {
        what: Opening,
    },
    /// A file that comes before the script is evaluated; then the next is opened.
    Preceding {
        next: Opening,
    },
    /// The commands of a text that are left, inside as many evaluations as the depth leaves.
    Sequence {
        commands: Script,
        depth: u32,
    },
    /// The words of a command are made.
    Gathering {
        making: Making,
        depth: u32,
    },
    /// The command of these words runs.
    Running {
        words: Seq<Bytes>,
        depth: u32,
    },
    /// The code and the value are caught.
    Catching {
        name: Option<Bytes>,
    },
    /// A procedure ends.
    Calling,
    /// A library ends.
    Loading,
    /// A loop over values.
    Looping {
        rounds: Rounds,
    },
    /// Variables are unset.
    Unsetting {
        complains: bool,
        names: Queue<Bytes>,
    },
    /// An expression is computed.
    Calculating {
        calculation: Calculation,
    },
    /// The value of `expr` is written.
    Writing,
    /// A condition of `if` is computed.
    Choosing {
        choice: Choice,
    },
    /// A loop over a condition.
    Repeating {
        repetition: Boxed<Repetition>,
    },
    /// An action on a session.
    Acting {
        acting: Acting,
    },
    /// A session that has started gets its name in `spawn_id`.
    Naming {
        session: u32,
    },
    /// `expect` with these words.
    Expecting {
        words: Seq<Bytes>,
        depth: u32,
    },
    /// The limit of an `expect` is sought.
    Limiting {
        limiting: Limiting,
    },
    /// The `-re` patterns of an `expect` are asked for.
    Compiling {
        compiling: Compiling,
    },
    /// An `expect` waits, or an action of it is evaluated.
    Awaiting {
        reach: Reach,
        wait: Wait,
    },
    /// These names get these texts, which `regexp` has found.
    Giving {
        names: Queue<Bytes>,
        values: Queue<Bytes>,
    },
}

/// Whether the inmost frame is to go on, or gets what ended inside of it.
#[derive(Drop)]
pub(crate) enum Control {
    Go,
    Ended { code: Code, value: Bytes },
}

/// How an evaluation has ended: its lines, and whether it came to its end.
#[derive(Drop)]
pub(crate) struct Closing {
    pub verdict: Verdict,
    pub close: Close,
}

/// What one move of a machine came to.
#[derive(Drop)]
pub(crate) enum Pace {
    /// There is more to do.
    Moved,
    /// This question has no answer yet. Globals may have begun; nothing else was changed.
    Stands(Boxed<Ask>),
    /// All has ended like this.
    Over(Boxed<Closing>),
    /// A pattern that was answered as read can't be built.
    Lost,
}

/// A question that stands, with no action beside it.
pub(crate) fn plain_ask(alloc: Global, question: Question) -> Result<Boxed<Ask>, AllocError>
    ensures { IfOk result (λ ask. ask ≡ plain question) }
{
    Boxed::new(alloc, Ask::plain(question))
}

/// Where a machine comes to by itself.
#[derive(Drop)]
pub(crate) enum Stop {
    /// This question has no answer yet.
    AtQuestion(Boxed<Ask>),
    /// All has ended like this.
    AtEnd(Boxed<Closing>),
    /// A pattern that was answered as read can't be built.
    Lost,
}
