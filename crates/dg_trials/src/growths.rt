//! Growths that are refused: something is tried again and again, where all memory but a block was taken and ever more of that block is
//! left. Each time it is answered rightly or wants memory, and leaves what it was made on as the calls before it have left it.
use crate::files::bytes_of;
use crate::lines::tell;
use crate::memory::{Rounds, Taken};
use crate::reports::growth::Script;
use crate::{jobs, reports, sessions};
use anyhow::Result as Tried;
use std::alloc::{AllocError, Global};
use std::rt::Files;
use std::thread;
use std::thread::Threads;

/// What is tried with ever more memory.
#[derive(Clone, Copy)]
enum Trial<'a> {
    /// A core with a script, and a transcript of its child.
    Core(Script<'a>),
    /// A session of four lines.
    Session,
    /// A live run, and where it is kept.
    Live,
}

impl Trial<'_> {
    /// Whether it was as it should be beside a block of so many bytes, or not for want of memory. Nothing where anything else came of it.
    fn outcome(&self, alloc: Global, pad: usize) -> Option<bool> {
        match self {
            Trial::Core(script) => reports::growth::round(alloc, pad, *script),
            Trial::Session => sessions::growth::round(alloc, pad),
            Trial::Live => sessions::live::round(alloc, pad),
        }
    }
}

/// How many rounds have to be whole.
const LEAST: usize = 100;

/// The bytes that are left to a trial, and how many more in each round. Where what a round took was freed in small pieces, the block may
/// not fit between these; all memory is there then, and the round is whole.
#[derive(Clone, Copy)]
struct Steps {
    room: usize,
    step: usize,
}

/// The steps of a core.
const CORE: Steps = Steps {
    room: 1_000_000,
    step: 256,
};

/// The steps of a session.
const SESSION: Steps = Steps {
    room: 120_000,
    step: 16,
};

/// The steps of a live run.
const LIVE: Steps = Steps {
    room: 480_000,
    step: 64,
};

/// The rounds of a trial.
fn rounds_of(alloc: Global, trial: &Trial<'_>, steps: Steps) -> Rounds {
    let Steps { room, step } = steps;
    let mut rounds = Rounds::new();
    for round in 0..room / step.max(16) {
        let pad = room.saturating_sub(round.saturating_mul(step));
        rounds.count(trial.outcome(alloc, pad));
    }
    rounds
}

/// Whether each refused growth of a trial is told.
fn is_told(alloc: Global, trial: &Trial<'_>, steps: Steps) -> Result<bool, AllocError> {
    let mut taken = Taken::new(alloc)?;
    let room = Vec::<u8>::with_capacity(alloc, steps.room)?;
    let is_full = taken.take_all(alloc);
    drop(room);
    let rounds = rounds_of(alloc, trial, steps);
    drop(taken);
    Ok(rounds.are_right(LEAST, is_full))
}

/// What came of all growths.
#[derive(Drop)]
struct Outcomes {
    job: bool,
    core: bool,
    session: bool,
    live: bool,
}

/// The files of a script, of its transcript and of its report.
#[derive(Drop)]
struct Texts {
    script: Vec<u8>,
    transcript: Vec<u8>,
    report: Vec<u8>,
}

/// Tries all growths, those of a core with this script.
fn try_growths(alloc: Global, texts: &Texts) -> Result<Outcomes, AllocError> {
    let script = Script {
        text: texts.script.as_slice(),
        transcript: texts.transcript.as_slice(),
        report: texts.report.as_slice(),
    };
    Ok(Outcomes {
        job: jobs::fails_for_good(alloc)?,
        core: is_told(alloc, &Trial::Core(script), CORE)?,
        session: is_told(alloc, &Trial::Session, SESSION)?,
        live: is_told(alloc, &Trial::Live, LIVE)?,
    })
}

/// Tries all growths in a thread, whose stack is there as a whole: that of the first thread can't grow once all memory is taken.
pub fn try_all<R: Print + Files + AllocGlobal + Threads>(rt: &R, folder: &str) -> Tried<()> {
    let alloc = rt.alloc();
    let texts = Texts {
        script: bytes_of(rt, folder, "growths.exp")?,
        transcript: bytes_of(rt, folder, "growths.transcript")?,
        report: bytes_of(rt, folder, "growths.sum")?,
    };
    let thread = thread::spawn(rt, move || try_growths(alloc, &texts))?;
    let Outcomes {
        job,
        core,
        session,
        live,
    } = thread.join(rt)?;
    tell(rt, "a job's refused growth", Ok(job))?;
    tell(rt, "a core's refused growths", Ok(core))?;
    tell(rt, "a session's refused growths", Ok(session))?;
    tell(rt, "a live run's refused growths", Ok(live))
}
