//! What a run tells of itself on a terminal: a line that is written over and over, and a last one.
ghost use Rattle.std.specs.Prelude.{◌≡◌, count_by};
ghost use Rattle.dg_results.specs.Classes.{is_unexpected};
ghost use Rattle.runtest.specs.Progress.{is_result};

use dg_results::{Class, Verdict};
use dg_world::TestId;
use std::str;
use std::sync::atomic::{AtomicUsize, Ordering};
use std::time::{Clock, Instant};

/// Whether a line of this class is a result, and no message.
fn is_result(class: Class) -> bool
    ensures { result ≡ is_result class }
{
    !matches!(class, Class::Error | Class::Warning | Class::Note)
}

/// How many results a test has.
fn results_in(verdict: &Verdict) -> usize
    ensures { result ≡ count_by (λ l. is_result l.class) verdict.now }
{
    verdict
        .lines()
        .iter()
        .filter(|line| is_result(line.class))
        .count()
}

/// How many unexpected results a test has.
fn unexpected_in(verdict: &Verdict) -> usize
    ensures { result ≡ count_by (λ l. is_unexpected l.class) verdict.now }
{
    verdict
        .lines()
        .iter()
        .filter(|line| line.class.is_unexpected())
        .count()
}

/// What a run came to: its results, those of them that are unexpected, the tests that were evaluated, and the transcripts
/// that were read.
#[derive(Clone, Copy)]
pub(crate) struct Counts {
    results: usize,
    unexpected: usize,
    evaluated: usize,
    read: usize,
}

impl Counts {
    /// Of a run that read so many transcripts.
    pub(crate) fn of_read(read: usize) -> Counts {
        Counts {
            results: 0,
            unexpected: 0,
            evaluated: 0,
            read,
        }
    }

    /// Counts a test that was evaluated.
    pub(crate) fn add(&mut self, verdict: &Verdict) {
        self.evaluated = self.evaluated.saturating_add(1);
        self.results = self.results.saturating_add(results_in(verdict));
        self.unexpected = self.unexpected.saturating_add(unexpected_in(verdict));
    }
}

/// How far a run is, for all its workers. Where it is not shown nothing is written, and a write that fails changes nothing.
#[derive(Drop)]
pub(crate) struct Progress<R> {
    rt: R,
    is_shown: bool,
    began: Option<Instant>,
    tests: AtomicUsize,
    done: AtomicUsize,
    unexpected: AtomicUsize,
}

impl<R: Eprint + Clock + AllocGlobal> Progress<R> {
    /// A run that begins.
    pub(crate) fn new(rt: R, is_shown: bool) -> Progress<R> {
        let began = Instant::now(&rt).ok();
        Progress {
            rt,
            is_shown,
            began,
            tests: AtomicUsize::new(0),
            done: AtomicUsize::new(0),
            unexpected: AtomicUsize::new(0),
        }
    }

    /// So many tests are judged.
    pub(crate) fn expect(&self, tests: usize) {
        self.tests.store(tests, Ordering::SeqCst);
    }

    /// A test begins.
    pub(crate) fn begin(&self, test: &TestId) {
        if !self.is_shown {
            return;
        }
        let board = str::from_utf8(test.board().as_slice()).unwrap_or("");
        let script = str::from_utf8(test.script().as_slice()).unwrap_or("");
        let Ok(name) = format!(in self.rt.alloc(); "{board} {script}") else {
            return;
        };
        let done = self.done.load(Ordering::SeqCst);
        let tests = self.tests.load(Ordering::SeqCst);
        let unexpected = self.unexpected.load(Ordering::SeqCst);
        if let Ok(line) = format!(in self.rt.alloc();
            "\r{done} of {tests} tests, {unexpected} unexpected: {name:.34}\x1b[K"
        ) {
            let _ = eprint!(self.rt; "{line}");
        }
    }

    /// A test was judged.
    pub(crate) fn end(&self, verdict: &Verdict) {
        self.done.fetch_add(1, Ordering::SeqCst);
        self.unexpected
            .fetch_add(unexpected_in(verdict), Ordering::SeqCst);
    }

    /// Clears the line.
    pub(crate) fn clear(&self) {
        if self.is_shown {
            let _ = eprint!(self.rt; "\r\x1b[K");
        }
    }

    /// Writes the last line.
    pub(crate) fn finish(&self, counts: Counts) {
        if !self.is_shown {
            return;
        }
        let Counts {
            results,
            unexpected,
            evaluated,
            read,
        } = counts;
        let seconds = self.seconds();
        let _ = eprintln!(self.rt;
            "{unexpected} unexpected of {results}, {seconds} seconds, {evaluated} evaluated, {read} from transcripts"
        );
    }

    /// How long the run has taken, in whole seconds.
    fn seconds(&self) -> u64 {
        let Some(began) = &self.began else {
            return 0;
        };
        match began.elapsed(&self.rt) {
            Ok(time) => time.as_secs(),
            Err(_) => 0,
        }
    }
}
