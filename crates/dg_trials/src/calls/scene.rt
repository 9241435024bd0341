//! What the calls of a case are made on.
use crate::calls::spelling::{
    answer, cut, question, spelled_answer, spelled_question, spelled_record, spelled_tests, text_of,
};
use crate::parts::count_of;
use anyhow::{Result, bail};
use dg_bytes::Bytes;
use dg_core::{Core, Reply};
use dg_eval::{Job, Turn};
use dg_records::Record;
use dg_world::{Edit, TestId};
use std::alloc::Global;

/// The board of each test.
const BOARD: &[u8] = b"unix";

/// More turns than an evaluation takes.
const TURNS: u8 = 20;

/// A core, a job of one of its tests, the record that the job has ended with, and the text of the last report.
pub struct Scene {
    alloc: Global,
    core: Core,
    job: Job,
    ended: Option<Record>,
    report: Bytes,
}

impl Drop for Scene {
    fn drop(self) {
        let Scene {
            alloc: _,
            core: _,
            job: _,
            ended: _,
            report: _,
        } = self;
    }
}

/// A job that has just begun, of this script.
fn job_of(alloc: Global, script: &str) -> Result<Job> {
    let test = TestId::new(alloc, BOARD, script.as_bytes())?;
    Ok(Job::start(alloc, test)?)
}

impl Scene {
    /// A new core, and a job of t/a.exp that has just begun.
    pub fn new(alloc: Global) -> Result<Scene> {
        let job = job_of(alloc, "t/a.exp")?;
        Ok(Scene {
            alloc,
            core: Core::new(alloc)?,
            job,
            ended: None,
            report: Bytes::new(alloc),
        })
    }

    /// What the call of a row comes to, where that isn't what stands behind the bar. A fault is told by its text.
    pub fn other_answer(&mut self, row: &str) -> Result<Option<String>> {
        let alloc = self.alloc;
        let row = row
            .replace(alloc, "\\n", "\n")?
            .replace(alloc, "\\t", "\t")?;
        let (call, wanted) = row.as_str().split_once(" | ").unwrap_or((row.as_str(), ""));
        let given = match self.outcome(call) {
            Ok(given) => given,
            Err(fault) => format!(in alloc; "{fault}")?,
        };
        if given.as_str() == wanted {
            return Ok(None);
        }
        Ok(Some(given))
    }

    /// What a call comes to.
    fn outcome(&mut self, call: &str) -> Result<String> {
        let (verb, rest) = cut(call);
        match verb {
            "advance" => self.advance(),
            "tell" => self.tell(),
            "go_on" => self.go_on(),
            "ask" | "look" => self.ask(verb, rest),
            "report" | "settle" => self.report(verb),
            "sum" => Ok(text_of(self.report.as_slice()).to_string(self.alloc)?),
            "count" => self.count(rest),
            _ => {
                self.perform(verb, rest)?;
                Ok("ok".to_string(self.alloc)?)
            }
        }
    }

    /// Makes a call that tells nothing but a fault.
    fn perform(&mut self, verb: &str, rest: &str) -> Result<()> {
        let alloc = self.alloc;
        match verb {
            "put" => self.put(rest),
            "put_hundred" => self.put_hundred(rest),
            "remove" => {
                let name = Bytes::from_slice(alloc, rest.as_bytes())?;
                Ok(self.core.edit(alloc, Edit::RemoveFile(name))?)
            }
            "start" => {
                self.ended = None;
                self.job = job_of(alloc, rest)?;
                Ok(())
            }
            "answer" => Ok(self.job.answer(answer(alloc, rest)?)?),
            "commit" => self.commit(),
            _ => bail!("no such call"),
        }
    }

    /// Puts a file: its name, and its text behind a space.
    fn put(&mut self, file: &str) -> Result<()> {
        let (name, text) = cut(file);
        let name = Bytes::from_slice(self.alloc, name.as_bytes())?;
        let text = Bytes::from_slice(self.alloc, text.as_bytes())?;
        Ok(self.core.edit(self.alloc, Edit::PutFile(name, text))?)
    }

    /// Puts the scripts t/00.exp to t/99.exp with this text.
    fn put_hundred(&mut self, text: &str) -> Result<()> {
        for number in 0..100_u8 {
            let file = format!(in self.alloc; "t/{number:02}.exp {text}")?;
            self.put(file.as_str())?;
        }
        Ok(())
    }

    /// What the next turn of the job comes to. The record that it may end with is held.
    fn advance(&mut self) -> Result<String> {
        match self.job.advance(self.alloc)? {
            Turn::Need(ask) => Ok(spelled_question(self.alloc, &ask)?),
            Turn::Done(record) => {
                let spelled = spelled_record(self.alloc, &record)?;
                self.ended = Some(record);
                Ok(spelled)
            }
        }
    }

    /// Tells the job what the core answers to its next question.
    fn tell(&mut self) -> Result<String> {
        let Turn::Need(ask) = self.job.advance(self.alloc)? else {
            bail!("the job has ended");
        };
        let answer = self.core.ask(self.alloc, &ask.question)?;
        let spelled = spelled_answer(self.alloc, &answer)?;
        self.job.answer(answer)?;
        Ok(spelled)
    }

    /// Tells the job what the core answers, until it is done.
    fn go_on(&mut self) -> Result<String> {
        for _ in 0..TURNS {
            let turn = self.advance()?;
            if self.ended.is_some() {
                return Ok(turn);
            }
            let _told = self.tell()?;
        }
        bail!("no end")
    }

    /// Gives the core the record that the job has ended with.
    fn commit(&mut self) -> Result<()> {
        let Some(record) = self.ended.take() else {
            bail!("no record");
        };
        match self.core.commit(self.alloc, record) {
            Ok(()) => Ok(()),
            Err(_record) => bail!("out of memory"),
        }
    }

    /// What the core answers to a question, or without reading a pattern holds as its answer.
    fn ask(&mut self, verb: &str, spelled: &str) -> Result<String> {
        let question = question(self.alloc, spelled)?;
        let answer = match verb {
            "look" => self.core.answer(self.alloc, &question)?,
            _ => Some(self.core.ask(self.alloc, &question)?),
        };
        match answer {
            Some(answer) => Ok(spelled_answer(self.alloc, &answer)?),
            None => bail!("nothing"),
        }
    }

    /// What the core reports, or settles to, where all is judged before. The text of the report is kept.
    fn report(&mut self, verb: &str) -> Result<String> {
        let reply = match verb {
            "settle" => {
                let (text, status) = self.core.settle(self.alloc)?;
                Reply::Sum(text, status)
            }
            _ => self.core.report(self.alloc)?,
        };
        match reply {
            Reply::Sum(text, status) => {
                self.report = text;
                Ok(format!(in self.alloc; "status {status}")?)
            }
            Reply::Pending(tests) => Ok(spelled_tests(self.alloc, tests.as_slice())?),
        }
    }

    /// How many lines of the last report are this one, or a count of the job or the core.
    fn count(&self, what: &str) -> Result<String> {
        let count = match what {
            "steps" => self.job.steps(),
            "evaluations" => self.core.evaluations(),
            "compared" => self.core.compared(),
            line => count_of(self.alloc, self.report.as_slice(), line.as_bytes())? as u64,
        };
        Ok(format!(in self.alloc; "{count}")?)
    }
}
