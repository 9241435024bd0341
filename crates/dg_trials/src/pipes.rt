//! Talks with real children over pipes. Each row of data/pipes.rows is a call, its fields set apart by `~`, and behind a tab what it
//! comes to, without its wait. Of the accounts of the sessions that are left stands what no clock decides.
use crate::files::bytes_of;
use anyhow::Result as Tried;
use dg_bytes::{Bytes, Seq};
use dg_gate::{Gate, perform};
use dg_pipes::{Account, Bells, Fresh, Item, PipeGate, Rule, pump};
use dg_transcript::{Action, Entry};
use rtrb::RingBuffer;
use std::alloc::{AllocError, Global};
use std::process::{Processes, SystemProcess};
use std::rt::Files;
use std::sync::Wait;
use std::thread::Threads;
use std::time::Clock;
use std::{io, str};

/// The rows of calls.
const ROWS: &str = "pipes.rows";

/// The limit of a read that is not itself tested, in milliseconds.
const LONG: u32 = 60_000;

/// How many items the ring of a pump holds.
const SLOTS: usize = 64;

/// A call: what is asked of which session, and what with.
#[derive(Drop)]
struct Call<'a> {
    kind: &'a str,
    session: u32,
    rest: &'a str,
}

/// The call that a row spells.
fn call_of(line: &str) -> Option<Call> {
    let (kind, behind) = line.split_once('~')?;
    let (session, rest) = behind.split_once('~').unwrap_or((behind, ""));
    let session = session.parse::<u32>().ok()?;
    Some(Call {
        kind,
        session,
        rest,
    })
}

/// The words of a start.
fn words_of(alloc: Global, text: &str) -> Result<Seq<Bytes>, AllocError> {
    let mut words = Vec::new(alloc);
    for word in text.split('~') {
        words.push(Bytes::from_slice(alloc, word.as_bytes())?)?;
    }
    Ok(Seq::from_vec(words))
}

/// The action of a call, if it has one.
fn action_of(alloc: Global, call: &Call) -> Result<Option<Action>, AllocError> {
    Ok(match call.kind {
        "spawn" => Some(Action::Spawn(words_of(alloc, call.rest)?)),
        "send" => {
            let mut bytes = Bytes::from_slice(alloc, call.rest.as_bytes())?;
            bytes.push(b'\n')?;
            Some(Action::Send(bytes))
        }
        "read" => call.rest.parse::<u32>().ok().map(Action::Read),
        "close" => Some(Action::Close),
        "wait" => Some(Action::Wait),
        _ => None,
    })
}

/// Bytes as text.
fn text_of(bytes: &Bytes) -> &str {
    str::from_utf8(bytes.as_slice()).unwrap_or("?")
}

/// What an entry tells.
fn told(alloc: Global, entry: &Entry) -> Result<String, AllocError> {
    match entry {
        Entry::Started(_) => format!(in alloc; "started"),
        Entry::NoStart(code, _) => format!(in alloc; "nostart {}", code.number()),
        Entry::Sent(_) => format!(in alloc; "sent"),
        Entry::NoSend(code, _) => format!(in alloc; "nosend {}", code.number()),
        Entry::Chunk(_, bytes) => format!(in alloc; "chunk {}", text_of(bytes).trim_end()),
        Entry::End(_) => format!(in alloc; "end"),
        Entry::NoRead(code) => format!(in alloc; "noread {}", code.number()),
        Entry::Silence(wait) => format!(in alloc; "silence {wait}"),
        Entry::Closed => format!(in alloc; "closed"),
        Entry::NoClose(code) => format!(in alloc; "noclose {}", code.number()),
        Entry::Exited(status) => format!(in alloc; "exited {status}"),
        Entry::Killed(signal) => format!(in alloc; "killed {signal}"),
        Entry::NoWait(code) => format!(in alloc; "nowait {}", code.number()),
    }
}

/// A gate, and the sessions whose end was read.
struct Table<G> {
    gate: G,
    alloc: Global,
    ended: Vec<u32>,
}

impl<G: Gate> Table<G> {
    /// One call, where the gate can still count a failure.
    fn ask(&mut self, session: u32, action: &Action) -> Result<Option<Entry>, AllocError>
        requires { G.is_ready self.old.gate }
        ensures { G.is_ready self.new.gate }
    {
        if self.gate.failures() == u64::MAX {
            return Ok(None);
        }
        let entry = perform(&mut self.gate, self.alloc, session, action)?;
        if let Entry::End(_) = &entry {
            self.ended.push(session)?;
        }
        Ok(Some(entry))
    }

    /// Reads to the end: how many bytes came.
    fn drain(&mut self, session: u32) -> Result<String, AllocError>
        requires { G.is_ready self.old.gate }
        ensures { G.is_ready self.new.gate }
    {
        let mut count = 0u64;
        for _ in 0..u64::MAX {
            match self.ask(session, &Action::Read(LONG))? {
                Some(entry) => match entry.output() {
                    Some((_, bytes)) => count = count.saturating_add(bytes.len() as u64),
                    None => {
                        let last = told(self.alloc, &entry)?;
                        return format!(in self.alloc; "{count} bytes, {last}");
                    }
                },
                None => break,
            }
        }
        format!(in self.alloc; "{count} bytes")
    }

    /// Sends a line and reads one chunk, so many times: how many chunks came.
    fn talk(&mut self, session: u32, rounds: u32) -> Result<String, AllocError>
        requires { G.is_ready self.old.gate }
        ensures { G.is_ready self.new.gate }
    {
        let line = Action::Send(Bytes::from_slice(self.alloc, b"x\n")?);
        let mut count = 0u64;
        for _ in 0..rounds {
            let _sent = self.ask(session, &line)?;
            let answer = self.ask(session, &Action::Read(LONG))?;
            if matches!(&answer, Some(Entry::Chunk(..))) {
                count = count.saturating_add(1);
            }
        }
        format!(in self.alloc; "{count} answers")
    }

    /// What a call of a session comes to.
    fn answer(&mut self, call: &Call) -> Result<String, AllocError>
        requires { G.is_ready self.old.gate }
        ensures { G.is_ready self.new.gate }
    {
        match call.kind {
            "drain" => return self.drain(call.session),
            "talk" => return self.talk(call.session, call.rest.parse().unwrap_or(0)),
            _ => {}
        }
        let Some(action) = action_of(self.alloc, call)? else {
            return format!(in self.alloc; "unknown");
        };
        match self.ask(call.session, &action)? {
            Some(entry) => told(self.alloc, &entry),
            None => format!(in self.alloc; "too many failures"),
        }
    }

    /// What a row gives in place of what it wants.
    fn other_answer(&mut self, row: &str) -> Result<Option<String>, AllocError>
        requires { G.is_ready self.old.gate }
        ensures { G.is_ready self.new.gate }
    {
        let (spelled, want) = row.split_once('\t').unwrap_or((row, ""));
        let given = match call_of(spelled) {
            Some(call) => self.answer(&call)?,
            None => format!(in self.alloc; "no such call")?,
        };
        if given.as_str() == want {
            return Ok(None);
        }
        Ok(Some(given))
    }

    /// Tries the rows of a text. Each one that gives something else is told, by its line, and then how many rows there are.
    fn try_rows(&mut self, rt: &impl Print, text: &str) -> io::Result<()>
        requires { G.is_ready self.old.gate }
    {
        let (mut line, mut count) = (0u64, 0u64);
        for row in text.lines() {
            line = line.wrapping_add(1);
            if row.is_empty() || row.starts_with('#') {
                continue;
            }
            count = count.wrapping_add(1);
            if let Some(given) = self.other_answer(row)? {
                println!(rt; "{ROWS}:{line}: gives {given}")?;
            }
        }
        println!(rt; "{ROWS}: {count} rows")
    }
}

/// Pumps a text into a ring: how many bytes came, and whether it was told as all.
fn pumped(rt: &impl Wait, alloc: Global, text: &str) -> Result<String, AllocError> {
    let (mut producer, mut ring) = RingBuffer::with_protocol::<Global, Rule>(alloc, SLOTS)?;
    let mut source = text.as_bytes();
    let whole = pump(rt, alloc, &mut source, &mut producer, &Bells::new());
    let mut count = 0u64;
    for _ in 0..SLOTS {
        match ring.pop() {
            Ok(Item::Chunk(bytes)) => count = count.saturating_add(bytes.len() as u64),
            Ok(_) => return format!(in alloc; "{count} bytes, end, {whole}"),
            Err(_) => break,
        }
    }
    format!(in alloc; "{count} bytes, {whole}")
}

/// Writes an account. Where its end was read the ring has to give all that was pushed; else that depends on how
/// soon the reader's thread saw the child's end.
fn write_account(rt: &impl Print, account: &Account, ended: &[u32]) -> io::Result<()> {
    let session = account.session;
    if !ended.contains(&session) {
        return println!(rt; "session {session}");
    }
    if account.finished.is_some() {
        println!(rt; "session {session} whole")
    } else {
        println!(rt; "session {session} cut")
    }
}

/// Tries the rows of this folder on a gate of their own, and tells of the sessions that are left when it stops.
fn talk<R>(rt: R, text: &str) -> io::Result<()>
where
    R: Print
        + AllocGlobal
        + Processes<Started = SystemProcess>
        + Threads
        + Wait
        + Clock
        + Copy
        + Drop
        + Send
        + 'static,
{
    let alloc = rt.alloc();
    let mut table = Table {
        gate: PipeGate::new(rt, alloc, move |output| Fresh::open(rt, alloc, output)),
        alloc,
        ended: Vec::new(alloc),
    };
    let tried = table.try_rows(&rt, text);
    let Table {
        gate,
        alloc: _,
        ended,
    } = table;
    let accounts = gate.stop();
    for account in accounts.as_slice() {
        write_account(&rt, account, ended.as_slice())?;
    }
    tried
}

/// Pumps a text, and tries the rows of this folder.
pub fn try_file<R>(rt: R, folder: &str) -> Tried<()>
where
    R: Print
        + Files
        + AllocGlobal
        + Processes<Started = SystemProcess>
        + Threads
        + Wait
        + Clock
        + Copy
        + Drop
        + Send
        + 'static,
{
    let said = pumped(&rt, rt.alloc(), "three pieces")?;
    println!(rt; "a pumped text: {said}")?;
    let text = bytes_of(&rt, folder, ROWS)?;
    Ok(talk(rt, str::from_utf8(text.as_slice())?)?)
}
