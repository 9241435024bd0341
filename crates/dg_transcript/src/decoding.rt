//! A text read as a transcript.
ghost use Rattle.std.specs.Prelude.{◌≡◌, if◌then◌else◌, ◌<◌, ◌≤◌, ◌+◌, ◌++◌, ◌∷◌, [], suc, length, OnOk, OnErr, IfOk, IfErr, MatchResult, List, true, vec_len};
ghost use Rattle.bstr.specs.Text.{lines_of};
ghost use Rattle.dg_transcript.specs.Fields.{Parses, Fails};
ghost use Rattle.dg_transcript.specs.Kept.{next_of};
ghost use Rattle.dg_transcript.specs.Limits.{IsTranscript};
ghost use Rattle.dg_transcript.specs.Text.{text_of};
ghost use Rattle.dg_transcript.specs.Sessions.{sessions_in};
ghost use Rattle.dg_transcript.specs.declared.entry.Entry.{Entry};
ghost use Rattle.dg_transcript.specs.declared.limits.TheConstants.{MAX_ENTRIES, MAX_SESSIONS};
ghost use Rattle.dg_transcript.specs.Lines.{may_come, is_past, placed, whole_line_at, line_at, line_behind, place_of, is_over, Say, Takes, IsFault};

use crate::cause::Cause;
use crate::entry::Entry;
use crate::limits::{MAX_ENTRIES, MAX_SESSIONS};
use crate::line::{Line, Place};
use crate::reading::read_line;
use crate::transcript::Transcript;
use bstr::ByteSlice;
use dg_bytes::Seq;
use std::alloc::{AllocError, Global};
use std::marker::Model;
use std::mem;

/// For how many lines or entries room is made at once: many transcripts have no more.
const NEAR: usize = 16;

/// The lines that were read so far. A contract sees the list of what they say.
#[derive(Drop)]
struct Lines {
    lines: Vec<Line>,
    place: Place,
    sessions: u32,
    entries: u32,
}

impl Model for Lines {
    ghost use Rattle.std.specs.Prelude.{List};
    ghost use Rattle.dg_transcript.specs.declared.line.Line.{Line};

    ghost Value = { List Line };

    ghost use Rattle.dg_transcript.specs.Kept.{Keeps};

    ghost view = { λ r. r.lines.items };

    ghost invariant = { λ r. Keeps r.lines.items r.place r.sessions r.entries };
}

// Whether a line may come at a place where so many sessions have begun.
fn may_come(place: Place, sessions: u32, line: &Line) -> bool
    requires { sessions ≤ MAX_SESSIONS }
    ensures { result ≡ may_come place sessions line.now }
{
    match line {
        Line::Header => false,
        Line::Session(number) => place.opens_session() && *number == sessions + 1,
        Line::Said(entry) => place.admits(entry.role()),
        Line::Done => place.opens_session(),
    }
}

// Whether it is one more session or entry than there may be.
fn is_past(sessions: u32, entries: u32, line: &Line) -> bool
    ensures { result ≡ is_past sessions entries line.now }
{
    match line {
        Line::Session(_) => sessions as usize >= MAX_SESSIONS,
        Line::Said(_) => entries as usize >= MAX_ENTRIES,
        Line::Header | Line::Done => false,
    }
}

fn placed(place: Place, sessions: u32, entries: u32, line: Line) -> Result<Line, Cause>
    requires { sessions ≤ MAX_SESSIONS }
    ensures { Parses (λ l. l) result (placed place sessions entries line) }
{
    if !may_come(place, sessions, &line) {
        return Err(Cause::SessionOrder);
    }
    if is_past(sessions, entries, &line) {
        return Err(Cause::TooMany);
    }
    Ok(line)
}

#[tactic(auto, unfolding(crate::specs::Lines::whole_line_at))]
fn whole_line_at(
    alloc: Global,
    place: Place,
    sessions: u32,
    entries: u32,
    text: &[u8],
) -> Result<Line, Cause>
    requires few { sessions ≤ MAX_SESSIONS }
    requires some { 0 < length text.now }
    ensures { Parses (λ l. l) result (whole_line_at place sessions entries text.now) }
{
    match place {
        Place::Top => {
            if text == b"dejagnu-transcript 1\n".as_slice() {
                Ok(Line::Header)
            } else {
                Err(Cause::Header)
            }
        }
        Place::Over => Err(Cause::Kind),
        Place::Between | Place::Opened | Place::Running | Place::Ended => {
            let line = read_line(alloc, &text[..text.len() - 1])?;
            placed(place, sessions, entries, line)
        }
    }
}

#[tactic(auto, unfolding(crate::specs::Lines::line_at))]
fn line_at(
    alloc: Global,
    place: Place,
    sessions: u32,
    entries: u32,
    text: &[u8],
) -> Result<Line, Cause>
    requires { sessions ≤ MAX_SESSIONS }
    ensures { Parses (λ l. l) result (line_at place sessions entries text.now) }
{
    if text.is_empty() {
        return Err(Cause::Truncated);
    }
    if text[text.len() - 1] != b'\n' {
        return Err(Cause::Truncated);
    }
    whole_line_at(alloc, place, sessions, entries, text)
}

// The place behind a line, and how many sessions and entries there are with it.
fn next_of(line: &Line, sessions: u32, entries: u32) -> (Place, u32, u32)
    requires few_begun { sessions ≤ MAX_SESSIONS }
    requires few_said { entries ≤ MAX_ENTRIES }
    ensures { result ≡ next_of line.now sessions entries }
{
    match line {
        Line::Header => (Place::Between, sessions, entries),
        Line::Session(_) => (Place::Opened, sessions + 1, entries),
        Line::Said(entry) => (entry.role().after(), sessions, entries + 1),
        Line::Done => (Place::Over, sessions, entries),
    }
}

// Adds a line behind others. The first makes room for some more.
fn push_line(lines: &mut Vec<Line>, line: Line) -> Result<(), AllocError>
    ensures ok { OnOk result (lines.new.items ≡ lines.old.items ++ line ∷ []) }
    ensures err { OnErr result (lines.new.items ≡ lines.old.items) }
{
    if lines.is_empty() {
        lines.reserve(NEAR)?;
    }
    lines.push(line)?;
    Ok(())
}

impl Lines {
    fn new(alloc: Global) -> Lines
        ensures { result ≡ [] }
    {
        Lines {
            lines: Vec::new(alloc),
            place: Place::Top,
            sessions: 0,
            entries: 0,
        }
    }

    // The number of the next line, from 1.
    fn next(&self) -> u32
        ensures { result ≡ suc (length self.now) }
    {
        self.lines.len() as u32 + 1
    }

    fn is_over(&self) -> bool
        ensures { result ≡ is_over (place_of self.now) }
    {
        matches!(self.place, Place::Over)
    }

    // Reads the next line, or changes nothing.
    fn take(&mut self, alloc: Global, text: &[u8]) -> Result<(), Cause>
        ensures ok { OnOk result (Takes self.old text.now self.new) }
        ensures err { OnErr result (self.new ≡ self.old) }
        ensures why { IfErr result (λ e. Fails e (line_behind self.old text.now)) }
    {
        let line = line_at(alloc, self.place, self.sessions, self.entries, text)?;
        let (place, sessions, entries) = next_of(&line, self.sessions, self.entries);
        push_line(&mut self.lines, line)?;
        self.place = place;
        self.sessions = sessions;
        self.entries = entries;
        Ok(())
    }
}

fn into_lines(lines: Lines) -> Vec<Line>
    ensures value { result.items ≡ lines }
    ensures few { vec_len result < 65603 }
{
    let Lines { lines, .. } = lines;
    lines
}

fn read_lines(alloc: Global, text: &[u8]) -> Result<Vec<Line>, (u32, Cause)>
    ensures ok { IfOk result (λ ls. Say [] (lines_of text.now) ls.items) }
    ensures over { IfOk result (λ ls. is_over (place_of ls.items) ≡ true) }
    ensures few { IfOk result (λ ls. vec_len ls < 65603) }
    ensures fault { IfErr result (λ e. IsFault text.now e.0 e.1) }
{
    let mut lines = Lines::new(alloc);
    for line in text.lines_with_terminator() {
        let number = lines.next();
        if let Err(cause) = lines.take(alloc, line) {
            return Err((number, cause));
        }
    }
    if !lines.is_over() {
        return Err((lines.next(), Cause::Truncated));
    }
    Ok(into_lines(lines))
}

// Puts the session that is open behind those that are done, if one has begun.
fn end_session(
    done: &mut Vec<Seq<Entry>>,
    entries: Vec<Entry>,
    begun: bool,
) -> Result<(), AllocError>
    ensures { OnOk result (done.new.items ≡ done.old.items ++ (if begun then entries.items ∷ [] else [])) }
{
    if begun {
        done.push(Seq::from_vec(entries))?;
    }
    Ok(())
}

fn sessions_of(alloc: Global, lines: Vec<Line>) -> Result<Seq<Seq<Entry>>, AllocError>
    ensures { IfOk result (λ s. s ≡ sessions_in lines.items) }
{
    let near = lines.len().min(NEAR);
    let mut done = Vec::new(alloc);
    let mut open = Vec::new(alloc);
    let mut begun = false;
    for line in lines {
        match line {
            Line::Session(_) => {
                let entries = mem::replace(&mut open, Vec::with_capacity(alloc, near)?);
                end_session(&mut done, entries, begun)?;
                begun = true;
            }
            Line::Said(entry) => open.push(entry)?,
            Line::Header | Line::Done => {}
        }
    }
    end_session(&mut done, open, begun)?;
    Ok(Seq::from_vec(done))
}

/// The transcript that a text spells, or its first bad line, counted from 1, with what is wrong
/// with it. Where memory runs out the line is the one that was being read.
pub fn decode(alloc: Global, text: &[u8]) -> Result<Transcript, (u32, Cause)>
    // What is read is spelled so.
    ensures found { IfOk result (λ t. IsTranscript t × (text.now ≡ text_of t)) }
    // What is spelled so is read, unless memory runs out.
    ensures only { (ss : List (List Entry)) → IsTranscript ss → text.now ≡ text_of ss →
        MatchResult result (λ t. t ≡ ss) (λ e. e.1 ≡ Cause.Memory) }
    // Which line is bad, and why.
    ensures fault { IfErr result (λ e. IsFault text.now e.0 e.1) }
{
    let lines = read_lines(alloc, text)?;
    let last = lines.len() as u32;
    match sessions_of(alloc, lines) {
        Ok(sessions) => Ok(Transcript::keeping(sessions)),
        Err(_) => Err((last, Cause::Memory)),
    }
}
