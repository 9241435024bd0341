//! How rows spell questions, answers and verdicts.
use anyhow::{Result, bail};
use dg_boards::Triplet;
use dg_bytes::Bytes;
use dg_language::Ask;
use dg_match::Reading;
use dg_records::Record;
use dg_transcript::Entry;
use dg_world::{Answer, Name, Question, TestId};
use std::alloc::{AllocError, Global};
use std::str;

/// A word, and what stands behind the space after it.
pub fn cut(text: &str) -> (&str, &str) {
    text.split_once(' ').unwrap_or((text, ""))
}

/// Bytes as text.
pub fn text_of(bytes: &[u8]) -> &str {
    str::from_utf8(bytes).unwrap_or("(no text)")
}

/// The question that is spelled so.
pub fn question(alloc: Global, spelled: &str) -> Result<Question> {
    let (kind, rest) = cut(spelled);
    let rest = Bytes::from_slice(alloc, rest.as_bytes())?;
    Ok(match kind {
        "file" => Question::File(Name::new(alloc, rest.as_slice())?),
        "tool" => Question::Tool,
        "variable" => Question::Variable(rest),
        "pattern" => Question::Pattern(rest),
        _ => bail!("no such question"),
    })
}

/// How a question is spelled, and that it is for what an action of the test's child gives.
pub fn spelled_question(alloc: Global, ask: &Ask) -> Result<String, AllocError> {
    let mut spelled = match &ask.question {
        Question::File(name) => format!(in alloc; "file {}", text_of(name.as_slice())),
        Question::Tool => format!(in alloc; "tool"),
        Question::Triplet(system) => format!(in alloc; "triplet {system:?}"),
        Question::Variable(name) => format!(in alloc; "variable {}", text_of(name.as_slice())),
        Question::Entry(place) => format!(in alloc; "entry {} {}", place.session, place.place),
        Question::Pattern(text) => format!(in alloc; "pattern {}", text_of(text.as_slice())),
    }?;
    if ask.action.is_some() {
        spelled.push_str(" by an action")?;
    }
    Ok(spelled)
}

/// The answer that is spelled so. An entry is that of a close.
pub fn answer(alloc: Global, spelled: &str) -> Result<Answer> {
    let (kind, rest) = cut(spelled);
    let rest = Bytes::from_slice(alloc, rest.as_bytes())?;
    Ok(match kind {
        "absent" => Answer::Absent,
        "content" => Answer::Content(rest),
        "tool" => Answer::Tool(rest),
        "triplet" => Answer::Triplet(Triplet::new(alloc, rest.as_slice())?),
        "unset" => Answer::Unset,
        "value" => Answer::Value(rest),
        "ended" => Answer::Ended,
        "entry" => Answer::Entry(Entry::Closed),
        "read" => Answer::Reading(Reading::Read),
        "syntax" => Answer::Reading(Reading::Syntax),
        "large" => Answer::Reading(Reading::TooLarge),
        _ => bail!("no such answer"),
    })
}

/// How an answer is spelled.
pub fn spelled_answer(alloc: Global, answer: &Answer) -> Result<String, AllocError> {
    match answer {
        Answer::Absent => format!(in alloc; "absent"),
        Answer::Content(text) => format!(in alloc; "content {}", text_of(text.as_slice())),
        Answer::Tool(tool) => format!(in alloc; "tool {}", text_of(tool.as_slice())),
        Answer::Triplet(triplet) => { format!(in alloc; "triplet {}", text_of(triplet.as_slice())) }
        Answer::Unset => format!(in alloc; "unset"),
        Answer::Value(value) => format!(in alloc; "value {}", text_of(value.as_slice())),
        Answer::Ended => format!(in alloc; "ended"),
        Answer::Entry(_) => format!(in alloc; "entry"),
        Answer::Reading(Reading::Read) => format!(in alloc; "read"),
        Answer::Reading(Reading::Syntax) => format!(in alloc; "syntax"),
        Answer::Reading(Reading::TooLarge) => format!(in alloc; "large"),
    }
}

/// How the end of a job is spelled: with the lines of its record.
pub fn spelled_record(alloc: Global, record: &Record) -> Result<String, AllocError> {
    let mut spelled = format!(in alloc; "done")?;
    for line in record.verdict().lines() {
        let (class, message) = (line.class.name(), line.message.as_slice());
        write!(spelled, "; {}: {}", text_of(class), text_of(message))?;
    }
    Ok(spelled)
}

/// How a report is spelled that names pending tests.
pub fn spelled_tests(alloc: Global, tests: &[TestId]) -> Result<String, AllocError> {
    let mut spelled = format!(in alloc; "pending")?;
    for test in tests {
        let (board, script) = (test.board().as_slice(), test.script().as_slice());
        write!(spelled, "; {} {}", text_of(board), text_of(script))?;
    }
    Ok(spelled)
}
