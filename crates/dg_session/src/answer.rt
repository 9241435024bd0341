//! What a line of a session is answered.
ghost use Rattle.std.specs.Prelude.{◌≡◌, ◌++◌, decimal, OnOk, OnErr, IfErr};
ghost use Rattle.std.specs.Io.KnownBytes.{Appends};
ghost use Rattle.dg_session.specs.Answer.{first_line_of, report_in, text_of};
ghost use Rattle.dg_session.specs.Session.{AppendsFront};

use crate::fault::SessionFault;
use crate::writing::write_whole;
use dg_bytes::Bytes;
use itoa::Buffer;
use std::alloc::AllocError;
use std::io::Write;

/// What a line is answered. A contract sees the bytes of a report as a list.
#[derive(Debug, Drop, PartialEq, Eq)]
pub enum LineAnswer {
    /// The edit was made: `ok`.
    Done,
    /// The edit was refused with this number, and nothing changed: `refused N`.
    Refused(u8),
    /// The text is no transcript, and nothing changed: its first bad line, and the number of what is wrong with it: `refused
    /// 7 LINE CAUSE`.
    BadTranscript(u32, u8),
    /// The status, how many tests were evaluated for it, and the report: `sum STATUS LENGTH
    /// EVALUATED`, and behind that line the bytes of the report.
    Sum(u8, u64, Bytes),
    /// There is no report, for the fault of this number: `fault N`.
    Fault(u8),
    /// The line asks nothing that is known: `unknown`.
    Unknown,
}

/// Adds a word and a number to a line.
fn push_number(line: &mut Vec<u8>, word: &[u8], number: u64) -> Result<(), AllocError>
    ensures { OnOk result (line.new.items ≡ line.old.items ++ word.now ++ decimal number) }
{
    let mut digits = Buffer::new();
    line.extend_from_slice(word)?;
    line.extend_from_slice(digits.format(number).as_bytes())
}

impl LineAnswer {
    /// Adds the first line to a text, with its line feed.
    #[tactic(auto, unfolding(crate::specs::Answer::first_line_of))]
    pub fn push_first_line(&self, text: &mut Vec<u8>) -> Result<(), AllocError>
        ensures { OnOk result (text.new.items ≡ text.old.items ++ first_line_of self.now) }
    {
        match self {
            LineAnswer::Done => return text.extend_from_slice(b"ok\n"),
            LineAnswer::Refused(number) => push_number(text, b"refused ", u64::from(*number))?,
            LineAnswer::BadTranscript(line, cause) => {
                push_number(text, b"refused 7 ", u64::from(*line))?;
                push_number(text, b" ", u64::from(*cause))?;
            }
            LineAnswer::Sum(status, evaluated, report) => {
                push_number(text, b"sum ", u64::from(*status))?;
                push_number(text, b" ", report.len() as u64)?;
                push_number(text, b" ", *evaluated)?;
            }
            LineAnswer::Fault(number) => push_number(text, b"fault ", u64::from(*number))?,
            LineAnswer::Unknown => return text.extend_from_slice(b"unknown\n"),
        }
        text.extend_from_slice(b"\n")
    }

    /// The report of a sum, and else nothing.
    pub fn report(&self) -> &[u8]
        ensures { result.now ≡ report_in self.now }
    {
        match self {
            LineAnswer::Sum(_, _, report) => report.as_slice(),
            _ => b"",
        }
    }
}

/// Writes an answer, or a front of it.
pub fn write_answer<W: Write>(
    writer: &mut W,
    first_line: &[u8],
    answer: &LineAnswer,
) -> Result<(), SessionFault>
    requires { first_line.now ≡ first_line_of answer.now }
    ensures ok { OnOk result (Appends (W.contents writer.old) (W.contents writer.new) (text_of answer.now)) }
    ensures err { OnErr result (AppendsFront (W.contents writer.old) (W.contents writer.new) (text_of answer.now)) }
    ensures kind { IfErr result (λ e. e ≡ SessionFault.WriteFault) }
{
    write_whole(writer, first_line)?;
    write_whole(writer, answer.report())
}
