//! Lines of a reader, each within a limit.
ghost use Rattle.std.specs.Prelude.{◌≡◌, ◌≢◌, ◌++◌, ◌≤◌, ◌<◌, ◌+◌, ◌-◌, [], ℕ, List, All, Err, Some, length, take, true, vec_len, IfOk, IfSome, OnOk, OnSome};
ghost use Rattle.std.specs.Io.{StopsAt, IsEmptyOrEndsWith};
ghost use Rattle.std.specs.Io.BufRead.{take_through, DropsThrough};
ghost use Rattle.std.specs.Io.KnownBytes.{Consumes, IsAtEnd, Keeps};
ghost use Rattle.bstr.specs.Records.{trim_record};

use crate::fault::{SessionFault, fault_of_read};
use crate::writing::flush;
use memchr::memchr;
use std::io;
use std::io::{BufRead, Write};

/// The length up to and including the first line feed, or the whole length.
fn length_through(bytes: &[u8]) -> usize
    ensures bound { result ≤ length bytes.now }
    ensures some { 0 < length bytes.now → 0 < result }
    ensures before { All (λ x. x ≢ 10) (take (result - 1) bytes.now) }
{
    match memchr(b'\n', bytes) {
        Some(at) => at + 1,
        None => bytes.len(),
    }
}

/// Adds what the reader has at hand of its line to what the line has so far, and answers whether
/// the line or the input ended there. A line that would grow past the limit stays as it was. Whether more than that piece was
/// at hand is noted.
fn append_piece<R: BufRead>(
    reader: &mut R,
    limit: usize,
    line: &mut Vec<u8>,
    has_more: &mut bool,
) -> Result<bool, SessionFault>
    requires { vec_len line.old ≤ limit }
    ensures held { vec_len line.new ≤ limit }
    ensures read { IfOk result (λ done. (piece : List ℕ) × (line.new.items ≡ line.old.items ++ piece) × StopsAt piece 10
        × Consumes (R.remaining reader.old) (R.remaining reader.new) piece
        × (done ≢ true → All (λ x. x ≢ 10) piece)
        × (done ≡ true → IsEmptyOrEndsWith piece 10)
        × (done ≡ true → length piece ≡ 0 → OnSome (R.remaining reader.old) (IsAtEnd (R.remaining reader.new)))) }
    ensures too_long { result ≡ Err SessionFault.TooLong → IfSome (R.remaining reader.old)
        (λ xs. limit < length line.old.items + length (take_through 10 xs)) }
    ensures no_write { result ≢ Err SessionFault.WriteFault }
{
    let available = match reader.fill_buf() {
        Ok(available) => available,
        Err(error) => {
            return if error.kind() == io::ErrorKind::Interrupted {
                Ok(false)
            } else {
                Err(fault_of_read(&error))
            };
        }
    };
    let end = length_through(available);
    if end > limit - line.len() {
        return Err(SessionFault::TooLong);
    }
    line.extend_from_slice(&available[..end])?;
    let is_all = end == available.len();
    let is_done = end == 0 || available[end - 1] == b'\n';
    reader.consume(end);
    *has_more = !is_all;
    Ok(is_done)
}

/// Reads a line with its line feed into an empty vector: at the end of the input nothing. It never
/// holds more than the limit, whatever the reader gives. Before the reader may wait the writer is flushed, so that whoever is
/// waited for has all answers so far; while more than the line before was at hand it can't wait. Answers whether more than
/// this line was at hand.
pub fn read_line<R: BufRead, W: Write>(
    reader: &mut R,
    writer: &mut W,
    limit: usize,
    line: &mut Vec<u8>,
    mut has_more: bool,
) -> Result<bool, SessionFault>
    requires { line.old.items ≡ [] }
    ensures kept { Keeps (W.contents writer.old) (W.contents writer.new) }
    ensures held { vec_len line.new ≤ limit }
    ensures bytes { OnOk result (IfSome (R.remaining reader.old) (λ xs. line.new.items ≡ take_through 10 xs)) }
    ensures rest { OnOk result (DropsThrough (R.remaining reader.old) (R.remaining reader.new) 10) }
    ensures too_long { result ≡ Err SessionFault.TooLong → IfSome (R.remaining reader.old)
        (λ xs. limit < length (take_through 10 xs)) }
{
    for _ in 0..u64::MAX {
        if !has_more {
            flush(writer)?;
        }
        if append_piece(reader, limit, line, &mut has_more)? {
            return Ok(has_more);
        }
    }
    Err(SessionFault::ReadFault)
}

/// A line without its line feed, which the last line of an input may want.
pub fn without_line_feed(line: &[u8]) -> &[u8]
    ensures { result.now ≡ trim_record 10 line.now }
{
    let len = line.len();
    if len > 0 && line[len - 1] == b'\n' {
        &line[..len - 1]
    } else {
        line
    }
}
