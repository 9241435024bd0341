//! The result calls of a test, judged as they come.
ghost use Rattle.std.specs.Prelude.{◌≡◌, [], ◌++◌, List, OnOk, OnErr, IfOk};
ghost use Rattle.dg_results.specs.declared.call.ResultCall.{ResultCall};
ghost use Rattle.dg_results.specs.declared.call.ResultCall.TheVariants.{Pass, Fail, Unresolved, Untested, Unsupported, Perror, Warning, Note, SetupXfail, ClearXfail, SetupKfail, ClearKfail};
ghost use Rattle.dg_results.specs.Lines.{lines_of, abort_lines, depart_lines};
ghost use Rattle.dg_results.specs.Standing.{after_calls, Adds};
ghost use Rattle.dg_results.specs.Steps.{class_at, with_result, with_line, count_after};

use crate::call::ResultCall;
use crate::class::Class;
use crate::verdict::{Line, Verdict};
use dg_bytes::{Bytes, Seq};
use std::alloc::{AllocError, Global};
use std::marker::Model;

/// The result calls of a test so far: a contract sees their lines, and the flags and counts that
/// stand after them (DejaGnu manual, "Procedures for test results").
pub struct Judging {
    lines: Seq<Line>,
    marks: Marks,
}

impl Drop for Judging {
    fn drop(self) {
        let Judging { lines: _, marks: _ } = self;
    }
}

/// The flags and counts that stand since the last result.
#[derive(Clone, Copy)]
struct Marks {
    xfail: bool,
    kfail: bool,
    errors: u32,
    warnings: u32,
}

impl Marks {
    const NONE: Marks = Marks {
        xfail: false,
        kfail: false,
        errors: 0,
        warnings: 0,
    };
}

impl Model for Judging {
    ghost use Rattle.dg_results.specs.Standing.{Standing};

    ghost Value = { Standing };

    ghost view = { λ j. record {
      lines = j.lines;
      xfail = j.marks.xfail;
      kfail = j.marks.kfail;
      errors = j.marks.errors;
      warnings = j.marks.warnings;
    } };
}

impl Judging {
    /// No calls yet.
    pub fn new(alloc: Global) -> Judging
        ensures { result ≡ after_calls [] }
    {
        Judging {
            lines: Seq::new(alloc),
            marks: Marks::NONE,
        }
    }

    /// Takes one call more, or changes nothing.
    pub fn take(&mut self, alloc: Global, call: &ResultCall) -> Result<(), AllocError>
        ensures ok { OnOk result (Adds self.old self.new call.now) }
        ensures err { OnErr result (self.new ≡ self.old) }
    {
        match call {
            ResultCall::Pass(message) => self.pass(alloc, message.as_slice()),
            ResultCall::Fail(message) => self.fail(alloc, message.as_slice()),
            ResultCall::Unresolved(message) => self.unresolved(alloc, message.as_slice()),
            ResultCall::Untested(message) => self.untested(alloc, message.as_slice()),
            ResultCall::Unsupported(message) => self.unsupported(alloc, message.as_slice()),
            ResultCall::Note(message) => self.note(alloc, message.as_slice()),
            ResultCall::Perror(message, count) => self.perror(alloc, message.as_slice(), *count),
            ResultCall::Warning(message, count) => self.warning(alloc, message.as_slice(), *count),
            ResultCall::SetupXfail => {
                self.setup_xfail();
                Ok(())
            }
            ResultCall::ClearXfail => {
                self.clear_xfail();
                Ok(())
            }
            ResultCall::SetupKfail => {
                self.setup_kfail();
                Ok(())
            }
            ResultCall::ClearKfail => {
                self.clear_kfail();
                Ok(())
            }
        }
    }

    /// A test that passed. The line is UNRESOLVED after an error or three warnings, else KPASS
    /// under the kfail flag, else XPASS under the xfail flag, else PASS.
    pub fn pass(&mut self, alloc: Global, message: &[u8]) -> Result<(), AllocError>
        ensures ok { OnOk result (Adds self.old self.new (Pass message.now)) }
        ensures err { OnErr result (self.new ≡ self.old) }
    {
        let class = self.class_now(Class::Pass, Class::XPass, Class::KPass);
        self.record(alloc, class, message)
    }

    /// A test that failed. The line is UNRESOLVED after an error or three warnings, else KFAIL
    /// under the kfail flag, else XFAIL under the xfail flag, else FAIL.
    pub fn fail(&mut self, alloc: Global, message: &[u8]) -> Result<(), AllocError>
        ensures ok { OnOk result (Adds self.old self.new (Fail message.now)) }
        ensures err { OnErr result (self.new ≡ self.old) }
    {
        let class = self.class_now(Class::Fail, Class::XFail, Class::KFail);
        self.record(alloc, class, message)
    }

    /// A test without a clear result.
    pub fn unresolved(&mut self, alloc: Global, message: &[u8]) -> Result<(), AllocError>
        ensures ok { OnOk result (Adds self.old self.new (Unresolved message.now)) }
        ensures err { OnErr result (self.new ≡ self.old) }
    {
        self.record(alloc, Class::Unresolved, message)
    }

    /// A test that was not run.
    pub fn untested(&mut self, alloc: Global, message: &[u8]) -> Result<(), AllocError>
        ensures ok { OnOk result (Adds self.old self.new (Untested message.now)) }
        ensures err { OnErr result (self.new ≡ self.old) }
    {
        self.record(alloc, Class::Untested, message)
    }

    /// A test that the target has no support for.
    pub fn unsupported(&mut self, alloc: Global, message: &[u8]) -> Result<(), AllocError>
        ensures ok { OnOk result (Adds self.old self.new (Unsupported message.now)) }
        ensures err { OnErr result (self.new ≡ self.old) }
    {
        self.record(alloc, Class::Unsupported, message)
    }

    /// An error of the test itself. It adds one to the count of errors, or sets it to a number.
    /// A count goes up to 4,294,967,295 and stays there.
    pub fn perror(
        &mut self,
        alloc: Global,
        message: &[u8],
        count: Option<u32>,
    ) -> Result<(), AllocError>
        ensures ok { OnOk result (Adds self.old self.new (Perror message.now count)) }
        ensures err { OnErr result (self.new ≡ self.old) }
    {
        self.write(alloc, Class::Error, message)?;
        self.marks.errors = next_count(self.marks.errors, count);
        Ok(())
    }

    /// A warning. It adds one to the count of warnings, or sets it to a number.
    /// A count goes up to 4,294,967,295 and stays there.
    pub fn warning(
        &mut self,
        alloc: Global,
        message: &[u8],
        count: Option<u32>,
    ) -> Result<(), AllocError>
        ensures ok { OnOk result (Adds self.old self.new (Warning message.now count)) }
        ensures err { OnErr result (self.new ≡ self.old) }
    {
        self.write(alloc, Class::Warning, message)?;
        self.marks.warnings = next_count(self.marks.warnings, count);
        Ok(())
    }

    /// A message alone.
    pub fn note(&mut self, alloc: Global, message: &[u8]) -> Result<(), AllocError>
        ensures ok { OnOk result (Adds self.old self.new (Note message.now)) }
        ensures err { OnErr result (self.new ≡ self.old) }
    {
        self.write(alloc, Class::Note, message)
    }

    /// The next result is expected to be a failure. The caller has matched the target.
    pub fn setup_xfail(&mut self)
        ensures { Adds self.old self.new SetupXfail }
    {
        self.marks.xfail = true;
    }

    /// The next result isn't expected to be a failure. The caller has matched the target.
    pub fn clear_xfail(&mut self)
        ensures { Adds self.old self.new ClearXfail }
    {
        self.marks.xfail = false;
    }

    /// The next result is a known failure. The caller has matched the target.
    pub fn setup_kfail(&mut self)
        ensures { Adds self.old self.new SetupKfail }
    {
        self.marks.kfail = true;
    }

    /// The next result is no known failure. The caller has matched the target.
    pub fn clear_kfail(&mut self)
        ensures { Adds self.old self.new ClearKfail }
    {
        self.marks.kfail = false;
    }

    /// The verdict of a test that came to its end.
    pub fn finish(self) -> Verdict
        ensures held { result ≡ self.lines }
        ensures judged { (calls : List ResultCall) → self ≡ after_calls calls → result ≡ lines_of calls }
    {
        let Judging { lines, marks: _ } = self;
        Verdict::of(lines)
    }

    /// The verdict of a test that a Tcl error ended, with three closing lines. They are written as
    /// they are, whatever flags and counts stand. Want of memory lets the calls go.
    pub fn abort(
        mut self,
        alloc: Global,
        name: &[u8],
        message: &[u8],
    ) -> Result<Verdict, AllocError>
        ensures { (calls : List ResultCall) → self ≡ after_calls calls →
            IfOk result (λ verdict. verdict ≡ lines_of calls ++ abort_lines name.now message.now) }
    {
        self.add_abort(alloc, name, message)?;
        Ok(self.finish())
    }

    /// The verdict of a test that departed from its transcript, with one closing line. It is
    /// written as it is, whatever flags and counts stand. Want of memory lets the calls go.
    pub fn depart(mut self, alloc: Global, name: &[u8]) -> Result<Verdict, AllocError>
        ensures { (calls : List ResultCall) → self ≡ after_calls calls →
            IfOk result (λ verdict. verdict ≡ lines_of calls ++ depart_lines name.now) }
    {
        let after = b" departed from its transcript";
        self.add_around(alloc, Class::Unresolved, b"", name, after)?;
        Ok(self.finish())
    }

    /// Adds the closing lines of a test that a Tcl error ended.
    fn add_abort(&mut self, alloc: Global, name: &[u8], message: &[u8]) -> Result<(), AllocError>
        ensures { OnOk result ((calls : List ResultCall) → self.old ≡ after_calls calls → self.new.lines ≡ lines_of calls ++ abort_lines name.now message.now) }
    {
        let after = b"' aborted due to Tcl error";
        self.add_around(alloc, Class::Error, b"tcl error sourcing ", name, b".")?;
        self.write(alloc, Class::Error, message)?;
        self.add_around(alloc, Class::Unresolved, b"testcase '", name, after)?;
        Ok(())
    }

    /// Adds a line whose message is a name between two texts.
    fn add_around(
        &mut self,
        alloc: Global,
        class: Class,
        before: &[u8],
        name: &[u8],
        after: &[u8],
    ) -> Result<(), AllocError>
        ensures { OnOk result (self.new ≡ with_line self.old class (before.now ++ name.now ++ after.now)) }
    {
        let message = text_around(alloc, before, name, after)?;
        self.add(class, message)
    }

    /// The class that a pass or fail writes now.
    fn class_now(&self, own: Class, under_xfail: Class, under_kfail: Class) -> Class
        ensures { result ≡ class_at self.now own under_xfail under_kfail }
    {
        if self.marks.errors >= 1 || self.marks.warnings >= 3 {
            Class::Unresolved
        } else if self.marks.kfail {
            under_kfail
        } else if self.marks.xfail {
            under_xfail
        } else {
            own
        }
    }

    /// Adds a line, or changes nothing.
    fn add(&mut self, class: Class, message: Bytes) -> Result<(), AllocError>
        ensures ok { OnOk result (self.new ≡ with_line self.old class message) }
        ensures err { OnErr result (self.new ≡ self.old) }
    {
        self.lines.push(Line { class, message })?;
        Ok(())
    }

    /// Adds a line with a copy of the message, or changes nothing.
    fn write(&mut self, alloc: Global, class: Class, message: &[u8]) -> Result<(), AllocError>
        ensures ok { OnOk result (self.new ≡ with_line self.old class message.now) }
        ensures err { OnErr result (self.new ≡ self.old) }
    {
        let message = Bytes::from_slice(alloc, message)?;
        self.add(class, message)
    }

    /// Adds the line of a result and clears flags and counts, or changes nothing.
    fn record(&mut self, alloc: Global, class: Class, message: &[u8]) -> Result<(), AllocError>
        ensures ok { OnOk result (self.new ≡ with_result self.old class message.now) }
        ensures err { OnErr result (self.new ≡ self.old) }
    {
        self.write(alloc, class, message)?;
        self.marks = Marks::NONE;
        Ok(())
    }
}

/// A name between two texts.
fn text_around(alloc: Global, before: &[u8], name: &[u8], after: &[u8]) -> Result<Bytes, AllocError>
    ensures { IfOk result (λ text. text ≡ before.now ++ name.now ++ after.now) }
{
    let mut text = Bytes::from_slice(alloc, before)?;
    extend_by_both(&mut text, name, after)?;
    Ok(text)
}

/// Adds two texts at the end of another.
fn extend_by_both(text: &mut Bytes, first: &[u8], second: &[u8]) -> Result<(), AllocError>
    ensures { OnOk result (text.new ≡ text.old ++ first.now ++ second.now) }
{
    text.extend(first)?;
    text.extend(second)
}

/// A count after a call that gives it a number, or adds one where it can.
fn next_count(count: u32, given: Option<u32>) -> u32
    ensures { result ≡ count_after count given }
{
    match given {
        Some(number) => number,
        None => count.saturating_add(1),
    }
}
