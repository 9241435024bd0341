//! The program `runtest`: runs a test suite, or answers the lines of a session.
#![tactic(auto)]

mod fault;
mod live;
mod progress;
mod run;
mod suite;
mod transcripts;

use crate::fault::ProgramFault;
use crate::progress::Progress;
use crate::run::{RunResult, run_plan};
use dg_core::Core;
use dg_folders::RunFault;
use dg_line::{LineFault, Mode, Plan, plan_of};
use dg_session::{SessionFault, run_session};
use dg_world::Edit;
use std::io::{BufReader, BufWriter, IsTerminal, Write};
use std::process::ExitCode;
use std::{env, io};

/// The status after a fault.
const FAULT: u8 = 2;

/// How many bytes of a session's input and output are read and written at a time: as many as a pipe holds.
const PIPE: usize = 65_536;

/// The plan of the command line.
fn read_plan(rt: &HostRuntime) -> Result<Plan, ProgramFault> {
    let alloc = rt.alloc();
    let args = match env::args(rt) {
        Ok(args) => args,
        Err(error) => {
            return Err(match error.kind() {
                io::ErrorKind::OutOfMemory => ProgramFault::Line(LineFault::Memory),
                _ => ProgramFault::Line(LineFault::Words(String::new(alloc))),
            });
        }
    };
    let words: Vec<String> = args.skip(1).collect(alloc)?;
    let mut texts = Vec::new(alloc);
    for word in &words {
        texts.push(word.as_str())?;
    }
    match plan_of(alloc, texts.as_slice()) {
        Ok(plan) => Ok(plan),
        Err(fault) => Err(ProgramFault::Line(fault)),
    }
}

/// Answers the lines of standard input on standard output, beginning with what a plan selects.
fn serve_standard(rt: &HostRuntime, plan: Plan) -> Result<(), SessionFault> {
    let alloc = rt.alloc();
    let Ok(mut reader) = BufReader::with_capacity(alloc, PIPE, rt.reader()) else {
        return Err(SessionFault::Memory);
    };
    let Ok(mut writer) = BufWriter::with_capacity(alloc, PIPE, io::writer(rt)) else {
        return Err(SessionFault::Memory);
    };
    let mut core = Core::new(alloc)?;
    if core
        .edit(alloc, Edit::Select(plan.into_selection()))
        .is_err()
    {
        return Err(SessionFault::Memory);
    }
    run_session(alloc, &mut reader, &mut writer, core)
}

/// Writes bytes to standard output.
fn print_bytes(rt: &HostRuntime, bytes: &[u8]) -> Result<(), ProgramFault> {
    let mut writer = io::writer(rt);
    match writer.write_all(bytes) {
        Ok(()) => Ok(()),
        Err(_) => Err(ProgramFault::Session(SessionFault::WriteFault)),
    }
}

/// The plan of the command line; or nothing, where it asks for a text, which is printed.
fn planned(rt: &HostRuntime) -> Result<Option<Plan>, ProgramFault> {
    match read_plan(rt) {
        Ok(plan) => Ok(Some(plan)),
        Err(ProgramFault::Line(LineFault::Shown(text))) => {
            print_bytes(rt, text.as_bytes())?;
            Ok(None)
        }
        Err(fault) => Err(fault),
    }
}

/// Whether progress is shown: where standard error is a terminal on which a line can be written over.
fn shows_progress(rt: &HostRuntime) -> bool {
    match env::var(rt, "TERM") {
        Ok(term) => !term.is_empty() && term.as_str() != "dumb" && rt.stderr().is_terminal(),
        Err(_) => false,
    }
}

/// Prints the report of a run, and gives its status.
fn print_report(
    rt: &HostRuntime,
    run: Result<RunResult, RunFault>,
    progress: &Progress<HostRuntime>,
) -> Result<u8, ProgramFault> {
    progress.clear();
    match run {
        Ok(
            RunResult {
                report,
                status,
                counts,
            },
        ) => {
            print_bytes(rt, report.as_slice())?;
            progress.finish(counts);
            Ok(status)
        }
        Err(fault) => Err(ProgramFault::Run(fault)),
    }
}

/// Answers a session, and gives its status.
fn serve(rt: &HostRuntime, plan: Plan) -> Result<u8, ProgramFault> {
    match serve_standard(rt, plan) {
        Ok(()) => Ok(0),
        Err(fault) => Err(ProgramFault::Session(fault)),
    }
}

/// The exit code of a status, or of a fault, which is told on standard error.
fn exit_of(rt: &HostRuntime, status: Result<u8, ProgramFault>) -> ExitCode {
    match status {
        Ok(status) => ExitCode::from(status),
        Err(ProgramFault::Line(LineFault::Words(text))) => {
            let _ = eprint!(rt; "runtest: bad command line\n{text}");
            ExitCode::from(FAULT)
        }
        Err(fault) => {
            let _ = eprintln!(rt; "runtest: {fault}");
            ExitCode::from(FAULT)
        }
    }
}

fn main(rt: HostRuntime) -> ExitCode {
    let status = match planned(&rt) {
        Ok(Some(plan)) => match plan.mode {
            Mode::Session => serve(&rt, plan),
            Mode::Run | Mode::Rejudge => {
                let progress = Progress::new(rt, shows_progress(&rt));
                let run = run_plan(&rt, plan, &progress);
                print_report(&rt, run, &progress)
            }
        },
        Ok(None) => Ok(0),
        Err(fault) => Err(fault),
    };
    exit_of(&rt, status)
}
