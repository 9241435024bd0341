//! The options, as `clap` reads them.
ghost use Rattle.std.specs.Prelude.{◌≡◌, IfOk, codes, false, map};
ghost use Rattle.clap.specs.Words.{app_of, found_of, rows_of, rule_of, with_rule, fault_of, FailsBy};
ghost use Rattle.dg_line.specs.Options.{asking_rule, bare_app, flag_rule, jobs_rule, line_app, line_rows, option_rule, with_choices, with_machines, with_modes, with_places, words_rule};
ghost use Rattle.clap.specs.declared.builder.action.ArgAction.TheVariants.{Help, Version};

use clap::builder::ValueParser;
use clap::{Arg, ArgAction, ArgMatches, Command, Error};
use std::alloc::{AllocError, Global};

/// How the program is used, as its help says it.
const USAGE: &str = "runtest [OPTION..] [SCRIPT.exp..] [VARIABLE=VALUE..]";

/// What the program is for.
const ABOUT: &str = "Runs a DejaGnu test suite, or judges it again by its recorded sessions.";

/// What stands at the end of the help.
const AFTER: &str =
    "A word that ends in .exp selects a script, by its name or the last part of it; VARIABLE=VALUE sets a global of
each script. With neither option nor word the lines of standard input are answered, as by --session.

The status is 0 where no result is unexpected, 1 where one is, and 2 where the run itself failed.

Example, for the folders gdb.base and gdb.python of this folder:
  runtest --tool gdb --target_board unix --ignore slow.exp --jobs 4 CC=gcc
  runtest --tool gdb --target_board unix --rejudge break.exp
";

/// The headings of the help.
const WHAT: &str = "What to run";

const BOARDS: &str = "Boards and triplets";

const PLACES: &str = "Where files go";

const MODES: &str = "Modes";

/// An option with a value.
fn option_arg<'a>(
    alloc: Global,
    heading: &'a str,
    name: &'a str,
    value: &'a str,
    help: &'a str,
) -> Arg<'a>
    ensures rule { rule_of result ≡ option_rule name.entry.now }
    ensures local { result.global ≡ false }
{
    Arg::new(alloc, name)
        .long(name)
        .action(ArgAction::Set)
        .value_name(value)
        .help_heading(heading)
        .help(help)
}

/// The option for how many tests run at a time.
fn jobs_arg<'a>(alloc: Global) -> Arg<'a>
    ensures rule { rule_of result ≡ jobs_rule }
    ensures local { result.global ≡ false }
{
    option_arg(
        alloc,
        WHAT,
        "jobs",
        "N",
        "How many tests run at a time, 1 to 16 [1]",
    )
    .value_parser(ValueParser::unsigned(1, 16))
}

/// A flag.
fn flag_arg<'a>(alloc: Global, name: &'a str, help: &'a str) -> Arg<'a>
    ensures rule { rule_of result ≡ flag_rule name.entry.now }
    ensures local { result.global ≡ false }
{
    Arg::new(alloc, name)
        .long(name)
        .action(ArgAction::SetTrue)
        .help_heading(MODES)
        .help(help)
}

/// The flag that asks for the help.
fn help_arg<'a>(alloc: Global) -> Arg<'a>
    ensures rule { rule_of result ≡ asking_rule Help (codes "help") }
    ensures local { result.global ≡ false }
{
    Arg::new(alloc, "help")
        .long("help")
        .action(ArgAction::Help)
        .help_heading(MODES)
        .help("Print this help")
}

/// The flag that asks for the version.
fn version_arg<'a>(alloc: Global) -> Arg<'a>
    ensures rule { rule_of result ≡ asking_rule Version (codes "version") }
    ensures local { result.global ≡ false }
{
    Arg::new(alloc, "version")
        .long("version")
        .action(ArgAction::Version)
        .help_heading(MODES)
        .help("Print the version")
}

/// The words that are no options.
fn words_arg<'a>(alloc: Global) -> Arg<'a>
    ensures rule { rule_of result ≡ words_rule }
    ensures local { result.global ≡ false }
{
    Arg::new(alloc, "word")
        .action(ArgAction::Append)
        .num_args(0..)
        .hide(true)
}

/// The program, without its options.
fn bare_command<'a>(alloc: Global) -> Command<'a>
    ensures { app_of result ≡ bare_app }
{
    Command::new(alloc, "runtest")
        .no_binary_name(true)
        .disable_help_flag(true)
        .disable_version_flag(true)
        .version("1.0")
        .about(ABOUT)
        .override_usage(USAGE)
        .after_help(AFTER)
}

/// A program with one argument more.
fn with_arg<'a>(command: Command<'a>, arg: Arg<'a>) -> Result<Command<'a>, AllocError>
    requires { arg.global ≡ false }
    ensures { IfOk result (λ c. app_of c ≡ with_rule (app_of command.entry) (rule_of arg.entry)) }
{
    command.arg(arg)
}

/// A program with one more option that has a value.
fn with_option<'a>(
    alloc: Global,
    command: Command<'a>,
    heading: &'a str,
    name: &'a str,
    value: &'a str,
    help: &'a str,
) -> Result<Command<'a>, AllocError>
    ensures { IfOk result (λ c. app_of c ≡ with_rule (app_of command.entry) (option_rule name.entry.now)) }
{
    with_arg(command, option_arg(alloc, heading, name, value, help))
}

/// The program with the options that say what is run.
fn with_choices<'a>(alloc: Global, c: Command<'a>) -> Result<Command<'a>, AllocError>
    ensures { IfOk result (λ r. app_of r ≡ with_choices (app_of c.entry)) }
{
    let c = with_option(
        alloc,
        c,
        WHAT,
        "tool",
        "TOOL",
        "The tool that is tested: its scripts stand in folders whose names begin with it [t]",
    )?;
    let c = with_option(
        alloc,
        c,
        WHAT,
        "ignore",
        "NAMES",
        "Scripts that are left out, separated by spaces or commas",
    )?;
    with_arg(c, jobs_arg(alloc))
}

/// The program with the options that say on what it runs.
fn with_machines<'a>(alloc: Global, c: Command<'a>) -> Result<Command<'a>, AllocError>
    ensures { IfOk result (λ r. app_of r ≡ with_machines (app_of c.entry)) }
{
    let c = with_option(
        alloc,
        c,
        BOARDS,
        "target_board",
        "BOARDS",
        "The boards, separated by spaces or commas [unix]",
    )?;
    let c = with_option(
        alloc,
        c,
        BOARDS,
        "build",
        "TRIPLET",
        "The machine that built the tool [x86_64-pc-linux-gnu]",
    )?;
    let c = with_option(
        alloc,
        c,
        BOARDS,
        "host",
        "TRIPLET",
        "The machine that the tool runs on [that of --build]",
    )?;
    with_option(
        alloc,
        c,
        BOARDS,
        "target",
        "TRIPLET",
        "The machine that the tool is for [that of --host]",
    )
}

/// The program with the options that say where files stand.
fn with_places<'a>(alloc: Global, c: Command<'a>) -> Result<Command<'a>, AllocError>
    ensures { IfOk result (λ r. app_of r ≡ with_places (app_of c.entry)) }
{
    let c = with_option(
        alloc,
        c,
        PLACES,
        "srcdir",
        "FOLDER",
        "The folder of the suite, with lib, boards and the folders of the tool [.]",
    )?;
    with_option(
        alloc,
        c,
        PLACES,
        "outdir",
        "FOLDER",
        "The folder that TOOL.sum and transcripts are written to [.]",
    )
}

/// The program with its flags.
fn with_modes<'a>(alloc: Global, c: Command<'a>) -> Result<Command<'a>, AllocError>
    ensures { IfOk result (λ r. app_of r ≡ with_modes (app_of c.entry)) }
{
    let c = with_arg(
        c,
        flag_arg(
            alloc,
            "rejudge",
            "Judge again by the transcripts, and start no program",
        ),
    )?;
    let c = with_arg(
        c,
        flag_arg(alloc, "session", "Answer the lines of standard input"),
    )?;
    let c = with_arg(c, help_arg(alloc))?;
    with_arg(c, version_arg(alloc))
}

/// The program with its options.
#[tactic(auto, unfolding(crate::specs::Options::line_app))]
fn line_command<'a>(alloc: Global) -> Result<Command<'a>, AllocError>
    ensures { IfOk result (λ c. app_of c ≡ line_app) }
{
    let c = with_choices(alloc, bare_command(alloc))?;
    let c = with_machines(alloc, c)?;
    let c = with_places(alloc, c)?;
    let c = with_modes(alloc, c)?;
    with_arg(c, words_arg(alloc))
}

/// What the words of a line match: the words alone, without the program's name.
pub fn line_matches<'a>(alloc: Global, words: &'a [&'a str]) -> Result<ArgMatches<'a>, Error>
    ensures matches { IfOk result (λ m. rows_of (found_of m) ≡ line_rows (map (λ w. w.now) words.entry.now)) }
    ensures fails { FailsBy (fault_of line_app (map (λ w. w.now) words.entry.now)) result }
{
    let command = line_command(alloc)?;
    command.try_get_matches_from(words)
}
