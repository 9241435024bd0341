//! The commands of a text, read one after another, and texts whose commands are read once.
ghost use Rattle.std.specs.Prelude.{◌≡◌, [], ◌≤◌, ◌<◌, ℕ, drop, length, IfOk, IfSome, MatchResult};
ghost use Rattle.std.specs.Arc.{arc_value};
ghost use Rattle.std.specs.Bool.{OnTrue};
ghost use Rattle.dg_language.specs.Evaluation.{Then};
ghost use Rattle.dg_language.specs.Language.{commands_at};
ghost use Rattle.dg_language.specs.declared.substitution.Purpose.{Purpose};
ghost use Rattle.dg_compiled.specs.Making.{making_on};
ghost use Rattle.dg_compiled.specs.Script.{HasSteps};
ghost use Rattle.dg_compiled.specs.Script.{BeginsAt, Reads, Takes, begins, steps_of};
ghost use Rattle.dg_compiled.specs.Steps.{steps_in};
ghost use Rattle.dg_compiled.specs.Ways.{HasWay};

use crate::making::Making;
use crate::steps::kept_steps;
use crate::texts::begun_with;
use crate::ways::{Way, way_of};
use dg_bytes::{Bytes, Seq, TryCopy};
use dg_forms::substitutions_of;
use dg_language::{Command, Purpose, Queue, State, Substitution};
use dg_lists::WordFault;
use dg_shelf::{Reading, Shelf};
use dg_words::{Parsed, Word, parse_command};
use std::alloc::{AllocError, Global};
use std::marker::Model;
use std::sync::Arc;

/// The most bytes of a text whose commands are kept: they take many times its room.
pub const KEPT: usize = 262_144;

/// A command that begins: the steps in which its words are made, or why it can't be read.
#[derive(Drop)]
pub enum Begun {
    Words(WordSteps),
    Unreadable(WordFault),
}

/// A command, the steps in which its words are made, and how it runs where it stands. A contract sees the command.
#[derive(Drop)]
struct KeptCommand {
    command: Command,
    steps: Seq<Substitution>,
    way: Way,
}

impl Model for KeptCommand {
    ghost use Rattle.std.specs.Prelude.{◌≡◌};
    ghost use Rattle.dg_language.specs.declared.command.Command.{Command};
    ghost use Rattle.dg_compiled.specs.Steps.{steps_in};
    ghost use Rattle.dg_compiled.specs.Ways.{HasWay};

    ghost Value = { Command };

    ghost view = { λ k. k.command };

    ghost invariant = { λ k. (k.steps ≡ steps_in k.command) × HasWay k.steps k.way };
}

impl KeptCommand {
    /// A command that was read.
    fn new(alloc: Global, command: Command) -> Result<KeptCommand, AllocError>
        ensures { IfOk result (λ k. k ≡ command) }
    {
        let steps = steps_in(alloc, &command)?;
        let way = way_of(alloc, steps.as_slice())?;
        Ok(KeptCommand {
            command,
            steps,
            way,
        })
    }

    /// The steps in which its words are made.
    fn steps(&self) -> &[Substitution]
        ensures { result.now ≡ steps_in self.now }
    {
        self.steps.as_slice()
    }
}

/// The commands of a text, all read. A contract sees the commands.
#[derive(Drop)]
pub struct Commands {
    all: Seq<KeptCommand>,
}

impl Model for Commands {
    ghost use Rattle.std.specs.Prelude.{List};
    ghost use Rattle.dg_language.specs.declared.command.Command.{Command};

    ghost Value = { List Command };

    ghost view = { λ c. c.all };
}

impl Reading for Commands {
    ghost read_of = { λ text. commands_at text 0 };

    fn read(alloc: Global, text: &[u8]) -> Result<Commands, AllocError> {
        let all = commands_of(alloc, text)?;
        Ok(Commands { all })
    }
}

impl Commands {
    /// How many commands there are.
    pub fn count(&self) -> usize
        ensures { result ≡ length self.now }
    {
        self.all.len()
    }

    /// The steps in which the words of the command at a place are made, and how it runs where it stands, if there is one that
    /// can be read.
    pub fn way_at(&self, at: usize) -> Option<(&[Substitution], &Way)>
        ensures steps { IfSome result (λ r. HasSteps self.now at r.0.now) }
        ensures way { IfSome result (λ r. HasWay r.0.now r.1.now) }
        ensures within { IfSome result (λ r. at < length self.now) }
    {
        if at >= self.all.len() {
            return None;
        }
        let kept = &self.all.as_slice()[at];
        match &kept.command {
            Command::Words(_) => Some((kept.steps.as_slice(), &kept.way)),
            Command::Unreadable(_) => None,
        }
    }
}

/// The steps in which the words of a command are made, if it can be read.
fn steps_in(alloc: Global, command: &Command) -> Result<Seq<Substitution>, AllocError>
    ensures { IfOk result (λ steps. steps ≡ steps_in command.now) }
{
    match command {
        Command::Words(words) => kept_steps(alloc, substitutions_of(alloc, words.as_slice())?),
        Command::Unreadable(_) => Ok(Seq::new(alloc)),
    }
}

/// The steps in which the words of a kept command are made. A contract sees the steps.
#[derive(Drop)]
pub struct KeptSteps {
    commands: Arc<Commands>,
    at: usize,
}

impl Model for KeptSteps {
    ghost use Rattle.std.specs.Prelude.{◌<◌, List, length};
    ghost use Rattle.std.specs.Arc.{arc_value};
    ghost use Rattle.dg_language.specs.declared.substitution.Substitution.{Substitution};
    ghost use Rattle.dg_compiled.specs.Source.{steps_at};

    ghost Value = { List Substitution };

    ghost view = { λ k. steps_at (arc_value k.commands) k.at };

    ghost invariant = { λ k. k.at < length (arc_value k.commands) };
}

impl KeptSteps {
    /// The steps.
    pub fn as_slice(&self) -> &[Substitution]
        ensures { result.now ≡ self.now }
    {
        let kept = &self.commands.all.as_slice()[self.at];
        kept.steps()
    }
}

/// The steps in which the words of a command are made: as they were just read, or kept.
#[derive(Drop)]
pub enum WordSteps {
    Read(Queue<Substitution>),
    Kept(KeptSteps),
}

impl WordSteps {
    /// The words begin to be made. Of kept steps those that are only texts and values of variables in use are taken at once.
    pub fn begun(self, alloc: Global, state: &State) -> Result<Making, AllocError>
        ensures same { IfOk result
            (λ m. (depth : ℕ) (k : Then) → making_on m depth state.now k ≡ begins (steps_of self) depth state.now k) }
        ensures purpose { IfOk result (λ m. m.purpose ≡ Purpose.Run) }
    {
        match self {
            WordSteps::Read(steps) => Ok(Making::begun(alloc, Purpose::Run, steps)),
            WordSteps::Kept(steps) => begun_with(alloc, state, Purpose::Run, steps.as_slice()),
        }
    }
}

/// Where commands come from: a text that is read as they are taken, or commands that were read.
#[derive(Drop)]
enum Source {
    Text(Bytes),
    Kept(Arc<Commands>),
}

/// Commands, and the place up to which they were taken. A contract sees those that are left.
#[derive(Drop)]
pub struct Script {
    source: Source,
    at: usize,
}

impl Model for Script {
    ghost use Rattle.std.specs.Prelude.{List};
    ghost use Rattle.dg_language.specs.declared.command.Command.{Command};
    ghost use Rattle.dg_compiled.specs.Source.{IsPlace, left_of};

    ghost Value = { List Command };

    ghost view = { λ s. left_of s.source s.at };

    ghost invariant = { λ s. IsPlace s.source s.at };
}

/// What stands at a place of a text: the words of a command and the place behind it, why it can't be
/// read, or nothing more.
#[derive(Drop)]
pub(crate) enum Next {
    Words(Seq<Word>, usize),
    Unreadable(WordFault),
    Nothing,
}

/// Reads the command at a place of a text.
pub(crate) fn read_command(alloc: Global, text: &[u8], at: usize) -> Result<Next, AllocError>
    requires { at ≤ length text.now }
    ensures { IfOk result (Reads text.now at) }
{
    match parse_command(alloc, text, at) {
        Ok(Parsed { words, next }) => {
            if words.is_empty() {
                return Ok(Next::Nothing);
            }
            Ok(Next::Words(words, next))
        }
        Err(fault) => {
            if fault == WordFault::Memory {
                return Err(AllocError);
            }
            Ok(Next::Unreadable(fault))
        }
    }
}

/// All commands of a text, up to the first that can't be read.
fn commands_of(alloc: Global, text: &[u8]) -> Result<Seq<KeptCommand>, AllocError>
    ensures { IfOk result (λ cs. cs ≡ commands_at text.now 0) }
{
    let mut commands = Seq::new(alloc);
    let mut at = 0;
    'commands: loop {
        match read_command(alloc, text, at)? {
            Next::Words(words, next) => {
                commands.push(KeptCommand::new(alloc, Command::Words(words))?)?;
                at = next;
            }
            Next::Unreadable(fault) => {
                commands.push(KeptCommand::new(alloc, Command::Unreadable(fault))?)?;
                return Ok(commands);
            }
            Next::Nothing => return Ok(commands),
        }
    }
}

/// How the command at a place begins.
fn begin_at(commands: &Arc<Commands>, at: usize) -> Result<Begun, AllocError>
    requires { at < length (arc_value commands.now) }
    ensures { IfOk result (BeginsAt (arc_value commands.now) at) }
{
    let kept = &commands.all.as_slice()[at];
    match &kept.command {
        Command::Words(_) => {
            let commands = Arc::try_clone(commands)?;
            Ok(Begun::Words(WordSteps::Kept(KeptSteps { commands, at })))
        }
        Command::Unreadable(fault) => Ok(Begun::Unreadable(*fault)),
    }
}

impl Script {
    /// All commands of a text.
    pub fn new(text: Bytes) -> Script
        ensures { result ≡ commands_at text 0 }
    {
        Script {
            source: Source::Text(text),
            at: 0,
        }
    }

    /// All commands that were read of a text.
    pub fn kept(commands: Arc<Commands>) -> Script
        ensures { result ≡ arc_value commands }
    {
        Script {
            source: Source::Kept(commands),
            at: 0,
        }
    }

    /// Whether no command is left, where that is known.
    pub fn is_over(&self) -> bool
        ensures { OnTrue result (self.now ≡ []) }
    {
        match &self.source {
            Source::Text(_) => false,
            Source::Kept(commands) => self.at >= commands.all.len(),
        }
    }

    /// The commands that were read, and the place of the next one; or the same script, where its text is read as they are taken.
    pub fn into_kept(self) -> Result<(Arc<Commands>, usize), Script>
        ensures { MatchResult result (λ r. self ≡ drop r.1 (arc_value r.0)) (λ s. s ≡ self) }
    {
        let Script { source, at } = self;
        match source {
            Source::Text(text) => Err(Script {
                source: Source::Text(text),
                at,
            }),
            Source::Kept(commands) => Ok((commands, at)),
        }
    }

    /// The commands that were read of a text, from a place on.
    pub fn kept_from(commands: Arc<Commands>, at: usize) -> Script
        ensures { result ≡ drop at (arc_value commands) }
    {
        Script {
            source: Source::Kept(commands),
            at,
        }
    }

    /// Takes the next command.
    pub fn next(&mut self, alloc: Global) -> Result<Option<Begun>, AllocError>
        ensures { IfOk result (Takes self.old self.new) }
    {
        match &self.source {
            Source::Text(text) => match read_command(alloc, text.as_slice(), self.at)? {
                Next::Words(words, next) => {
                    self.at = next;
                    Ok(Some(Begun::Words(WordSteps::Read(substitutions_of(
                        alloc,
                        words.as_slice(),
                    )?))))
                }
                Next::Unreadable(fault) => Ok(Some(Begun::Unreadable(fault))),
                Next::Nothing => Ok(None),
            },
            Source::Kept(commands) => {
                if self.at >= commands.all.len() {
                    return Ok(None);
                }
                let begun = begin_at(commands, self.at)?;
                self.at += 1;
                Ok(Some(begun))
            }
        }
    }
}

/// A text that is evaluated again and again. Unless it is long its commands are read once. A contract
/// sees the text.
#[derive(Drop)]
pub struct Body {
    text: Bytes,
    commands: Option<Arc<Commands>>,
}

impl Model for Body {
    ghost use Rattle.std.specs.Prelude.{ℕ, List};
    ghost use Rattle.dg_compiled.specs.Source.{IsRead};

    ghost Value = { List ℕ };

    ghost view = { λ b. b.text };

    ghost invariant = { λ b. IsRead b.text b.commands };
}

impl Body {
    /// A text. `AllocError` if there is no room for it, or for its commands.
    pub fn new(
        alloc: Global,
        scripts: &mut Shelf<Commands>,
        text: &Bytes,
    ) -> Result<Body, AllocError>
        ensures { IfOk result (λ b. b ≡ text.now) }
    {
        let commands = if text.len() > KEPT {
            None
        } else {
            Some(scripts.reading(alloc, text)?)
        };
        Ok(Body {
            text: text.copy(alloc)?,
            commands,
        })
    }

    /// All commands of the text.
    pub fn script(&self, alloc: Global) -> Result<Script, AllocError>
        ensures { IfOk result (λ s. s ≡ commands_at self.now 0) }
    {
        match &self.commands {
            Some(commands) => Ok(Script::kept(Arc::try_clone(commands)?)),
            None => Ok(Script::new(self.text.copy(alloc)?)),
        }
    }
}
