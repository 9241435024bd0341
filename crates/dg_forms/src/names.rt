//! The commands by their names.
ghost use Rattle.std.specs.Prelude.{◌≡◌, map};
ghost use Rattle.dg_language.specs.Builtins.{builtin_of, usable, with_name};

use crate::arguments::is_word;
use crate::immediate::IMMEDIATE_COMMANDS;
use dg_language::Builtin::{
    self, Choice, Control, Expect, Flag, LoadLib, Regexp, Session, Target, Variable,
};
use dg_language::ChoiceCommand::{Eval, Expr, For, If, Switch, While};
use dg_language::ControlCommand::{Catch, Foreach};
use dg_language::FlagCommand::{ClearKfail, ClearXfail, SetupKfail, SetupXfail};
use dg_language::SessionCommand::{Close, MatchMax, Send, Spawn, Wait};
use dg_language::TargetCommand::{IsBuild, IsHost, IsNative, IsTarget};
use dg_language::VariableCommand::{Append, Global, Increase, Info, ListAppend, Set, Unset};

/// A command: its name, what it is, and whether it belongs to scripts alone, since it records a result, sets or clears a
/// flag for the next one, or is about sessions.
pub(crate) type Row = (&'static [u8], Builtin, bool);

/// The commands that ask, use a variable or evaluate something inside.
const FURTHER_COMMANDS: [Row; 31] = [
    (b"set", Variable(Set), false),
    (b"append", Variable(Append), false),
    (b"lappend", Variable(ListAppend), false),
    (b"incr", Variable(Increase), false),
    (b"unset", Variable(Unset), false),
    (b"info", Variable(Info), false),
    (b"global", Variable(Global), false),
    (b"regexp", Regexp, false),
    (b"expr", Choice(Expr), false),
    (b"eval", Choice(Eval), false),
    (b"if", Choice(If), false),
    (b"switch", Choice(Switch), false),
    (b"while", Choice(While), false),
    (b"for", Choice(For), false),
    (b"foreach", Control(Foreach), false),
    (b"catch", Control(Catch), false),
    (b"load_lib", LoadLib, false),
    (b"istarget", Target(IsTarget), false),
    (b"ishost", Target(IsHost), false),
    (b"isbuild", Target(IsBuild), false),
    (b"isnative", Target(IsNative), false),
    (b"setup_xfail", Flag(SetupXfail), true),
    (b"setup_kfail", Flag(SetupKfail), true),
    (b"clear_xfail", Flag(ClearXfail), true),
    (b"clear_kfail", Flag(ClearKfail), true),
    (b"spawn", Session(Spawn), true),
    (b"send", Session(Send), true),
    (b"close", Session(Close), true),
    (b"wait", Session(Wait), true),
    (b"match_max", Session(MatchMax), true),
    (b"expect", Expect, true),
];

/// The entry of a name in the first row that has it.
fn search(rows: &[Row], name: &[u8]) -> Option<(Builtin, bool)>
    ensures { result ≡ with_name name.now (map (λ r. (r.0.now, r.1, r.2)) rows.now) }
{
    for (named, builtin, for_scripts) in rows {
        if is_word(name, named) {
            return Some((*builtin, *for_scripts));
        }
    }
    None
}

/// The command of this name, and whether it belongs to scripts alone.
#[tactic(auto, unfolding(dg_language::specs::Builtins::builtin_of))]
fn find_any(name: &[u8]) -> Option<(Builtin, bool)>
    ensures { result ≡ builtin_of name.now }
{
    match search(&FURTHER_COMMANDS, name) {
        Some(found) => Some(found),
        None => search(&IMMEDIATE_COMMANDS, name),
    }
}

/// The command of this name. In a board's file those that belong to scripts alone are none.
pub fn find_builtin(on_board: bool, name: &[u8]) -> Option<Builtin>
    ensures { result ≡ usable on_board (builtin_of name.now) }
{
    let (found, for_scripts) = find_any(name)?;
    if on_board && for_scripts {
        return None;
    }
    Some(found)
}
