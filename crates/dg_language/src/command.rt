//! Commands of a script.
use dg_bytes::Seq;
use dg_lists::WordFault;
use dg_words::Word;

/// A command of a script: its words, or why it can't be read.
#[derive(Drop)]
pub enum Command {
    Words(Seq<Word>),
    Unreadable(WordFault),
}

/// A command that records a result or a message, by the DejaGnu manual.
#[derive(Clone, Copy, Debug, PartialEq, Eq)]
pub enum ResultCommand {
    Pass,
    Fail,
    Unresolved,
    Untested,
    Unsupported,
    Note,
    Perror,
    Warning,
}

/// A command on variables: set(n), append(n), lappend(n), incr(n), unset(n), info(n), global(n).
#[derive(Clone, Copy, Debug, PartialEq, Eq)]
pub enum VariableCommand {
    Set,
    Append,
    ListAppend,
    Increase,
    Unset,
    Info,
    Global,
}

/// A command that evaluates nothing inside, asks nothing and uses no variable: what it comes to is a function of its words
/// and of what was made so far.
#[derive(Clone, Copy, Debug, PartialEq, Eq)]
pub enum ImmediateCommand {
    /// A result or a message.
    Result(ResultCommand),
    /// `verbose`, `send_user` and `send_log`, which have no effect.
    Silent,
    /// proc(n).
    Proc,
    /// break(n).
    Break,
    /// continue(n).
    Continue,
    /// return(n).
    Return,
    /// error(n).
    Error,
    /// `exp_continue`, by expect(1).
    ExpContinue,
    /// `set_board_info`, by the DejaGnu manual as those that follow.
    SetBoardInfo,
    /// `unset_board_info`.
    UnsetBoardInfo,
    /// `load_generic_config`.
    LoadGenericConfig,
    /// `target_info`.
    TargetInfo,
    /// `board_info`.
    BoardInfo,
}

/// A command that evaluates scripts for each value, or catches their codes: foreach(n), catch(n).
#[derive(Clone, Copy, Debug, PartialEq, Eq)]
pub enum ControlCommand {
    Foreach,
    Catch,
}

/// A command that computes, chooses or repeats: expr(n), eval(n), if(n), switch(n),
/// while(n), for(n).
#[derive(Clone, Copy, Debug, PartialEq, Eq)]
pub enum ChoiceCommand {
    Expr,
    Eval,
    If,
    Switch,
    While,
    For,
}

/// A command on the systems' triplets, by the DejaGnu manual.
#[derive(Clone, Copy, Debug, PartialEq, Eq)]
pub enum TargetCommand {
    IsTarget,
    IsHost,
    IsBuild,
    IsNative,
}

/// A command on the flags of expected failures, by the DejaGnu manual.
#[derive(Clone, Copy, Debug, PartialEq, Eq)]
pub enum FlagCommand {
    SetupXfail,
    SetupKfail,
    ClearXfail,
    ClearKfail,
}

/// A command on a session: spawn, send, close, wait and match_max, by expect(1).
#[derive(Clone, Copy, Debug, PartialEq, Eq)]
pub enum SessionCommand {
    Spawn,
    Send,
    Close,
    Wait,
    MatchMax,
}

/// A command that is known by its name.
#[derive(Clone, Copy, Debug, PartialEq, Eq)]
pub enum Builtin {
    Immediate(ImmediateCommand),
    Variable(VariableCommand),
    Control(ControlCommand),
    Choice(ChoiceCommand),
    Target(TargetCommand),
    Flag(FlagCommand),
    Session(SessionCommand),
    /// `load_lib`, by the DejaGnu manual.
    LoadLib,
    /// `expect`.
    Expect,
    /// `regexp`.
    Regexp,
}
