//! What is run: a tool, the boards, the systems, the scripts that are taken or left, and what variables are set to.
ghost use Rattle.std.specs.Prelude.{◌≡◌, IfOk, length, codes};
ghost use Rattle.std.specs.Option.{option_copied};
ghost use Rattle.std.specs.List.{list_all, list_any};
ghost use Rattle.dg_world.specs.Name.{is_name, is_single_part, parts_of};
ghost use Rattle.dg_world.specs.Selection.{are_boards, are_distinct, are_names, are_settings};
ghost use Rattle.dg_world.specs.Setting.{value_of};
ghost use Rattle.dg_world.specs.Script.{first_part, last_part, is_reserved, is_script, is_listed};
ghost use Rattle.dg_bytes.specs.Same.{same_bytes};

use crate::name::{is_name, is_single_part};
use crate::question::System;
use crate::setting::{self, Setting};
use dg_boards::{Triplet, TripletFault};
use dg_bytes::{Bytes, Seq, TryCopy, is_same};
use std::alloc::{AllocError, Global};

const MAX_BOARDS: usize = 16;

const MAX_NAMES: usize = 4096;

const MAX_SETTINGS: usize = 64;

/// The triplet of each system in a new world.
const FIRST_TRIPLET: &[u8] = b"x86_64-pc-linux-gnu";

/// What is run, as the command line of DejaGnu's `runtest` says it. A valid one has a tool of one part, 1 to 16 distinct
/// boards of one part each, at most 4,096 names in each list of scripts, and at most 64 valid settings of distinct variables.
#[derive(PartialEq, Eq)]
pub struct Selection {
    /// The tool: its scripts stand in folders whose names begin with it.
    pub tool: Bytes,
    /// The boards, in the order in which they are run.
    pub boards: Seq<Bytes>,
    /// The triplet of the system that is tested for.
    pub target: Triplet,
    /// The triplet of the system that it is tested on.
    pub host: Triplet,
    /// The triplet of the system that built it.
    pub build: Triplet,
    /// The scripts that are taken, by their name or its last part. None: all are.
    pub only: Seq<Bytes>,
    /// The scripts that are left, by their name or its last part.
    pub ignore: Seq<Bytes>,
    /// What variables are set to.
    pub variables: Seq<Setting>,
}

impl Drop for Selection {
    fn drop(self) {
        let Selection {
            tool: _,
            boards: _,
            target: _,
            host: _,
            build: _,
            only: _,
            ignore: _,
            variables: _,
        } = self;
    }
}

impl Selection {
    ghost use Rattle.dg_world.specs.Selection.{first_selection, is_selected, is_selection, is_taken, triplet_of};

    /// The selection of a new world: tool `t`, board `unix`, `x86_64-pc-linux-gnu` as each system, all scripts, and no
    /// settings.
    pub fn of_new_world(alloc: Global) -> Result<Selection, AllocError>
        ensures { IfOk result (λ s. s ≡ first_selection) }
    {
        let mut boards = Seq::new(alloc);
        boards.push(Bytes::from_slice(alloc, b"unix")?)?;
        Ok(Selection {
            tool: Bytes::from_slice(alloc, b"t")?,
            boards,
            target: first_triplet(alloc)?,
            host: first_triplet(alloc)?,
            build: first_triplet(alloc)?,
            only: Seq::new(alloc),
            ignore: Seq::new(alloc),
            variables: Seq::new(alloc),
        })
    }

    /// Whether it is valid.
    #[tactic(auto, unfolding(crate::specs::Selection::is_selection))]
    pub fn is_valid(&self) -> bool
        ensures { result ≡ is_selection self.now }
    {
        is_single_part(self.tool.as_slice())
            && are_boards(self.boards.as_slice())
            && are_names(self.only.as_slice())
            && are_names(self.ignore.as_slice())
            && are_settings(self.variables.as_slice())
    }

    /// The triplet of a system.
    pub(crate) fn triplet(&self, system: System) -> &Triplet
        ensures { result.now ≡ triplet_of self.now system }
    {
        match system {
            System::Target => &self.target,
            System::Host => &self.host,
            System::Build => &self.build,
        }
    }

    /// What a variable is set to, if it is.
    pub(crate) fn value_of(&self, name: &Bytes) -> Option<&Bytes>
        ensures { option_copied result ≡ value_of self.now.variables name.now }
    {
        setting::value_of(self.variables.as_slice(), name)
    }

    /// Whether a file of this name is a selected script.
    #[tactic(auto, unfolding(crate::specs::Selection::is_selected))]
    pub fn selects(&self, name: &[u8]) -> bool
        ensures { result ≡ is_selected self.now name.now }
    {
        is_script(self.tool.as_slice(), name) && self.takes(name)
    }

    /// Whether the two lists take a script.
    #[tactic(auto, unfolding(crate::specs::Selection::is_taken))]
    fn takes(&self, name: &[u8]) -> bool
        ensures { result ≡ is_taken self.now name.now }
    {
        (self.only.is_empty() || is_listed(self.only.as_slice(), name))
            && !is_listed(self.ignore.as_slice(), name)
    }

    /// An equal selection, or want of memory.
    pub fn copy(&self, alloc: Global) -> Result<Selection, AllocError>
        ensures { IfOk result (λ s. s ≡ self.now) }
    {
        Ok(Selection {
            tool: self.tool.copy(alloc)?,
            boards: self.boards.copy(alloc)?,
            target: self.target.copy(alloc)?,
            host: self.host.copy(alloc)?,
            build: self.build.copy(alloc)?,
            only: self.only.copy(alloc)?,
            ignore: self.ignore.copy(alloc)?,
            variables: self.variables.copy(alloc)?,
        })
    }
}

/// The triplet of each system in a new world.
fn first_triplet(alloc: Global) -> Result<Triplet, AllocError>
    ensures { IfOk result (λ t. t ≡ codes "x86_64-pc-linux-gnu") }
{
    match Triplet::new(alloc, FIRST_TRIPLET) {
        Ok(triplet) => Ok(triplet),
        Err(TripletFault::Memory) => Err(AllocError),
        Err(TripletFault::Bad) => unreachable!(),
    }
}

/// Whether these are 1 to 16 distinct boards.
fn are_boards(boards: &[Bytes]) -> bool
    ensures { result ≡ are_boards boards.now }
{
    !boards.is_empty()
        && boards.len() <= MAX_BOARDS
        && are_single_parts(boards)
        && are_distinct(boards)
}

/// Whether each of these is one part.
fn are_single_parts(boards: &[Bytes]) -> bool
    ensures { result ≡ list_all is_single_part boards.now }
{
    boards.iter().all(|board| is_single_part(board.as_slice()))
}

/// Whether these are at most 4,096 names.
fn are_names(names: &[Bytes]) -> bool
    ensures { result ≡ are_names names.now }
{
    names.len() <= MAX_NAMES && are_all_names(names)
}

/// Whether each of these is a name.
fn are_all_names(names: &[Bytes]) -> bool
    ensures { result ≡ list_all is_name names.now }
{
    names.iter().all(|name| is_name(name.as_slice()))
}

/// Whether these are at most 64 valid settings of distinct variables.
fn are_settings(settings: &[Setting]) -> bool
    ensures { result ≡ are_settings settings.now }
{
    settings.len() <= MAX_SETTINGS
        && setting::are_valid(settings)
        && setting::have_distinct_names(settings)
}

/// Whether no two are the same.
fn are_distinct(boards: &[Bytes]) -> bool
    ensures { result ≡ are_distinct boards.now }
{
    let mut rest = boards;
    while let Some((first, behind)) = rest.split_first() {
        if has(behind, first) {
            return false;
        }
        rest = behind;
    }
    true
}

/// Whether a board is one of these.
fn has(boards: &[Bytes], board: &Bytes) -> bool
    ensures { result ≡ list_any (same_bytes board.now) boards.now }
{
    boards.iter().any(|other| *board == *other)
}

/// Whether a name is that of a script of the tool.
#[tactic(auto, unfolding(crate::specs::Script::is_script))]
fn is_script(tool: &[u8], name: &[u8]) -> bool
    ensures { result ≡ is_script tool.now name.now }
{
    let folder = first_part(name);
    part_count(name) >= 2
        && folder.starts_with(tool)
        && !is_reserved(folder)
        && name.ends_with(b".exp".as_slice())
}

/// Whether a folder is one that no tool's scripts stand in.
fn is_reserved(folder: &[u8]) -> bool
    ensures { result ≡ is_reserved folder.now }
{
    is_same(folder, b"lib") || is_same(folder, b"boards") || is_same(folder, b"transcripts")
}

/// Whether a list has a name or the last part of it.
fn is_listed(names: &[Bytes], name: &[u8]) -> bool
    ensures { result ≡ is_listed names.now name.now }
{
    let last = last_part(name);
    names.iter().any(|listed| listed.as_slice() == name || listed.as_slice() == last)
}

fn part_count(name: &[u8]) -> usize
    ensures { result ≡ length (parts_of name.now) }
{
    name.split(|b| *b == b'/').count()
}

fn first_part(name: &[u8]) -> &[u8]
    ensures { result.now ≡ first_part name.now }
{
    name.split(|b| *b == b'/').nth(0).unwrap_or(b"".as_slice())
}

fn last_part(name: &[u8]) -> &[u8]
    ensures { result.now ≡ last_part name.now }
{
    name.split(|b| *b == b'/').last().unwrap_or(b"".as_slice())
}
