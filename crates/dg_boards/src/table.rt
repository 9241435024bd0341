//! The settings of a board.
ghost use Rattle.std.specs.Prelude.{◌≡◌, ◌++◌, ◌∷◌, [], is_some, OnOk, OnErr, IsNone, IsSome};
ghost use Rattle.std.specs.Option.{option_copied};
ghost use Rattle.dg_boards.specs.Table.{setting, without};

use dg_bytes::Bytes;
use indexmap::IndexMap;
use std::alloc::{AllocError, Global};
use std::marker::Model;

/// The settings of a board, in the order in which each key was first set (`set_board_info` of the
/// DejaGnu manual). A contract sees the list of keys with their values.
pub struct BoardTable {
    map: IndexMap<Bytes, Bytes>,
}

impl Drop for BoardTable {
    fn drop(self) {
        let BoardTable { map: _ } = self;
    }
}

impl Model for BoardTable {
    ghost use Rattle.std.specs.Prelude.{List, ℕ};

    ghost Value = { List (List ℕ × List ℕ) };

    ghost view = { λ t. t.map.entries };
}

impl BoardTable {
    /// No settings.
    pub fn new(alloc: Global) -> BoardTable
        ensures { result ≡ [] }
    {
        BoardTable {
            map: IndexMap::new(alloc),
        }
    }

    /// Sets a key that has no setting, behind the others, and leaves one that has. Where a growth is
    /// refused nothing is changed.
    #[tactic(auto, using(crate::proofs::TableLemmas::insert_new))]
    pub fn set_first(&mut self, key: Bytes, value: Bytes) -> Result<(), AllocError>
        ensures set { OnOk result
            (IsNone (setting self.old key) → self.new ≡ self.old ++ (key, value) ∷ []) }
        ensures kept { OnOk result (IsSome (setting self.old key) → self.new ≡ self.old) }
        ensures err { OnErr result (self.new ≡ self.old) }
    {
        if !self.map.contains_key(&key) {
            self.map.insert(key, value)?;
        }
        Ok(())
    }

    /// Removes the setting of a key, if it has one. The others keep their order.
    pub fn unset(&mut self, key: &Bytes)
        ensures { self.new ≡ without self.old key.now }
    {
        self.map.shift_remove(key);
    }

    /// The setting of a key, if it has one. It takes no memory.
    pub fn get(&self, key: &Bytes) -> Option<&Bytes>
        ensures { option_copied result ≡ setting self.now key.now }
    {
        self.map.get(key)
    }

    /// Whether a key has a setting. It takes no memory.
    pub fn exists(&self, key: &Bytes) -> bool
        ensures { result ≡ is_some (setting self.now key.now) }
    {
        self.map.contains_key(key)
    }
}
