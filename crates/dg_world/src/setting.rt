//! Settings: what a line sets variables to.
ghost use Rattle.std.specs.Prelude.{◌≡◌, map};
ghost use Rattle.std.specs.Option.{option_copied};
ghost use Rattle.std.specs.List.{list_all, list_any};
ghost use Rattle.dg_bytes.specs.Same.{same_bytes};
ghost use Rattle.dg_world.specs.Selection.{are_distinct};
ghost use Rattle.dg_world.specs.Setting.{is_setting, is_variable, is_variable_byte, is_variable_start, value_of};

use dg_bytes::{Bytes, TryCopy};
use std::alloc::{AllocError, Global};

const MAX_VALUE_LENGTH: usize = 65_536;

/// What a line sets a variable to. A valid one has a name of at most 64 bytes, a letter or `_` and then letters, digits
/// and `_`, and a value of at most 65,536 bytes.
#[derive(Debug, PartialEq, Eq)]
pub struct Setting {
    /// The variable's name.
    pub name: Bytes,
    /// Its value.
    pub value: Bytes,
}

impl Drop for Setting {
    fn drop(self) {
        let Setting { name: _, value: _ } = self;
    }
}

impl Setting {
    /// Whether it is valid.
    fn is_valid(&self) -> bool
        ensures { result ≡ is_setting self.now }
    {
        is_variable(self.name.as_slice()) && self.value.len() <= MAX_VALUE_LENGTH
    }
}

impl TryCopy for Setting {
    fn copy(&self, alloc: Global) -> Result<Setting, AllocError> {
        Ok(Setting {
            name: self.name.copy(alloc)?,
            value: self.value.copy(alloc)?,
        })
    }
}

/// Whether each setting is valid.
pub(crate) fn are_valid(settings: &[Setting]) -> bool
    ensures { result ≡ list_all is_setting settings.now }
{
    settings.iter().all(|setting| setting.is_valid())
}

/// Whether no two settings are of the same variable.
#[tactic(auto, using(crate::proofs::SettingLemmas::any_of_map))]
pub(crate) fn have_distinct_names(settings: &[Setting]) -> bool
    ensures { result ≡ are_distinct (map (λ s. s.name) settings.now) }
{
    let mut rest = settings;
    while let Some((first, behind)) = rest.split_first() {
        if sets(behind, &first.name) {
            return false;
        }
        rest = behind;
    }
    true
}

/// Whether a setting is of this variable.
fn sets(settings: &[Setting], name: &Bytes) -> bool
    ensures { result ≡ list_any (λ s. same_bytes name.now s.name) settings.now }
{
    settings.iter().any(|setting| *name == setting.name)
}

/// What a variable is set to, if it is.
pub(crate) fn value_of<'a>(settings: &'a [Setting], name: &Bytes) -> Option<&'a Bytes>
    ensures { option_copied result ≡ value_of settings.now name.now }
{
    let setting = settings.iter().find(|setting| setting.name == *name)?;
    Some(&setting.value)
}

/// Whether a line may set a variable of this name: a letter or `_`, then letters, digits and `_`, at most 64 bytes.
pub fn is_variable(name: &[u8]) -> bool
    ensures { result ≡ is_variable name.now }
{
    match name.split_first() {
        Some((first, rest)) => {
            is_variable_start(*first) && are_variable_bytes(rest) && rest.len() <= 63
        }
        None => false,
    }
}

fn is_variable_start(byte: u8) -> bool
    ensures { result ≡ is_variable_start byte }
{
    matches!(byte, b'A'..=b'Z' | b'a'..=b'z' | b'_')
}

fn is_variable_byte(byte: u8) -> bool
    ensures { result ≡ is_variable_byte byte }
{
    is_variable_start(byte) || byte.is_ascii_digit()
}

fn are_variable_bytes(bytes: &[u8]) -> bool
    ensures { result ≡ list_all is_variable_byte bytes.now }
{
    bytes.iter().all(|byte| is_variable_byte(*byte))
}
