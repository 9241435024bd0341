//! The words that are no options: scripts, and variables with their values.
ghost use Rattle.std.specs.Prelude.{◌≡◌, IfOk, map, MatchOption, Some, None, true, false};
ghost use Rattle.std.specs.List.{position};
ghost use Rattle.dg_line.specs.Words.{bad_word_in, has_equals, is_bad_word, is_script_word, is_setting_word, name_in, scripts_in, settings_in, value_in};

use dg_bytes::{Bytes, Seq};
use dg_world::{Setting, is_variable};
use std::alloc::{AllocError, Global};

/// Cuts a word at its first `=`: what stands before it, and what behind it.
fn split_word(word: &str) -> Option<(&str, &str)>
    ensures { MatchOption result (has_equals word.now ≡ false)
        (λ cut. (has_equals word.now ≡ true) × (cut.0.now ≡ name_in word.now) × (cut.1.now ≡ value_in word.now)) }
{
    word.split_once('=')
}

/// The name and the value, where a word is `VARIABLE=VALUE`.
fn split_setting(word: &str) -> Option<(&str, &str)>
    ensures { MatchOption result (is_setting_word word.now ≡ false)
        (λ cut. (is_setting_word word.now ≡ true) × (cut.0.now ≡ name_in word.now) × (cut.1.now ≡ value_in word.now)) }
{
    let (name, value) = split_word(word)?;
    if is_variable(name.as_bytes()) {
        Some((name, value))
    } else {
        None
    }
}

/// Whether a word is a script.
fn is_script(word: &str) -> bool
    ensures { result ≡ is_script_word word.now }
{
    split_word(word).is_none() && word.as_bytes().ends_with(b".exp".as_slice())
}

/// Whether a word is neither a script nor a setting.
fn is_bad(word: &str) -> bool
    ensures { result ≡ is_bad_word word.now }
{
    split_setting(word).is_none() && !is_script(word)
}

/// Where the first word stands that is neither a script nor a setting.
pub fn find_bad(words: &[&str]) -> Option<usize>
    ensures { result ≡ bad_word_in (map (λ w. w.now) words.now) }
{
    words.iter().position(|word| is_bad(word))
}

/// The scripts among the words, in order.
pub fn scripts_in(alloc: Global, words: &[&str]) -> Result<Seq<Bytes>, AllocError>
    ensures { IfOk result (λ scripts. scripts ≡ scripts_in (map (λ w. w.now) words.now)) }
{
    let mut scripts = Seq::new(alloc);
    for word in words {
        if is_script(word) {
            scripts.push(Bytes::from_slice(alloc, word.as_bytes())?)?;
        }
    }
    Ok(scripts)
}

/// The settings among the words, in order.
pub fn settings_in(alloc: Global, words: &[&str]) -> Result<Seq<Setting>, AllocError>
    ensures { IfOk result (λ settings. settings ≡ settings_in (map (λ w. w.now) words.now)) }
{
    let mut settings = Seq::new(alloc);
    for word in words {
        if let Some((name, value)) = split_setting(word) {
            settings.push(Setting {
                name: Bytes::from_slice(alloc, name.as_bytes())?,
                value: Bytes::from_slice(alloc, value.as_bytes())?,
            })?;
        }
    }
    Ok(settings)
}
