//! The places of a needle in a text, and matches of globs.
ghost use Rattle.std.specs.Prelude.{◌≡◌, ◌≤◌, ◌↔◌, IfSome, IsTrue, length};
ghost use Rattle.dg_glob.specs.Glob.{Matches};
ghost use Rattle.dg_cmds.specs.Places.{first_place, glob_matches, last_place};

use dg_glob::string_match;
use memchr::memmem;

/// The first place of the text at which the needle stands. An empty needle stands nowhere.
pub(crate) fn first_place(needle: &[u8], text: &[u8]) -> Option<usize>
    ensures value { result ≡ first_place needle.now text.now }
    ensures bound { IfSome result (λ p. p ≤ length text.now) }
{
    if needle.is_empty() {
        return None;
    }
    memmem::find(text, needle)
}

/// The last place of the text at which the needle stands. An empty needle stands nowhere.
pub(crate) fn last_place(needle: &[u8], text: &[u8]) -> Option<usize>
    ensures { result ≡ last_place needle.now text.now }
{
    if needle.is_empty() {
        return None;
    }
    memmem::rfind(text, needle)
}

/// Whether a glob matches the whole text.
pub fn glob_matches(pattern: &[u8], text: &[u8]) -> bool
    ensures value { result ≡ glob_matches pattern.now text.now }
    ensures relation { IsTrue result ↔ Matches pattern.now text.now }
{
    string_match(pattern, text)
}
