//! The arguments of a command, taken apart.
ghost use Rattle.std.specs.Prelude.{◌≡◌, ◌∷◌, [], IfOk, MatchOption, None};
ghost use Rattle.std.specs.Option.{option_copied};
ghost use Rattle.dg_language.specs.Arguments.{only, two, three, four};
ghost use Rattle.dg_bytes.specs.Same.{same_bytes};

use dg_bytes::{Bytes, TryCopy};
use std::alloc::{AllocError, Global};

/// The first and the others.
pub fn split<T>(items: &[T]) -> Option<(&T, &[T])>
    ensures { MatchOption result (items.now ≡ []) (λ p. items.now ≡ p.0.now ∷ p.1.now) }
{
    match items {
        [] => None,
        [first, others @ ..] => Some((first, others)),
    }
}

/// Whether a name is this word. Most names differ from most words in the first byte.
#[inline(always)]
pub(crate) fn is_word(name: &[u8], word: &[u8]) -> bool
    ensures { result ≡ same_bytes name.now word.now }
{
    match (name, word) {
        ([first, rest @ ..], [letter, others @ ..]) => *first == *letter && rest == others,
        ([], []) => true,
        _ => false,
    }
}

/// An equal text, if there is one.
pub(crate) fn copied_text(alloc: Global, text: Option<&Bytes>) -> Result<Option<Bytes>, AllocError>
    ensures { IfOk result (λ t. t ≡ option_copied text.entry) }
{
    match text {
        Some(text) => Ok(Some(text.copy(alloc)?)),
        None => Ok(None),
    }
}

/// The only word, if there is just one.
pub fn only(words: &[Bytes]) -> Option<&Bytes>
    ensures { option_copied result ≡ only words.now }
{
    match words {
        [word] => Some(word),
        _ => None,
    }
}

/// The two words, if there are just two.
pub fn two(words: &[Bytes]) -> Option<(&Bytes, &Bytes)>
    ensures { MatchOption result (two words.now ≡ None) (λ p. words.now ≡ p.0.now ∷ p.1.now ∷ []) }
{
    match words {
        [one, two] => Some((one, two)),
        _ => None,
    }
}

/// The three words, if there are just three.
pub fn three(words: &[Bytes]) -> Option<(&Bytes, &Bytes, &Bytes)>
    ensures { MatchOption result (three words.now ≡ None) (λ p. words.now ≡ p.0.now ∷ p.1.now ∷ p.2.now ∷ []) }
{
    match words {
        [one, two, three] => Some((one, two, three)),
        _ => None,
    }
}

/// The four words, if there are just four.
pub fn four(words: &[Bytes]) -> Option<(&Bytes, &Bytes, &Bytes, &Bytes)>
    ensures { MatchOption result (four words.now ≡ None) (λ p. words.now ≡ p.0.now ∷ p.1.now ∷ p.2.now ∷ p.3.now ∷ []) }
{
    match words {
        [one, two, three, four] => Some((one, two, three, four)),
        _ => None,
    }
}
