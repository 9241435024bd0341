//! The truth of texts.
ghost use Rattle.std.specs.Prelude.{◌≡◌, ◌∷◌, [], MatchResult, Some, None};
ghost use Rattle.dg_expr.specs.Truth.{beginning, begins, told, truth_of, truth_text, word_truth};

use crate::fault::ExprFault;
use crate::whole::number;

/// Whether a word begins with a text, in either case.
fn begins(word: &[u8], text: &[u8]) -> bool
    ensures { result ≡ begins word.now text.now }
{
    let mut word = word;
    let mut text = text;
    while let [letter, letters @ ..] = text {
        let [first, rest @ ..] = word else {
            return false;
        };
        if *first != letter.to_ascii_lowercase() {
            return false;
        }
        word = rest;
        text = letters;
    }
    true
}

/// How many of three words begin with a text.
fn beginning(first: &[u8], second: &[u8], third: &[u8], text: &[u8]) -> u8
    ensures { result ≡ beginning (first.now ∷ second.now ∷ third.now ∷ []) text.now }
{
    u8::from(begins(first, text)) + u8::from(begins(second, text)) + u8::from(begins(third, text))
}

/// The truth, where one of these counts is 1 and the other one 0.
fn told(holds: u8, fails: u8) -> Option<bool>
    ensures { result ≡ told holds fails }
{
    if holds == 1 && fails == 0 {
        Some(true)
    } else if holds == 0 && fails == 1 {
        Some(false)
    } else {
        None
    }
}

/// The truth of a word, or of a text with which just one of the words begins. `o` begins two.
#[tactic(auto, unfolding(crate::specs::Truth::word_truth))]
pub(crate) fn word_truth(text: &[u8]) -> Option<bool>
    ensures { result ≡ word_truth text.now }
{
    let holds = beginning(b"true", b"yes", b"on", text);
    let fails = beginning(b"false", b"no", b"off", text);
    told(holds, fails)
}

/// The truth of a text: a number is true unless it is 0, and the words `true`, `yes`, `on` and `false`,
/// `no`, `off`, in either case, may be cut where just one of them begins so.
///
/// # Errors
/// `NotTruth` of any other text.
#[tactic(auto, unfolding(crate::specs::Truth::truth_of))]
pub fn truth(text: &[u8]) -> Result<bool, ExprFault>
    ensures { MatchResult result (λ t. truth_of text.now ≡ Some t) (λ f. (f ≡ ExprFault.NotTruth) × (truth_of text.now ≡ None)) }
{
    let told = match number(text) {
        Some(value) => Some(value != 0),
        None => word_truth(text),
    };
    told.ok_or(ExprFault::NotTruth)
}

/// A truth as a value: `1` or `0`.
pub fn truth_text(holds: bool) -> &'static [u8]
    ensures { result.now ≡ truth_text holds }
{
    if holds { b"1" } else { b"0" }
}
