//! The first lexeme of a text.
ghost use Rattle.std.specs.Prelude.{◌≡◌, ◌≤◌, ◌+◌, ◌∷◌, [], length, IfNone, IfOk, IfSome, Some};
ghost use Rattle.std.specs.List.{prefix_len, take_while};
ghost use Rattle.dg_words.specs.Reading.{operand_at};
ghost use Rattle.dg_expr.specs.Steps.{Finds, Lexes, LexesTo};
ghost use Rattle.dg_expr.specs.Token.{is_letter, is_run_byte, is_text, joined_line, lexeme, lexeme_at, operand_lexeme, read_lexeme, sign_lexeme, text_operand, token_lexeme, truth_operand, word_token};
ghost use Rattle.dg_expr.specs.Truth.{word_truth};

use crate::boolean::word_truth;
use crate::fault::ExprFault;
use crate::operator::Infix;
use crate::token::{
    Kind, Lexeme, Token, double_sign, is_letter, is_run_byte, kind_of, single_sign,
};
use dg_bytes::{Bytes, Seq};
use dg_lists::WordFault;
use dg_words::{Part, Parts, Word, parse_operand};
use std::alloc::{AllocError, Global};

/// How many bytes of a run a text begins with.
fn run_length(text: &[u8]) -> usize
    ensures { result ≡ prefix_len is_run_byte text.now }
{
    text.iter().take_while(|byte| is_run_byte(**byte)).count()
}

/// How many letters a text begins with.
fn letters(text: &[u8]) -> usize
    ensures { result ≡ prefix_len is_letter text.now }
{
    text.iter().take_while(|byte| is_letter(**byte)).count()
}

/// An operand of one text.
fn text_operand(alloc: Global, text: &[u8]) -> Result<Token, AllocError>
    ensures { IfOk result (λ t. t ≡ text_operand text.now) }
{
    let mut parts = Parts::new(alloc);
    parts.push(Part::Text(Bytes::from_slice(alloc, text)?))?;
    Ok(Token::Operand(parts))
}

/// The operator that letters are.
fn word_operator(word: &[u8]) -> Option<Infix>
    ensures some { IfSome result (λ op. word_token word.now ≡ Some (Token.Infix op)) }
    ensures none { IfNone result (word_token word.now ≡ truth_operand word.now (word_truth word.now)) }
{
    if word == b"eq".as_slice() {
        Some(Infix::SameText)
    } else if word == b"ne".as_slice() {
        Some(Infix::OtherText)
    } else if word == b"in".as_slice() {
        Some(Infix::In)
    } else if word == b"ni".as_slice() {
        Some(Infix::NotIn)
    } else {
        None
    }
}

/// The word of truth that letters are.
fn truth_token(alloc: Global, word: &[u8]) -> Result<Option<Token>, AllocError>
    ensures { IfOk result (λ t. t ≡ truth_operand word.now (word_truth word.now)) }
{
    match word_truth(word) {
        None => Ok(None),
        Some(_) => Ok(Some(text_operand(alloc, word)?)),
    }
}

/// The operator or the word of truth that letters are.
fn word_token(alloc: Global, word: &[u8]) -> Result<Option<Token>, AllocError>
    ensures { IfOk result (λ t. t ≡ word_token word.now) }
{
    match word_operator(word) {
        Some(op) => Ok(Some(Token::Infix(op))),
        None => truth_token(alloc, word),
    }
}

/// A lexeme of so many bytes, which are one at least.
fn lexeme(token: Option<Token>, length: usize) -> Result<Lexeme, ExprFault>
    ensures { LexesTo (lexeme token length) length result }
{
    if length == 0 {
        return Err(ExprFault::Syntax);
    }
    Ok(Lexeme { token, length })
}

fn token_lexeme(token: Option<Token>, length: usize) -> Result<Lexeme, ExprFault>
    ensures { LexesTo (token_lexeme token length) length result }
{
    let Some(token) = token else {
        return Err(ExprFault::Syntax);
    };
    lexeme(Some(token), length)
}

/// A backslash and a newline keep tokens apart.
fn joined_line(rest: &[u8]) -> Result<Lexeme, ExprFault>
    ensures value { LexesTo (joined_line rest.now) 2 result }
    ensures within { IfOk result (λ l. 1 ≤ length rest.now) }
{
    match rest {
        [b'\n', ..] => lexeme(None, 2),
        _ => Err(ExprFault::Syntax),
    }
}

/// Of two signs that begin alike the longer.
fn sign_lexeme(first: u8, rest: &[u8]) -> Result<Lexeme, ExprFault>
    ensures value { Finds (sign_lexeme first rest.now) result }
    ensures within { IfOk result (λ l. (1 ≤ l.length) × (l.length ≤ length rest.now + 1)) }
{
    if let [second, ..] = rest
        && let Some(op) = double_sign(first, *second)
    {
        return lexeme(Some(Token::Infix(op)), 2);
    }
    token_lexeme(single_sign(first), 1)
}

/// Whether parts begin with a text, or there are none.
fn is_text(parts: &Parts) -> bool
    ensures { result ≡ is_text parts.now }
{
    match parts.as_slice() {
        [] | [Part::Text(_), ..] => true,
        _ => false,
    }
}

/// A word as an operand. Behind a dollar sign it begins with no text.
fn word_lexeme(dollar: bool, word: Word, length: usize) -> Result<Lexeme, ExprFault>
    ensures { LexesTo (operand_lexeme dollar (word ∷ []) length) length result }
{
    let Word { parts, .. } = word;
    if dollar && is_text(&parts) {
        return Err(ExprFault::Syntax);
    }
    lexeme(Some(Token::Operand(parts)), length)
}

/// The one word that was read.
fn operand_lexeme(dollar: bool, words: Seq<Word>, length: usize) -> Result<Lexeme, ExprFault>
    ensures { LexesTo (operand_lexeme dollar words length) length result }
{
    let mut words = words.into_vec();
    match words.pop() {
        Some(word) if words.is_empty() => word_lexeme(dollar, word, length),
        _ => Err(ExprFault::Syntax),
    }
}

/// A quoted or braced word, a variable or a command.
fn read_lexeme(alloc: Global, dollar: bool, text: &[u8]) -> Result<Lexeme, ExprFault>
    ensures value { Finds (read_lexeme dollar (operand_at text.now 0)) result }
    ensures within { IfOk result (λ l. (1 ≤ l.length) × (l.length ≤ length text.now)) }
{
    match parse_operand(alloc, text, 0) {
        Ok(parsed) => operand_lexeme(dollar, parsed.words, parsed.next),
        Err(WordFault::Memory) => Err(ExprFault::Memory),
        Err(_) => Err(ExprFault::Syntax),
    }
}

/// The operand of a run at the front of a text that begins with a digit.
fn run_lexeme(alloc: Global, text: &[u8]) -> Result<Lexeme, ExprFault>
    ensures value { Finds (lexeme (Some (text_operand (take_while is_run_byte text.now))) (prefix_len is_run_byte text.now)) result }
    ensures within { IfOk result (λ l. (1 ≤ l.length) × (l.length ≤ length text.now)) }
{
    let length = run_length(text);
    let token = text_operand(alloc, &text[..length])?;
    lexeme(Some(token), length)
}

/// The operator or the word of truth of the letters at the front of a text.
fn letters_lexeme(alloc: Global, text: &[u8]) -> Result<Lexeme, ExprFault>
    ensures value { Finds (token_lexeme (word_token (take_while is_letter text.now)) (prefix_len is_letter text.now)) result }
    ensures within { IfOk result (λ l. (1 ≤ l.length) × (l.length ≤ length text.now)) }
{
    let length = letters(text);
    let token = word_token(alloc, &text[..length])?;
    token_lexeme(token, length)
}

/// The token or the gap that a text begins with.
#[tactic(auto, unfolding(crate::specs::Token::lexeme_at))]
pub fn first_lexeme(alloc: Global, text: &[u8]) -> Result<Lexeme, ExprFault>
    ensures { Lexes text.now result }
{
    let [first, rest @ ..] = text else {
        return Err(ExprFault::Syntax);
    };
    match kind_of(*first) {
        Kind::Space => lexeme(None, 1),
        Kind::Backslash => joined_line(rest),
        Kind::Digit => run_lexeme(alloc, text),
        Kind::Letter => letters_lexeme(alloc, text),
        Kind::Dollar => read_lexeme(alloc, true, text),
        Kind::Word => read_lexeme(alloc, false, text),
        Kind::Sign => sign_lexeme(*first, rest),
    }
}
