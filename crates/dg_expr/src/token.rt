//! The tokens of an expression's text.
ghost use Rattle.std.specs.Prelude.{◌≡◌, None};
ghost use Rattle.dg_expr.specs.Token.{doubled_sign, is_digit, is_letter, is_run_byte, kind_of, double_sign, sign_with_equals, single_sign};

use crate::operator::{Infix, Prefix};
use crate::whole::is_space;
use dg_words::Parts;

/// A token. Where `+` and `-` stand decides what they are.
#[derive(Drop)]
pub enum Token {
    Operand(Parts),
    Infix(Infix),
    Prefix(Prefix),
    Plus,
    Minus,
    LeftParen,
    RightParen,
    Question,
    Colon,
}

/// The lexeme at a place: a token, or none where tokens are kept apart, and how many bytes it takes.
#[derive(Drop)]
pub struct Lexeme {
    pub token: Option<Token>,
    pub length: usize,
}

/// The kind of lexeme that a byte begins.
#[derive(Clone, Copy)]
pub enum Kind {
    Space,
    Backslash,
    Digit,
    Letter,
    Dollar,
    Word,
    Sign,
}

pub fn is_letter(byte: u8) -> bool
    ensures { result ≡ is_letter byte }
{
    byte.is_ascii_alphabetic()
}

pub fn is_digit(byte: u8) -> bool
    ensures { result ≡ is_digit byte }
{
    byte.is_ascii_digit()
}

/// A byte of an operand that begins with a digit.
pub fn is_run_byte(byte: u8) -> bool
    ensures { result ≡ is_run_byte byte }
{
    is_letter(byte) || is_digit(byte) || byte == b'.' || byte == b'_'
}

#[tactic(auto, unfolding(crate::specs::Token::kind_of))]
pub fn kind_of(byte: u8) -> Kind
    ensures { result ≡ kind_of byte }
{
    if is_space(byte) {
        Kind::Space
    } else if byte == b'\\' {
        Kind::Backslash
    } else if is_digit(byte) {
        Kind::Digit
    } else if is_letter(byte) {
        Kind::Letter
    } else if byte == b'$' {
        Kind::Dollar
    } else if byte == b'"' || byte == b'{' || byte == b'[' {
        Kind::Word
    } else {
        Kind::Sign
    }
}

fn doubled_sign(byte: u8) -> Option<Infix>
    ensures { result ≡ doubled_sign byte }
{
    match byte {
        b'<' => Some(Infix::ShiftLeft),
        b'>' => Some(Infix::ShiftRight),
        b'=' => Some(Infix::Equal),
        b'&' => Some(Infix::And),
        b'|' => Some(Infix::Or),
        _ => None,
    }
}

fn sign_with_equals(byte: u8) -> Option<Infix>
    ensures { result ≡ sign_with_equals byte }
{
    match byte {
        b'<' => Some(Infix::LessOrEqual),
        b'>' => Some(Infix::GreaterOrEqual),
        b'!' => Some(Infix::NotEqual),
        _ => None,
    }
}

/// The operator of two bytes.
pub fn double_sign(first: u8, second: u8) -> Option<Infix>
    ensures { result ≡ double_sign first second }
{
    if first == second {
        doubled_sign(first)
    } else if second == b'=' {
        sign_with_equals(first)
    } else {
        None
    }
}

/// The token of one byte.
#[tactic(auto, unfolding(crate::specs::Token::single_sign))]
pub fn single_sign(byte: u8) -> Option<Token>
    ensures { result ≡ single_sign byte }
{
    match byte {
        b'(' => Some(Token::LeftParen),
        b')' => Some(Token::RightParen),
        b'?' => Some(Token::Question),
        b':' => Some(Token::Colon),
        b'+' => Some(Token::Plus),
        b'-' => Some(Token::Minus),
        b'~' => Some(Token::Prefix(Prefix::Complement)),
        b'!' => Some(Token::Prefix(Prefix::Not)),
        b'*' => Some(Token::Infix(Infix::Times)),
        b'/' => Some(Token::Infix(Infix::Over)),
        b'%' => Some(Token::Infix(Infix::Remainder)),
        b'<' => Some(Token::Infix(Infix::Less)),
        b'>' => Some(Token::Infix(Infix::Greater)),
        b'&' => Some(Token::Infix(Infix::BitAnd)),
        b'^' => Some(Token::Infix(Infix::BitXor)),
        b'|' => Some(Token::Infix(Infix::BitOr)),
        _ => None,
    }
}
