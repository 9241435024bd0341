//! The class of each byte, and the bytes that an escape writes, by Tcl(n).
ghost use Rattle.std.specs.Prelude.{◌≡◌, ◌++◌, OnErr, OnOk};
ghost use Rattle.std.specs.Char.{encode_utf8};
ghost use Rattle.dg_lists.specs.Classes.{class_of, is_name};
ghost use Rattle.dg_lists.specs.Transitions.{base_of, begins_number, behind_effect, behind_number, counted, digits_of, does, escaped, goes, in_braces, is_space, letter_of, most_of, puts, whole, with_digit, written};

use crate::fault::WordFault;
use crate::kinds::{Class, Context, Delimiter, Digits, Effect, Escape, Mode, Target, Transition};
use dg_bytes::Bytes;
use std::alloc::AllocError;

/// A letter, a digit or the underscore.
fn is_name(byte: u8) -> bool
    ensures { result ≡ is_name byte }
{
    byte.is_ascii_alphanumeric() || byte == b'_'
}

#[tactic(auto, unfolding(crate::specs::Classes::class_of))]
pub fn class_of(byte: u8) -> Class
    ensures { result ≡ class_of byte }
{
    match byte {
        b'\n' => Class::Newline,
        b';' => Class::Semicolon,
        b' ' | 9 | 11 | 12 | 13 => Class::Blank,
        b'#' => Class::Hash,
        b'"' => Class::Quote,
        b'{' => Class::Open,
        b'}' => Class::Close,
        b'[' => Class::LeftBracket,
        b']' => Class::RightBracket,
        b'(' => Class::LeftParen,
        b')' => Class::RightParen,
        b'\\' => Class::Backslash,
        b'$' => Class::Dollar,
        b':' => Class::Colon,
        b'*' => Class::Star,
        _ => {
            if is_name(byte) {
                Class::Name
            } else {
                Class::Plain
            }
        }
    }
}

/// The bytes that a joined line leaves out.
pub fn is_space(byte: u8) -> bool
    ensures { result ≡ is_space byte }
{
    byte == b' ' || byte == b'\t'
}

impl Escape {
    fn base(self) -> u32
        ensures { result ≡ base_of self }
    {
        match self {
            Escape::Octal => 8,
            _ => 16,
        }
    }

    fn digits(self) -> u32
        ensures { result ≡ digits_of self }
    {
        match self {
            Escape::Octal => 3,
            Escape::Byte => 2,
            Escape::Short => 4,
            Escape::Long => 8,
        }
    }

    /// The greatest value that is written.
    fn most(self) -> u32
        ensures { result ≡ most_of self }
    {
        match self {
            Escape::Short => 0xFFFF,
            Escape::Long => 0x10_FFFF,
            _ => 0xFF,
        }
    }

    fn letter(self) -> u8
        ensures { result ≡ letter_of self }
    {
        match self {
            Escape::Octal => b'0',
            Escape::Byte => b'x',
            Escape::Short => b'u',
            Escape::Long => b'U',
        }
    }

    /// The bytes that a number writes, where it can.
    fn written(self, value: u32) -> Option<Effect>
        ensures { result ≡ written self value }
    {
        match self {
            Escape::Octal | Escape::Byte => {
                if value < 256 {
                    Some(Effect::Byte(value as u8))
                } else {
                    None
                }
            }
            Escape::Short | Escape::Long => match char::from_u32(value) {
                Some(code) => Some(Effect::Code(code)),
                None => None,
            },
        }
    }
}

impl Digits {
    /// The value with one more digit, if the byte is one that still belongs to the escape.
    pub fn with(self, byte: u8) -> Option<u32>
        ensures { result ≡ with_digit self byte }
    {
        let base = self.escape.base();
        match (byte as char).to_digit(base) {
            Some(digit) => {
                let value = u64::from(base) * u64::from(self.value) + u64::from(digit);
                if value <= u64::from(self.escape.most()) {
                    Some(value as u32)
                } else {
                    None
                }
            }
            None => None,
        }
    }

    /// The bytes that the escape writes; without digits it writes its letter.
    pub fn whole(self) -> Option<Effect>
        ensures { result ≡ whole self }
    {
        if self.left == self.escape.digits() {
            Some(Effect::Byte(self.escape.letter()))
        } else {
            self.escape.written(self.value)
        }
    }
}

impl Transition {
    pub fn does(effect: Effect, next: Target) -> Transition
        ensures { result ≡ does effect next }
    {
        Transition {
            first: Effect::Nothing,
            second: effect,
            next,
        }
    }

    pub fn puts(byte: u8, mode: Mode) -> Transition
        ensures { result ≡ puts byte mode }
    {
        Transition::does(Effect::Byte(byte), Target::To(mode))
    }

    pub fn goes(mode: Mode) -> Transition
        ensures { result ≡ goes mode }
    {
        Transition::does(Effect::Nothing, Target::To(mode))
    }

    /// The transition behind another effect.
    pub fn behind(self, effect: Effect) -> Transition
        ensures { result ≡ behind_effect effect self }
    {
        Transition {
            first: effect,
            ..self
        }
    }

    pub fn behind_number(self, effect: Option<Effect>) -> Transition
        ensures { result ≡ behind_number effect self }
    {
        match effect {
            Some(effect) => self.behind(effect),
            None => Transition::does(Effect::Nothing, Target::Bad(WordFault::BadCodePoint)),
        }
    }
}

/// One more digit: the last one closes the number.
pub fn counted(context: Context, escape: Escape, left: u32, value: u32) -> Transition
    ensures { result ≡ counted context escape left value }
{
    match left {
        0 => Transition::does(Effect::Nothing, Target::Bad(WordFault::BadCodePoint)),
        1 => Transition::goes(Mode::In(context)).behind_number(escape.written(value)),
        _ => {
            let digits = Digits {
                escape,
                left: left - 1,
                value,
            };
            Transition::goes(Mode::Number(context, digits))
        }
    }
}

fn begins_number(context: Context, escape: Escape) -> Transition
    ensures { result ≡ begins_number context escape }
{
    let digits = Digits {
        escape,
        left: escape.digits(),
        value: 0,
    };
    Transition::goes(Mode::Number(context, digits))
}

/// The second byte of a pair that is no newline.
pub fn escaped(context: Context, byte: u8) -> Transition
    ensures { result ≡ escaped context byte }
{
    match byte {
        b'a' => Transition::puts(7, Mode::In(context)),
        b'b' => Transition::puts(8, Mode::In(context)),
        b'f' => Transition::puts(12, Mode::In(context)),
        b'n' => Transition::puts(10, Mode::In(context)),
        b'r' => Transition::puts(13, Mode::In(context)),
        b't' => Transition::puts(9, Mode::In(context)),
        b'v' => Transition::puts(11, Mode::In(context)),
        b'x' => begins_number(context, Escape::Byte),
        b'u' => begins_number(context, Escape::Short),
        b'U' => begins_number(context, Escape::Long),
        b'0'..=b'7' => {
            let digits = Digits {
                escape: Escape::Octal,
                left: 2,
                value: u32::from(byte - b'0'),
            };
            Transition::goes(Mode::Number(context, digits))
        }
        _ => Transition::puts(byte, Mode::In(context)),
    }
}

/// A byte inside braces, where others may be open within: these stay, and the brace that closes the
/// word ends it. A backslash makes what is given.
pub fn in_braces(escape: Transition, deep: bool, class: Class, byte: u8) -> Transition
    ensures { result ≡ in_braces escape deep class byte }
{
    match class {
        Class::Open => Transition::does(Effect::Byte(byte), Target::Deeper),
        Class::Close if deep => Transition::does(Effect::Byte(byte), Target::Shallower),
        Class::Close => Transition::does(Effect::Word, Target::To(Mode::Behind(Delimiter::Brace))),
        Class::Backslash => escape,
        _ => Transition::puts(byte, Mode::Braced),
    }
}

/// Adds a character to a text, in UTF-8, or changes nothing.
pub fn push_code(text: &mut Bytes, code: char) -> Result<(), AllocError>
    ensures ok { OnOk result (text.new ≡ text.old ++ encode_utf8 code) }
    ensures err { OnErr result (text.new ≡ text.old) }
{
    let mut space = [0u8; 4];
    let bytes = code.encode_utf8(&mut space);
    text.extend(bytes.as_bytes())
}
