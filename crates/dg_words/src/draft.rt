//! A command in the middle of its reading: its finished words, and the open word.
ghost use Rattle.std.specs.Prelude.{◌≡◌, ◌++◌, ◌∷◌, [], ◌==◌, false, OnOk, IfOk, MatchOption, length};
ghost use Rattle.dg_words.specs.Machine.{add, close, close_index, command, end_word, open_index, perform};
ghost use Rattle.dg_words.specs.Parts.{pieces_of_part};

use crate::word::{Part, Parts, Word};
use dg_bytes::{Bytes, Seq};
use dg_lists::{Context, Effect, push_code};
use std::alloc::{AllocError, Global};
use std::marker::Model;
use std::mem;

/// An element whose index is open: where it stands, the parts before it, and its name.
#[derive(Drop)]
pub struct Frame {
    context: Context,
    before: Parts,
    name: Bytes,
}

/// Open elements. A contract sees the innermost first.
#[derive(Drop)]
pub struct Frames {
    inner: Vec<Frame>,
}

impl Model for Frames {
    ghost use Rattle.std.specs.Prelude.{List, reverse};
    ghost use Rattle.dg_words.specs.declared.draft.Frame.{Frame};

    ghost Value = { List Frame };

    ghost view = { λ f. reverse f.inner.items };
}

impl Frames {
    fn new(alloc: Global) -> Frames
        ensures { result ≡ [] }
    {
        Frames {
            inner: Vec::new(alloc),
        }
    }

    fn len(&self) -> usize
        ensures { result ≡ length self.now }
    {
        self.inner.len()
    }

    fn push(&mut self, frame: Frame) -> Result<(), AllocError>
        ensures { OnOk result (self.new ≡ frame ∷ self.old) }
    {
        self.inner.push(frame)?;
        Ok(())
    }

    fn pop(&mut self) -> Option<Frame>
        ensures { MatchOption result ((self.old ≡ []) × (self.new ≡ [])) (λ f. self.old ≡ f ∷ self.new) }
    {
        self.inner.pop()
    }
}

/// The whole words, and of the word that is open its parts and the text of the part that is open. A
/// contract sees the pieces of all its parts, those before the open indices among them.
#[derive(Drop)]
pub struct Draft {
    alloc: Global,
    words: Seq<Word>,
    expand: bool,
    frames: Frames,
    parts: Parts,
    text: Bytes,
}

impl Model for Draft {
    ghost use Rattle.std.specs.Prelude.{◌++◌};
    ghost use Rattle.dg_words.specs.Frames.{pieces, contexts};
    ghost use Rattle.dg_words.specs.Machine.{Draft};

    ghost Value = { Draft };

    ghost view = { λ d. record { words = d.words; expand = d.expand; indices = contexts d.frames; parts = pieces d.frames ++ d.parts; text = d.text } };
}

impl Draft {
    pub fn new(alloc: Global) -> Draft
        ensures { result ≡ record { words = []; expand = false; indices = []; parts = []; text = [] } }
    {
        Draft {
            alloc,
            words: Seq::new(alloc),
            expand: false,
            frames: Frames::new(alloc),
            parts: Parts::new(alloc),
            text: Bytes::new(alloc),
        }
    }

    /// The whole words.
    pub fn into_words(self) -> Seq<Word>
        ensures { result ≡ self.words }
    {
        let Draft { words, .. } = self;
        words
    }

    /// How many indices are open.
    pub fn open(&self) -> usize
        ensures { result ≡ length self.now.indices }
    {
        self.frames.len()
    }

    /// One more byte of the text.
    pub fn put(&mut self, byte: u8) -> Result<(), AllocError>
        ensures { OnOk result (self.new ≡ add (byte ∷ []) self.old) }
    {
        self.text.push(byte)
    }

    /// More bytes of the text.
    pub fn put_all(&mut self, bytes: &[u8]) -> Result<(), AllocError>
        ensures { OnOk result (self.new ≡ add bytes.now self.old) }
    {
        self.text.extend(bytes)
    }

    /// The text that is open is taken.
    fn take_text(&mut self) -> Bytes
        ensures taken { result ≡ self.old.text }
        ensures left { self.new ≡ record self.old { text = [] } }
    {
        mem::replace(&mut self.text, Bytes::new(self.alloc))
    }

    fn push(&mut self, part: Part) -> Result<(), AllocError>
        ensures { OnOk result (self.new ≡ record self.old { parts = self.old.parts ++ pieces_of_part part }) }
    {
        self.parts.push(part)
    }

    /// The text becomes a part, where there is one.
    pub fn close(&mut self) -> Result<(), AllocError>
        ensures { OnOk result (self.new ≡ close self.old) }
    {
        if self.text.is_empty() {
            return Ok(());
        }
        let text = self.take_text();
        self.push(Part::Text(text))
    }

    /// The text was that of a command within brackets.
    pub fn command(&mut self) -> Result<(), AllocError>
        ensures { OnOk result (self.new ≡ command self.old) }
    {
        let text = self.take_text();
        self.push(Part::Command(text))
    }

    fn value(&mut self) -> Result<(), AllocError>
        ensures { OnOk result (self.new ≡ perform Effect.Value self.old) }
    {
        let text = self.take_text();
        self.push(Part::Variable(text))
    }

    /// The word ends, outside of its indices.
    fn end_word(&mut self) -> Result<(), AllocError>
        ensures { OnOk result (self.new ≡ end_word self.old.indices self.old) }
    {
        if self.frames.len() > 0 {
            return Ok(());
        }
        self.close()?;
        let parts = mem::replace(&mut self.parts, Parts::new(self.alloc));
        self.words.push(Word {
            expand: self.expand,
            parts,
        })?;
        self.expand = false;
        Ok(())
    }

    /// Applies the effect of a byte.
    pub fn perform(&mut self, effect: Effect) -> Result<(), AllocError>
        ensures { OnOk result (self.new ≡ perform effect self.old) }
    {
        match effect {
            Effect::Nothing => Ok(()),
            Effect::Byte(byte) => self.put(byte),
            Effect::Code(code) => push_code(&mut self.text, code),
            Effect::Dollar => self.put(b'$'),
            Effect::DollarColon => self.text.extend(b"$:"),
            Effect::Close => self.close(),
            Effect::Global => {
                self.close()?;
                self.text.extend(b"::")
            }
            Effect::Value => self.value(),
            Effect::Expand => {
                self.text.clear();
                self.expand = true;
                Ok(())
            }
            Effect::Word => self.end_word(),
        }
    }

    /// The word that is open ends after two effects.
    fn end(&mut self, first: Effect, second: Effect) -> Result<(), AllocError>
        ensures { OnOk result (self.new ≡ perform Effect.Word (perform second (perform first self.old))) }
    {
        self.perform(first)?;
        self.perform(second)?;
        self.perform(Effect::Word)
    }

    /// The words, once the word that is open has ended after two effects.
    pub fn ended(mut self, first: Effect, second: Effect) -> Result<Seq<Word>, AllocError>
        ensures { IfOk result (λ words. words ≡ (perform Effect.Word (perform second (perform first self))).words) }
    {
        self.end(first, second)?;
        Ok(self.into_words())
    }

    /// The text is the name of an element, whose index begins.
    pub fn open_index(&mut self, context: Context) -> Result<(), AllocError>
        ensures { OnOk result (self.new ≡ open_index context self.old) }
    {
        let name = self.take_text();
        let before = mem::replace(&mut self.parts, Parts::new(self.alloc));
        self.frames.push(Frame {
            context,
            before,
            name,
        })
    }

    /// The innermost index ends, where there is one.
    pub fn close_index(&mut self) -> Result<Option<Context>, AllocError>
        ensures { IfOk result (λ context. MatchOption context ((self.old.indices ≡ []) × (self.new ≡ self.old)) (λ s. self.old.indices ≡ s ∷ self.new.indices × self.new ≡ close_index self.new.indices self.old)) }
    {
        if self.frames.len() == 0 {
            return Ok(None);
        }
        self.close()?;
        let Some(
            Frame {
                context,
                before,
                name,
            },
        ) = self.frames.pop()
        else {
            return Ok(None);
        };
        let index = mem::replace(&mut self.parts, before);
        self.parts.push(Part::Element(name, index))?;
        Ok(Some(context))
    }
}
