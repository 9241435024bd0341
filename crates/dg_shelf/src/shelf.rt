//! Readings by text.
ghost use Rattle.std.specs.Prelude.{◌≡◌, IfOk, IfSome};
ghost use Rattle.std.specs.Arc.{arc_value};

use dg_bytes::{Bytes, Text};
use std::alloc::{AllocError, Global};
use std::marker::Model;
use std::sync::Arc;

/// A reading of a text, which is the same whenever that text is read.
pub trait Reading: Sized + Drop {
    ghost use Rattle.std.specs.Prelude.{ℕ, List};

    /// Reads a text.
    ghost read_of: { List ℕ → Self };

    /// Reads a text, or has no memory.
    fn read(alloc: Global, text: &[u8]) -> Result<Self, AllocError>
        ensures { IfOk result (λ r. r ≡ read_of text.now) };
}

/// Where the entries of a place end.
const END: usize = usize::MAX;

/// A text and what was read of it, and the entry of the same place that was kept before it. A contract sees the text.
#[derive(Drop)]
struct Entry<T: Reading> {
    text: Text,
    reading: Arc<T>,
    before: usize,
}

impl<T: Reading> Model for Entry<T> {
    ghost use Rattle.std.specs.Prelude.{◌≡◌, ℕ, List};
    ghost use Rattle.std.specs.Arc.{arc_value};

    ghost Value = { List ℕ };

    ghost view = { λ e. e.text };

    ghost invariant = { λ e. arc_value e.reading ≡ T.read_of e.text };
}

impl<T: Reading> Entry<T> {
    /// A text and its reading.
    fn new(
        alloc: Global,
        text: &Bytes,
        reading: &Arc<T>,
        before: usize,
    ) -> Result<Entry<T>, AllocError>
        requires { arc_value reading.now ≡ T.read_of text.now }
        ensures { IfOk result (λ e. e ≡ text.now) }
    {
        let reading = Arc::try_clone(reading)?;
        Ok(Entry {
            text: text.to_text(alloc)?,
            reading,
            before,
        })
    }

    /// The reading of this text, if the entry is of it.
    fn of(&self, text: &[u8]) -> Result<Option<Arc<T>>, AllocError>
        ensures { IfOk result (λ o. IfSome o (λ r. arc_value r ≡ T.read_of text.now)) }
    {
        if self.text.as_slice() != text {
            return Ok(None);
        }
        Ok(Some(Arc::try_clone(&self.reading)?))
    }
}

/// Readings of texts that were read lately: of so many texts, and of so many bytes of texts together. Where one more would
/// be too many, all others are let go of first. A contract sees nothing of it: what is read of a text is the same whether it
/// was kept or not.
pub struct Shelf<T: Reading> {
    entries: Vec<Entry<T>>,
    /// The newest entry of each place. They are made when the first text is read.
    places: Vec<usize>,
    count: usize,
    room: usize,
    left: usize,
}

impl<T: Reading> Drop for Shelf<T> {
    fn drop(self) {
        let Shelf {
            entries: _,
            places: _,
            count: _,
            room: _,
            left: _,
        } = self;
    }
}

impl<T: Reading> Model for Shelf<T> {
    ghost Value = { Unit {0} };

    ghost view = { λ s. tt };
}

/// How many places there are.
const PLACES: usize = 64;

/// How many bytes are taken as one number.
const GROUP: usize = 8;

/// How many groups of bytes tell a text's place.
const TOLD: usize = 8;

/// An odd number whose product with another has high bits that depend on all of its bits.
const SPREAD: u64 = 0x9e37_79b9_7f4a_7c15;

/// A group of bytes as one number.
fn number_of(group: &[u8]) -> u64 {
    if let [a, b, c, d, e, f, g, h] = group {
        return u64::from_le_bytes([*a, *b, *c, *d, *e, *f, *g, *h]);
    }
    let mut number: u64 = 0;
    for byte in group {
        number = number << 8 | u64::from(*byte);
    }
    number
}

/// The place of a text. Most texts that differ have places that differ.
fn place_of(text: &[u8]) -> usize {
    let mut sum = text.len() as u64;
    for group in text.chunks(GROUP).take(TOLD) {
        sum = (sum.rotate_left(5) ^ number_of(group)).wrapping_mul(SPREAD);
    }
    (sum >> 32) as usize % PLACES
}

impl<T: Reading> Shelf<T> {
    /// No readings yet, for so many texts, and for so many bytes of texts.
    pub fn new(alloc: Global, count: usize, room: usize) -> Shelf<T> {
        Shelf {
            entries: Vec::new(alloc),
            places: Vec::new(alloc),
            count,
            room,
            left: room,
        }
    }

    /// The newest entry of a place.
    fn newest(&self, place: usize) -> usize {
        match self.places.get(place) {
            Some(entry) => *entry,
            None => END,
        }
    }

    /// The reading of this text, if it is kept.
    fn kept(&self, text: &[u8]) -> Result<Option<Arc<T>>, AllocError>
        ensures { IfOk result (λ o. IfSome o (λ r. arc_value r ≡ T.read_of text.now)) }
    {
        let mut at = self.newest(place_of(text));
        for _ in 0..self.entries.len() {
            let Some(entry) = self.entries.get(at) else {
                break;
            };
            if let Some(reading) = entry.of(text)? {
                return Ok(Some(reading));
            }
            at = entry.before;
        }
        Ok(None)
    }

    /// The reading of a text. The text is read only where no reading of it is kept.
    pub fn reading(&mut self, alloc: Global, text: &Bytes) -> Result<Arc<T>, AllocError>
        ensures { IfOk result (λ r. arc_value r ≡ T.read_of text.now) }
    {
        match self.kept(text.as_slice())? {
            Some(reading) => Ok(reading),
            None => self.read(alloc, text),
        }
    }

    /// Reads a text, and keeps the reading unless the text alone is longer than all may be.
    fn read(&mut self, alloc: Global, text: &Bytes) -> Result<Arc<T>, AllocError>
        ensures { IfOk result (λ r. arc_value r ≡ T.read_of text.now) }
    {
        let reading = Arc::new(alloc, T::read(alloc, text.as_slice())?)?;
        if text.len() <= self.room {
            self.keep(alloc, text, &reading)?;
        }
        Ok(reading)
    }

    /// Keeps the reading of a text, as the newest entry of its place.
    fn keep(&mut self, alloc: Global, text: &Bytes, reading: &Arc<T>) -> Result<(), AllocError>
        requires { arc_value reading.now ≡ T.read_of text.now }
    {
        self.make_room(alloc, text.len())?;
        let place = place_of(text.as_slice());
        let before = self.newest(place);
        let entry = Entry::new(alloc, text, reading, before)?;
        let at = self.entries.len();
        self.entries.push(entry)?;
        self.left = self.left.saturating_sub(text.len());
        if let Some(newest) = self.places.get_mut(place) {
            *newest = at;
        }
        Ok(())
    }

    /// Where a text of this length would be one too many, all others are let go of. There are places then.
    fn make_room(&mut self, alloc: Global, length: usize) -> Result<(), AllocError> {
        if self.left < length || self.entries.len() >= self.count {
            self.entries.clear();
            self.places.clear();
            self.left = self.room;
        }
        if self.places.is_empty() {
            self.places = places(alloc)?;
        }
        Ok(())
    }
}

/// Places without an entry.
fn places(alloc: Global) -> Result<Vec<usize>, AllocError> {
    let mut places = Vec::with_capacity(alloc, PLACES)?;
    for _ in 0..PLACES {
        places.push(END)?;
    }
    Ok(places)
}
