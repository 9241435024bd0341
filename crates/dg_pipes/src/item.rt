//! What may stand in a ring.
ghost use Rattle.std.specs.Prelude.{◌≡◌, not};
ghost use Rattle.dg_pipes.specs.Items.{is_chunk};

use dg_bytes::Bytes;
use dg_transcript::ErrorCode;
use rtrb::Protocol;

/// What a reader thread tells.
#[derive(Drop)]
pub enum Item {
    /// These bytes came: 1 to 4,096.
    Chunk(Bytes),
    /// The output ended.
    End,
    /// The output can't be read.
    Fault(ErrorCode),
}

impl Item {
    /// Nothing comes behind it.
    pub(crate) fn is_last(&self) -> bool
        ensures { result ≡ not (is_chunk self.now) }
    {
        !matches!(self, Item::Chunk(_))
    }
}

/// The rule of a ring: its chunks have 1 to 4,096 bytes.
pub struct Rule;

impl Protocol<Item> for Rule {
    ghost use Rattle.dg_pipes.specs.Items.{IsAllowed};

    ghost allows = { λ before x. IsAllowed x };
}
