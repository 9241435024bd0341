//! What an edit touches: the places that an index names for it.
ghost use Rattle.std.specs.Prelude.{◌≡◌};
ghost use Rattle.dg_index.specs.Index.{readers_of};
ghost use Rattle.dg_index.specs.Topic.{touched};

use crate::index::Index;
use dg_world::Edit;

/// The places that are named for what an edit touches, with the edit back: no place where nothing is named.
pub fn places_touched(index: &Index, edit: Edit) -> (&[usize], Edit)
    ensures places { result.0.now ≡ readers_of index.now (touched edit) }
    ensures back { result.1 ≡ edit }
{
    match index.find_touched(edit) {
        (Some((_topic, places)), edit) => (places, edit),
        (None, edit) => (&[], edit),
    }
}
