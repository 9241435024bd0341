//! Laws of the entries that gates make, each the contract of a function that does nothing.
ghost use Rattle.std.specs.Prelude.{◌≡◌, ◌<◌, None};
ghost use Rattle.dg_transcript.specs.declared.cursor.Cursor.{Cursor};
ghost use Rattle.dg_transcript.specs.declared.cursor.Action.{Action};
ghost use Rattle.dg_transcript.specs.declared.entry.Entry.{Entry};
ghost use Rattle.dg_transcript.specs.declared.limits.TheConstants.{MAX_ENTRIES};
ghost use Rattle.dg_gate.specs.Made.{Made, Takes};

/// A replay that comes to an entry that a gate made of the same action takes it: as the answer, or
/// as a silence that is used up as the limit passes.
pub fn made_entries_are_taken()
    ensures { (c : Cursor) (a : Action) (e : Entry) → c.wait ≡ None → c.place < MAX_ENTRIES → Made a e → Takes c a e }
{}
