//! What is known of the places of a history: a note for each, beside the calls.
ghost use Rattle.std.specs.Prelude.{ℕ, ◌≡◌, ◌<◌, ◌+◌, List, [], ◌∷◌, ◌++◌, length, true, Some, IfOk, IfErr, OnOk, IfSome, slice_get, vec_len, vec_capacity};
ghost use Rattle.once_cell.specs.Once.{Agrees};
ghost use Rattle.dg_bench.specs.Cells.{HasBlock, Sees};
ghost use Rattle.dg_bench.specs.declared.note.PlaceNote.{PlaceNote};
ghost use Rattle.dg_bench.specs.declared.place.Place.{Place as Held};
ghost use Rattle.dg_bench.specs.History.{IsLegal};
ghost use Rattle.dg_bench.specs.Seen.{KnowsAll, seen_all, called};

use crate::call::Call;
use crate::cells::{Block, Cells};
use crate::note::PlaceNote;
use crate::pass::Pass;
use crate::place::Place;
use crate::prepared::Prepared;
use crate::receipt::Receipt;
use crate::refusal::BenchRefusal;
use crate::room::Room;
use once_cell::race::Note;
use std::alloc::{AllocError, Global};
use std::snapshot::Snapshot;

/// The note of a place.
fn note_at(notes: &mut Vec<PlaceNote>, at: usize) -> PlaceNote
    requires { at < vec_len notes.old }
    ensures same { notes.new.items ≡ notes.old.items }
    ensures note { slice_get notes.old.items at ≡ Some result }
{
    notes[at].again()
}

/// Holds a note against that of a place.
pub(crate) fn compare_at(notes: &mut Vec<PlaceNote>, at: usize, other: PlaceNote)
    requires within { at < vec_len notes.old }
    requires known { (n : PlaceNote) → slice_get notes.old.items at ≡ Some n → (names : List ℕ) × (p : Held) × (q : Held)
        × Sees names at n p × Sees names at other q }
    ensures same { notes.new.items ≡ notes.old.items }
    ensures agrees { (n : PlaceNote) → slice_get notes.old.items at ≡ Some n →
        IfSome other.place.known (Agrees n.place.known) }
{
    notes[at].compare(other);
}

/// A pass that has seen all calls.
#[tactic(auto, using(crate::proofs::Places::all_known))]
pub(crate) fn whole<B: Room>(notes: &mut Vec<PlaceNote>, calls: &Vec<Call>) -> Pass<B>
    requires all { KnowsAll B.names notes.old.items calls.now.items }
    requires legal { IsLegal calls.now.items }
    ensures same { notes.new.items ≡ notes.old.items }
    ensures seen { result ≡ seen_all calls.now.items }
{
    let count = calls.len();
    if count == 0 {
        return Pass::of_note(0, None);
    }
    let note = note_at(notes, count - 1);
    Pass::of_note(count, Some(note))
}

/// Makes room for a call, and what goes into its place.
pub(crate) fn prepare(
    alloc: Global,
    cells: &Cells,
    calls: &mut Vec<Call>,
    notes: &mut Vec<PlaceNote>,
    call: Call,
) -> Result<Prepared, AllocError>
    requires { vec_len calls.old < cells.now.limit }
    ensures calls { calls.new.items ≡ calls.old.items }
    ensures notes { notes.new.items ≡ notes.old.items }
    ensures room { OnOk result ((vec_len calls.new < vec_capacity calls.new) × (vec_len notes.new < vec_capacity notes.new)) }
    ensures call { IfOk result (λ p. (p.call ≡ call) × (p.place.value.call ≡ call)) }
    ensures before { IfOk result (λ p. p.place.value.before.value.items ≡ calls.old.items) }
    ensures block { IfOk result (λ p. HasBlock cells.now.names (length p.place.value.before.value.items) p.block) }
{
    let block = cells.make_room(alloc, calls.len())?;
    let prepared = Prepared::of(alloc, call, Snapshot::of(calls), block)?;
    calls.reserve(1)?;
    notes.reserve(1)?;
    Ok(prepared)
}

/// Puts a call into the next place, or gives it back where that place's cell has a value already.
fn enter<B: Room>(
    calls: &mut Vec<Call>,
    notes: &mut Vec<PlaceNote>,
    cells: &Cells,
    call: Call,
    place: Box<Place>,
    block: Note<Block>,
) -> Result<Receipt<B>, Call>
    requires all { KnowsAll B.names notes.old.items calls.old.items }
    requires cells { cells.now.names ≡ B.names }
    requires within { vec_len calls.old < cells.now.limit }
    requires room { (vec_len calls.old < vec_capacity calls.old) × (vec_len notes.old < vec_capacity notes.old) }
    requires call { place.value.call ≡ call }
    requires before { place.value.before.value.items ≡ calls.old.items }
    requires block { HasBlock cells.now.names (length place.value.before.value.items) block }
    ensures entered { IfOk result
        (λ r. (calls.new.items ≡ calls.old.items ++ call ∷ []) × (r ≡ called (length calls.old.items) call)) }
    ensures all { KnowsAll B.names notes.new.items calls.new.items }
    ensures refused { IfErr result (λ back. (calls.new.items ≡ calls.old.items) × (back ≡ call)) }
{
    let number = calls.len();
    let Some(mut note) = cells.put(number, block, place) else {
        return Err(call);
    };
    calls.push_reserved(call);
    notes.push_reserved(note.again());
    Ok(Receipt::of_note(number, note))
}

/// Ends a call: it enters the history, and the pass has then seen all calls, of which it is the last. The bench stops, and
/// the call comes back, where the next place's cell has a value already.
pub(crate) fn conclude<B: Room>(
    calls: &mut Vec<Call>,
    notes: &mut Vec<PlaceNote>,
    stopped: &mut bool,
    cells: &Cells,
    prepared: Prepared,
) -> Result<(Pass<B>, Receipt<B>), Call>
    requires all { KnowsAll B.names notes.old.items calls.old.items }
    requires cells { cells.now.names ≡ B.names }
    requires within { vec_len calls.old < cells.now.limit }
    requires room { (vec_len calls.old < vec_capacity calls.old) × (vec_len notes.old < vec_capacity notes.old) }
    requires call { prepared.place.value.call ≡ prepared.call }
    requires before { prepared.place.value.before.value.items ≡ calls.old.items }
    requires block { HasBlock cells.now.names (length prepared.place.value.before.value.items) prepared.block }
    requires legal { IsLegal (calls.old.items ++ prepared.call ∷ []) }
    ensures calls { OnOk result (calls.new.items ≡ calls.old.items ++ prepared.call ∷ []) }
    ensures pass { IfOk result (λ r. r.0 ≡ seen_all (calls.old.items ++ prepared.call ∷ [])) }
    ensures receipt { IfOk result (λ r. r.1 ≡ called (length calls.old.items) prepared.call) }
    ensures running { OnOk result (stopped.new ≡ stopped.old) }
    ensures all { KnowsAll B.names notes.new.items calls.new.items }
    ensures refused { IfErr result (λ back. (calls.new.items ≡ calls.old.items) × (stopped.new ≡ true) × (back ≡ prepared.call)) }
{
    let (call, place, block) = prepared.into_parts();
    match enter(calls, notes, cells, call, place, block) {
        Ok(receipt) => {
            let pass = whole(notes, calls);
            Ok((pass, receipt))
        }
        Err(call) => {
            *stopped = true;
            Err(call)
        }
    }
}

/// Ends a call that nobody takes back: where the bench stops it is let go.
pub(crate) fn finish<B: Room>(
    calls: &mut Vec<Call>,
    notes: &mut Vec<PlaceNote>,
    stopped: &mut bool,
    cells: &Cells,
    prepared: Prepared,
) -> Result<(Pass<B>, Receipt<B>), BenchRefusal>
    requires all { KnowsAll B.names notes.old.items calls.old.items }
    requires cells { cells.now.names ≡ B.names }
    requires within { vec_len calls.old < cells.now.limit }
    requires room { (vec_len calls.old < vec_capacity calls.old) × (vec_len notes.old < vec_capacity notes.old) }
    requires call { prepared.place.value.call ≡ prepared.call }
    requires before { prepared.place.value.before.value.items ≡ calls.old.items }
    requires block { HasBlock cells.now.names (length prepared.place.value.before.value.items) prepared.block }
    requires legal { IsLegal (calls.old.items ++ prepared.call ∷ []) }
    ensures calls { OnOk result (calls.new.items ≡ calls.old.items ++ prepared.call ∷ []) }
    ensures pass { IfOk result (λ r. r.0 ≡ seen_all (calls.old.items ++ prepared.call ∷ [])) }
    ensures receipt { IfOk result (λ r. r.1 ≡ called (length calls.old.items) prepared.call) }
    ensures running { OnOk result (stopped.new ≡ stopped.old) }
    ensures all { KnowsAll B.names notes.new.items calls.new.items }
    ensures refused { IfErr result
        (λ why. (calls.new.items ≡ calls.old.items) × (stopped.new ≡ true) × (why ≡ BenchRefusal.HistoryFull)) }
{
    match conclude(calls, notes, stopped, cells, prepared) {
        Ok(made) => Ok(made),
        Err(_) => Err(BenchRefusal::HistoryFull),
    }
}
