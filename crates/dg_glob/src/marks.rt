//! A mark for each of many places, in words of 64.
ghost use Rattle.std.specs.Prelude.{◌≡◌, ◌≢◌, ◌<◌, ◌/◌, ℕ, length};
ghost use Rattle.dg_glob.specs.Marks.{marked};

/// Whether a place is marked.
pub(crate) fn is_marked(marks: &[u64], place: usize) -> bool
    requires { place / 64 < length marks.now }
    ensures { result ≡ marked marks.now place }
{
    (marks[place / 64] >> (place % 64)) & 1 == 1
}

/// Marks a place, or takes its mark away.
pub(crate) fn mark(marks: &mut [u64], place: usize, on: bool)
    requires { place / 64 < length marks.old }
    ensures same { marked marks.new place ≡ on }
    ensures others { (i : ℕ) → i ≢ place → marked marks.new i ≡ marked marks.old i }
{
    let word = marks[place / 64];
    let bit = 1u64 << (place % 64);
    marks[place / 64] = if on { word | bit } else { word & !bit };
}
