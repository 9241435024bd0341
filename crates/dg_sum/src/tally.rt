//! Counts.
ghost use Rattle.std.specs.Prelude.{◌≡◌, []};
ghost use Rattle.dg_results.specs.Tally.{tally_of};

use dg_results::Tally;

/// No lines.
#[tactic(auto, unfolding(dg_results::specs::Tally::tally_of))]
pub(crate) fn no_lines() -> Tally
    ensures { result ≡ tally_of [] }
{
    Tally {
        passes: 0,
        failures: 0,
        unexpected_successes: 0,
        expected_failures: 0,
        unknown_successes: 0,
        known_failures: 0,
        unresolved: 0,
        untested: 0,
        unsupported: 0,
    }
}
