//! The clauses of `if`.
ghost use Rattle.std.specs.Prelude.{◌≡◌, ◌∷◌, [], ◌<◌, length, nat_eq, codes, IfOk, MatchOption, None, Some};
ghost use Rattle.std.specs.Cmp.Lexicographic.{pointwise};
ghost use Rattle.dg_language.specs.Choosing.{and_clause, clauses_at, last_body, last_words, AtCondition, BehindBody};

use crate::arguments::{only, split};
use crate::switch::is;
use dg_bytes::{Bytes, Seq, TryCopy};
use dg_language::{Clause, Clauses, Queue};
use std::alloc::{AllocError, Global};

/// The condition and the body of the first clause, and the words behind them.
#[tactic(auto, unfolding(dg_language::specs::Choosing::clauses_at))]
fn first_clause(words: &[Bytes]) -> Option<(&Bytes, &Bytes, &[Bytes])>
    ensures fewer { MatchOption result (Unit {0}) (λ c. length c.2.now < length words.now) }
    ensures clause { MatchOption result (clauses_at AtCondition words.now ≡ None)
        (λ c. clauses_at AtCondition words.now ≡ and_clause c.0.now c.1.now (clauses_at BehindBody c.2.now)) }
{
    let (condition, behind) = split(words)?;
    let (first, others) = split(behind)?;
    if is(first, b"then") {
        let (body, others) = split(others)?;
        return Some((condition, body, others));
    }
    Some((condition, first, others))
}

/// A clause of this condition and this body.
fn clause_of(alloc: Global, condition: &Bytes, body: &Bytes) -> Result<Clause, AllocError>
    ensures { IfOk result (λ c. c ≡ record { condition = condition.now; body = body.now }) }
{
    Ok(Clause {
        condition: condition.copy(alloc)?,
        body: body.copy(alloc)?,
    })
}

/// Whether another clause begins.
fn is_elseif(word: &Bytes) -> bool
    ensures { result ≡ pointwise nat_eq word.now (codes "elseif") }
{
    word.as_slice() == b"elseif".as_slice()
}

/// The last body, alone or behind `else`.
fn last_words<'a>(first: &'a Bytes, others: &'a [Bytes]) -> Option<&'a Bytes>
    ensures { MatchOption result (last_words first.now others.now ≡ None)
        (λ body. last_words first.now others.now ≡ last_body (body.now ∷ [])) }
{
    if is(first, b"else") {
        return only(others);
    }
    if others.is_empty() {
        return Some(first);
    }
    None
}

/// The clauses of these words, if they have the form that if(n) asks for.
#[tactic(auto, unfolding(dg_language::specs::Choosing::clauses_at))]
pub fn clauses_of(alloc: Global, words: &[Bytes]) -> Result<Option<Clauses>, AllocError>
    ensures { IfOk result (λ c. c ≡ clauses_at AtCondition words.now) }
{
    let mut tested = Seq::new(alloc);
    let mut left = words;
    'clauses: loop {
        let Some((condition, body, behind)) = first_clause(left) else {
            return Ok(None);
        };
        tested.push(clause_of(alloc, condition, body)?)?;
        let Some((first, others)) = split(behind) else {
            return Ok(Some(Clauses {
                tested: Queue::new(tested.into_vec()),
                otherwise: None,
            }));
        };
        if !is_elseif(first) {
            let Some(body) = last_words(first, others) else {
                return Ok(None);
            };
            return Ok(Some(Clauses {
                tested: Queue::new(tested.into_vec()),
                otherwise: Some(body.copy(alloc)?),
            }));
        }
        left = others;
    }
}
