//! The rounds of a loop over values.
ghost use Rattle.std.specs.Prelude.{◌≡◌, ◌+◌, ◌-◌, ◌*◌, ◌<◌, [], IfOk, Some, None, drop, length, get_or};
ghost use Rattle.dg_language.specs.State.{assigned};
ghost use Rattle.dg_language.specs.Evaluation.{within};
ghost use Rattle.dg_language.specs.Control.{give_each, head_or_empty, behind_first};
ghost use Rattle.dg_machine.specs.declared.frame.Control.{Control};
ghost use Rattle.dg_machine.specs.Meaning.{all_back, weight_of, looping, next_round, round_body, Comes};

use crate::frame::{Frame, Pace, Rounds};
use crate::machine::Machine;
use dg_bytes::{Bytes, Seq, TryCopy};
use dg_language::{Code, Queue};
use dg_scope::LONGEST_VALUE;
use std::alloc::{AllocError, Global};

impl Machine {
    /// The next round of a loop begins, or the loop ends.
    #[tactic(auto, unfolding(crate::specs::Meaning::rest, crate::specs::Meaning::go, crate::specs::Meaning::weight, crate::specs::Meaning::stack_weight))]
    pub(crate) fn next_round(
        &mut self,
        alloc: Global,
        mut rounds: Rounds,
    ) -> Result<Pace, AllocError>
        requires { self.old.control ≡ Control.Go }
        ensures { IfOk result (λ p. Comes (next_round rounds rounds.values self.old.state (all_back self.old.stack))
            self.old.state.known (weight_of self.old + 5) self.new p) }
    {
        if rounds.values.len() == 0 {
            self.end(Code::Done, Bytes::new(alloc));
            return Ok(Pace::Moved);
        }
        if rounds.left == 0 || !self.state.has_step() {
            let closing = self.out_of_steps(alloc)?;
            return Ok(Pace::Over(closing));
        }
        self.state.take_step();
        // The call shows the proof that the length is a `usize`.
        let _count = rounds.names.len();
        rounds.left -= 1;
        rounds.given = Some(0);
        self.give_next(alloc, rounds, 0)
    }

    /// The body of a loop begins.
    #[tactic(auto, unfolding(crate::specs::Meaning::back, crate::specs::Meaning::all_back, crate::specs::Meaning::weight, crate::specs::Meaning::stack_weight))]
    fn begin_body(&mut self, alloc: Global, mut rounds: Rounds) -> Result<Pace, AllocError>
        requires { self.old.control ≡ Control.Go }
        ensures { IfOk result (λ p. Comes (round_body rounds rounds.values self.old.state (all_back self.old.stack))
            self.old.state.known (weight_of self.old + 9) self.new p) }
    {
        rounds.given = None;
        let commands = rounds.body.script(alloc)?;
        let depth = rounds.depth;
        self.stack.push(Frame::Looping { rounds })?;
        self.begin_now(alloc, commands, depth)
    }

    /// A name, whose variable can be used, gets its value.
    #[tactic(auto, unfolding(crate::specs::Meaning::rest, crate::specs::Meaning::go, crate::specs::Meaning::weight, crate::specs::Meaning::stack_weight))]
    fn give_value(
        &mut self,
        alloc: Global,
        mut rounds: Rounds,
        at: usize,
        name: &[u8],
    ) -> Result<Pace, AllocError>
        requires go { self.old.control ≡ Control.Go }
        requires at_name { at < length rounds.names }
        ensures { IfOk result (λ p. Comes (within (length (head_or_empty rounds.values)) self.old.state
            (give_each (drop (at + 1) rounds.names) (behind_first rounds.values)
            (assigned name.now (head_or_empty rounds.values) self.old.state)
            (λ values t. round_body rounds values t (all_back self.old.stack)))) self.old.state.known
            (weight_of self.old + 9 + 4 * (length rounds.names - at)) self.new p) }
    {
        let value = take_first(alloc, &mut rounds.values);
        if value.len() > LONGEST_VALUE {
            let closing = self.cut(alloc, b"value too long")?;
            return Ok(Pace::Over(closing));
        }
        self.state.assign(alloc, name, value)?;
        if at + 1 >= rounds.names.len() {
            return self.begin_body(alloc, rounds);
        }
        rounds.given = Some(at + 1);
        self.stack.push(Frame::Looping { rounds })?;
        Ok(Pace::Moved)
    }

    /// The next name of a round gets its value, or the body begins.
    #[tactic(auto, unfolding(crate::specs::Meaning::rest, crate::specs::Meaning::go))]
    pub(crate) fn give_next(
        &mut self,
        alloc: Global,
        rounds: Rounds,
        at: usize,
    ) -> Result<Pace, AllocError>
        requires go { self.old.control ≡ Control.Go }
        requires given { rounds.given ≡ Some at }
        ensures { IfOk result (λ p. Comes (looping rounds (Some at) self.old.state (all_back self.old.stack))
            self.old.state.known (weight_of self.old + 9 + 4 * (length rounds.names - at)) self.new p) }
    {
        if at >= rounds.names.len() {
            return self.begin_body(alloc, rounds);
        }
        let name = name_at(alloc, &rounds.names, at)?;
        match self.ready(alloc, name.as_slice())? {
            Some(Pace::Stands(ask)) => {
                self.stack.push(Frame::Looping { rounds })?;
                Ok(Pace::Stands(ask))
            }
            Some(Pace::Over(closing)) => Ok(Pace::Over(closing)),
            Some(Pace::Moved) => Ok(Pace::Moved),
            Some(Pace::Lost) => Ok(Pace::Lost),
            None => self.give_value(alloc, rounds, at, name.as_slice()),
        }
    }
}

/// The name at a place.
fn name_at(alloc: Global, names: &Seq<Bytes>, at: usize) -> Result<Bytes, AllocError>
    requires { at < length names.now }
    ensures { IfOk result (λ n. n ≡ get_or names.now at []) }
{
    let names = names.as_slice();
    let name = names[at].copy(alloc)?;
    Ok(name)
}

/// The first value that is left, or nothing where there is none.
pub(crate) fn take_first(alloc: Global, values: &mut Queue<Bytes>) -> Bytes
    ensures first { result ≡ head_or_empty values.old }
    ensures others { values.new ≡ behind_first values.old }
{
    match values.next() {
        Some(value) => value,
        None => Bytes::new(alloc),
    }
}
