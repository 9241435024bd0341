//! How the words of a command are made, a step at a time.
ghost use Rattle.std.specs.Prelude.{◌≡◌, ◌+◌, ◌*◌, ◌<◌, ◌∷◌, ◌++◌, [], IfOk, OnOk, length};
ghost use Rattle.dg_language.specs.Evaluation.{if_done, list_in};
ghost use Rattle.dg_language.specs.Variables.{touch};
ghost use Rattle.dg_language.specs.Language.{used, evaluate};
ghost use Rattle.dg_language.specs.Words.{element, with_elements};
ghost use Rattle.dg_compiled.specs.Gathering.{gather};
ghost use Rattle.dg_machine.specs.declared.frame.Control.{Control};
ghost use Rattle.dg_machine.specs.Meaning.{all_back, weight_of, making_with, budget, reading, outside_index, Comes, Goes};
ghost use Rattle.dg_compiled.specs.Making.{making_on};

use crate::frame::{Frame, Pace};
use crate::machine::Machine;
use dg_bytes::{Bytes, Seq, TryCopy};
use dg_compiled::{Making, add_text, has_room, make_texts};
use dg_forms::{cannot_read, elements_in};
use dg_language::Substitution;
use dg_scope::LONGEST_VALUE;
use std::alloc::{AllocError, Global};
use std::mem;

/// The name of an element.
#[tactic(auto, using(std::proofs::Common::append_assoc))]
fn element(alloc: Global, name: &[u8], index: &[u8]) -> Result<Bytes, AllocError>
    ensures { IfOk result (λ b. b ≡ element name.now index.now) }
{
    let mut element = Bytes::from_slice(alloc, name)?;
    element.extend(b"(")?;
    element.extend(index)?;
    element.extend(b")")?;
    Ok(element)
}

/// Copies texts behind others.
pub(crate) fn push_all(
    alloc: Global,
    list: &mut Seq<Bytes>,
    values: &[Bytes],
) -> Result<(), AllocError>
    ensures { OnOk result (list.new ≡ list.old ++ values.now) }
{
    for value in values {
        list.push(value.copy(alloc)?)?;
    }
    Ok(())
}

impl Machine {
    /// A value is added to what is made of a word, and its command's words go on being made.
    #[tactic(auto, unfolding(crate::specs::Meaning::rest, crate::specs::Meaning::go, crate::specs::Meaning::weight, crate::specs::Meaning::stack_weight))]
    pub(crate) fn add_value(
        &mut self,
        alloc: Global,
        mut making: Making,
        value: Bytes,
        depth: u32,
    ) -> Result<Pace, AllocError>
        requires { self.old.control ≡ Control.Go }
        ensures { IfOk result (λ p. Goes (making_with making depth value self.old.state (all_back self.old.stack))
            self.old.state.known (weight_of self.old + budget making.purpose + 5 + 4 * length making.left) self.new p) }
    {
        let length = value.len();
        if length > LONGEST_VALUE || making.text.len() > LONGEST_VALUE - length {
            let closing = self.cut(alloc, b"value too long")?;
            return Ok(Pace::Over(closing));
        }
        add_text(&mut making.text, value)?;
        self.stack.push(Frame::Gathering { making, depth })?;
        Ok(Pace::Moved)
    }

    /// The value of a variable, which can be used, is added.
    fn add_variable(
        &mut self,
        alloc: Global,
        making: Making,
        name: &[u8],
        depth: u32,
    ) -> Result<Pace, AllocError>
        requires { self.old.control ≡ Control.Go }
        ensures { IfOk result (λ p. Goes (reading making depth name.now self.old.state (all_back self.old.stack))
            self.old.state.known (weight_of self.old + budget making.purpose + 8 + 4 * length making.left) self.new p) }
    {
        let Some(value) = self.state.value_of(name) else {
            let message = cannot_read(alloc, name)?;
            return self.fail(alloc, message);
        };
        let value = value.copy(alloc)?;
        self.add_value(alloc, making, value, depth)
    }

    /// The value of a variable is added.
    fn gather_variable(
        &mut self,
        alloc: Global,
        mut making: Making,
        name: Bytes,
        depth: u32,
    ) -> Result<Pace, AllocError>
        requires { self.old.control ≡ Control.Go }
        ensures { IfOk result (λ p. Comes
            (touch name self.old.state (λ s. reading making depth name s (all_back self.old.stack)))
            self.old.state.known (weight_of self.old + budget making.purpose + 8 + 4 * length making.left) self.new p) }
    {
        match self.ready(alloc, name.as_slice())? {
            Some(Pace::Stands(ask)) => {
                making.left.push_front(Substitution::Variable(name))?;
                self.stack.push(Frame::Gathering { making, depth })?;
                Ok(Pace::Stands(ask))
            }
            Some(pace) => Ok(pace),
            None => self.add_variable(alloc, making, name.as_slice(), depth),
        }
    }

    /// The value of an element whose index is made is added to what stood before it.
    fn gather_element(
        &mut self,
        alloc: Global,
        mut making: Making,
        name: Bytes,
        before: Bytes,
        depth: u32,
    ) -> Result<Pace, AllocError>
        requires { self.old.control ≡ Control.Go }
        ensures { IfOk result (λ p. Comes (touch (element name making.text) self.old.state (λ s. reading
            (outside_index making before) depth (element name making.text) s (all_back self.old.stack)))
            self.old.state.known (weight_of self.old + budget making.purpose + 8 + 4 * length making.left) self.new p) }
    {
        let whole = element(alloc, name.as_slice(), making.text.as_slice())?;
        match self.ready(alloc, whole.as_slice())? {
            Some(Pace::Stands(ask)) => {
                making.outer.push((name, before))?;
                making.left.push_front(Substitution::IndexEnds)?;
                self.stack.push(Frame::Gathering { making, depth })?;
                Ok(Pace::Stands(ask))
            }
            Some(pace) => Ok(pace),
            None => {
                making.text = before;
                self.add_variable(alloc, making, whole.as_slice(), depth)
            }
        }
    }

    /// An index begins.
    #[tactic(auto, unfolding(crate::specs::Meaning::rest, crate::specs::Meaning::go, crate::specs::Meaning::weight, crate::specs::Meaning::stack_weight))]
    fn begin_index(
        &mut self,
        alloc: Global,
        mut making: Making,
        name: Bytes,
        depth: u32,
    ) -> Result<Pace, AllocError>
        requires { self.old.control ≡ Control.Go }
        ensures { IfOk result (λ p. Goes (gather (evaluate depth) (used (evaluate depth) making.purpose) making.made
            ((name, making.text) ∷ making.outer) [] making.left self.old.state (all_back self.old.stack))
            self.old.state.known (weight_of self.old + budget making.purpose + 8 + 4 * length making.left) self.new p) }
    {
        let before = mem::replace(&mut making.text, Bytes::new(alloc));
        making.outer.push((name, before))?;
        self.stack.push(Frame::Gathering { making, depth })?;
        Ok(Pace::Moved)
    }

    /// An index ends.
    #[tactic(auto, unfolding(crate::specs::Meaning::rest, crate::specs::Meaning::go, crate::specs::Meaning::weight, crate::specs::Meaning::stack_weight))]
    fn end_index(
        &mut self,
        alloc: Global,
        mut making: Making,
        depth: u32,
    ) -> Result<Pace, AllocError>
        requires { self.old.control ≡ Control.Go }
        ensures { IfOk result (λ p. Comes (gather (evaluate depth) (used (evaluate depth) making.purpose) making.made
            making.outer making.text (Substitution.IndexEnds ∷ making.left) self.old.state (all_back self.old.stack))
            self.old.state.known (weight_of self.old + budget making.purpose + 8 + 4 * length making.left) self.new p) }
    {
        let Some((name, before)) = making.outer.pop() else {
            self.stack.push(Frame::Gathering { making, depth })?;
            return Ok(Pace::Moved);
        };
        self.gather_element(alloc, making, name, before, depth)
    }

    /// A word ends.
    #[tactic(auto, unfolding(crate::specs::Meaning::rest, crate::specs::Meaning::go, crate::specs::Meaning::weight, crate::specs::Meaning::stack_weight))]
    fn end_word(
        &mut self,
        alloc: Global,
        mut making: Making,
        depth: u32,
    ) -> Result<Pace, AllocError>
        requires { self.old.control ≡ Control.Go }
        ensures { IfOk result (λ p. Goes (gather (evaluate depth) (used (evaluate depth) making.purpose)
            (making.made ++ making.text ∷ []) making.outer [] making.left self.old.state (all_back self.old.stack))
            self.old.state.known (weight_of self.old + budget making.purpose + 8 + 4 * length making.left) self.new p) }
    {
        let word = mem::replace(&mut making.text, Bytes::new(alloc));
        making.made.push(word)?;
        self.stack.push(Frame::Gathering { making, depth })?;
        Ok(Pace::Moved)
    }

    /// A word ends whose elements become words.
    #[tactic(auto, unfolding(crate::specs::Meaning::rest, crate::specs::Meaning::go, crate::specs::Meaning::weight, crate::specs::Meaning::stack_weight))]
    fn end_list(
        &mut self,
        alloc: Global,
        mut making: Making,
        depth: u32,
    ) -> Result<Pace, AllocError>
        requires { self.old.control ≡ Control.Go }
        ensures { IfOk result (λ p. Goes (with_elements (list_in making.text) self.old.state (all_back self.old.stack)
            (λ es. gather (evaluate depth) (used (evaluate depth) making.purpose) (making.made ++ es) making.outer
            [] making.left self.old.state (all_back self.old.stack))) self.old.state.known
            (weight_of self.old + budget making.purpose + 8 + 4 * length making.left) self.new p) }
    {
        let elements = match elements_in(alloc, making.text.as_slice())? {
            Ok(elements) => elements,
            Err(message) => return self.fail(alloc, message),
        };
        push_all(alloc, &mut making.made, elements.as_slice())?;
        making.text = Bytes::new(alloc);
        self.stack.push(Frame::Gathering { making, depth })?;
        Ok(Pace::Moved)
    }

    /// A value is added to what is made of a word, and the words are used if all are made then by themselves.
    #[tactic(auto, unfolding(crate::specs::Meaning::rest, crate::specs::Meaning::go, crate::specs::Meaning::weight, crate::specs::Meaning::stack_weight))]
    fn add_and_use(
        &mut self,
        alloc: Global,
        mut making: Making,
        value: Bytes,
        depth: u32,
    ) -> Result<Pace, AllocError>
        requires { self.old.control ≡ Control.Go }
        ensures { IfOk result (λ p. Comes (making_with making depth value self.old.state (all_back self.old.stack))
            self.old.state.known (weight_of self.old + budget making.purpose + 5 + 4 * length making.left) self.new p) }
    {
        if !has_room(&making.text, &value) {
            return self.add_value(alloc, making, value, depth);
        }
        add_text(&mut making.text, value)?;
        make_texts(alloc, &self.state, &mut making)?;
        if making.left.len() == 0 {
            return self.use_words(alloc, making, depth);
        }
        self.stack.push(Frame::Gathering { making, depth })?;
        Ok(Pace::Moved)
    }

    /// The value of a script is made, to be added.
    #[tactic(auto, unfolding(crate::specs::Meaning::back, crate::specs::Meaning::all_back, crate::specs::Meaning::weight, crate::specs::Meaning::stack_weight))]
    fn run_script(
        &mut self,
        alloc: Global,
        making: Making,
        script: Bytes,
        depth: u32,
    ) -> Result<Pace, AllocError>
        requires { self.old.control ≡ Control.Go }
        ensures { IfOk result (λ p. Comes (evaluate depth script self.old.state
            (if_done (λ v s. making_with making depth v s (all_back self.old.stack)) (all_back self.old.stack)))
            self.old.state.known (weight_of self.old + budget making.purpose + 8 + 4 * length making.left) self.new p) }
    {
        if let Some(value) = self.value_of_script(alloc, &script, depth)? {
            return self.add_and_use(alloc, making, value, depth);
        }
        self.stack.push(Frame::Gathering { making, depth })?;
        self.enter(alloc, script, depth)
    }

    /// The words go on being made, by this step.
    fn gather_step(
        &mut self,
        alloc: Global,
        making: Making,
        step: Substitution,
        depth: u32,
    ) -> Result<Pace, AllocError>
        requires { self.old.control ≡ Control.Go }
        ensures { IfOk result (λ p. Comes (gather (evaluate depth) (used (evaluate depth) making.purpose) making.made
            making.outer making.text (step ∷ making.left) self.old.state (all_back self.old.stack))
            self.old.state.known (weight_of self.old + budget making.purpose + 8 + 4 * length making.left) self.new p) }
    {
        match step {
            Substitution::Literal(text) => self.add_value(alloc, making, text, depth),
            Substitution::Variable(name) => self.gather_variable(alloc, making, name, depth),
            Substitution::IndexBegins(name) => self.begin_index(alloc, making, name, depth),
            Substitution::IndexEnds => self.end_index(alloc, making, depth),
            Substitution::Script(script) => self.run_script(alloc, making, script, depth),
            Substitution::WordEnds => self.end_word(alloc, making, depth),
            Substitution::ListEnds => self.end_list(alloc, making, depth),
        }
    }

    /// The words go on being made, as far as nothing is asked or evaluated and by one step more, or are used.
    pub(crate) fn gather(
        &mut self,
        alloc: Global,
        mut making: Making,
        depth: u32,
    ) -> Result<Pace, AllocError>
        requires { self.old.control ≡ Control.Go }
        ensures { IfOk result (λ p. Comes (making_on making depth self.old.state (all_back self.old.stack))
            self.old.state.known (weight_of self.old + budget making.purpose + 4 + 4 * length making.left) self.new p) }
    {
        make_texts(alloc, &self.state, &mut making)?;
        match making.left.next() {
            None => self.use_words(alloc, making, depth),
            Some(Substitution::Variable(name)) => {
                self.gather_variable(alloc, making, name, depth)
            }
            Some(step) => self.gather_step(alloc, making, step, depth),
        }
    }

    /// The words are used if all are made, or else go on being made.
    pub(crate) fn go_on(
        &mut self,
        alloc: Global,
        making: Making,
        depth: u32,
    ) -> Result<Pace, AllocError>
        requires { self.old.control ≡ Control.Go }
        ensures { IfOk result (λ p. Comes (making_on making depth self.old.state (all_back self.old.stack))
            self.old.state.known (weight_of self.old + budget making.purpose + 4 + 4 * length making.left) self.new p) }
    {
        if making.left.len() == 0 {
            return self.use_words(alloc, making, depth);
        }
        self.gather(alloc, making, depth)
    }

    /// A value is added to what is made of a word, and the words go on being made at once.
    pub(crate) fn add_and_gather(
        &mut self,
        alloc: Global,
        mut making: Making,
        value: Bytes,
        depth: u32,
    ) -> Result<Pace, AllocError>
        requires { self.old.control ≡ Control.Go }
        ensures { IfOk result (λ p. Comes (making_with making depth value self.old.state (all_back self.old.stack))
            self.old.state.known (weight_of self.old + budget making.purpose + 5 + 4 * length making.left) self.new p) }
    {
        if !has_room(&making.text, &value) {
            return self.add_value(alloc, making, value, depth);
        }
        add_text(&mut making.text, value)?;
        self.gather(alloc, making, depth)
    }
}
