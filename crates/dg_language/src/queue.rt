//! Values that are taken from the front.
ghost use Rattle.std.specs.Prelude.{◌≡◌, ◌∷◌, [], length, MatchOption, OnOk};

use std::alloc::AllocError;
use std::collections::VecDeque;
use std::marker::Model;

/// Values in order, of which the first is taken. A contract sees those that are left.
pub struct Queue<T> {
    items: VecDeque<T>,
}

impl<T: Drop> Drop for Queue<T> {
    fn drop(self) {
        let Queue { items: _ } = self;
    }
}

impl<T> Model for Queue<T> {
    ghost use Rattle.std.specs.Prelude.{List};

    ghost Value = { List T };

    ghost view = { λ q. q.items.items };
}

impl<T: Drop> Queue<T> {
    /// These values.
    pub fn new(items: Vec<T>) -> Queue<T>
        ensures { result ≡ items.items }
    {
        Queue {
            items: VecDeque::from_vec(items),
        }
    }

    /// Takes the first value.
    pub fn next(&mut self) -> Option<T>
        ensures { MatchOption result ((self.old ≡ []) × (self.new ≡ [])) (λ x. self.old ≡ x ∷ self.new) }
    {
        self.items.pop_front()
    }

    /// Puts a value before the others.
    pub fn push_front(&mut self, item: T) -> Result<(), AllocError>
        ensures { OnOk result (self.new ≡ item ∷ self.old) }
    {
        self.items.push_front(item)?;
        Ok(())
    }

    /// How many values are left.
    pub fn len(&self) -> usize
        ensures { result ≡ length self.now }
    {
        self.items.len()
    }
}
