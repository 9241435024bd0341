//! The places that are named for a topic.
ghost use Rattle.std.specs.Prelude.{◌≡◌, ◌∷◌, [], IfOk, OnErr, OnOk, nat_eq};
ghost use Rattle.std.specs.List.{IsDistinct};
ghost use Rattle.indexmap.specs.IndexSet.{insert_key};

use indexmap::IndexSet;
use std::alloc::{AllocError, Global};
use std::marker::Model;
use std::slice;

/// What is kept of places.
#[derive(Drop)]
enum Form {
    /// A single one, as most topics have it: it takes no block.
    One(usize),
    /// Several.
    Several(IndexSet<usize>),
}

/// Places of records, each once. A contract sees the list of them.
pub struct Places {
    form: Form,
}

/// Written by hand, and so one call for whoever lets places go.
impl Drop for Places {
    fn drop(self) {
        let Places { form: _ } = self;
    }
}

impl Model for Places {
    ghost use Rattle.std.specs.Prelude.{ℕ, List};
    ghost use Rattle.dg_index.specs.Places.{places_in};

    ghost Value = { List ℕ };

    ghost view = { λ p. places_in p.form };
}

impl Places {
    /// One place.
    pub fn one(place: usize) -> Places
        ensures { result ≡ place ∷ [] }
    {
        Places {
            form: Form::One(place),
        }
    }

    /// Adds a place behind the others, unless it is one of them. Where memory is refused all stays.
    pub fn insert(&mut self, alloc: Global, place: usize) -> Result<(), AllocError>
        ensures places { OnOk result (self.new ≡ insert_key nat_eq self.old place) }
        ensures same { OnErr result (self.new ≡ self.old) }
    {
        match &mut self.form {
            Form::One(first) if *first == place => Ok(()),
            Form::One(first) => {
                let both = pair(alloc, *first, place)?;
                self.form = Form::Several(both);
                Ok(())
            }
            Form::Several(places) => {
                places.insert(place)?;
                Ok(())
            }
        }
    }

    /// The places.
    pub fn as_slice(&self) -> &[usize]
        ensures places { result.now ≡ self.now }
        ensures distinct { IsDistinct nat_eq result.now }
    {
        match &self.form {
            Form::One(place) => slice::from_ref(place),
            Form::Several(places) => places.as_slice(),
        }
    }
}

/// The set of two places, or of one.
fn pair(alloc: Global, first: usize, second: usize) -> Result<IndexSet<usize>, AllocError>
    ensures { IfOk result (λ s. s.keys ≡ insert_key nat_eq (first ∷ []) second) }
{
    let mut places = IndexSet::with_capacity(alloc, 2)?;
    places.insert(first)?;
    places.insert(second)?;
    Ok(places)
}
