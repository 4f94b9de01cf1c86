//! Which places were touched since the last recovery, so that a recovery looks at these alone.
//!
//! A home has a place for each of its blocks, a cache one for each of its frames. Whoever changes what stands in a place touches
//! it, and a recovery goes through the list of the touched ones in place of all. The layer above knows a mark for each place.
//! Nothing here knows what stands in a place, and only `new` takes memory.
#![tactic(auto)]

ghost use Rattle.std.specs.Prelude.{◌≡◌, ◌<◌, ◌≤◌, ℕ, true, false, length, replicate, slice_set, vec_len, IfOk};
ghost use Rattle.std.specs.List.{All};
ghost use Rattle.touched_places.specs.Touched.{IsListOf};

use sn_base::Memory;
use std::alloc::Global;
use std::marker::Model;

/// Which of so many places are touched. Contracts see a mark for each place. The touched ones stand in a list too, which has
/// room for all.
#[derive(Drop)]
pub struct Touched {
    marks: Vec<bool>,
    places: Vec<usize>,
}

impl Model for Touched {
    ghost use Rattle.std.specs.Prelude.{◌≤◌, List, Bool, length, vec_capacity};
    ghost use Rattle.touched_places.specs.Touched.{IsListOf};

    ghost Value = { List Bool };

    ghost view = { λ t. t.marks.items };

    ghost invariant = { λ t. IsListOf t.marks.items t.places.items × (length t.marks.items ≤ vec_capacity t.places) };
}

/// Takes the marks of the listed places away.
fn unmark(marks: &mut Vec<bool>, places: &[usize])
    requires { IsListOf marks.old.items places.now }
    ensures { marks.new.items ≡ replicate (length marks.old.items) false }
{
    'places: for place in places {
        marks[*place] = false;
    }
}

impl Touched {
    /// None of so many places is touched.
    pub fn new(alloc: Global, count: usize) -> Result<Touched, Memory>
        ensures { IfOk result (λ t. t ≡ replicate count false) }
    {
        let marks = vec![in alloc; false; count]?;
        let places = Vec::with_capacity(alloc, count)?;
        Ok(Touched { marks, places })
    }

    /// The place is touched.
    pub fn touch(&mut self, place: usize)
        requires { place < length self.old }
        ensures { self.new ≡ slice_set self.old place true }
    {
        if !self.marks[place] {
            self.marks[place] = true;
            self.places.push(place).unwrap();
        }
    }

    /// The touched places, in the order in which they were first touched.
    pub fn places(&self) -> &[usize]
        ensures { IsListOf self.now result.now }
    {
        self.places.as_slice()
    }

    /// No place is touched any more. It costs what is touched.
    pub fn clear(&mut self)
        ensures { self.new ≡ replicate (length self.old) false }
    {
        unmark(&mut self.marks, self.places.as_slice());
        self.places.clear();
    }
}
