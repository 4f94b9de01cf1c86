//! A table whose places all hold one usual value at the start, and which is written only where it is used.
//!
//! A home has an entry for each of thousands of blocks, and a log two places, while a run looks at few of them. So the values
//! stand in pages, and a page is written when one of its places is first lent for writing. Until then all its places read the
//! one page that has the usual values. The layer above knows the list of all values. Only `new` takes memory: it reserves what
//! all pages need, and a page that was never written costs nothing.
#![tactic(auto)]

ghost use Rattle.std.specs.Prelude.{◌≡◌, ℕ, ◌+◌, ◌*◌, ◌/◌, ◌<◌, ◌≤◌, ◌^◌, ◌++◌, length, replicate, slice_index_or, None, vec_capacity, IfOk};
ghost use Rattle.std.specs.Borrow.{sem};
ghost use Rattle.sparse_table.specs.Pages.{page_size, page_at, value_at, IsTable};

#[cfg(test)]
mod tests;

use sn_base::Memory;
use std::alloc::Global;
use std::marker::Model;

/// How many places have their values in one page.
const PAGE_SIZE: usize = 64;

/// A type that has a usual value.
pub trait Usual {
    ghost usual: { Self };

    fn usual() -> Self
        ensures { result ≡ usual };
}

impl<T> Usual for Option<T> {
    ghost usual = { None };

    fn usual() -> Option<T> {
        None
    }
}

/// A table of so many places. Contracts see the list of all values.
#[derive(Drop)]
pub struct SparseTable<T: Usual> {
    len: usize,
    pages: Vec<usize>,
    values: Vec<T>,
}

impl<T: Usual> Model for SparseTable<T> {
    ghost use Rattle.std.specs.Prelude.{◌+◌, ◌*◌, ◌<◌, ◌≤◌, List, length, vec_capacity};
    ghost use Rattle.std.specs.Coded.{coded_list};
    ghost use Rattle.sparse_table.specs.Pages.{page_size, values_below, IsTable};

    ghost Value = { List T };

    ghost coded = { coded_list T.code };

    ghost view = { λ t. values_below T.usual t.pages.items t.values.items t.len };

    ghost invariant = { λ t. IsTable T.usual t.pages.items t.values.items × (t.len ≤ page_size * length t.pages.items)
        × (page_size * (length t.pages.items + 1) ≤ vec_capacity t.values) };
}

/// Adds a page of usual values.
fn add_page<T: Usual>(values: &mut Vec<T>)
    requires { length values.old.items + page_size ≤ vec_capacity values.old }
    ensures items { values.new.items ≡ values.old.items ++ replicate page_size T.usual }
    ensures room { vec_capacity values.old ≤ vec_capacity values.new }
{
    'each: for _ in 0..PAGE_SIZE {
        values.push(T::usual()).unwrap();
    }
}

/// Gives these places a page of their own, if they have none yet. The answer is where its values begin.
fn own<T: Usual>(pages: &mut Vec<usize>, values: &mut Vec<T>, places: usize) -> usize
    requires table { IsTable T.usual pages.old.items values.old.items }
    requires inside { places < length pages.old.items }
    requires room { page_size * (length pages.old.items + 1) ≤ vec_capacity values.old }
    ensures table { IsTable T.usual pages.new.items values.new.items }
    ensures own { 0 < page_at pages.new.items places }
    ensures first { result ≡ page_size * page_at pages.new.items places }
    ensures same { (place : ℕ) → value_at T.usual pages.new.items values.new.items place ≡ value_at T.usual pages.old.items values.old.items place }
    ensures count { length pages.new.items ≡ length pages.old.items }
    ensures room { vec_capacity values.old ≤ vec_capacity values.new }
{
    let page = pages[places];
    if page > 0 {
        return PAGE_SIZE * page;
    }
    let first = values.len();
    pages[places] = first / PAGE_SIZE;
    add_page(values);
    first
}

impl<T: Usual> SparseTable<T> {
    ghost use Rattle.sparse_table.specs.Lent.{LendsValue};

    /// A table of so many places, which all hold the usual value.
    pub fn new(alloc: Global, len: usize) -> Result<SparseTable<T>, Memory>
        requires { len < 2 ^ 32 }
        ensures { IfOk result (λ t. t ≡ replicate len T.usual) }
    {
        let count = len / PAGE_SIZE + 1;
        let pages = vec![in alloc; 0; count]?;
        let mut values = Vec::with_capacity(alloc, PAGE_SIZE * (count + 1))?;
        add_page(&mut values);
        Ok(SparseTable { len, pages, values })
    }

    /// How many places there are.
    pub fn len(&self) -> usize
        ensures { result ≡ length self.now }
    {
        self.len
    }

    /// The value of a place.
    pub fn at(&self, place: usize) -> &T
        requires { place < length self.now }
        ensures { result.now ≡ slice_index_or self.now place result.now }
    {
        &self.values[PAGE_SIZE * self.pages[place / PAGE_SIZE] + place % PAGE_SIZE]
    }

    /// The value of a place, to be changed.
    pub fn at_mut(&mut self, place: usize) -> &mut T
        requires { place < length self.old }
        ensures* lent { sem 𝓛 (LendsValue T.row T.Usual self.entry place result) }
        ensures value { result.now ≡ slice_index_or self.old place result.now }
    {
        let first = own(&mut self.pages, &mut self.values, place / PAGE_SIZE);
        &mut self.values[first + place % PAGE_SIZE]
    }
}
