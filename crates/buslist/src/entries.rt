// The entries of a table, one by one.

ghost use Rattle.std.specs.Prelude.{ℕ, List, ◌≡◌};
ghost use Rattle.std.specs.Iterator.{YieldsFirst, item_count};
ghost use Rattle.buslist.specs.Table.{call_at, operation_at};
ghost use Rattle.buslist.specs.Entries.{entries_left};

use crate::{BusList, CallEntry, OperationEntry};
use std::marker::PhantomData;
use std::ops::Range;

// What a table has under each number.
pub trait Entry: Copy {
    ghost at: { List ℕ → ℕ → Self };

    fn read(list: &BusList<'_>, number: u32) -> Self
        ensures { result ≡ at list.now number };
}

impl Entry for CallEntry {
    ghost at = { call_at };

    fn read(list: &BusList<'_>, number: u32) -> CallEntry {
        list.call_at(number)
    }
}

impl Entry for OperationEntry {
    ghost at = { operation_at };

    fn read(list: &BusList<'_>, number: u32) -> OperationEntry {
        list.operation_at(number)
    }
}

// The entries under the numbers that are left.
#[derive(Drop)]
pub struct Entries<'a, E> {
    pub(crate) list: &'a BusList<'a>,
    pub(crate) left: Range<u32>,
    pub(crate) entry: PhantomData<E>,
}

impl<'a, E: Entry> Iterator for Entries<'a, E> {
    type Item = E;

    ghost next_gives = { YieldsFirst (λ s. entries_left E.at s.list.now s.left) };

    ghost remaining = { item_count (λ s. entries_left E.at s.list.now s.left) };

    #[inline]
    fn next(&mut self) -> Option<E> {
        let number = self.left.next()?;
        Some(E::read(self.list, number))
    }
}
