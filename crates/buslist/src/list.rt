// A bus list as its bytes mean it: the header's words, the entries of both tables, and the data.

ghost use Rattle.std.specs.Prelude.{◌≡◌, ◌<◌, ◌^◌, length};
ghost use Rattle.buslist.specs.Bytes.{word};
ghost use Rattle.buslist.specs.Table.{call_count, call_offset, operation_count, operation_offset, data_bytes, data_offset, settings_of, call_at, operation_at, calls, operations, operations_of};
ghost use Rattle.buslist.specs.Entries.{entries_left};
ghost use Rattle.buslist.specs.Meaning.{empty, bytes_of, operation_of};
ghost use Rattle.buslist.specs.Next.{OfAccepted, joins, JoinsAt};

use crate::bytes::{word_at, words_at};
use crate::{CallEntry, Entries, Joined, OperationEntry};
use std::marker::{Model, PhantomData};
use units::{Hertz, Micros, Settings};

// A list's bytes, and how long its tables are and where its parts begin, which is read once. A clause sees the bytes.
#[derive(Drop)]
pub struct BusList<'a> {
    bytes: &'a [u8],
    call_count: u32,
    call_start: u32,
    operation_count: u32,
    operation_start: u32,
    data_start: u32,
}

impl<'a> Model for BusList<'a> {
    ghost use Rattle.std.specs.Prelude.{ℕ, List};

    ghost Value = { List ℕ };

    ghost use Rattle.buslist.specs.Starts.{bytes_in, StartsRight};

    ghost view = { bytes_in };

    ghost invariant = { StartsRight };
}

impl<'a> BusList<'a> {
    pub fn new(bytes: &'a [u8]) -> BusList<'a>
        ensures { result ≡ bytes.now }
    {
        BusList {
            bytes,
            call_count: word_at(bytes, 0),
            call_start: word_at(bytes, 4),
            operation_count: word_at(bytes, 8),
            operation_start: word_at(bytes, 12),
            data_start: word_at(bytes, 20),
        }
    }

    // How many bytes the list has.
    pub fn len(&self) -> usize
        ensures { result ≡ length self.now }
    {
        self.bytes.len()
    }

    pub fn word_at(&self, i: usize) -> u32
        ensures { result ≡ word self.now i }
    {
        word_at(self.bytes, i)
    }

    pub fn call_count(&self) -> u32
        ensures { result ≡ call_count self.now }
    {
        self.call_count
    }

    pub fn operation_count(&self) -> u32
        ensures { result ≡ operation_count self.now }
    {
        self.operation_count
    }

    pub fn call_offset(&self) -> u32
        ensures { result ≡ call_offset self.now }
    {
        self.call_start
    }

    pub fn operation_offset(&self) -> u32
        ensures { result ≡ operation_offset self.now }
    {
        self.operation_start
    }

    pub fn data_offset(&self) -> u32
        ensures { result ≡ data_offset self.now }
    {
        self.data_start
    }

    pub fn data_bytes(&self) -> u32
        ensures { result ≡ data_bytes self.now }
    {
        self.word_at(16)
    }

    // A run asks twice, for the causes and for its setup. Inlined, neither is a call; the causes read what they use.
    #[inline(always)]
    pub fn settings(&self) -> Settings
        ensures { result ≡ settings_of self.now }
    {
        let clocks = words_at(self.bytes, 24);
        let speed = words_at(self.bytes, 32);
        let start = words_at(self.bytes, 40);
        let timeouts = words_at(self.bytes, 48);
        Settings {
            pclk1: Hertz(clocks.0),
            sysclk: Hertz(clocks.1),
            mode: units::mode_of(speed.0),
            frequency: Hertz(speed.1),
            start_timeout: Micros(start.0),
            start_retries: start.1,
            addr_timeout: Micros(timeouts.0),
            data_timeout: Micros(timeouts.1),
        }
    }

    // Both words are read with one test, and taken apart after it.
    pub fn call_at(&self, k: u32) -> CallEntry
        ensures { result ≡ call_at self.now k }
    {
        let w = words_at(self.bytes, self.call_start as usize + 8 * (k as usize));
        CallEntry {
            kind: (w.0 % 256) as u8,
            width: (w.0 / 256 % 256) as u8,
            address: (w.0 / 65536) as u16,
            first: (w.1 % 65536) as u16,
            count: (w.1 / 65536) as u16,
        }
    }

    // Both words are read with one test, and taken apart after it.
    pub fn operation_at(&self, j: u32) -> OperationEntry
        ensures { result ≡ operation_at self.now j }
    {
        let w = words_at(self.bytes, self.operation_start as usize + 8 * (j as usize));
        OperationEntry {
            direction: (w.0 % 256) as u8,
            reserved: (w.0 / 256 % 256) as u8,
            length: w.0 / 65536,
            offset: w.1,
        }
    }

    // The calls in order.
    pub fn calls(&self) -> Entries<'_, CallEntry>
        ensures items { entries_left call_at result.list.now result.left ≡ calls self.now }
        ensures few { call_count self.now < 2 ^ 32 }
    {
        Entries {
            list: self,
            left: 0..self.call_count(),
            entry: PhantomData,
        }
    }

    // The operations of all calls in order.
    pub fn operations(&self) -> Entries<'_, OperationEntry>
        ensures items { entries_left operation_at result.list.now result.left ≡ operations self.now }
        ensures few { operation_count self.now < 2 ^ 32 }
    {
        Entries {
            list: self,
            left: 0..self.operation_count(),
            entry: PhantomData,
        }
    }

    // The operations of a call in order.
    pub fn operations_of(&self, call: CallEntry) -> Entries<'_, OperationEntry>
        ensures { entries_left operation_at result.list.now result.left ≡ operations_of self.now call }
    {
        let first = call.first as u32;
        Entries {
            list: self,
            left: first..first + call.count as u32,
            entry: PhantomData,
        }
    }

    // The bytes of a write; those past the list's end are not there.
    pub fn bytes_of(&self, o: OperationEntry) -> &'a [u8]
        ensures { result.now ≡ bytes_of self.now o }
    {
        let at = self.data_start as usize + o.offset as usize;
        let start = at.min(self.bytes.len());
        let end = (at + o.length as usize).min(self.bytes.len());
        &self.bytes[start..end]
    }

    // Whether an operation has no bytes.
    pub fn is_empty(&self, o: OperationEntry) -> bool
        ensures { result ≡ empty (operation_of self.now o) }
    {
        if o.is_write() {
            self.bytes_of(o).is_empty()
        } else {
            o.length == 0
        }
    }

    // Whether o is joined with operations of the first one's direction: it has that direction, or no bytes.
    fn joins(&self, first: OperationEntry, o: OperationEntry) -> bool
        ensures { result ≡ joins self.now first o }
    {
        (o.direction == first.direction) | self.is_empty(o)
    }

    // The operations from j on, joined up to the first that does not join, or to the end. The bytes of joined writes
    // follow each other in the list, so nothing is copied.
    pub fn joined_at(&self, j: u32, end: u32) -> Joined
        requires { OfAccepted self.now j end }
        ensures { JoinsAt self.now j end result }
    {
        let first = self.operation_at(j);
        let mut operation = first;
        for next in j + 1..end {
            let o = self.operation_at(next);
            if !self.joins(first, o) {
                return Joined { operation, next };
            }
            operation.length += o.length;
        }
        Joined {
            operation,
            next: end,
        }
    }
}
