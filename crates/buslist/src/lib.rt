// The bus list: its tables, and what it holds (document 01, "Bus list").
#![tactic(auto)]

ghost use Rattle.std.specs.Prelude.{◌≡◌};
ghost use Rattle.buslist.specs.Form.{write_direction, read_direction};
ghost use Rattle.buslist.specs.Meaning.{engine_named, engine_of, address_of};

mod bytes;
mod entries;
mod kind;
mod list;

pub use entries::{Entries, Entry};
pub use kind::{Kind, UnknownKind};
pub use list::BusList;

// An address with its width. A list has 16 bits for either.
#[derive(Clone, Copy)]
pub enum Address {
    Seven(u16),
    Ten(u16),
}

// What does a call.
#[derive(Clone, Copy, PartialEq, Eq)]
pub enum Engine {
    Polling,
    Blocking,
}

// A call as its 8 bytes have it. The kind and the width are the bytes there, which may be none: the form judges them.
#[derive(Clone, Copy)]
pub struct CallEntry {
    pub kind: u8,
    pub width: u8,
    pub address: u16,
    pub first: u16,
    pub count: u16,
}

impl CallEntry {
    // Kinds 0 to 3 are polling.
    #[tactic(auto, using(crate::proofs::Choice::choices), unfolding(crate::specs::Meaning::engine_of))]
    pub fn engine(self) -> Engine
        ensures { engine_named result ≡ engine_of self.kind }
    {
        if self.kind <= 3 {
            Engine::Polling
        } else {
            Engine::Blocking
        }
    }
}

impl From<CallEntry> for Address {
    ghost from_gives = { λ call address. address ≡ address_of call };

    #[tactic(auto, using(crate::proofs::Choice::choices), unfolding(crate::specs::Meaning::address_of))]
    fn from(call: CallEntry) -> Address {
        if call.width == 10 {
            Address::Ten(call.address)
        } else {
            Address::Seven(call.address)
        }
    }
}

// An operation as its 8 bytes have it. The length of operations that are joined may need more than the 16 bits there.
// The direction is the byte there, which may be no direction: the form judges it.
#[derive(Clone, Copy)]
pub struct OperationEntry {
    pub direction: u8,
    pub reserved: u8,
    pub length: u32,
    pub offset: u32,
}

impl OperationEntry {
    pub fn is_write(self) -> bool
        ensures { result ≡ write_direction self }
    {
        self.direction == 0
    }

    pub fn is_read(self) -> bool
        ensures { result ≡ read_direction self }
    {
        self.direction == 1
    }
}

// Operations joined as one, and the number of the operation after them.
#[derive(Clone, Copy)]
pub struct Joined {
    pub operation: OperationEntry,
    pub next: u32,
}
