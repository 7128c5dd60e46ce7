// Registers: the words and bits of RM0008, how a call can end, and one access at a time.
#![tactic(auto)]

ghost use Rattle.std.specs.Prelude.{◌≡◌, ◌+◌, ◌<◌, ◌≤◌, ◌^◌};
ghost use Rattle.registers.specs.Word.{has, with_bit, without_bit, with_bits, without_bits};
ghost use Rattle.registers.specs.Access.{cut_number};
ghost use Rattle.registers.specs.Contract.{read_code, write_code, DecodesRead, DecodesWrite, error_number, stop_number};

pub use access::Bus;

mod access;

// The registers that are read, by their codes in the record.
#[derive(Clone, Copy)]
pub enum ReadCode {
    Sr1 = 1,
    Sr2 = 2,
    Cr1 = 3,
    Dr = 4,
    Cyc = 5,
}

// The registers that are written, by their codes in the record.
#[derive(Clone, Copy)]
pub enum WriteCode {
    Cr1 = 11,
    Cr2 = 12,
    Ccr = 13,
    Trise = 14,
    Sr1 = 15,
    Dr = 16,
}

impl From<ReadCode> for u32 {
    ghost from_gives = { λ code number. number ≡ read_code code };

    fn from(code: ReadCode) -> u32 {
        code as u32
    }
}

impl From<WriteCode> for u32 {
    ghost from_gives = { λ code number. number ≡ write_code code };

    fn from(code: WriteCode) -> u32 {
        code as u32
    }
}

// A code that no such access has.
#[derive(Clone, Copy)]
pub struct UnknownCode(pub u32);

impl TryFrom<u32> for ReadCode {
    type Error = UnknownCode;

    ghost try_from_gives = { DecodesRead };

    fn try_from(code: u32) -> Result<Self, UnknownCode> {
        match code {
            1 => Ok(ReadCode::Sr1),
            2 => Ok(ReadCode::Sr2),
            3 => Ok(ReadCode::Cr1),
            4 => Ok(ReadCode::Dr),
            5 => Ok(ReadCode::Cyc),
            _ => Err(UnknownCode(code)),
        }
    }
}

impl TryFrom<u32> for WriteCode {
    type Error = UnknownCode;

    ghost try_from_gives = { DecodesWrite };

    fn try_from(code: u32) -> Result<Self, UnknownCode> {
        match code {
            11 => Ok(WriteCode::Cr1),
            12 => Ok(WriteCode::Cr2),
            13 => Ok(WriteCode::Ccr),
            14 => Ok(WriteCode::Trise),
            15 => Ok(WriteCode::Sr1),
            16 => Ok(WriteCode::Dr),
            _ => Err(UnknownCode(code)),
        }
    }
}

// Bits of SR1, by weight.
pub const SB: u32 = 0x0001;

pub const ADDR: u32 = 0x0002;

pub const BTF: u32 = 0x0004;

pub const ADD10: u32 = 0x0008;

pub const RXNE: u32 = 0x0040;

pub const TXE: u32 = 0x0080;

pub const BERR: u32 = 0x0100;

pub const ARLO: u32 = 0x0200;

pub const AF: u32 = 0x0400;

pub const OVR: u32 = 0x0800;

pub const PECERR: u32 = 0x1000;

pub const TIMEOUT: u32 = 0x4000;

const SMBALERT: u32 = 0x8000;

// The write-zero-to-clear bits of SR1: a 0 written clears the bit, a 1 leaves it.
const WRITE_ZERO_TO_CLEAR: u32 = BERR + ARLO + AF + OVR + PECERR + TIMEOUT + SMBALERT;

// Bits of SR2.
pub const MSL: u32 = 0x0001;

pub const BUSY: u32 = 0x0002;

// Bits of CR1.
pub const PE: u32 = 0x0001;

pub const START: u32 = 0x0100;

pub const STOP: u32 = 0x0200;

pub const ACK: u32 = 0x0400;

pub const POS: u32 = 0x0800;

// Where an acknowledge was missing.
#[derive(Clone, Copy)]
pub enum Source {
    Address,
    Data,
    Unknown,
}

#[derive(Clone, Copy)]
pub enum BusError {
    Overrun,
    NoAcknowledge(Source),
    Timeout,
    Bus,
    Crc,
    ArbitrationLoss,
}

// Why a run was cut short: every reading is used, or too few record words remain for an access with this code.
#[derive(Clone, Copy)]
pub enum Cut {
    NoReadings,
    NoRecord(u32),
}

// How a call ends that does not end well.
#[derive(Clone, Copy)]
pub enum Stop {
    Failed(BusError),
    CutShort(Cut),
}

// The numbers that document 01 gives the endings.
impl From<BusError> for u32 {
    ghost from_gives = { λ error number. number ≡ error_number error };

    #[tactic(auto, unfolding(crate::specs::Access::number))]
    fn from(error: BusError) -> u32 {
        match error {
            BusError::Overrun => 1,
            BusError::NoAcknowledge(Source::Address) => 2,
            BusError::NoAcknowledge(Source::Data) => 3,
            BusError::NoAcknowledge(Source::Unknown) => 4,
            BusError::Timeout => 5,
            BusError::Bus => 6,
            BusError::Crc => 7,
            BusError::ArbitrationLoss => 8,
        }
    }
}

impl From<Cut> for u32 {
    ghost from_gives = { λ cut number. number ≡ cut_number cut };

    fn from(cut: Cut) -> u32 {
        match cut {
            Cut::NoReadings => 9,
            Cut::NoRecord(_) => 10,
        }
    }
}

impl From<Stop> for u32 {
    ghost from_gives = { λ stop number. number ≡ stop_number stop };

    #[tactic(auto, unfolding(crate::specs::Access::number))]
    fn from(stop: Stop) -> u32 {
        match stop {
            Stop::Failed(error) => error.into(),
            Stop::CutShort(cut) => cut.into(),
        }
    }
}

// How far a run has come: readings used, accesses made, bytes received.
#[derive(Clone, Copy)]
pub struct Progress {
    pub used: usize,
    pub made: usize,
    pub got: usize,
}

// What a timed wait waits for: an SR1 flag, where a missing acknowledge has this source; or STOP clear in CR1. Which
// flags are waited for stands in the contracts: here it would be asked of every flag.
#[derive(Clone, Copy)]
pub enum Awaited {
    Flag(u32, Source),
    Stop,
}

// Up to two bits of a word, by weight; 0 is no bit. That a bit is below 65536 stands in the contracts: here it would be
// asked of the bits to clear too.
#[derive(Clone, Copy)]
pub struct Bits(pub u32, pub u32);

// How many words a record entry has.
pub const ENTRY_WORDS: usize = 2;

// A record entry.
#[derive(Clone, Copy)]
pub struct Entry {
    pub code: u32,
    pub value: u32,
}

// Whether the bit of this weight is set.
pub fn has(word: u32, weight: u32) -> bool
    requires { 0 < weight }
    ensures { result ≡ has weight word }
{
    word / weight % 2 == 1
}

fn with_bit(word: u32, weight: u32) -> u32
    requires { (word < 2 ^ 20) × (weight < 65536) }
    ensures { (result ≡ with_bit weight word) × (result ≤ word + weight) }
{
    if weight == 0 {
        return word;
    }
    if has(word, weight) {
        word
    } else {
        word + weight
    }
}

fn without_bit(word: u32, weight: u32) -> u32
    ensures { result ≡ without_bit weight word }
{
    if weight == 0 {
        return word;
    }
    if has(word, weight) {
        word - weight
    } else {
        word
    }
}

// The word with only these bits altered: `on` set, `off` clear.
fn altered(word: u32, on: Bits, off: Bits) -> u32
    requires { (word < 65536) × (on.0 < 65536) × (on.1 < 65536) }
    ensures { result ≡ without_bits off (with_bits on word) }
{
    let set = with_bit(with_bit(word, on.0), on.1);
    without_bit(without_bit(set, off.0), off.1)
}
