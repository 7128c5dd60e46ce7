// A run as text on standard output, written field by field: no array holds the text of more than one field, and a space
// or a line end is written by itself (C-12): no writer in between holds text back, and each `print!` here makes its own
// write. So there is no format with more than one field, and no `Display` of an access or a line. Each function stops at
// the first field that was not written, with its error.
#![tactic(auto)]

use engine::Counts;
use registers::{Entry, ReadCode, UnknownCode, WriteCode};
use std::{fmt, io};

// The space that parts two fields.
fn space(rt: &impl Print) -> io::Result<()> {
    print!(rt; " ")
}

// What ends every line, the last one too.
pub fn line_end(rt: &impl Print) -> io::Result<()> {
    print!(rt; "\n")
}

// Which way an access goes.
#[derive(Clone, Copy)]
enum Direction {
    Read,
    Write,
}

// The codes of reads are below those of writes, the first of which is that of CR1.
impl From<u32> for Direction {
    fn from(code: u32) -> Direction {
        if code < u32::from(WriteCode::Cr1) {
            Direction::Read
        } else {
            Direction::Write
        }
    }
}

impl fmt::Display for Direction {
    fn fmt<W: fmt::Write>(&self, f: &mut fmt::Formatter<W>) -> fmt::Result {
        f.write_str(match self {
            Direction::Read => "r",
            Direction::Write => "w",
        })
    }
}

// A register, as it is read or as it is written.
#[derive(Clone, Copy)]
enum Register {
    Read(ReadCode),
    Written(WriteCode),
}

impl TryFrom<u32> for Register {
    type Error = UnknownCode;

    fn try_from(code: u32) -> Result<Self, UnknownCode> {
        match ReadCode::try_from(code) {
            Ok(code) => Ok(Register::Read(code)),
            Err(_) => WriteCode::try_from(code).map(Register::Written),
        }
    }
}

impl fmt::Display for Register {
    fn fmt<W: fmt::Write>(&self, f: &mut fmt::Formatter<W>) -> fmt::Result {
        f.write_str(match self {
            Register::Read(ReadCode::Sr1) | Register::Written(WriteCode::Sr1) => "sr1",
            Register::Read(ReadCode::Sr2) => "sr2",
            Register::Read(ReadCode::Cr1) | Register::Written(WriteCode::Cr1) => "cr1",
            Register::Written(WriteCode::Cr2) => "cr2",
            Register::Written(WriteCode::Ccr) => "ccr",
            Register::Written(WriteCode::Trise) => "trise",
            Register::Read(ReadCode::Dr) | Register::Written(WriteCode::Dr) => "dr",
            Register::Read(ReadCode::Cyc) => "cyc",
        })
    }
}

// A record written by hand may have an unknown code: a mark shows it.
fn print_register(rt: &impl Print, register: Result<Register, UnknownCode>) -> io::Result<()> {
    match register {
        Ok(register) => print!(rt; "{register}"),
        Err(_) => print!(rt; "?"),
    }
}

// How many digits a value has: only the cycle counter has 32 bits.
fn digits(register: Result<Register, UnknownCode>) -> usize {
    match register {
        Ok(Register::Read(ReadCode::Cyc)) => 8,
        _ => 4,
    }
}

// One access, without its line end.
pub fn access(rt: &impl Print, entry: Entry) -> io::Result<()> {
    let value = entry.value;
    let direction = Direction::from(entry.code);
    let register = Register::try_from(entry.code);
    let digits = digits(register);
    print!(rt; "{direction}")?;
    space(rt)?;
    print_register(rt, register)?;
    space(rt)?;
    print!(rt; "{value:0digits$x}")
}

// The received bytes, without the line end.
pub fn received(rt: &impl Print, bytes: &[u8]) -> io::Result<()> {
    print!(rt; "rx")?;
    for byte in bytes {
        space(rt)?;
        print!(rt; "{byte:02x}")?;
    }
    Ok(())
}

// The answer and the four counts, in the order returned, without the line end.
pub fn end(rt: &impl Print, counts: Counts) -> io::Result<()> {
    print!(rt; "end")?;
    for number in [
        counts.answer as usize,
        counts.calls,
        counts.used,
        counts.made,
        counts.got,
    ] {
        space(rt)?;
        print!(rt; "{number}")?;
    }
    Ok(())
}
