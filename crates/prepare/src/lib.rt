// The prepares of the polling engine, named and ordered as the Rust's src/i2c.rs: START and the address.
#![tactic(auto)]

ghost use Rattle.std.specs.Prelude.{◌≡◌, Bool, cond, []};
ghost use Rattle.registers.specs.declared.WriteCode.{WriteCode};
ghost use Rattle.registers.specs.Contract.{Writes, Does};
ghost use Rattle.i2c.specs.Polling.{address_byte, first_byte, send_low_byte, request_write, address_write, prepare_write, start_read, repeat_start, request_read, address_read, prepare_read};
ghost use Rattle.prepare.specs.Turn.{sends_write, sends_read, turn_to};

use buslist::Address;
use checks::{check_master, check_twice, check_until, until_flag, until_master, until_stop_clear};
use i2c::{Previous, request_start, send_addr, send_start};
use registers::{Bits, Bus, ReadCode, Source, Stop, WriteCode};

// Sends START and waits until we are master.
// No mark to inline it: its caller would lose its own (docs/DECISIONS.md, "Marks to inline").
fn request_write(bus: &mut Bus) -> Result<(), Stop>
    ensures { Does request_write bus.old bus.new result }
{
    until_stop_clear(bus)?;
    send_start(bus)?;
    check_until(bus, registers::SB, Source::Unknown)?;
    check_master(bus)
}

// What goes out first for an address: a seven-bit one itself, or 11110 in binary and the two high bits of a ten-bit one.
fn first_number(addr: Address) -> u16
    ensures { (reads : Bool) → first_byte addr reads ≡ address_byte result reads }
{
    match addr {
        Address::Seven(address) => address,
        Address::Ten(address) => 0x78 + address / 256,
    }
}

// Sends the byte after START: the address, or the header of a ten-bit one.
#[inline(always)]
fn send_first_byte(bus: &mut Bus, addr: Address, read: bool) -> Result<(), Stop>
    ensures { Writes WriteCode.Dr (first_byte addr read) bus.old bus.new result }
{
    send_addr(bus, first_number(addr), read)
}

// Sends the low byte of a ten-bit address, once its header is acknowledged.
#[inline(always)]
fn send_low_byte(bus: &mut Bus, addr: Address) -> Result<(), Stop>
    ensures { Does (send_low_byte addr) bus.old bus.new result }
{
    let Address::Ten(address) = addr else {
        return Ok(());
    };
    check_until(bus, registers::ADD10, Source::Address)?;
    bus.write(WriteCode::Dr, address as u32 % 256)
}

// Sends the address for writing and waits for its acknowledge.
#[inline(always)]
fn address_write(bus: &mut Bus, addr: Address) -> Result<(), Stop>
    ensures { Does (address_write addr) bus.old bus.new result }
{
    send_first_byte(bus, addr, false)?;
    send_low_byte(bus, addr)?;
    check_until(bus, registers::ADDR, Source::Address)?;
    bus.get(ReadCode::Sr2)
}

// Sends START and address for writing.
#[inline(always)]
fn prepare_write(bus: &mut Bus, addr: Address) -> Result<(), Stop>
    ensures { Does (prepare_write addr) bus.old bus.new result }
{
    request_write(bus)?;
    address_write(bus, addr)
}

// Sends START with ACK set, and waits until we are master.
#[inline(always)]
fn start_read(bus: &mut Bus) -> Result<(), Stop>
    ensures { Does start_read bus.old bus.new result }
{
    until_stop_clear(bus)?;
    request_start(bus, Bits(registers::START, registers::ACK))?;
    until_flag(bus, registers::SB)?;
    until_master(bus)
}

// Sends START again, with ACK set, in a ten-bit call that was prepared for writing and is to read.
#[inline(always)]
fn repeat_start(bus: &mut Bus) -> Result<(), Stop>
    ensures { Does repeat_start bus.old bus.new result }
{
    bus.modify_cr1(Bits(registers::START, registers::ACK), Bits(0, 0))?;
    until_flag(bus, registers::SB)
}

// The request for a read, with the first START or with START again.
#[inline(always)]
fn request_read(bus: &mut Bus, again: bool) -> Result<(), Stop>
    ensures { Does (request_read again) bus.old bus.new result }
{
    if again {
        return repeat_start(bus);
    }
    start_read(bus)
}

// Sends the address for reading and waits for its acknowledge.
#[inline(always)]
fn address_read(bus: &mut Bus, addr: Address) -> Result<(), Stop>
    ensures { Does (address_read addr) bus.old bus.new result }
{
    send_first_byte(bus, addr, true)?;
    check_twice(bus, registers::ADDR, Source::Address)?;
    bus.get(ReadCode::Sr2)
}

// Sends START and address for reading. `again`: a ten-bit address was just sent for writing.
#[inline(always)]
fn prepare_read(bus: &mut Bus, addr: Address, again: bool) -> Result<(), Stop>
    ensures { Does (prepare_read addr again) bus.old bus.new result }
{
    request_read(bus, again)?;
    address_read(bus, addr)
}

// Whether the address is sent for writing: for a write that follows no write, and for a read that a ten-bit call begins with.
fn sends_write(addr: Address, previous: Previous, read: bool) -> bool
    ensures { result ≡ sends_write addr previous read }
{
    match previous {
        Previous::Nothing => match addr {
            Address::Seven(_) => !read,
            Address::Ten(_) => true,
        },
        Previous::Write => false,
        Previous::Read => !read,
    }
}

// Whether the address is sent for reading: for a read that follows no read.
fn sends_read(previous: Previous, read: bool) -> bool
    ensures { result ≡ sends_read previous read }
{
    match previous {
        Previous::Nothing => read,
        Previous::Write => read,
        Previous::Read => false,
    }
}

// Prepares for a write, where the address is to be sent for one. One for each prepare, whose code then
// stands once in the run, where it is inlined.
#[inline(always)]
fn turn_write(bus: &mut Bus, addr: Address, sends: bool) -> Result<(), Stop>
    ensures { Does (cond sends (prepare_write addr) []) bus.old bus.new result }
{
    if !sends {
        return Ok(());
    }
    prepare_write(bus, addr)
}

// Prepares for a read, where the address is to be sent for one.
#[inline(always)]
fn turn_read(bus: &mut Bus, addr: Address, sends: bool, again: bool) -> Result<(), Stop>
    ensures { Does (cond sends (prepare_read addr again) []) bus.old bus.new result }
{
    if !sends {
        return Ok(());
    }
    prepare_read(bus, addr, again)
}

// Prepares for an operation of a call, after the operation `previous`.
pub fn turn(bus: &mut Bus, addr: Address, previous: Previous, read: bool) -> Result<(), Stop>
    ensures { Does (turn_to addr previous read) bus.old bus.new result }
{
    let written = sends_write(addr, previous, read);
    turn_write(bus, addr, written)?;
    turn_read(bus, addr, sends_read(previous, read), written)
}
