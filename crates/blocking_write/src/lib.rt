// The blocking I2C master up to its write, named and ordered as the Rust's src/i2c/blocking.rs: start, address and write.
#![tactic(auto)]

ghost use Rattle.std.specs.Prelude.{◌≡◌, ◌≤◌, true, List, [], ◌∷◌, length, drop};
ghost use Rattle.registers.specs.declared.Awaited.{Awaited};
ghost use Rattle.registers.specs.declared.Source.{Source};
ghost use Rattle.registers.specs.declared.access.Bus.{Bus};
ghost use Rattle.registers.specs.Machine.{Step, Handler};
ghost use Rattle.registers.specs.Contract.{Does, Waits, Reaches};
ghost use Rattle.timed.specs.Poll.{waited_flag};
ghost use Rattle.blocking_write.specs.Write.{data_limit, send_start_and_wait, send_addr_and_wait, later_bytes, read_status, write_bytes_and_wait, write_without_stop};

use i2c::{reset, send_addr, send_start, send_stop};
use registers::{Awaited, Bus, BusError, ReadCode, Source, Stop, WriteCode};
use timed::{busy_wait, wait_for_flag};

// Start, at most retries times; the last answer holds.
#[inline(always)]
pub fn send_start_and_wait(bus: &mut Bus) -> Result<(), Stop>
    ensures { Does (send_start_and_wait bus.old.setup) bus.old bus.new result }
{
    let limit = bus.setup.start_limit;
    let retries = bus.setup.start_retries;
    for retry in 0..retries {
        send_start(bus)?;
        let awaited = Awaited::Flag(registers::SB, Source::Unknown);
        let waited = busy_wait(bus, awaited, limit);
        let Err(Stop::Failed(error)) = waited else {
            return waited;
        };
        reset(bus)?;
        if retry + 1 == retries {
            return Err(Stop::Failed(error));
        }
    }
    Ok(())
}

// Ends as the wait before it ended. A NoAcknowledge sets STOP first.
#[inline(always)]
fn stop_for(bus: &mut Bus, waited: Result<(), Stop>) -> Result<(), Stop>
    ensures { (q : List Step) (b : Bus) → Waits Handler.stops q b bus.old waited → Does q b bus.new result }
{
    if let Err(Stop::Failed(BusError::NoAcknowledge(_))) = waited {
        send_stop(bus)?;
    }
    waited
}

// The address, and the wait for its acknowledge.
#[inline(always)]
pub fn send_addr_and_wait(bus: &mut Bus, addr: u16, read: bool) -> Result<(), Stop>
    ensures { Does (send_addr_and_wait bus.old.setup addr read) bus.old bus.new result }
{
    let limit = bus.setup.addr_limit;
    bus.get(ReadCode::Sr1)?;
    send_addr(bus, addr, read)?;
    let awaited = Awaited::Flag(registers::ADDR, Source::Address);
    let waited = busy_wait(bus, awaited, limit);
    stop_for(bus, waited)
}

// SR1, then SR2: that clears ADDR.
#[inline(always)]
pub fn read_status(bus: &mut Bus) -> Result<(), Stop>
    ensures { Does read_status bus.old bus.new result }
{
    bus.get(ReadCode::Sr1)?;
    bus.get(ReadCode::Sr2)
}

// A timed wait of the data. Its error is left to the caller.
#[inline(always)]
pub fn data_wait(bus: &mut Bus, flag: u32) -> Result<(), Stop>
    requires { waited_flag flag ≡ true }
    ensures { (h : Handler) → Waits h (Step.timed (Awaited.Flag flag Source.Data) (data_limit bus.old.setup) h ∷ []) bus.old bus.new result }
{
    let limit = bus.setup.data_limit;
    busy_wait(bus, Awaited::Flag(flag, Source::Data), limit)
}

// Writes the first bytes that fit and whose waits are over at once. The answer is how many.
#[inline(always)]
fn write_ready(bus: &mut Bus, bytes: &[u8]) -> usize
    ensures { (result ≤ length bytes.now) × Reaches (later_bytes bus.old.setup bytes.now) bus.old (later_bytes bus.old.setup (drop result bytes.now)) bus.new }
{
    let count = bus.bytes_that_fit(bytes.len());
    for (i, byte) in bytes[..count].iter().enumerate() {
        if !wait_for_flag(bus.sr1_after(1), registers::TXE) {
            return i;
        }
        bus.record_read(ReadCode::Cyc);
        bus.record_read(ReadCode::Sr1);
        bus.record_write(WriteCode::Dr, u32::from(*byte));
    }
    count
}

// The later bytes of a write. The error of a wait is left to the caller.
#[inline(always)]
fn write_later(bus: &mut Bus, bytes: &[u8]) -> Result<(), Stop>
    ensures { Waits Handler.stops (later_bytes bus.old.setup bytes.now) bus.old bus.new result }
{
    let mut bytes = bytes;
    loop {
        let ready = write_ready(bus, bytes);
        let Some((byte, later)) = bytes[ready..].split_first() else {
            return Ok(());
        };
        data_wait(bus, registers::TXE)?;
        bus.write(WriteCode::Dr, u32::from(*byte))?;
        bytes = later;
    }
}

// The bytes of a write. The error of a wait is left to the caller.
// No mark to inline it: its caller would lose its own (docs/DECISIONS.md, "Marks to inline").
fn write_bytes_and_wait(bus: &mut Bus, first: u8, later: &[u8]) -> Result<(), Stop>
    ensures { Waits Handler.stops (write_bytes_and_wait bus.old.setup (first ∷ later.now)) bus.old bus.new result }
{
    read_status(bus)?;
    bus.write(WriteCode::Dr, u32::from(first))?;
    write_later(bus, later)?;
    data_wait(bus, registers::BTF)
}

// A write that leaves the bus open; an empty one does nothing.
#[inline(always)]
pub fn write_without_stop(bus: &mut Bus, addr: u16, bytes: &[u8]) -> Result<(), Stop>
    ensures { Does (write_without_stop bus.old.setup addr bytes.now) bus.old bus.new result }
{
    let Some((first, later)) = bytes.split_first() else {
        return Ok(());
    };
    send_start_and_wait(bus)?;
    send_addr_and_wait(bus, addr, false)?;
    let written = write_bytes_and_wait(bus, *first, later);
    stop_for(bus, written)
}
