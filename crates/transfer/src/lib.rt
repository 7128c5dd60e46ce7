// The bytes of a polling operation, once it is prepared, named and ordered as the Rust's src/i2c.rs.
#![tactic(auto)]

ghost use Rattle.std.specs.Prelude.{◌≡◌, ◌≤◌, ◌-◌, ◌&&◌, ◌++◌, length, drop, List};
ghost use Rattle.buslist.specs.Meaning.{Operation};
ghost use Rattle.registers.specs.Word.{has, TXE, BTF, RXNE};
ghost use Rattle.registers.specs.Machine.{Step};
ghost use Rattle.registers.specs.State.{at, then, resume};
ghost use Rattle.registers.specs.Contract.{Does, Reaches, outcome};
ghost use Rattle.checks.specs.Flags.{no_error_flag};
ghost use Rattle.i2c.specs.Polling.{send_byte, recv_byte, write_bytes, read_bytes, last_write, last_read, transfer};

use checks::{check_twice, check_until, no_error_flag, until_stop_clear};
use i2c::send_stop;
use registers::{Bits, Bus, BusError, Progress, ReadCode, Source, Stop, WriteCode, has};
use units::Setup;

// Whether both checks of a byte are over at once, by the words that they read.
fn sent_at_once(before: u32, after: u32) -> bool
    ensures { result ≡ no_error_flag before && has TXE before && no_error_flag after && has BTF after }
{
    no_error_flag(before)
        & has(before, registers::TXE)
        & no_error_flag(after)
        & has(after, registers::BTF)
}

// Sends the first bytes that fit and whose checks are over at once. The answer is how many. All after them go by
// `send_byte`: at most one byte of an operation is looked at ahead in vain.
#[inline(always)]
fn send_ready(bus: &mut Bus, bytes: &[u8]) -> usize
    ensures { (result ≤ length bytes.now) × Reaches (write_bytes bytes.now) bus.old (write_bytes (drop result bytes.now)) bus.new }
{
    let count = bus.bytes_that_fit(bytes.len());
    for (i, byte) in bytes[..count].iter().enumerate() {
        if !sent_at_once(bus.sr1_after(0), bus.sr1_after(1)) {
            return i;
        }
        bus.record_read(ReadCode::Sr1);
        bus.record_write(WriteCode::Dr, u32::from(*byte));
        bus.record_read(ReadCode::Sr1);
    }
    count
}

// Sends each byte in its turn, by `send_byte`.
#[inline(always)]
fn send_each(bus: &mut Bus, bytes: &[u8]) -> Result<(), Stop>
    ensures { Does (write_bytes bytes.now) bus.old bus.new result }
{
    for byte in bytes {
        send_byte(bus, *byte)?;
    }
    Ok(())
}

// The same, not inlined: in the loop of the calls these waits keep parts of the bus in memory at each look. It takes the
// bus by its parts: a call that takes `&mut Bus` keeps the bus in memory in each function that writes.
#[cold]
#[inline(never)]
fn send_late(
    setup: Setup,
    readings: &[u32],
    log: &mut [u32],
    rx: &mut [u8],
    progress: Progress,
    bytes: &[u8],
) -> (Progress, Result<(), Stop>)
    ensures { (p : List Step) → resume setup (write_bytes bytes.now ++ p) (at readings.now log.old rx.old progress) ≡ then (outcome (at readings.now log.new rx.new result.0) result.1) (resume setup p) }
{
    let mut bus = Bus {
        setup,
        readings,
        log,
        rx,
        progress,
    };
    let sent = send_each(&mut bus, bytes);
    (bus.progress, sent)
}

// Sends the bytes after those that are sent at once. No part of `write_bytes`: the place for its answer is set up where it
// is called, and only late bytes need it.
#[inline(always)]
fn send_rest(bus: &mut Bus, bytes: &[u8]) -> Result<(), Stop>
    ensures { Does (write_bytes bytes.now) bus.old bus.new result }
{
    let (progress, sent) = send_late(
        bus.setup,
        bus.readings,
        &mut *bus.log,
        &mut *bus.rx,
        bus.progress,
        bytes,
    );
    bus.progress = progress;
    sent
}

#[inline(always)]
fn write_bytes(bus: &mut Bus, bytes: &[u8]) -> Result<(), Stop>
    ensures { Does (write_bytes bytes.now) bus.old bus.new result }
{
    let ready = send_ready(bus, bytes);
    if ready < bytes.len() {
        return send_rest(bus, &bytes[ready..]);
    }
    Ok(())
}

#[inline(always)]
fn send_byte(bus: &mut Bus, byte: u8) -> Result<(), Stop>
    ensures { Does (send_byte byte) bus.old bus.new result }
{
    check_until(bus, registers::TXE, Source::Address)?;
    bus.write(WriteCode::Dr, byte.into())?;
    check_until(bus, registers::BTF, Source::Data)
}

#[inline(always)]
fn recv_byte(bus: &mut Bus) -> Result<(), Stop>
    requires { bus.old.progress.got ≤ bus.old.progress.used }
    ensures { Does recv_byte bus.old bus.new result }
{
    check_twice(bus, registers::RXNE, Source::Data)?;
    bus.read_data()
}

// Whether the wait for a byte is over at once, by the words of its check and of the read of SR1 after it.
fn received_at_once(checked: u32, again: u32) -> bool
    ensures { result ≡ no_error_flag checked && has RXNE again }
{
    no_error_flag(checked) & has(again, registers::RXNE)
}

// Receives the first bytes that fit and whose waits are over at once. The answer is how many. All after them go by
// `recv_byte`, as in `send_ready`.
#[inline(always)]
fn recv_ready(bus: &mut Bus, count: usize) -> usize
    requires { bus.old.progress.got ≤ bus.old.progress.used }
    ensures bytes { (result ≤ count) × Reaches (read_bytes count) bus.old (read_bytes (count - result)) bus.new }
    ensures fewer { bus.new.progress.got ≤ bus.new.progress.used }
{
    let fit = bus.bytes_that_fit(count);
    for i in 0..fit {
        if !received_at_once(bus.sr1_after(0), bus.sr1_after(1)) {
            return i;
        }
        bus.record_read(ReadCode::Sr1);
        bus.record_read(ReadCode::Sr1);
        bus.record_data();
    }
    fit
}

#[inline(always)]
fn read_bytes(bus: &mut Bus, count: usize) -> Result<(), Stop>
    requires { bus.old.progress.got ≤ bus.old.progress.used }
    ensures { Does (read_bytes count) bus.old bus.new result }
{
    let ready = recv_ready(bus, count);
    for _ in ready..count {
        recv_byte(bus)?;
    }
    Ok(())
}

// Reads like normal but doesn't generate START and doesn't send the address.
#[inline(always)]
fn read_wo_prepare(bus: &mut Bus, count: usize) -> Result<(), Stop>
    requires { bus.old.progress.got ≤ bus.old.progress.used }
    ensures { Does (last_read count) bus.old bus.new result }
{
    if count == 0 {
        return Err(Stop::Failed(BusError::Overrun));
    }
    read_bytes(bus, count - 1)?;
    // NACK, then STOP after the next byte.
    bus.modify_cr1(Bits(registers::STOP, 0), Bits(registers::ACK, 0))?;
    recv_byte(bus)?;
    until_stop_clear(bus)
}

// Writes like normal but doesn't generate START and doesn't send the address.
#[inline(always)]
fn write_wo_prepare(bus: &mut Bus, bytes: &[u8]) -> Result<(), Stop>
    ensures { Does (last_write bytes.now) bus.old bus.new result }
{
    write_bytes(bus, bytes)?;
    send_stop(bus)?;
    until_stop_clear(bus)
}

// The bytes of a write in a call, once prepared. The last one ends in STOP.
#[tactic(auto, unfolding(i2c::specs::Polling::transfer))]
#[inline(always)]
pub fn write_transfer(bus: &mut Bus, last: bool, bytes: &[u8]) -> Result<(), Stop>
    ensures { Does (transfer last (Operation.write bytes.now)) bus.old bus.new result }
{
    if last {
        return write_wo_prepare(bus, bytes);
    }
    write_bytes(bus, bytes)
}

// The bytes of a read in a call, once prepared.
#[tactic(auto, unfolding(i2c::specs::Polling::transfer))]
pub fn read_transfer(bus: &mut Bus, last: bool, count: usize) -> Result<(), Stop>
    requires { bus.old.progress.got ≤ bus.old.progress.used }
    ensures { Does (transfer last (Operation.read count)) bus.old bus.new result }
{
    if last {
        return read_wo_prepare(bus, count);
    }
    read_bytes(bus, count)
}
