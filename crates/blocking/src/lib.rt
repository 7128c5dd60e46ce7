// The rest of the blocking I2C master, named and ordered as the Rust's src/i2c/blocking.rs: the close of a write, and the read.
#![tactic(auto)]

ghost use Rattle.std.specs.Prelude.{◌≡◌, ◌<◌, ◌≤◌, ◌-◌, true, [], ◌∷◌};
ghost use Rattle.registers.specs.Contract.{Does, Reaches};
ghost use Rattle.timed.specs.Poll.{waited_flag};
ghost use Rattle.blocking.specs.Blocking.{stop_wait, read_wait, one_ready, more_ready, third_last, second_last, close, receive, finish_read, read_one, two_ready, two_bytes, two_end, read_two, receive_bytes, last_three, read_more, read_arm, read_steps, close_after};

use blocking_write::{data_wait, read_status, send_addr_and_wait, send_start_and_wait};
use i2c::{Previous, send_stop};
use registers::{Awaited, Bits, Bus, ReadCode, Stop};
use timed::{busy_wait, wait_for_flag};

// The wait until STOP is sent.
#[inline(always)]
fn stop_wait(bus: &mut Bus) -> Result<(), Stop>
    ensures { Does (stop_wait bus.old.setup ∷ []) bus.old bus.new result }
{
    let limit = bus.setup.data_limit;
    busy_wait(bus, Awaited::Stop, limit)
}

// STOP, and the wait until it is sent.
#[inline(always)]
fn close(bus: &mut Bus) -> Result<(), Stop>
    ensures { Does (close bus.old.setup) bus.old bus.new result }
{
    send_stop(bus)?;
    stop_wait(bus)
}

// A timed wait of a read. A NoAcknowledge sets no STOP.
#[inline(always)]
fn read_wait(bus: &mut Bus, flag: u32) -> Result<(), Stop>
    requires { waited_flag flag ≡ true }
    ensures { Does (read_wait bus.old.setup flag ∷ []) bus.old bus.new result }
{
    data_wait(bus, flag)
}

// The next byte of a read.
#[inline(always)]
fn receive(bus: &mut Bus) -> Result<(), Stop>
    requires { bus.old.progress.got ≤ bus.old.progress.used }
    ensures { Does (receive bus.old.setup) bus.old bus.new result }
{
    read_wait(bus, registers::RXNE)?;
    bus.read_data()
}

// The end of a read.
#[inline(always)]
fn finish_read(bus: &mut Bus) -> Result<(), Stop>
    ensures { Does (finish_read bus.old.setup) bus.old bus.new result }
{
    stop_wait(bus)?;
    bus.modify_cr1(Bits(registers::ACK, 0), Bits(0, 0))
}

// One byte: NACK, and STOP before it comes.
#[inline(always)]
fn one_ready(bus: &mut Bus) -> Result<(), Stop>
    ensures { Does one_ready bus.old bus.new result }
{
    bus.modify_cr1(Bits(0, 0), Bits(registers::ACK, 0))?;
    read_status(bus)?;
    send_stop(bus)
}

// A read of one byte, once the address is sent.
// No mark to inline it: its caller would lose its own (docs/DECISIONS.md, "Marks to inline").
fn read_one(bus: &mut Bus) -> Result<(), Stop>
    requires { bus.old.progress.got ≤ bus.old.progress.used }
    ensures { Does (read_one bus.old.setup) bus.old bus.new result }
{
    one_ready(bus)?;
    receive(bus)?;
    finish_read(bus)
}

// Two bytes: POS, then NACK, and the wait until both are there.
#[inline(always)]
fn two_ready(bus: &mut Bus) -> Result<(), Stop>
    ensures { Does (two_ready bus.old.setup) bus.old bus.new result }
{
    bus.modify_cr1(Bits(registers::POS, registers::ACK), Bits(0, 0))?;
    read_status(bus)?;
    bus.modify_cr1(Bits(0, 0), Bits(registers::ACK, 0))?;
    read_wait(bus, registers::BTF)
}

// STOP, and both bytes.
#[inline(always)]
fn two_bytes(bus: &mut Bus) -> Result<(), Stop>
    requires { bus.old.progress.got ≤ bus.old.progress.used }
    ensures { Does two_bytes bus.old bus.new result }
{
    send_stop(bus)?;
    bus.read_data()?;
    bus.read_data()
}

// The end of a read of two bytes.
#[inline(always)]
fn two_end(bus: &mut Bus) -> Result<(), Stop>
    ensures { Does (two_end bus.old.setup) bus.old bus.new result }
{
    stop_wait(bus)?;
    bus.modify_cr1(Bits(0, 0), Bits(registers::POS, registers::ACK))?;
    bus.modify_cr1(Bits(registers::ACK, 0), Bits(0, 0))
}

// A read of two bytes, once the address is sent.
#[inline(always)]
fn read_two(bus: &mut Bus) -> Result<(), Stop>
    requires { bus.old.progress.got ≤ bus.old.progress.used }
    ensures { Does (read_two bus.old.setup) bus.old bus.new result }
{
    two_ready(bus)?;
    two_bytes(bus)?;
    two_end(bus)
}

// Receives the first bytes that fit and whose waits are over at once. The answer is how many. All after them go by
// `receive`: at most one byte of a read is looked at ahead in vain.
#[inline(always)]
fn receive_ready(bus: &mut Bus, count: usize) -> usize
    requires { bus.old.progress.got ≤ bus.old.progress.used }
    ensures bytes { (result ≤ count) × Reaches (receive_bytes bus.old.setup count) bus.old (receive_bytes bus.old.setup (count - result)) bus.new }
    ensures fewer { bus.new.progress.got ≤ bus.new.progress.used }
{
    let fit = bus.bytes_that_fit(count);
    for i in 0..fit {
        if !wait_for_flag(bus.sr1_after(1), registers::RXNE) {
            return i;
        }
        bus.record_read(ReadCode::Cyc);
        bus.record_read(ReadCode::Sr1);
        bus.record_data();
    }
    fit
}

// So many bytes of a read, one after the other.
#[inline(always)]
fn receive_bytes(bus: &mut Bus, count: usize) -> Result<(), Stop>
    requires { bus.old.progress.got ≤ bus.old.progress.used }
    ensures { Does (receive_bytes bus.old.setup count) bus.old bus.new result }
{
    let ready = receive_ready(bus, count);
    for _ in ready..count {
        receive(bus)?;
    }
    Ok(())
}

// The third last byte: NACK before it is taken.
#[inline(always)]
fn third_last(bus: &mut Bus) -> Result<(), Stop>
    requires { bus.old.progress.got ≤ bus.old.progress.used }
    ensures { Does (third_last bus.old.setup) bus.old bus.new result }
{
    read_wait(bus, registers::BTF)?;
    bus.modify_cr1(Bits(0, 0), Bits(registers::ACK, 0))?;
    bus.read_data()
}

// The second last byte: STOP before it is taken.
#[inline(always)]
fn second_last(bus: &mut Bus) -> Result<(), Stop>
    requires { bus.old.progress.got ≤ bus.old.progress.used }
    ensures { Does second_last bus.old bus.new result }
{
    send_stop(bus)?;
    bus.read_data()
}

// The last three bytes.
#[inline(always)]
fn last_three(bus: &mut Bus) -> Result<(), Stop>
    requires { bus.old.progress.got ≤ bus.old.progress.used }
    ensures { Does (last_three bus.old.setup) bus.old bus.new result }
{
    third_last(bus)?;
    second_last(bus)?;
    receive(bus)?;
    finish_read(bus)
}

// ACK on, then SR1 and SR2.
#[inline(always)]
fn more_ready(bus: &mut Bus) -> Result<(), Stop>
    ensures { Does more_ready bus.old bus.new result }
{
    bus.modify_cr1(Bits(registers::ACK, 0), Bits(0, 0))?;
    read_status(bus)
}

// A read of three bytes or more, once the address is sent. `count` leaves out the last three.
fn read_more(bus: &mut Bus, count: usize) -> Result<(), Stop>
    requires { bus.old.progress.got ≤ bus.old.progress.used }
    ensures { Does (read_more bus.old.setup count) bus.old bus.new result }
{
    more_ready(bus)?;
    receive_bytes(bus, count)?;
    last_three(bus)
}

// The arms of `read`, by its length.
#[inline(always)]
fn read_arm(bus: &mut Bus, count: usize) -> Result<(), Stop>
    requires { (bus.old.progress.got ≤ bus.old.progress.used) × (0 < count) }
    ensures { Does (read_arm bus.old.setup count) bus.old bus.new result }
{
    match count {
        1 => read_one(bus),
        2 => read_two(bus),
        _ => read_more(bus, count - 3),
    }
}

// A read; an empty one does nothing.
pub fn read(bus: &mut Bus, addr: u16, count: usize) -> Result<(), Stop>
    requires { bus.old.progress.got ≤ bus.old.progress.used }
    ensures { Does (read_steps bus.old.setup addr count) bus.old bus.new result }
{
    if count == 0 {
        return Ok(());
    }
    send_start_and_wait(bus)?;
    send_addr_and_wait(bus, addr, true)?;
    read_arm(bus, count)
}

// The end of a call: it closes where the last operation done was a write.
#[inline(always)]
pub fn close_after(bus: &mut Bus, previous: Previous) -> Result<(), Stop>
    ensures { Does (close_after bus.old.setup previous) bus.old bus.new result }
{
    match previous {
        Previous::Write => close(bus),
        _ => Ok(()),
    }
}
