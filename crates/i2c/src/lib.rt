// The I2C master, named and ordered as the Rust's src/i2c.rs: what both engines share.
#![tactic(auto)]

ghost use Rattle.std.specs.Prelude.{[], ◌∷◌, ◌<◌};
ghost use Rattle.registers.specs.Word.{none, one, START, STOP};
ghost use Rattle.registers.specs.Machine.{Step, bring_up, reset, send_start};
ghost use Rattle.registers.specs.declared.WriteCode.{WriteCode};
ghost use Rattle.registers.specs.Contract.{Writes, Does};
ghost use Rattle.i2c.specs.Polling.{address_byte};

use registers::{Bits, Bus, Stop, WriteCode};

// The operation before, in a call.
#[derive(Clone, Copy)]
pub enum Previous {
    Nothing,
    Write,
    Read,
}

// The speed words, then PE.
#[inline(always)]
pub fn init(bus: &mut Bus) -> Result<(), Stop>
    ensures { Does (bring_up bus.old.setup) bus.old bus.new result }
{
    let setup = bus.setup;
    bus.write(WriteCode::Cr2, setup.cr2)?;
    bus.write(WriteCode::Trise, setup.trise)?;
    bus.write(WriteCode::Ccr, setup.ccr)?;
    bus.modify_cr1(Bits(registers::PE, 0), Bits(0, 0))
}

// Software reset (SWRST and PE, then 0), then bring-up.
#[inline(always)]
pub fn reset(bus: &mut Bus) -> Result<(), Stop>
    ensures { Does (reset bus.old.setup) bus.old bus.new result }
{
    bus.write(WriteCode::Cr1, 0x8001)?;
    bus.write(WriteCode::Cr1, 0)?;
    init(bus)
}

// Clear all pending error bits, then set these bits of CR1, START among them.
#[inline(always)]
pub fn request_start(bus: &mut Bus, on: Bits) -> Result<(), Stop>
    requires { (on.0 < 65536) × (on.1 < 65536) }
    ensures { Does (send_start on) bus.old bus.new result }
{
    bus.write(WriteCode::Sr1, 0)?;
    bus.modify_cr1(on, Bits(0, 0))
}

// Generate START condition.
#[inline(always)]
pub fn send_start(bus: &mut Bus) -> Result<(), Stop>
    ensures { Does (send_start (one START)) bus.old bus.new result }
{
    request_start(bus, Bits(registers::START, 0))
}

// Sends the (7-bit) address. The last bit of the byte is set for a read.
#[inline(always)]
pub fn send_addr(bus: &mut Bus, addr: u16, read: bool) -> Result<(), Stop>
    ensures { Writes WriteCode.Dr (address_byte addr read) bus.old bus.new result }
{
    let byte = 2 * u32::from(addr);
    if read {
        return bus.write(WriteCode::Dr, byte + 1);
    }
    bus.write(WriteCode::Dr, byte)
}

// Generate STOP condition.
#[inline(always)]
pub fn send_stop(bus: &mut Bus) -> Result<(), Stop>
    ensures { Does (Step.modify (one STOP) none ∷ []) bus.old bus.new result }
{
    bus.modify_cr1(Bits(registers::STOP, 0), Bits(0, 0))
}
