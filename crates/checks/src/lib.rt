// Checks of the error flags, and the waits of the polling engine, which have no time limit (the Rust's src/i2c.rs).
#![tactic(auto)]

ghost use Rattle.std.specs.Prelude.{◌≡◌, [], ◌∷◌, ◌<◌};
ghost use Rattle.registers.specs.Machine.{Step, check_word};
ghost use Rattle.registers.specs.Contract.{Checks, Does};
ghost use Rattle.checks.specs.Flags.{no_error_flag};

use registers::{Bus, BusError, ReadCode, Source, Stop, has};

// The first error flag of an SR1 word, BERR apart. Other flags in another order than in a poll: one function over two
// lists of pairs is no plainer.
#[tactic(auto, unfolding(registers::specs::Machine::check_word))]
fn first_error(word: u32, source: Source) -> Option<BusError>
    ensures { result ≡ check_word source word }
{
    if has(word, registers::TIMEOUT) {
        return Some(BusError::Timeout);
    }
    if has(word, registers::PECERR) {
        return Some(BusError::Crc);
    }
    if has(word, registers::OVR) {
        return Some(BusError::Overrun);
    }
    if has(word, registers::AF) {
        return Some(BusError::NoAcknowledge(source));
    }
    if has(word, registers::ARLO) {
        return Some(BusError::ArbitrationLoss);
    }
    None
}

// TIMEOUT, PECERR, OVR, AF, ARLO and BERR.
const ERRORS: u32 = 0x5f00;

// Whether an SR1 word has no error flag: one test for all of them.
pub fn no_error_flag(sr1: u32) -> bool
    ensures { result ≡ no_error_flag sr1 }
{
    sr1 & ERRORS == 0
}

// The errata say that BERR may be detected wrongly, and to clear it and go on.
#[inline(always)]
fn check_and_clear_error_flags(bus: &mut Bus, source: Source) -> Result<u32, Stop>
    ensures { Checks source bus.old bus.new result }
{
    let sr1 = bus.read(ReadCode::Sr1)?;
    if no_error_flag(sr1) {
        return Ok(sr1);
    }
    if let Some(error) = first_error(sr1, source) {
        bus.clear_flag(error)?;
        return Err(Stop::Failed(error));
    }
    // It is BERR.
    bus.clear_flag(BusError::Bus)?;
    Ok(sr1)
}

// Read CR1 until STOP is clear. Six loops from here on, and no shared one: each is a step of the machine with accesses of
// its own, and a loop that took them as closures would need a clause longer than it.
#[inline(always)]
pub fn until_stop_clear(bus: &mut Bus) -> Result<(), Stop>
    ensures { Does (Step.stop_clear ∷ []) bus.old bus.new result }
{
    loop {
        let cr1 = bus.read(ReadCode::Cr1)?;
        if !has(cr1, registers::STOP) {
            return Ok(());
        }
    }
}

// Check until this SR1 flag is set. The form that the project wants here and in the two below (docs/DECISIONS.md): let ..
// else on the check, which takes the SR1 word or hands back the error. The flag is a weight and of no type of flags: that
// would ask more of callers.
#[inline(always)]
pub fn check_until(bus: &mut Bus, flag: u32, source: Source) -> Result<(), Stop>
    requires { 0 < flag }
    ensures { Does (Step.check flag source ∷ []) bus.old bus.new result }
{
    loop {
        let checked = check_and_clear_error_flags(bus, source);
        let Ok(sr1) = checked else {
            return checked.and(Ok(()));
        };
        if has(sr1, flag) {
            return Ok(());
        }
    }
}

// Check and read SR2 until MSL or BUSY.
#[inline(always)]
pub fn check_master(bus: &mut Bus) -> Result<(), Stop>
    ensures { Does (Step.check_master ∷ []) bus.old bus.new result }
{
    loop {
        let checked = check_and_clear_error_flags(bus, Source::Unknown);
        let Ok(_) = checked else {
            return checked.and(Ok(()));
        };
        let sr2 = bus.read(ReadCode::Sr2)?;
        if has(sr2, registers::MSL) {
            return Ok(());
        }
        if has(sr2, registers::BUSY) {
            return Ok(());
        }
    }
}

// Check, and read SR1 again, until the second read has this flag.
#[inline(always)]
pub fn check_twice(bus: &mut Bus, flag: u32, source: Source) -> Result<(), Stop>
    requires { 0 < flag }
    ensures { Does (Step.check_twice flag source ∷ []) bus.old bus.new result }
{
    loop {
        let checked = check_and_clear_error_flags(bus, source);
        let Ok(_) = checked else {
            return checked.and(Ok(()));
        };
        let sr1 = bus.read(ReadCode::Sr1)?;
        if has(sr1, flag) {
            return Ok(());
        }
    }
}

// Plain SR1 reads until this flag is set.
#[inline(always)]
pub fn until_flag(bus: &mut Bus, flag: u32) -> Result<(), Stop>
    requires { 0 < flag }
    ensures { Does (Step.flag flag ∷ []) bus.old bus.new result }
{
    loop {
        let sr1 = bus.read(ReadCode::Sr1)?;
        if has(sr1, flag) {
            return Ok(());
        }
    }
}

// SR2 reads alone until MSL or BUSY.
#[inline(always)]
pub fn until_master(bus: &mut Bus) -> Result<(), Stop>
    ensures { Does (Step.master ∷ []) bus.old bus.new result }
{
    loop {
        let sr2 = bus.read(ReadCode::Sr2)?;
        if has(sr2, registers::MSL) {
            return Ok(());
        }
        if has(sr2, registers::BUSY) {
            return Ok(());
        }
    }
}
