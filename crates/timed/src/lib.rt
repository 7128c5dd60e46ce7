// Timed waits, named as the macros of the Rust's src/i2c/blocking.rs: one poll, and polls until the time is out.
#![tactic(auto)]

ghost use Rattle.std.specs.Prelude.{◌≡◌, true, [], ◌∷◌, nat_le};
ghost use Rattle.registers.specs.declared.Awaited.{Awaited};
ghost use Rattle.registers.specs.declared.Source.{Source};
ghost use Rattle.registers.specs.Machine.{Step, Handler, next, poll_word, poll_error, polled_register, since};
ghost use Rattle.registers.specs.State.{at};
ghost use Rattle.registers.specs.Contract.{read_code, Waits};
ghost use Rattle.timed.specs.Poll.{waited_flag, waited, over, WaitsOn};

use registers::{Awaited, Bus, BusError, Progress, ReadCode, Source, Stop, has};
use units::{Cycles, Setup};

// BERR, ARLO, AF and OVR.
const ERRORS: u32 = 0x0f00;

// The first error flag of an SR1 word, as a poll takes them. Other flags in another order than in a check: one function
// over two lists of pairs is no plainer.
#[tactic(auto, unfolding(registers::specs::Machine::poll_word))]
fn flag_error(sr1: u32, source: Source) -> Option<BusError>
    ensures { result ≡ poll_word source sr1 }
{
    if has(sr1, registers::BERR) {
        return Some(BusError::Bus);
    }
    if has(sr1, registers::ARLO) {
        return Some(BusError::ArbitrationLoss);
    }
    if has(sr1, registers::AF) {
        return Some(BusError::NoAcknowledge(source));
    }
    if has(sr1, registers::OVR) {
        return Some(BusError::Overrun);
    }
    None
}

// The error that a poll finds in the word that it read. This and the next two ask which wait it is, as the definitions do.
#[tactic(auto, unfolding(registers::specs::Machine::poll_error))]
fn poll_error(word: u32, awaited: Awaited) -> Option<BusError>
    ensures { result ≡ poll_error awaited word }
{
    match awaited {
        Awaited::Flag(_, source) => flag_error(word, source),
        Awaited::Stop => None,
    }
}

// Whether an SR1 word has this flag and no error flag: one test for all of them.
pub fn wait_for_flag(sr1: u32, flag: u32) -> bool
    requires { waited_flag flag ≡ true }
    ensures { (source : Source) → result ≡ over (Awaited.Flag flag source) sr1 }
{
    sr1 & (ERRORS + flag) == flag
}

// Whether a CR1 word has STOP clear.
#[tactic(auto, unfolding(registers::specs::Machine::poll_error, registers::specs::Machine::poll_ready, crate::specs::Poll::over))]
fn wait_for_stop(cr1: u32) -> bool
    ensures { result ≡ over Awaited.Stop cr1 }
{
    !has(cr1, registers::STOP)
}

// Whether a poll that read this word ends its wait well.
fn wait_over(word: u32, awaited: Awaited) -> bool
    requires { waited awaited ≡ true }
    ensures { result ≡ over awaited word }
{
    match awaited {
        Awaited::Flag(flag, _) => wait_for_flag(word, flag),
        Awaited::Stop => wait_for_stop(word),
    }
}

// The register that a poll reads.
fn polled_register(awaited: Awaited) -> ReadCode
    ensures { read_code result ≡ polled_register awaited }
{
    match awaited {
        Awaited::Flag(_, _) => ReadCode::Sr1,
        Awaited::Stop => ReadCode::Cr1,
    }
}

// Whether the time from start to this reading of the counter reaches the limit. The counter wraps.
fn timed_out(start: u32, cycles: u32, limit: Cycles) -> bool
    ensures { result ≡ nat_le limit.0 (since start cycles) }
{
    limit.0 <= std::num::wrapping_sub_u32(cycles, start) as u64
}

// The polls of a timed wait that goes on, the last of which read this word. Its error is left to the caller.
#[inline(always)]
fn poll_on(
    bus: &mut Bus,
    word: u32,
    awaited: Awaited,
    start: u32,
    limit: Cycles,
) -> Result<(), Stop>
    requires { waited awaited ≡ true }
    ensures { (h : Handler) → Waits h (next bus.old.setup (Step.poll awaited limit.0 h start) word) bus.old bus.new result }
{
    let mut word = word;
    while !wait_over(word, awaited) {
        if let Some(error) = poll_error(word, awaited) {
            bus.clear_flag(error)?;
            return Err(Stop::Failed(error));
        }
        let cycles = bus.read(ReadCode::Cyc)?;
        if timed_out(start, cycles, limit) {
            return Err(Stop::Failed(BusError::Timeout));
        }
        word = bus.read(polled_register(awaited))?;
    }
    Ok(())
}

// The same, not inlined. It takes the bus by its parts: a call that takes `&mut Bus` keeps the bus in
// memory in each function that waits.
#[cold]
#[inline(never)]
fn busy_wait_on(
    setup: Setup,
    readings: &[u32],
    log: &mut [u32],
    rx: &mut [u8],
    progress: Progress,
    word: u32,
    awaited: Awaited,
    start: u32,
    limit: Cycles,
) -> (Progress, Result<(), Stop>)
    requires { waited awaited ≡ true }
    ensures { WaitsOn setup awaited limit.0 start word (at readings.now log.old rx.old progress) (at readings.now log.new rx.new result.0) result.1 }
{
    let mut bus = Bus {
        setup,
        readings,
        log,
        rx,
        progress,
    };
    let waited = poll_on(&mut bus, word, awaited, start, limit);
    (bus.progress, waited)
}

// A timed wait. Its error is left to the caller.
#[inline(always)]
pub fn busy_wait(bus: &mut Bus, awaited: Awaited, limit: Cycles) -> Result<(), Stop>
    requires { waited awaited ≡ true }
    ensures { (h : Handler) → Waits h (Step.timed awaited limit.0 h ∷ []) bus.old bus.new result }
{
    let start = bus.read(ReadCode::Cyc)?;
    let word = bus.read(polled_register(awaited))?;
    if wait_over(word, awaited) {
        return Ok(());
    }
    let (progress, waited) = busy_wait_on(
        bus.setup,
        bus.readings,
        &mut *bus.log,
        &mut *bus.rx,
        bus.progress,
        word,
        awaited,
        start,
        limit,
    );
    bus.progress = progress;
    waited
}
