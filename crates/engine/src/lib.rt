// The engine as hosts see it: the run of a bus list, and the functions that engine_c exports.
#![tactic(auto)]

ghost use Rattle.std.specs.Prelude.{◌≡◌, length};
ghost use Rattle.buslist.specs.Refusal.{refusal};
ghost use Rattle.registers.specs.Contract.{outcome_number};
ghost use Rattle.engine.specs.Ended.{ended_counts};
ghost use Rattle.engine.specs.Run.{Runs, HostRuns};
ghost use Rattle.engine.specs.Speed.{speed_out, speed_cr2, speed_trise, speed_ccr, speed_table, SpeedUnder};

use buslist::BusList;
use registers::{Bus, Progress, Stop};
use units::{Hertz, Mode};

// How a run ended: its answer, calls ended well, readings used, accesses made, bytes received. The answer is a number, since
// C hosts read it.
#[derive(Clone, Copy, PartialEq, Eq)]
pub struct Counts {
    pub answer: u32,
    pub calls: usize,
    pub used: usize,
    pub made: usize,
    pub got: usize,
}

// What stands for a speed word where there is none: a number and no Option, since C calls these functions.
const NO_WORD: u32 = 4_294_967_295;

// Cause 22, or an unknown mode.
fn speed_out(mode: u32, frequency: u32) -> bool
    ensures { result ≡ speed_out mode frequency }
{
    Mode::try_from(mode).is_err() | units::frequency_out(Hertz(frequency))
}

// The CR2 word of the settings.
pub fn speed_cr2(pclk1: u32, mode: u32, frequency: u32) -> u32
    ensures { result ≡ speed_cr2 pclk1 mode frequency }
{
    if speed_out(mode, frequency) {
        return NO_WORD;
    }
    units::cr2_word(Hertz(pclk1))
}

// The TRISE word of the settings.
pub fn speed_trise(pclk1: u32, mode: u32, frequency: u32) -> u32
    ensures { result ≡ speed_trise pclk1 mode frequency }
{
    if speed_out(mode, frequency) {
        return NO_WORD;
    }
    units::trise_word(Hertz(pclk1), units::mode_of(mode))
}

// The CCR word of the settings.
pub fn speed_ccr(pclk1: u32, mode: u32, frequency: u32) -> u32
    ensures { result ≡ speed_ccr pclk1 mode frequency }
{
    if speed_out(mode, frequency) {
        return NO_WORD;
    }
    units::ccr_word(Hertz(pclk1), units::mode_of(mode), Hertz(frequency))
}

// The CCR word of an entry of the table of usual speeds.
pub fn speed_table(index: u32) -> u32
    ensures { result ≡ speed_table index }
{
    match speed_words::speed_word(index) {
        Some(word) => word as u32,
        None => NO_WORD,
    }
}

// The fastest speed under a ceiling: the answer, the mode and the CCR field go to `chosen`.
pub fn speed_under(pclk1: u32, ceiling: u32, chosen: &mut [u32; 3])
    ensures { SpeedUnder pclk1 ceiling chosen.new }
{
    *chosen = match speed_choice::fastest(Hertz(pclk1), Hertz(ceiling)) {
        Ok(choice) => [0, choice.mode.into(), choice.field],
        Err(reason) => [reason.into(), 0, 0],
    };
}

// The number that document 01 gives an outcome.
#[tactic(auto, unfolding(registers::specs::Access::number))]
fn number(outcome: Result<(), Stop>) -> u32
    ensures { result ≡ outcome_number outcome }
{
    match outcome {
        Ok(()) => 0,
        Err(stop) => stop.into(),
    }
}

// The answer and the counts of a run that had come so far when it ended so after these calls.
fn counts_of(progress: Progress, outcome: Result<(), Stop>, calls: usize) -> Counts
    ensures { result ≡ ended_counts progress outcome calls }
{
    Counts {
        answer: number(outcome),
        calls,
        used: progress.used,
        made: progress.made,
        got: progress.got,
    }
}

// The run of an accepted list: the bring-up, then the calls.
fn run_accepted(list: &BusList<'_>, readings: &[u32], rx: &mut [u8], log: &mut [u32]) -> Counts
    requires { refusal list.now (length rx.old) ≡ 0 }
    ensures { Runs list readings rx log result }
{
    let setup = units::setup_of(list.settings());
    let mut bus = Bus::new(setup, readings, log, rx);
    let outcome = i2c::init(&mut bus);
    let Ok(()) = outcome else {
        return counts_of(bus.progress, outcome, 0);
    };
    let stopped = calls::run_calls(&mut bus, list);
    counts_of(bus.progress, stopped.outcome, stopped.calls as usize)
}

// The run of a bus list on these readings: the accesses go to the record `log`, the received bytes to `rx`.
pub fn run(list: &[u8], readings: &[u32], rx: &mut [u8], log: &mut [u32]) -> Counts
    ensures { Runs list readings rx log result }
{
    match acceptance::accept(list, rx.len()) {
        Ok(accepted) => run_accepted(&accepted, readings, rx, log),
        Err(cause) => Counts {
            answer: u32::from(cause),
            calls: 0,
            used: 0,
            made: 0,
            got: 0,
        },
    }
}

// The run for hosts: the answer and the four counts, in the order returned, go to `counts`.
pub fn bus_run(list: &[u8], readings: &[u32], rx: &mut [u8], log: &mut [u32], counts: &mut [u64; 5])
    ensures { HostRuns list readings rx log counts }
{
    let c = run(list, readings, rx, log);
    let all = [
        c.answer as u64,
        c.calls as u64,
        c.used as u64,
        c.made as u64,
        c.got as u64,
    ];
    *counts = all;
}

// The run, with the answer and the counts in the caller's struct, whatever it held.
pub fn run_into(list: &[u8], readings: &[u32], rx: &mut [u8], log: &mut [u32], counts: &mut Counts)
    ensures { Runs list readings rx log counts.new }
{
    *counts = run(list, readings, rx, log);
}

// The run, by a struct that is lent to be changed in place.
pub fn run_counted(list: &[u8], readings: &[u32], rx: &mut [u8], log: &mut [u32]) -> Counts
    ensures counted { Runs list readings rx log result }
{
    let mut counts = Counts {
        answer: 0,
        calls: 0,
        used: 0,
        made: 0,
        got: 0,
    };
    run_into(list, readings, rx, log, &mut counts);
    counts
}
