// Prints the table of speed words, as it stands in the source of `speed_words`. After a change, in this folder:
//
//   rt run && out/speed_generator | tee stdout > ../speed_words/src/table.rt
//
// tests/speed_words holds what is printed to that source, and its words to the papers' formula.
#![tactic(auto)]

ghost use Rattle.std.specs.Prelude.{◌≤◌, IsTrue, ltb};
ghost use Rattle.std.specs.List.{list_all};

use std::io;
use units::{DutyCycle, Hertz, Mode};

// The frequencies of Standard, and of each Fast mode.
const STANDARD: [u32; 4] = [10_000, 20_000, 50_000, 100_000];

const FAST: [u32; 4] = [125_000, 200_000, 250_000, 400_000];

// The words of a clock at each frequency of a mode.
fn print_mode(rt: &impl Print, pclk1: Hertz, mode: Mode, frequencies: [u32; 4]) -> io::Result<()>
    requires { IsTrue (list_all (ltb 0) frequencies) }
{
    for frequency in frequencies {
        let word = units::ccr_word(pclk1, mode, Hertz(frequency));
        print!(rt; " 0x{word:04x},")?;
    }
    Ok(())
}

// The twelve words of a clock in whole MHz.
fn print_clock(rt: &impl Print, mhz: u32) -> io::Result<()>
    requires { mhz ≤ 36 }
{
    let pclk1 = Hertz(mhz * 1_000_000);
    println!(rt; "    // {mhz} MHz")?;
    print!(rt; "   ")?;
    print_mode(rt, pclk1, Mode::Standard, STANDARD)?;
    print_mode(rt, pclk1, Mode::Fast(DutyCycle::Ratio2to1), FAST)?;
    print_mode(rt, pclk1, Mode::Fast(DutyCycle::Ratio16to9), FAST)?;
    println!(rt)
}

fn main(rt: HostRuntime) -> io::Result<()> {
    println!(rt;
        "// The CCR words of the usual speeds, clock by clock. Of each clock: Standard at 10, 20, 50 and 100 kHz, then Fast 2:1"
    )?;
    println!(rt;
        "// and Fast 16:9, each at 125, 200, 250 and 400 kHz. `speed_generator` prints this file."
    )?;
    println!(rt; "pub const SPEED_WORDS: [u16; 420] = [")?;
    for mhz in 2..=36 {
        print_clock(&rt, mhz)?;
    }
    println!(rt; "];")
}
