// The functions for hosts, under their C names: each is the engine's function of the same name, with its contract.
#![tactic(auto)]

ghost use Rattle.std.specs.Prelude.{◌≡◌};
ghost use Rattle.engine.specs.Run.{HostRuns};
ghost use Rattle.engine.specs.Speed.{speed_cr2, speed_trise, speed_ccr, speed_table, SpeedUnder};

// The CR2 word of the settings.
#[unsafe(no_mangle)]
pub extern "C" fn speed_cr2(pclk1: u32, mode: u32, frequency: u32) -> u32
    ensures { result ≡ speed_cr2 pclk1 mode frequency }
{
    engine::speed_cr2(pclk1, mode, frequency)
}

// The TRISE word of the settings.
#[unsafe(no_mangle)]
pub extern "C" fn speed_trise(pclk1: u32, mode: u32, frequency: u32) -> u32
    ensures { result ≡ speed_trise pclk1 mode frequency }
{
    engine::speed_trise(pclk1, mode, frequency)
}

// The CCR word of the settings.
#[unsafe(no_mangle)]
pub extern "C" fn speed_ccr(pclk1: u32, mode: u32, frequency: u32) -> u32
    ensures { result ≡ speed_ccr pclk1 mode frequency }
{
    engine::speed_ccr(pclk1, mode, frequency)
}

// The CCR word of an entry of the table of usual speeds.
#[unsafe(no_mangle)]
pub extern "C" fn speed_table(index: u32) -> u32
    ensures { result ≡ speed_table index }
{
    engine::speed_table(index)
}

// The fastest speed under a ceiling: the answer, the mode and the CCR field go to `chosen`.
#[unsafe(no_mangle)]
pub extern "C" fn speed_under(pclk1: u32, ceiling: u32, chosen: &mut [u32; 3])
    ensures { SpeedUnder pclk1 ceiling chosen.new }
{
    engine::speed_under(pclk1, ceiling, chosen)
}

// The run for hosts: the answer and the four counts, in the order returned, go to `counts`.
#[unsafe(no_mangle)]
pub extern "C" fn bus_run(
    list: &[u8],
    readings: &[u32],
    rx: &mut [u8],
    log: &mut [u32],
    counts: &mut [u64; 5],
)
    ensures { HostRuns list readings rx log counts }
{
    engine::bus_run(list, readings, rx, log, counts)
}
