// Units of frequency and time, the settings of a run, and the register words that they give.
#![tactic(auto)]

ghost use Rattle.std.specs.Prelude.{◌≡◌, ◌<◌};
ghost use Rattle.units.specs.Time.{to_mhz, to_cycles};
ghost use Rattle.units.specs.Speed.{mode_of, mode_number, DecodesMode, frequency_out, cr2_word, trise_word, divisor, floor, speed_flags, ccr_word};
ghost use Rattle.units.specs.Setup.{setup_of};

// A clock or a bus frequency.
#[derive(Clone, Copy)]
pub struct Hertz(pub u32);

// A timeout as the settings have it.
#[derive(Clone, Copy)]
pub struct Micros(pub u32);

// A timeout as a wait counts it. It is wider than the cycle counter, so that a timeout past the counter's
// range (cause 23) is a value too.
#[derive(Clone, Copy)]
pub struct Cycles(pub u64);

#[derive(Clone, Copy)]
pub enum DutyCycle {
    Ratio2to1,
    Ratio16to9,
}

#[derive(Clone, Copy)]
pub enum Mode {
    Standard,
    Fast(DutyCycle),
}

#[derive(Clone, Copy)]
pub struct Settings {
    pub pclk1: Hertz,
    pub sysclk: Hertz,
    pub mode: Mode,
    pub frequency: Hertz,
    pub start_timeout: Micros,
    pub start_retries: u32,
    pub addr_timeout: Micros,
    pub data_timeout: Micros,
}

// What the settings come to before a run: the speed words, and the limits of the timed waits.
#[derive(Clone, Copy)]
pub struct Setup {
    pub cr2: u32,
    pub trise: u32,
    pub ccr: u32,
    pub start_retries: u32,
    pub start_limit: Cycles,
    pub addr_limit: Cycles,
    pub data_limit: Cycles,
}

// Whole megahertz, as the Rust's `to_MHz` has them.
pub fn to_mhz(clock: Hertz) -> u32
    ensures { result ≡ to_mhz clock }
{
    clock.0 / 1_000_000
}

// The one conversion of a unit into another. A function and no From: it takes the clock too.
pub fn to_cycles(timeout: Micros, sysclk: Hertz) -> Cycles
    ensures { result ≡ to_cycles timeout sysclk }
{
    let micros = timeout.0 as u64;
    let mhz = to_mhz(sysclk) as u64;
    Cycles(micros * mhz)
}

// A number that stands for no mode.
#[derive(Clone, Copy)]
pub struct UnknownMode(pub u32);

impl TryFrom<u32> for Mode {
    type Error = UnknownMode;

    ghost try_from_gives = { DecodesMode };

    fn try_from(number: u32) -> Result<Self, UnknownMode> {
        match number {
            0 => Ok(Mode::Standard),
            1 => Ok(Mode::Fast(DutyCycle::Ratio2to1)),
            2 => Ok(Mode::Fast(DutyCycle::Ratio16to9)),
            _ => Err(UnknownMode(number)),
        }
    }
}

impl From<Mode> for u32 {
    ghost from_gives = { λ mode number. number ≡ mode_number mode };

    fn from(mode: Mode) -> u32 {
        match mode {
            Mode::Standard => 0,
            Mode::Fast(DutyCycle::Ratio2to1) => 1,
            Mode::Fast(DutyCycle::Ratio16to9) => 2,
        }
    }
}

// The mode of a number that need not be known: the settings can be read of any list.
pub fn mode_of(number: u32) -> Mode
    ensures { result ≡ mode_of number }
{
    Mode::try_from(number).unwrap_or(Mode::Fast(DutyCycle::Ratio16to9))
}

// Cause 22.
pub fn frequency_out(frequency: Hertz) -> bool
    ensures { result ≡ frequency_out frequency }
{
    !(1..=400_000).contains(&frequency.0)
}

pub fn cr2_word(pclk1: Hertz) -> u32
    ensures { result ≡ cr2_word pclk1 }
{
    to_mhz(pclk1) % 64
}

pub fn trise_word(pclk1: Hertz, mode: Mode) -> u32
    ensures { result ≡ trise_word pclk1 mode }
{
    let mhz = to_mhz(pclk1);
    match mode {
        Mode::Standard => (mhz + 1) % 64,
        Mode::Fast(_) => (mhz * 300 / 1000 + 1) % 64,
    }
}

impl Mode {
    // A mode's divisor of the frequency.
    pub fn divisor(self) -> u64
        ensures { result ≡ divisor self }
    {
        match self {
            Mode::Standard => 2,
            Mode::Fast(DutyCycle::Ratio2to1) => 3,
            Mode::Fast(DutyCycle::Ratio16to9) => 25,
        }
    }

    // A mode's least CCR field.
    pub fn floor(self) -> u64
        ensures { result ≡ floor self }
    {
        match self {
            Mode::Standard => 4,
            Mode::Fast(_) => 1,
        }
    }

    // F/S and DUTY.
    fn speed_flags(self) -> u32
        ensures { result ≡ speed_flags self }
    {
        match self {
            Mode::Standard => 0,
            Mode::Fast(DutyCycle::Ratio2to1) => 0x8000,
            Mode::Fast(DutyCycle::Ratio16to9) => 0xc000,
        }
    }
}

pub fn ccr_word(pclk1: Hertz, mode: Mode, frequency: Hertz) -> u32
    requires { 0 < frequency.0 }
    ensures { result ≡ ccr_word pclk1 mode frequency }
{
    let period = mode.divisor() * frequency.0 as u64;
    let field = (pclk1.0 as u64 / period).max(mode.floor());
    (field % 4096) as u32 + mode.speed_flags()
}

#[tactic(auto, unfolding(crate::specs::Setup::setup_of))]
pub fn setup_of(settings: Settings) -> Setup
    requires { 0 < settings.frequency.0 }
    ensures { result ≡ setup_of settings }
{
    let mode = settings.mode;
    Setup {
        cr2: cr2_word(settings.pclk1),
        trise: trise_word(settings.pclk1, mode),
        ccr: ccr_word(settings.pclk1, mode, settings.frequency),
        start_retries: settings.start_retries,
        start_limit: to_cycles(settings.start_timeout, settings.sysclk),
        addr_limit: to_cycles(settings.addr_timeout, settings.sysclk),
        data_limit: to_cycles(settings.data_timeout, settings.sysclk),
    }
}
