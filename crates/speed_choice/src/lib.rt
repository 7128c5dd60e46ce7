// The fastest speed under a ceiling: of all modes and CCR fields that fit, the one with the smallest product.
#![tactic(auto)]

ghost use Rattle.std.specs.Prelude.{◌≡◌, ◌<◌};
ghost use Rattle.speed_choice.specs.Choice.{product, place, no_choice_number, Chooses};
ghost use Rattle.speed_choice.specs.Search.{least_choice, comes_before, first_of};

use units::{DutyCycle, Hertz, Mode};

// A mode and a CCR field.
#[derive(Clone, Copy)]
pub struct Choice {
    pub mode: Mode,
    pub field: u32,
}

// Why there is no choice, by the number of the cause.
#[derive(Clone, Copy)]
pub enum NoChoice {
    // The ceiling is 0 or too high.
    Ceiling = 22,
    // No mode and field fit.
    NoneFits = 28,
}

impl From<NoChoice> for u32 {
    ghost from_gives = { λ reason number. number ≡ no_choice_number reason };

    fn from(reason: NoChoice) -> u32 {
        reason as u32
    }
}

const LAST_FIELD: u64 = 4095;

// Where a mode stands among equal products.
fn place(mode: Mode) -> u32
    ensures { result ≡ place mode }
{
    match mode {
        Mode::Standard => 0,
        Mode::Fast(DutyCycle::Ratio2to1) => 1,
        Mode::Fast(DutyCycle::Ratio16to9) => 2,
    }
}

impl Choice {
    fn product(self) -> u64
        ensures { result ≡ product self }
    {
        self.mode.divisor() * self.field as u64
    }

    fn comes_before(self, other: Choice) -> bool
        ensures { result ≡ comes_before self other }
    {
        let (product, other_product) = (self.product(), other.product());
        product < other_product || product == other_product && place(self.mode) < place(other.mode)
    }
}

// The choice of this mode with the smallest product, where one fits. The division rounds up: rounded down the bus could
// be faster than the ceiling.
fn least_choice(mode: Mode, pclk1: Hertz, ceiling: Hertz) -> Option<Choice>
    requires { 0 < ceiling.0 }
    ensures { result ≡ least_choice mode pclk1 ceiling }
{
    let period = mode.divisor() * ceiling.0 as u64;
    let field = (pclk1.0 as u64).div_ceil(period).max(mode.floor());
    if field <= LAST_FIELD {
        Some(Choice {
            mode,
            field: field as u32,
        })
    } else {
        None
    }
}

// Of two choices the one that comes before the other; of one alone, that one.
fn first_of(one: Option<Choice>, other: Option<Choice>) -> Option<Choice>
    ensures { result ≡ first_of one other }
{
    match (one, other) {
        (Some(a), Some(b)) => Some(if b.comes_before(a) { b } else { a }),
        (one, None) => one,
        (None, other) => other,
    }
}

// The choice under a ceiling, or why there is none.
#[tactic(auto, using(crate::proofs::Right::found))]
pub fn fastest(pclk1: Hertz, ceiling: Hertz) -> Result<Choice, NoChoice>
    ensures { Chooses pclk1 ceiling result }
{
    if units::frequency_out(ceiling) {
        return Err(NoChoice::Ceiling);
    }
    let standard = least_choice(Mode::Standard, pclk1, ceiling);
    let ratio2to1 = least_choice(Mode::Fast(DutyCycle::Ratio2to1), pclk1, ceiling);
    let ratio16to9 = least_choice(Mode::Fast(DutyCycle::Ratio16to9), pclk1, ceiling);
    first_of(first_of(standard, ratio2to1), ratio16to9).ok_or(NoChoice::NoneFits)
}
