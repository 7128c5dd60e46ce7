// The causes that refuse a list.

ghost use Rattle.std.specs.Prelude.{◌≡◌};
ghost use Rattle.acceptance.specs.Refused.{cause_number};

// Why a list is refused, by the number of the cause.
#[derive(Clone, Copy, PartialEq, Eq)]
pub enum Refusal {
    // It is not of the form.
    Form = 20,
    // It, a table or an operation is too long.
    Limit = 21,
    // The frequency is 0 or too high.
    Frequency = 22,
    // A timeout has too many cycles.
    Timeout = 23,
    // An address does not fit its width, or is a ten-bit one in a blocking call.
    Address = 24,
    // A blocking write or read has no bytes.
    EmptyBlocking = 25,
    // The received buffer has no room for all reads.
    Room = 26,
    // A write comes after a read in a blocking transaction.
    WriteAfterRead = 27,
}

impl From<Refusal> for u32 {
    ghost from_gives = { λ refusal number. number ≡ cause_number refusal };

    fn from(refusal: Refusal) -> u32 {
        refusal as u32
    }
}
