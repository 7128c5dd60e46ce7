// The kinds of calls.

ghost use Rattle.buslist.specs.Kind.{DecodesKind};

// What a call does, and which engine does it.
#[derive(Clone, Copy, PartialEq, Eq)]
pub enum Kind {
    PollingWrite = 0,
    PollingRead = 1,
    PollingWriteRead = 2,
    PollingTransaction = 3,
    BlockingWrite = 4,
    BlockingRead = 5,
    BlockingWriteRead = 6,
    BlockingTransaction = 7,
}

// A number that stands for no kind.
#[derive(Clone, Copy)]
pub struct UnknownKind(pub u8);

impl TryFrom<u8> for Kind {
    type Error = UnknownKind;

    ghost try_from_gives = { DecodesKind };

    fn try_from(number: u8) -> Result<Self, UnknownKind> {
        match number {
            0 => Ok(Kind::PollingWrite),
            1 => Ok(Kind::PollingRead),
            2 => Ok(Kind::PollingWriteRead),
            3 => Ok(Kind::PollingTransaction),
            4 => Ok(Kind::BlockingWrite),
            5 => Ok(Kind::BlockingRead),
            6 => Ok(Kind::BlockingWriteRead),
            7 => Ok(Kind::BlockingTransaction),
            _ => Err(UnknownKind(number)),
        }
    }
}
