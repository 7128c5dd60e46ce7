// Hand-made cases as text, for the programs that run them: the text's words and numbers, and the bytes of a bus list.
//
//   = NAME N N            starts a case: its name, and two numbers whose meaning the program tells
//   b N N ..  h N ..  w N ..   numbers of one, two and four bytes, low byte first
//   x N                   the last eight bytes N more times
//   z N                   N zero bytes
//   !                     runs the case on what was read so far
//
// A letter holds until the next letter, and a program may have more of them. Of a word the first byte tells what it is.
// Blanks part the words, and a word that starts with '#' starts a comment to the line's end. A number is decimal, or
// hexadecimal after 0x; of one that is too large for its letter the low bytes are taken.
#![tactic(auto)]

ghost use Rattle.std.specs.Prelude.{ℕ, List, Some, ◌≡◌, ◌↔◌, ◌+◌, ◌-◌, ◌^◌, ◌%◌, ◌<◌, [], ◌∷◌, ◌++◌, length, take, replicate, min, IsTrue, IsFalse};
ghost use Rattle.std.specs.Int.{to_le_bytes, w64};
ghost use Rattle.cases.specs.Items.{items, capacity};
ghost use Rattle.cases.specs.declared.Letter.{Letter};

mod filled;
mod words;

pub use filled::Filled;
use std::{fmt, io};
pub use words::{Case, run_all};

// What a digit stands for, a hexadecimal one too; 0 for any other byte.
fn digit(byte: u8) -> u64
    ensures { result < 16 }
{
    match byte {
        b'0'..=b'9' => (byte - b'0') as u64,
        b'a'..=b'f' => (byte - b'a') as u64 + 10,
        _ => 0,
    }
}

// The number that a word spells. The 0x in front of a hexadecimal one counts as two zeros, and digits past what 32 bits
// can hold are dropped, so that nothing wraps.
fn number(word: &[u8]) -> u64 {
    let base = if word.get(1) == Some(&b'x') { 16 } else { 10 };
    let mut number = 0u64;
    for byte in word {
        if number < 4294967296 {
            number = number * base + digit(*byte);
        }
    }
    number
}

// What a program makes of the words of its cases, where the text is bytes.
pub trait ByteCase {
    // What the numbers after a letter are.
    type Letter: Copy;

    // Whether a letter holds past the start of the next case.
    const LETTER_LASTS: bool;

    // The bytes of its bus list.
    ghost list: { Self → List ℕ };

    // A case starts by the two numbers after its name, with nothing else read. What they mean is the program's own.
    fn start(&mut self, first: u64, second: u64)
        ensures { list self.new ≡ [] };

    // The letter that a word with this first byte is. The numbers after one that is none are left out. Which bytes are
    // letters is the program's own, so there is no clause.
    fn letter(first: u8) -> Option<Self::Letter>;

    // The list keeps the bytes that it has. What a number adds is the program's own.
    fn put(&mut self, letter: Self::Letter, number: u64)
        ensures { take (length (list self.old)) (list self.new) ≡ list self.old };

    // Runs the case and prints it. The answer is whether it agrees, by what the program compares: there is no clause.
    fn run(&self, rt: &impl Print, name: &[u8]) -> io::Result<bool>;
}

// What the next word of the text is: part of a case's body, or one of the three words of a start, with those before it.
#[derive(Clone, Copy)]
enum Next<'a> {
    Body,
    Name,
    First(&'a [u8]),
    Second(&'a [u8], u64),
}

// How far the text is read: the name of the case, the letter that holds, and what comes next.
#[derive(Clone, Copy)]
struct Place<'a, L> {
    name: &'a [u8],
    letter: Option<L>,
    next: Next<'a>,
}

// A word of a case's body.
fn body<'a, C: ByteCase>(
    rt: &impl Print,
    case: &mut C,
    tally: &mut Tally,
    place: Place<'a, C::Letter>,
    word: &[u8],
) -> io::Result<Place<'a, C::Letter>> {
    match word.first().copied() {
        Some(b'=') => Ok(Place {
            next: Next::Name,
            ..place
        }),
        Some(b'!') => {
            tally.count(case.run(rt, place.name)?);
            Ok(place)
        }
        Some(b'0'..=b'9') => {
            if let Some(letter) = place.letter {
                case.put(letter, number(word));
            }
            Ok(place)
        }
        Some(first) => Ok(Place {
            letter: C::letter(first),
            ..place
        }),
        None => Ok(place),
    }
}

// One word of the text.
fn step<'a, C: ByteCase>(
    rt: &impl Print,
    case: &mut C,
    tally: &mut Tally,
    place: Place<'a, C::Letter>,
    word: &'a [u8],
) -> io::Result<Place<'a, C::Letter>> {
    let next = match place.next {
        Next::Body => return body(rt, case, tally, place, word),
        Next::Name => Next::First(word),
        Next::First(name) => Next::Second(name, number(word)),
        Next::Second(name, first) => {
            case.start(first, number(word));
            return Ok(Place {
                name,
                letter: place.letter.filter(|_| C::LETTER_LASTS),
                next: Next::Body,
            });
        }
    };
    Ok(Place { next, ..place })
}

// Runs the cases of a text of bytes, and prints how many there were and how many of them differ. What stands before the
// first `=` is of the case that is handed over, which has no name. What is printed stands in no clause.
pub fn run_bytes<C: ByteCase>(rt: &impl Print, text: &[u8], case: &mut C) -> io::Result<()> {
    let words = text.split(|byte| *byte == b'\n').flat_map(|line| {
        line.split(|byte| *byte <= b' ')
            .filter(|word| !word.is_empty())
            .take_while(|word| !word.starts_with(b"#"))
    });
    let mut tally = Tally::default();
    let mut place = Place {
        name: &[],
        letter: None,
        next: Next::Body,
    };
    for word in words {
        place = step(rt, case, &mut tally, place, word)?;
    }
    println!(rt; "{tally}")
}

// What a number adds to the list, by the letter before it.
#[derive(Clone, Copy)]
pub enum Letter {
    Byte,
    Half,
    Word,
    Again,
    Zeros,
}

impl Letter {
    // No other byte is a letter of the list.
    pub fn of(byte: u8) -> Option<Letter>
        ensures byte { (result ≡ Some Letter.Byte) ↔ (byte ≡ 98) }
        ensures half { (result ≡ Some Letter.Half) ↔ (byte ≡ 104) }
        ensures word { (result ≡ Some Letter.Word) ↔ (byte ≡ 119) }
        ensures again { (result ≡ Some Letter.Again) ↔ (byte ≡ 120) }
        ensures zeros { (result ≡ Some Letter.Zeros) ↔ (byte ≡ 122) }
    {
        match byte {
            b'b' => Some(Letter::Byte),
            b'h' => Some(Letter::Half),
            b'w' => Some(Letter::Word),
            b'x' => Some(Letter::Again),
            b'z' => Some(Letter::Zeros),
            _ => None,
        }
    }

    // Adds to the list what the number is under this letter, as far as the list has room.
    pub fn put(self, list: &mut Filled<'_, u8>, number: u64)
        ensures byte { self ≡ Letter.Byte → items list.new ≡ take (capacity list.old) (items list.old ++ number % 256 ∷ []) }
        ensures half { self ≡ Letter.Half → items list.new ≡ take (capacity list.old) (items list.old ++ take 2 (to_le_bytes w64 number)) }
        ensures word { self ≡ Letter.Word → items list.new ≡ take (capacity list.old) (items list.old ++ take 4 (to_le_bytes w64 number)) }
        ensures zeros { self ≡ Letter.Zeros → items list.new ≡ take (capacity list.old) (items list.old ++ replicate number 0) }
        ensures kept { take (length (items list.old)) (items list.new) ≡ items list.old }
        ensures room { capacity list.new ≡ capacity list.old }
    {
        let bytes = number.to_le_bytes();
        match self {
            Letter::Byte => list.extend(&bytes[..1]),
            Letter::Half => list.extend(&bytes[..2]),
            Letter::Word => list.extend(&bytes[..4]),
            Letter::Again => repeat(list, number),
            Letter::Zeros => list.fill(0, number),
        }
    }
}

// The last eight bytes `count` times more; nothing where there are fewer. No list has room for more times than bytes.
fn repeat(list: &mut Filled<'_, u8>, count: u64)
    ensures kept { take (length (items list.old)) (items list.new) ≡ items list.old }
    ensures room { capacity list.new ≡ capacity list.old }
{
    if let Some(last) = list.as_slice().last_chunk::<8>().copied() {
        for _ in 0..count.min(list.capacity() as u64) {
            list.extend(&last);
        }
    }
}

// How many cases were run, and how many of them differ.
#[derive(Clone, Copy, Default)]
pub struct Tally {
    cases: u64,
    differ: u64,
}

impl Tally {
    pub fn all_agree(&self) -> bool
        ensures { IsTrue result ↔ (self.now.differ ≡ 0) }
    {
        self.differ == 0
    }

    // One case more. No text has so many that a count ends.
    pub fn count(&mut self, agrees: bool)
        ensures cases { self.new.cases ≡ min (self.old.cases + 1) (2 ^ 64 - 1) }
        ensures agrees { IsTrue agrees → self.new.differ ≡ self.old.differ }
        ensures differs { IsFalse agrees → self.new.differ ≡ min (self.old.differ + 1) (2 ^ 64 - 1) }
    {
        self.cases = self.cases.saturating_add(1);
        if !agrees {
            self.differ = self.differ.saturating_add(1);
        }
    }
}

impl fmt::Display for Tally {
    fn fmt<W: fmt::Write>(&self, f: &mut fmt::Formatter<W>) -> fmt::Result {
        let cases = self.cases;
        let differ = self.differ;
        write!(f, "{cases} cases, {differ} differ")
    }
}
