// Runs hand-made bus lists on hand-made readings, and prints every access that was written down from the papers
// beside the access that the run made, then the received bytes and the end the same way, and whether all agrees: the
// accesses, the received bytes, the answer and the four counts, and that what lies past them in both buffers is as it
// was. The cases are text on standard input:
//
//   = NAME LENGTH WORDS   starts a case: its name, the received buffer's length, the record's length in words
//   b, h, w, x, z         the list's bytes, as the crate `cases` reads them
//   r N N ..              readings
//   a CODE VALUE ..       the accesses from the document
//   g N N ..              the received bytes from the document
//   c N N N N N           the answer and the four counts from the document
//   !                     runs the case on what was read so far
//
// A letter holds until the next letter. The file `stdout` is made from the cases alone, with no run, by the line below.
// It counts on this: a line that starts with a, g or c has no other letter, the values after a and the bytes after g
// are hexadecimal with as many digits as are printed, and a case has at most one line each of g and c.
//
//   awk 'BEGIN{split("r sr1,r sr2,r cr1,r dr,r cyc,,,,,,w cr1,w cr2,w ccr,w trise,w sr1,w dr",R,",")}function t(x){print "  document " x ", run " x}{sub(/ *#.*/,"")}$1=="="{print $2 ":";x="";n++}$1=="a"{for(i=2;i<NF;i+=2)t(R[$i] " " substr($(i+1),3))}$1=="g"{x="rx";for(i=2;i<=NF;i++)x=x " " substr($i,3)}$1=="c"{$1="end";c=$0}$1=="!"{if(x!="")t(x);t(c);print "  agrees"}END{print n " cases, 0 differ"}' stdin > stdout
#![tactic(auto)]

use buffers::{Expected, Run, counts_of, entries, entries_in};
use cases::Filled;
use engine::Counts;
use registers::Entry;
use std::io;

// How long a case's buffers are at most: the received one has room for the longest read and a byte more, the record for
// 128 accesses.
const ROOM: usize = 259;

const WORDS: usize = 256;

// What the numbers after a letter are: the list's, or those of its own.
#[derive(Clone, Copy)]
enum Letter {
    List(cases::Letter),
    Readings,
    Accesses,
    Received,
    Counts,
}

// A case as far as it has been read.
#[derive(Drop)]
struct Case<'a> {
    // The lengths of the received buffer, and of the record in words.
    room: usize,
    words: usize,
    list: Filled<'a, u8>,
    readings: Filled<'a, u32>,
    // From the document: the words of the accesses, the received bytes, the answer and the four counts.
    accesses: Filled<'a, u32>,
    received: Filled<'a, u8>,
    counts: Filled<'a, u32>,
}

impl<'a> Case<'a> {
    // The end from the document. A number that is missing is 0.
    fn end(&self) -> Counts {
        let mut numbers = [0; 5];
        for (number, count) in numbers.iter_mut().zip(self.counts.as_slice()) {
            *number = *count;
        }
        counts_of(numbers)
    }

    // Whether the run did what was written down, and nothing else.
    fn agrees(&self, run: &Run<'_>) -> bool {
        let expected = Expected {
            record: self.accesses.as_slice(),
            received: self.received.as_slice(),
            counts: self.end(),
        };
        self.counts.as_slice().len() == 5 && run.compare(expected).is_ok()
    }
}

// One side's access, a mark where there is none.
fn print_access(rt: &impl Print, entry: Option<Entry>) -> io::Result<()> {
    match entry {
        Some(entry) => show::access(rt, entry),
        None => print!(rt; "-"),
    }
}

// The accesses from the document and from the run, side by side.
fn print_accesses(rt: &impl Print, accesses: &[u32], made: &[u32]) -> io::Result<()> {
    let mut document = entries(accesses);
    let mut run = entries(made);
    for _ in 0..entries_in(accesses).max(entries_in(made)) {
        print!(rt; "  document ")?;
        print_access(rt, document.next())?;
        print!(rt; ", run ")?;
        print_access(rt, run.next())?;
        show::line_end(rt)?;
    }
    Ok(())
}

// The received bytes from both sides, where either side has any.
fn print_received(rt: &impl Print, bytes: &[u8], got: &[u8]) -> io::Result<()> {
    if bytes.is_empty() && got.is_empty() {
        return Ok(());
    }
    print!(rt; "  document ")?;
    show::received(rt, bytes)?;
    print!(rt; ", run ")?;
    show::received(rt, got)?;
    show::line_end(rt)
}

// The answer and the counts from both sides.
fn print_end(rt: &impl Print, document: Counts, run: Counts) -> io::Result<()> {
    print!(rt; "  document ")?;
    show::end(rt, document)?;
    print!(rt; ", run ")?;
    show::end(rt, run)?;
    show::line_end(rt)
}

impl<'a> cases::ByteCase for Case<'a> {
    type Letter = Letter;

    const LETTER_LASTS: bool = false;

    ghost use Rattle.cases.specs.Items.{items};

    ghost list = { λ case. items case.list };

    fn start(&mut self, room: u64, words: u64) {
        self.room = room as usize;
        self.words = words as usize;
        self.list.clear();
        self.readings.clear();
        self.accesses.clear();
        self.received.clear();
        self.counts.clear();
    }

    fn letter(first: u8) -> Option<Letter> {
        match first {
            b'r' => Some(Letter::Readings),
            b'a' => Some(Letter::Accesses),
            b'g' => Some(Letter::Received),
            b'c' => Some(Letter::Counts),
            _ => cases::Letter::of(first).map(Letter::List),
        }
    }

    // Of a word the lowest 32 bits are taken, of a received byte the lowest eight.
    fn put(&mut self, letter: Letter, number: u64) {
        let word = (number % 4294967296) as u32;
        match letter {
            Letter::List(letter) => letter.put(&mut self.list, number),
            Letter::Readings => self.readings.push(word),
            Letter::Accesses => self.accesses.push(word),
            Letter::Received => self.received.push((word % 256) as u8),
            Letter::Counts => self.counts.push(word),
        }
    }

    fn run(&self, rt: &impl Print, name: &[u8]) -> io::Result<bool> {
        let list = self.list.as_slice();
        let readings = self.readings.as_slice();
        let mut rx = [0; ROOM];
        let mut log = [0; WORDS];
        let run = Run::on(list, readings, &mut rx, self.room, &mut log, self.words);
        rt.write_all(name)?;
        println!(rt; ":")?;
        print_accesses(rt, self.accesses.as_slice(), run.record())?;
        print_received(rt, self.received.as_slice(), run.received())?;
        print_end(rt, self.end(), run.counts())?;
        let agrees = self.agrees(&run);
        println!(rt; "  {}", if agrees { "agrees" } else { "DIFFERS" })?;
        Ok(agrees)
    }
}

fn main(rt: HostRuntime) -> io::Result<()> {
    let mut text = [0u8; 65536];
    let size = input::read_full(&mut rt.stdin(), &mut text)?;
    let mut list = [0; 4096];
    let mut readings = [0; 1024];
    let mut accesses = [0; 2048];
    let mut received = [0; 4096];
    let mut counts = [0; 8];
    let mut case = Case {
        room: 0,
        words: 0,
        list: Filled::new(&mut list),
        readings: Filled::new(&mut readings),
        accesses: Filled::new(&mut accesses),
        received: Filled::new(&mut received),
        counts: Filled::new(&mut counts),
    };
    cases::run_bytes(&rt, &text[..size], &mut case)
}
