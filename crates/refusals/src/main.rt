// Runs hand-made bus lists through `acceptance::accept`, and prints for each the cause that was written down from
// the papers beside the cause that came back. The cases are text on standard input:
//
//   = NAME CAUSE LENGTH   starts a case: its name, the cause from the papers, the received buffer's length
//   b, h, w, x, z         the list's bytes, as the crate `cases` reads them
//   !                     runs the case on the bytes so far
//
// A letter holds until the next letter. The file `stdout` is made from the cases alone, with no run, by this line:
//
//   awk '{sub(/ *#.*/,"")}$1=="="{print $2 ": document " $3 ", refusal " $3;n++}END{print n " cases, 0 differ"}' stdin > stdout
#![tactic(auto)]

use cases::{Filled, Letter};
use std::io;

// A case as far as it has been read.
#[derive(Drop)]
struct Case<'a> {
    // The cause from the document.
    cause: u64,
    // The received buffer's length.
    room: usize,
    list: Filled<'a, u8>,
}

impl<'a> Case<'a> {
    // The number of the cause that refuses the list, 0 for one that is accepted.
    fn verdict(&self) -> u32 {
        match acceptance::accept(self.list.as_slice(), self.room) {
            Ok(_) => 0,
            Err(refusal) => refusal.into(),
        }
    }
}

impl<'a> cases::ByteCase for Case<'a> {
    type Letter = Letter;

    const LETTER_LASTS: bool = true;

    ghost use Rattle.cases.specs.Items.{items};

    ghost list = { λ case. items case.list };

    fn start(&mut self, cause: u64, room: u64) {
        self.cause = cause;
        self.room = room as usize;
        self.list.clear();
    }

    fn letter(first: u8) -> Option<Letter> {
        Letter::of(first)
    }

    fn put(&mut self, letter: Letter, number: u64) {
        letter.put(&mut self.list, number);
    }

    fn run(&self, rt: &impl Print, name: &[u8]) -> io::Result<bool> {
        let cause = self.cause;
        let refusal = self.verdict();
        rt.write_all(name)?;
        println!(rt; ": document {cause}, refusal {refusal}")?;
        Ok(refusal as u64 == cause)
    }
}

fn main(rt: HostRuntime) -> io::Result<()> {
    let mut text = [0u8; 65536];
    let size = input::read_full(&mut rt.stdin(), &mut text)?;
    let mut list = [0u8; 65536];
    let mut case = Case {
        cause: 0,
        room: 0,
        list: Filled::new(&mut list),
    };
    cases::run_bytes(&rt, &text[..size], &mut case)
}
