// Replays the stored vectors of the oracle: cases with what the original Rust left of them, in `vectors.bin` in the
// current folder. Ten-bit calls in them were done by the oracle's model of the papers. Each case is run on buffers of
// its lengths, full of a pattern, and compared: the answer, the four counts, the record, the received bytes, and that
// what lies past them in both buffers is as it was. The first case that differs is named; then come how many runs had
// each answer, and how many cases differ.
//
// How the vectors are made, and their form, is in oracle/README.md, "Stored vectors". The file `stdout` is made from
// them alone, with no run, by the line below:
//
//   od -An -v -w4 -tu4 --endian=little data/vectors.bin | awk '{w[NR-1]=$1}END{for(i=0;i<NR;i+=9+int((w[i]+3)/4)+w[i+1]+2*w[i+7]+int((w[i+8]+3)/4)){n[w[i+4]]++;c++}for(a=0;a<28;a++)if(n[a])print "answer " a ": " n[a] " cases";print c " cases, 0 differ"}' > stdout
#![tactic(auto)]

ghost use Rattle.std.specs.Prelude.{◌≤◌};

use buffers::{Expected, Run, counts_of, first, to_words};
use cases::Tally;
use engine::Counts;
use registers::ENTRY_WORDS;
use std::fs::File;
use std::io;
use std::io::Read;

// How long a case is at most: in bytes after its first nine words, the received buffer in bytes, the record in words.
const BODY: usize = 4096;

const ROOM: usize = 4096;

const WORDS: usize = 2048;

// Cases that are read at most, so that the loop over them plainly ends: a file of 1 MiB has no more, since a case has
// nine words at least.
const MOST: usize = 29127;

// The first nine words of a case.
#[derive(Clone, Copy)]
struct Head {
    // The lengths of the list in bytes, of the readings in words, of the received buffer in bytes, of the record in
    // words.
    list: u32,
    readings: u32,
    room: u32,
    words: u32,
    // What the oracle came to: its answer and its four counts.
    answer: u32,
    calls: u32,
    used: u32,
    made: u32,
    got: u32,
}

// Bytes are filled up to a whole word.
fn padded(bytes: u32) -> usize
    ensures { result ≤ 4294967296 }
{
    (bytes as usize).div_ceil(4) * 4
}

impl Head {
    fn of(bytes: &[u8; 36]) -> Head {
        let mut words = [0; 9];
        to_words(bytes, &mut words);
        let [list, readings, room, words, answer, calls, used, made, got] = words;
        Head {
            list,
            readings,
            room,
            words,
            answer,
            calls,
            used,
            made,
            got,
        }
    }

    // How many words of the record the case has.
    fn record(&self) -> usize
        ensures { result ≤ 8589934590 }
    {
        ENTRY_WORDS * self.made as usize
    }

    // How many bytes the case has after its first nine words.
    fn body(&self) -> usize {
        let words = self.readings as usize + self.record();
        padded(self.list) + 4 * words + padded(self.got)
    }

    // Whether the run's buffers are long enough for the case.
    fn has_room(&self) -> bool {
        self.room as usize <= ROOM && self.words as usize <= WORDS
    }

    fn counts(&self) -> Counts {
        counts_of([self.answer, self.calls, self.used, self.made, self.got])
    }
}

// The first so many bytes, and those after them.
fn cut(bytes: &[u8], count: usize) -> (&[u8], &[u8]) {
    bytes.split_at(count.min(bytes.len()))
}

// A stored case: its list, the bytes of its readings and of its record, and the received bytes.
#[derive(Clone, Copy)]
struct Case<'a> {
    head: Head,
    list: &'a [u8],
    readings: &'a [u8],
    record: &'a [u8],
    received: &'a [u8],
}

impl<'a> Case<'a> {
    fn of(head: Head, body: &'a [u8]) -> Case<'a> {
        let (list, rest) = cut(body, padded(head.list));
        let (readings, rest) = cut(rest, 4 * head.readings as usize);
        let (record, received) = cut(rest, 4 * head.record());
        Case {
            head,
            list: first(list, head.list as usize),
            readings,
            record,
            received: first(received, head.got as usize),
        }
    }
}

// Why the file's next case could not be read.
#[derive(Drop)]
enum Unread {
    CutShort,
    TooLong,
    Failed(io::Error),
}

impl From<io::Error> for Unread {
    fn from(error: io::Error) -> Unread {
        Unread::Failed(error)
    }
}

// The file's next case, where it has one. What follows its first nine words goes to the body.
fn read_case<'a>(file: &mut impl Read, body: &'a mut [u8]) -> Result<Option<Case<'a>>, Unread> {
    let mut bytes = [0; 36];
    let count = input::read_full(file, &mut bytes)?;
    if count == 0 {
        return Ok(None);
    }
    if count < bytes.len() {
        return Err(Unread::CutShort);
    }
    let head = Head::of(&bytes);
    let size = head.body();
    if body.len() < size || !head.has_room() {
        return Err(Unread::TooLong);
    }
    if input::read_full(file, &mut body[..size])? < size {
        return Err(Unread::CutShort);
    }
    Ok(Some(Case::of(head, &body[..size])))
}

// How many runs had each answer, by the number of the answer, as C hosts get it, and how many cases differ.
#[derive(Drop)]
struct Replay {
    answers: [u32; 28],
    tally: Tally,
}

impl Replay {
    // Runs a case and counts it. The first that differs is named, with its number from 0.
    fn run(&mut self, rt: &impl Print, number: usize, case: Case<'_>) -> io::Result<()> {
        let mut readings = [0; BODY / 4];
        let readings = to_words(case.readings, &mut readings);
        let mut record = [0; BODY / 4];
        let expected = Expected {
            record: to_words(case.record, &mut record),
            received: case.received,
            counts: case.head.counts(),
        };
        let mut rx = [0; ROOM];
        let mut log = [0; WORDS];
        let room = case.head.room as usize;
        let words = case.head.words as usize;
        let run = Run::on(case.list, readings, &mut rx, room, &mut log, words);
        let compared = run.compare(expected);
        if let Err(difference) = compared {
            if self.tally.all_agree() {
                println!(rt; "case {number} differs: {difference}")?;
            }
        }
        self.tally.count(compared.is_ok());
        self.count_answer(run.counts().answer);
        Ok(())
    }

    // One run more with this answer. No file has so many that a count ends.
    fn count_answer(&mut self, answer: u32) {
        if let Some(runs) = self.answers.get_mut(answer as usize) {
            *runs = runs.saturating_add(1);
        }
    }

    // A line for each answer that a run had, and how many cases differ.
    fn print(&self, rt: &impl Print) -> io::Result<()> {
        for (answer, runs) in self.answers.iter().enumerate() {
            if *runs > 0 {
                println!(rt; "answer {answer}: {runs} cases")?;
            }
        }
        println!(rt; "{}", self.tally)
    }
}

// All cases, up to one that cannot be read, which is named.
fn replay_all(rt: &impl Print, file: &mut impl Read) -> io::Result<Replay> {
    let mut replay = Replay {
        answers: [0; 28],
        tally: Tally::default(),
    };
    let mut body = [0; BODY];
    for number in 0..MOST {
        match read_case(file, &mut body) {
            Ok(Some(case)) => replay.run(rt, number, case)?,
            Ok(None) => break,
            Err(Unread::Failed(error)) => return Err(error),
            Err(Unread::CutShort) => {
                println!(rt; "case {number} is cut short")?;
                break;
            }
            Err(Unread::TooLong) => {
                println!(rt; "case {number} is too long")?;
                break;
            }
        }
    }
    Ok(replay)
}

fn main(rt: HostRuntime) -> io::Result<()> {
    let mut file = match File::open(&rt, "vectors.bin") {
        Ok(file) => file,
        Err(error) => return input::report(&rt, "vectors.bin", error),
    };
    replay_all(&rt, &mut file)?.print(&rt)
}
