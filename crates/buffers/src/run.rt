// A run on buffers that are lent to it, beside what it should do.

ghost use Rattle.std.specs.Prelude.{◌≡◌, ◌≤◌, ℕ, List, length, take, IsOk};
ghost use Rattle.registers.specs.Access.{words_in};
ghost use Rattle.engine.specs.Run.{RunsTo, in_order};

use crate::first;
use engine::Counts;
use registers::ENTRY_WORDS;
use std::fmt;

// What the received buffer has at `at` before a run. Neighbours differ, so that a byte moved from elsewhere shows too.
fn old_byte(at: usize) -> u8 {
    ((at % 256 * 37 + 165) % 256) as u8
}

// What the record has at `at` before a run.
fn old_word(at: usize) -> u32 {
    0xDEAD0000 + (at % 65536) as u32
}

// The accesses' words, the received bytes, and how the run ends.
#[derive(Clone, Copy)]
pub struct Expected<'a> {
    pub record: &'a [u32],
    pub received: &'a [u8],
    pub counts: Counts,
}

// The first thing in which a run is not as expected.
#[derive(Clone, Copy)]
pub enum Difference {
    Answer,
    Counts,
    Record,
    Received,
    PastTheEnd,
}

impl fmt::Display for Difference {
    fn fmt<W: fmt::Write>(&self, f: &mut fmt::Formatter<W>) -> fmt::Result {
        f.write_str(match self {
            Difference::Answer => "answer",
            Difference::Counts => "counts",
            Difference::Record => "record",
            Difference::Received => "received",
            Difference::PastTheEnd => "past the end",
        })
    }
}

// The answer and the four counts, in the order returned.
pub fn counts_of(numbers: [u32; 5]) -> Counts
    ensures { in_order result ≡ numbers }
{
    let [answer, calls, used, made, got] = numbers;
    Counts {
        answer,
        calls: calls as usize,
        used: used as usize,
        made: made as usize,
        got: got as usize,
    }
}

// Fills both buffers with what they have before a run.
fn fill(rx: &mut [u8], log: &mut [u32])
    ensures rx { length rx.new ≡ length rx.old }
    ensures log { length log.new ≡ length log.old }
{
    for (at, byte) in rx.iter_mut().enumerate() {
        *byte = old_byte(at);
    }
    for (at, word) in log.iter_mut().enumerate() {
        *word = old_word(at);
    }
}

// A run that is over: its two buffers as it left them, and how it ended.
#[derive(Drop)]
pub struct Run<'a> {
    rx: &'a [u8],
    log: &'a [u32],
    counts: Counts,
}

impl<'a> Run<'a> {
    // Runs the list on a received buffer of `room` bytes and a record of `words` words, which are parts of these two. Where
    // either is too short for that, both are taken whole.
    pub fn on(
        list: &[u8],
        readings: &[u32],
        rx: &'a mut [u8],
        room: usize,
        log: &'a mut [u32],
        words: usize,
    ) -> Run<'a>
        ensures { room ≤ length rx.old → words ≤ length log.old → (rx' log' : List ℕ) × (length rx' ≡ room) × (length log' ≡ words)
            × RunsTo list.now readings.now rx' log' result.rx.now result.log.now result.counts }
    {
        if room <= rx.len() && words <= log.len() {
            return Run::over(list, readings, &mut rx[..room], &mut log[..words]);
        }
        Run::over(list, readings, rx, log)
    }

    // The run on these buffers.
    fn over(list: &[u8], readings: &[u32], rx: &'a mut [u8], log: &'a mut [u32]) -> Run<'a>
        ensures { (rx' log' : List ℕ) × (length rx' ≡ length rx.old) × (length log' ≡ length log.old)
            × RunsTo list.now readings.now rx' log' result.rx.now result.log.now result.counts }
    {
        fill(rx, log);
        let counts = engine::run(list, readings, rx, log);
        Run { rx, log, counts }
    }

    pub fn counts(&self) -> Counts
        ensures { result ≡ self.now.counts }
    {
        self.counts
    }

    // The words of the accesses that were made.
    pub fn record(&self) -> &[u32]
        ensures { result.now ≡ take (words_in self.now.counts.made) self.now.log.now }
    {
        first(self.log, self.counts.made.saturating_mul(ENTRY_WORDS))
    }

    // The bytes that were received.
    pub fn received(&self) -> &[u8]
        ensures { result.now ≡ take self.now.counts.got self.now.rx.now }
    {
        first(self.rx, self.counts.got)
    }

    // Whether both buffers are as they were past what the run put there.
    fn keeps_the_rest(&self) -> bool {
        let record = self.record().len();
        let received = self.received().len();
        let mut words = self.log.iter().enumerate().skip(record);
        let mut bytes = self.rx.iter().enumerate().skip(received);
        words.all(|(at, word)| *word == old_word(at))
            && bytes.all(|(at, byte)| *byte == old_byte(at))
    }

    // Whether the run did what was expected, and nothing else.
    pub fn compare(&self, expected: Expected<'_>) -> Result<(), Difference>
        ensures counts { IsOk result → self.now.counts ≡ expected.entry.counts }
        ensures record { IsOk result → take (words_in self.now.counts.made) self.now.log.now ≡ expected.entry.record.now }
        ensures received { IsOk result → take self.now.counts.got self.now.rx.now ≡ expected.entry.received.now }
    {
        if self.counts.answer != expected.counts.answer {
            Err(Difference::Answer)
        } else if self.counts != expected.counts {
            Err(Difference::Counts)
        } else if self.record() != expected.record {
            Err(Difference::Record)
        } else if self.received() != expected.received {
            Err(Difference::Received)
        } else if !self.keeps_the_rest() {
            Err(Difference::PastTheEnd)
        } else {
            Ok(())
        }
    }
}
