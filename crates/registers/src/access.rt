// A run's registers, one access at a time: a read takes the next reading, and every access is recorded.
ghost use Rattle.std.specs.Prelude.{◌≡◌, ◌+◌, ◌*◌, ◌<◌, ◌≤◌, true, false, [], ◌∷◌, length, set, leb};
ghost use Rattle.registers.specs.Access.{DR, is_read, is_data, cut, entries_in, store, flag_of, clear_word};
ghost use Rattle.registers.specs.Machine.{Step};

use crate::{
    AF, ARLO, BERR, Bits, BusError, Cut, ENTRY_WORDS, Entry, OVR, PECERR, Progress, ReadCode, Stop,
    TIMEOUT, WRITE_ZERO_TO_CLEAR, WriteCode, altered, without_bit,
};
use units::Setup;

// A run: its setup, the readings, the record, the received bytes, and how far it has come. The buffers are the caller's,
// so that there is no heap.
#[derive(Drop)]
pub struct Bus<'a> {
    pub setup: Setup,
    pub readings: &'a [u32],
    pub log: &'a mut [u32],
    pub rx: &'a mut [u8],
    pub progress: Progress,
}

impl<'a> Bus<'a> {
    ghost use Rattle.registers.specs.Contract.{read_code, ReadsAt, Reads, WritesAt, Writes, Does, Starts, nothing_yet, Fits, word_after, ReadsNextAt, ReadsNext, WritesNextAt, WritesNext, TakesByte, ReceivesNext};

    // Nothing is read, made or received as yet.
    pub fn new(setup: Setup, readings: &'a [u32], log: &'a mut [u32], rx: &'a mut [u8]) -> Bus<'a>
        ensures { Starts setup readings.now log.entry rx.entry nothing_yet result }
    {
        let progress = Progress {
            used: 0,
            made: 0,
            got: 0,
        };
        Bus::from_parts(setup, readings, log, rx, progress)
    }

    // The run has come so far.
    pub fn from_parts(
        setup: Setup,
        readings: &'a [u32],
        log: &'a mut [u32],
        rx: &'a mut [u8],
        progress: Progress,
    ) -> Bus<'a>
        ensures { Starts setup readings.now log.entry rx.entry progress result }
    {
        Bus {
            setup,
            readings,
            log,
            rx,
            progress,
        }
    }

    // Whether too few record words remain for another entry.
    fn is_full(&self) -> bool
        ensures { result ≡ leb (entries_in (length self.now.log.now)) self.now.progress.made }
    {
        self.log.len() / ENTRY_WORDS <= self.progress.made
    }

    // One read that fits, by its code: the next reading, cut to its register and recorded.
    #[inline(always)]
    fn record_read_at(&mut self, from: u32) -> u32
        requires { (is_read from ≡ true) × Fits self.old 1 }
        ensures { ReadsNextAt from self.old self.new result }
    {
        let used = self.progress.used;
        let value = cut(from, self.readings[used]);
        let entry = Entry { code: from, value };
        put_entry(self.log, self.progress.made, entry);
        self.progress.used = used + 1;
        self.progress.made += 1;
        value
    }

    // One read that fits.
    #[inline(always)]
    pub fn record_read(&mut self, from: ReadCode) -> u32
        requires { Fits self.old 1 }
        ensures { ReadsNext from self.old self.new result }
    {
        self.record_read_at(from.into())
    }

    // One read, by its code, where 0 names no register. Record space is tested before readings.
    #[inline(always)]
    pub fn read_at(&mut self, from: u32) -> Result<u32, Stop>
        requires { is_read from ≡ true }
        ensures { ReadsAt from self.old self.new result }
    {
        if self.is_full() {
            return Err(Stop::CutShort(Cut::NoRecord(from)));
        }
        if self.readings.len() <= self.progress.used {
            return Err(Stop::CutShort(Cut::NoReadings));
        }
        Ok(self.record_read_at(from))
    }

    // One read.
    #[inline(always)]
    pub fn read(&mut self, from: ReadCode) -> Result<u32, Stop>
        ensures { Reads from self.old self.new result }
    {
        self.read_at(from.into())
    }

    // One write that fits, by its code, recorded.
    #[inline(always)]
    fn record_write_at(&mut self, to: u32, value: u32)
        requires { (is_read to ≡ false) × (self.old.progress.made < entries_in (length self.old.log.now)) }
        ensures { WritesNextAt to value self.old self.new }
    {
        let entry = Entry { code: to, value };
        let made = self.progress.made;
        put_entry(self.log, made, entry);
        self.progress.made = made + 1;
    }

    // One write that fits.
    #[inline(always)]
    pub fn record_write(&mut self, to: WriteCode, value: u32)
        requires { self.old.progress.made < entries_in (length self.old.log.now) }
        ensures { WritesNext to value self.old self.new }
    {
        self.record_write_at(to.into(), value);
    }

    // One write, by its code, which may name no register.
    #[inline(always)]
    pub fn write_at(&mut self, to: u32, value: u32) -> Result<(), Stop>
        requires { is_read to ≡ false }
        ensures { WritesAt to value self.old self.new result }
    {
        if self.is_full() {
            return Err(Stop::CutShort(Cut::NoRecord(to)));
        }
        self.record_write_at(to, value);
        Ok(())
    }

    // One write.
    #[inline(always)]
    pub fn write(&mut self, to: WriteCode, value: u32) -> Result<(), Stop>
        ensures { Writes to value self.old self.new result }
    {
        self.write_at(to.into(), value)
    }

    // A read by any code but that of DR, whose word plays no part.
    #[inline(always)]
    pub fn get_at(&mut self, code: u32) -> Result<(), Stop>
        requires { (is_read code ≡ true) × (is_data code ≡ false) }
        ensures { Does (Step.get code ∷ []) self.old self.new result }
    {
        self.read_at(code)?;
        Ok(())
    }

    // A read of any register but DR, whose word plays no part.
    #[inline(always)]
    pub fn get(&mut self, code: ReadCode) -> Result<(), Stop>
        requires { is_data (read_code code) ≡ false }
        ensures { Does (Step.get (read_code code) ∷ []) self.old self.new result }
    {
        self.get_at(code.into())
    }

    // The low byte of a word that was read from DR is received.
    #[inline(always)]
    fn take_byte(&mut self, word: u32)
        requires { self.old.progress.got < self.old.progress.used }
        ensures { TakesByte word self.old self.new }
    {
        let got = self.progress.got;
        put_byte(self.rx, got, (word % 256) as u8);
        self.progress.got = got + 1;
    }

    // A read of DR.
    #[inline(always)]
    pub fn read_data(&mut self) -> Result<(), Stop>
        requires { self.old.progress.got ≤ self.old.progress.used }
        ensures { Does (Step.get DR ∷ []) self.old self.new result }
    {
        let word = self.read(ReadCode::Dr)?;
        self.take_byte(word);
        Ok(())
    }

    // A read of DR that fits.
    #[inline(always)]
    pub fn record_data(&mut self)
        requires { Fits self.old 1 × (self.old.progress.got ≤ self.old.progress.used) }
        ensures { ReceivesNext self.old self.new }
    {
        let word = self.record_read(ReadCode::Dr);
        self.take_byte(word);
    }

    // Set in CR1: read it, then write it with only these bits altered.
    #[inline(always)]
    pub fn modify_cr1(&mut self, on: Bits, off: Bits) -> Result<(), Stop>
        requires { (on.0 < 65536) × (on.1 < 65536) }
        ensures { Does (Step.modify on off ∷ []) self.old self.new result }
    {
        let word = self.read(ReadCode::Cr1)?;
        self.write(WriteCode::Cr1, altered(word, on, off))
    }

    // Clears the SR1 flag of an error, and no other.
    #[inline(always)]
    pub fn clear_flag(&mut self, error: BusError) -> Result<(), Stop>
        ensures { Writes WriteCode.Sr1 (clear_word error) self.old self.new result }
    {
        self.write(WriteCode::Sr1, clear_word(error))
    }

    // How many of so many bytes fit, each in three accesses.
    pub fn bytes_that_fit(&self, count: usize) -> usize
        ensures { (result ≤ count) × Fits self.now (3 * result) }
    {
        let entries = self.log.len() / ENTRY_WORDS;
        let recorded = entries.saturating_sub(self.progress.made);
        let read = self.readings.len().saturating_sub(self.progress.used);
        count.min(recorded.min(read) / 3)
    }

    // The SR1 word of a read after so many others.
    pub fn sr1_after(&self, reads: usize) -> u32
        requires { Fits self.now (reads + 1) }
        ensures { result ≡ word_after ReadCode.Sr1 reads self.now }
    {
        self.readings[self.progress.used + reads] % 65536
    }
}

// A reading, cut to the register of this code.
#[tactic(auto, unfolding(crate::specs::Access::cut))]
#[inline(always)]
fn cut(code: u32, reading: u32) -> u32
    ensures { result ≡ cut code reading }
{
    if code == ReadCode::Cyc as u32 {
        return reading;
    }
    reading % 65536
}

// Entry number k of the record.
#[tactic(auto, unfolding(crate::specs::Access::store))]
fn put_entry(log: &mut [u32], k: usize, entry: Entry)
    requires { k < entries_in (length log.old) }
    ensures { log.new ≡ store log.old k entry }
{
    log[ENTRY_WORDS * k] = entry.code;
    log[ENTRY_WORDS * k + 1] = entry.value;
}

// The received byte number k, where there is room for it.
fn put_byte(rx: &mut [u8], k: usize, byte: u8)
    ensures { rx.new ≡ set rx.old k byte }
{
    if k < rx.len() {
        rx[k] = byte;
    }
}

// The SR1 flag that reports an error.
#[tactic(auto, unfolding(crate::specs::Access::flag_of))]
fn flag_of(error: BusError) -> u32
    ensures { result ≡ flag_of error }
{
    match error {
        BusError::Overrun => OVR,
        BusError::NoAcknowledge(_) => AF,
        BusError::Timeout => TIMEOUT,
        BusError::Bus => BERR,
        BusError::Crc => PECERR,
        BusError::ArbitrationLoss => ARLO,
    }
}

// The word that clears the flag of an error: every other write-zero-to-clear bit is set, so that it clears no other.
#[tactic(auto, unfolding(crate::specs::Access::clear_word))]
fn clear_word(error: BusError) -> u32
    ensures { result ≡ clear_word error }
{
    without_bit(WRITE_ZERO_TO_CLEAR, flag_of(error))
}
