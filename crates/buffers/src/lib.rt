// Words out of bytes, accesses out of a record, and runs that are compared, for the programs.
#![tactic(auto)]

ghost use Rattle.std.specs.Prelude.{◌≡◌, ◌++◌, ◌<◌, ◌/◌, length, min, take, MatchOption};
ghost use Rattle.std.specs.Iterator.{at_most};
ghost use Rattle.registers.specs.Access.{entries_in, entry_words};

mod run;

use registers::{ENTRY_WORDS, Entry};
pub use run::{Difference, Expected, Run, counts_of};

// The first `count` items, all where there are fewer.
pub fn first<T>(items: &[T], count: usize) -> &[T]
    ensures { result.now ≡ take count items.now }
{
    items.get(..count).unwrap_or(items)
}

// The bytes as words, low byte first, as far as there is room. A last word that is not whole is left out.
pub fn to_words<'a>(bytes: &[u8], words: &'a mut [u32]) -> &'a [u32]
    ensures { length result.now ≡ min (length bytes.now / 4) (length words.old) }
{
    let (chunks, _) = bytes.as_chunks::<4>();
    let count = chunks.len().min(words.len());
    for (word, chunk) in words.iter_mut().zip(chunks) {
        *word = u32::from_le_bytes(*chunk);
    }
    &words[..count]
}

// How many entries a record holds.
pub fn entries_in(log: &[u32]) -> usize
    ensures { result ≡ entries_in (length log.now) }
{
    log.len() / ENTRY_WORDS
}

// The accesses of a record, in turn.
#[derive(Drop)]
pub struct RecordEntries<'a> {
    words: &'a [u32],
}

// The accesses that a record's words are.
pub fn entries(words: &[u32]) -> RecordEntries<'_>
    ensures { result.words.now ≡ words.now }
{
    RecordEntries { words }
}

impl<'a> Iterator for RecordEntries<'a> {
    type Item = Entry;

    ghost next_gives = { λ e found rest. MatchOption found (length e.words.now < 2)
        (λ entry. e.words.now ≡ entry_words entry ++ rest.words.now) };

    ghost remaining = { λ e. at_most (length e.words.now) };

    fn next(&mut self) -> Option<Entry> {
        let [code, value, rest @ ..] = self.words else {
            return None;
        };
        self.words = rest;
        Some(Entry {
            code: *code,
            value: *value,
        })
    }
}
