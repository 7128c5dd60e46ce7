// The CCR words of the usual speeds, as a constant table.
#![tactic(auto)]

ghost use Rattle.std.specs.Prelude.{◌≡◌, slice_get};
ghost use Rattle.speed_words.specs.Table.{speed_words};

mod table;

use table::SPEED_WORDS;

// The word of this entry, or none past the end.
pub fn speed_word(index: u32) -> Option<u16>
    ensures { result ≡ slice_get speed_words index }
{
    let index = index as usize;
    if index < SPEED_WORDS.len() {
        Some(SPEED_WORDS[index])
    } else {
        None
    }
}
