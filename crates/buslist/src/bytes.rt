// The little-endian numbers in a list's bytes. Past the end every byte is 0.

ghost use Rattle.std.specs.Prelude.{◌≡◌, ◌+◌, ◌≤◌, ◌<◌, ◌^◌, length};
ghost use Rattle.buslist.specs.Bytes.{byte, half, word};

fn byte_at(list: &[u8], i: usize) -> u8
    ensures { result ≡ byte list.now i }
{
    list.get(i).copied().unwrap_or(0)
}

fn half_at(list: &[u8], i: usize) -> u16
    ensures { result ≡ half list.now i }
{
    // Past the end all bytes are 0, and i + 1 might not fit.
    if list.len() <= i {
        return 0;
    }
    u16::from_le_bytes([byte_at(list, i), byte_at(list, i + 1)])
}

// The word at i, of which the list may have only a part. No entry of an accepted list is read so, and the walks over the
// tables stay small enough to be inlined where this does not stand in them. By halves: past the end the place of the
// next byte might not fit.
#[cold]
#[inline(never)]
fn word_past(list: &[u8], i: usize) -> u32
    ensures { result ≡ word list.now i }
{
    if list.len() <= i {
        return 0;
    }
    half_at(list, i) as u32 + 65536 * (half_at(list, i + 2) as u32)
}

// The word at i, of which the list has all.
fn word_in(list: &[u8], i: usize) -> u32
    requires { i + 4 ≤ length list.now }
    ensures { result ≡ word list.now i }
{
    u32::from_le_bytes([list[i], list[i + 1], list[i + 2], list[i + 3]])
}

pub(crate) fn word_at(list: &[u8], i: usize) -> u32
    ensures { result ≡ word list.now i }
{
    if 4 <= list.len() && i <= list.len() - 4 {
        return word_in(list, i);
    }
    word_past(list, i)
}

// The two words of the entry at i, with one test of the bounds for both: a read of each by itself would test twice for
// every entry. The bound on i lets i + 4 fit.
pub(crate) fn words_at(list: &[u8], i: usize) -> (u32, u32)
    requires { i < 2 ^ 63 }
    ensures { (result.0 ≡ word list.now i) × (result.1 ≡ word list.now (i + 4)) }
{
    if 8 <= list.len() && i <= list.len() - 8 {
        return (word_in(list, i), word_in(list, i + 4));
    }
    (word_past(list, i), word_past(list, i + 4))
}
