// What the programs read with: a buffer is filled from a file or from standard input, as far as there is anything; and
// what they say where something failed.
#![tactic(auto)]

ghost use Rattle.std.specs.Prelude.{◌≤◌, ◌<◌, length, take, IfOk};
ghost use Rattle.std.specs.Io.KnownBytes.{Consumes, IsAtEnd};

use std::fmt::InlineText;
use std::io;
use std::io::Read;

// Reads until the buffer is full or the input ends, and answers how many bytes it put at the buffer's start: a count, as
// the contract promises, and no slice. A read that fails is no end, and its error is the answer.
pub fn read_full<R: Read>(from: &mut R, buf: &mut [u8]) -> io::Result<usize>
    ensures within { IfOk result (λ n. n ≤ length buf.new) }
    ensures bytes { IfOk result (λ n. Consumes (R.remaining from.old) (R.remaining from.new) (take n buf.new)) }
    ensures end { IfOk result (λ n. n < length buf.new → IsAtEnd (R.remaining from.new)) }
{
    // An index: a slice that is cut from the front instead gets no proof, since the loop then forgets what stands before.
    let mut done: usize = 0;
    while done < buf.len() {
        let more = from.read(&mut buf[done..])?;
        if more == 0 {
            return Ok(done);
        }
        done += more;
    }
    Ok(done)
}

// Tells on standard error what failed, and why in the system's words, without the number that std adds to them.
pub fn report(rt: &impl Eprint, what: &str, error: io::Error) -> io::Result<()> {
    let text = InlineText::<256>::of(error);
    let words = text.as_str();
    match words.split_once(" (os error ") {
        Some((reason, _)) => eprintln!(rt; "{what}: {reason}"),
        None => eprintln!(rt; "{what}: {words}"),
    }
}
