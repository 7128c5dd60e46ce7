// Cases of a text whose words are kept whole in memory: a letter may be a longer word, a word that should be a number and
// is none is an error, and so is want of memory.
//
// It differs from a text of bytes in this too: only the words `=` and `!` start and run a case, '#' starts a comment
// wherever it stands, a number has at most 32 bits, each case is a new one in which no letter holds as yet, and the words
// before the first `=` are left out, as is a case without two numbers.

ghost use Rattle.std.specs.Prelude.{ℕ, List, ◌≡◌, [], length, take, OnOk};

use crate::Tally;
use std::alloc::{AllocError, Global};
use std::io;
use std::io::ErrorKind;

// The line without its comment.
fn uncommented(line: &str) -> &str {
    line.split_once('#').map_or(line, |(before, _)| before)
}

// The number that a word spells. A word that spells none of 32 bits is an error.
fn number(word: &str) -> io::Result<u32> {
    match word.strip_prefix("0x") {
        Some(digits) => u32::from_str_radix(digits, 16),
        None => word.parse::<u32>(),
    }
    .map_err(|_| io::Error::from(ErrorKind::InvalidData))
}

// What a program makes of the words of its cases.
pub trait Case: Drop {
    // What the numbers after a letter are.
    type Letter: Copy;

    // The bytes of its bus list.
    ghost list: { Self → List ℕ };

    // A case by the two numbers after its name, with nothing else read. What the numbers mean is the program's own.
    fn new(alloc: Global, first: u32, second: u32) -> Self
        ensures { list result ≡ [] };

    // The letter that a word is. The numbers after a word that is none are left out. Which words are letters is the
    // program's own, so there is no clause.
    fn letter(word: &str) -> Option<Self::Letter>;

    // The list keeps the bytes that it has. What a number adds is the program's own.
    fn put(&mut self, letter: Self::Letter, number: u32) -> Result<(), AllocError>
        ensures { OnOk result (take (length (list self.old)) (list self.new) ≡ list self.old) };

    // Runs the case and prints it. The answer is whether it agrees, by what the program compares: there is no clause.
    fn run(&self, rt: &impl Print, alloc: Global, name: &str) -> io::Result<bool>;
}

// The case of these words, run at each mark and counted. Without a whole start there is none.
fn run_case<C: Case>(
    rt: &impl Print,
    alloc: Global,
    words: &[&str],
    tally: &mut Tally,
) -> io::Result<()> {
    let [name, first, second, body @ ..] = words else {
        return Ok(());
    };
    let mut case = C::new(alloc, number(*first)?, number(*second)?);
    let mut letter = None;
    for word in body {
        if *word == "!" {
            tally.count(case.run(rt, alloc, *name)?);
        } else if !word.starts_with(|c: char| c.is_ascii_digit()) {
            letter = C::letter(*word);
        } else if let Some(letter) = &letter {
            case.put(*letter, number(*word)?)?;
        }
    }
    Ok(())
}

// Runs the cases of a text, and prints how many there were and how many of them differ. The words before the first `=`
// are left out. What is printed stands in no clause.
pub fn run_all<C: Case>(rt: &impl Print, alloc: Global, text: &str) -> io::Result<()> {
    let words: Vec<&str> = text
        .lines()
        .flat_map(|line| uncommented(line).split_ascii_whitespace())
        .collect(alloc)?;
    let mut tally = Tally::default();
    for case in words.split(|word| *word == "=").skip(1) {
        run_case::<C>(rt, alloc, case, &mut tally)?;
    }
    println!(rt; "{tally}")
}

#[cfg(test)]
mod tests {
    use super::*;
    use crate::Letter;
    use std::cell::RefCell;
    use std::fmt::{Display, Write};
    use std::test::Fail;

    // Keeps what is printed.
    #[derive(Drop)]
    struct Page {
        text: RefCell<String>,
    }

    impl Print for Page {
        fn print<D: Display + Drop>(&self, value: D) -> io::Result<()> {
            let Ok(mut text) = self.text.try_borrow_mut() else {
                return Err(io::Error::from(ErrorKind::Other));
            };
            write!(text, "{value}").map_err(|_| io::Error::from(ErrorKind::Other))
        }

        fn println<D: Display + Drop>(&self, value: D) -> io::Result<()> {
            self.print(value)?;
            self.print("\n")
        }

        fn write_all(&self, _: &[u8]) -> io::Result<()> {
            Err(io::Error::from(ErrorKind::Unsupported))
        }
    }

    // A case whose two numbers are the first and the last byte that its list should have.
    #[derive(Drop)]
    struct Ends {
        first: u32,
        last: u32,
        list: Vec<u8>,
    }

    impl Case for Ends {
        type Letter = Letter;

        ghost list = { λ case. case.list.items };

        fn new(alloc: Global, first: u32, last: u32) -> Ends {
            Ends {
                first,
                last,
                list: Vec::new(alloc),
            }
        }

        fn letter(word: &str) -> Option<Letter> {
            match word {
                "byte" => Some(Letter::Byte),
                "word" => Some(Letter::Word),
                _ => None,
            }
        }

        fn put(&mut self, letter: Letter, number: u32) -> Result<(), AllocError> {
            let bytes = number.to_le_bytes();
            match letter {
                Letter::Word => self.list.extend_from_slice(&bytes),
                _ => self.list.extend_from_slice(&bytes[..1]),
            }
        }

        fn run(&self, rt: &impl Print, _: Global, name: &str) -> io::Result<bool> {
            let first = self.list.first().map_or(0, |byte| *byte as u32);
            let last = self.list.last().map_or(0, |byte| *byte as u32);
            println!(rt; "{name} {first} {last}")?;
            Ok(first == self.first && last == self.last)
        }
    }

    #[test]
    fn runs_cases(rt: HostRuntime) -> Result<(), Fail> {
        let alloc = rt.alloc();
        for (text, want) in [
            ("", "0 cases, 0 differ\n"),
            ("byte 1 ! = two 7", "0 cases, 0 differ\n"),
            ("= one 1 3 byte 1 2 3 !", "one 1 3\n1 cases, 0 differ\n"),
            (
                "= one 1 2 byte 1#2\nbyt 4\n!",
                "one 1 1\n1 cases, 1 differ\n",
            ),
            (
                "= a 4 1 word 0x01020304 ! = b 4 1 9 !",
                "a 4 1\nb 0 0\n2 cases, 1 differ\n",
            ),
        ] {
            let page = Page {
                text: RefCell::new(String::new(alloc)),
            };
            run_all::<Ends>(&page, alloc, text)?;
            assert_eq!(rt; page.text.into_inner().as_str(), want, "of {text}");
        }
        Ok(())
    }

    #[test]
    fn takes_no_number_for_another(rt: HostRuntime) {
        let alloc = rt.alloc();
        for text in [
            "= a -1 0",
            "= a 0 4294967296",
            "= a 0 0 byte 1x",
            "= a 0 0 byte 0x",
        ] {
            let Err(error) = run_all::<Ends>(&rt, alloc, text) else {
                panic!(rt; "no error of {text}");
            };
            assert_eq!(rt; error.kind(), ErrorKind::InvalidData);
        }
    }
}
