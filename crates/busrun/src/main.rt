// Runs the bus list in `list.bin` on the readings in `readings.bin`, both in the current folder, and prints every
// access, the received bytes and how the run ended.
#![tactic(auto)]

use buffers::first;
use engine::Counts;
use std::fs::File;
use std::io;
use std::io::ErrorKind;
use std::rt::Files;

// What could not be read or written, and why.
#[derive(Drop)]
struct Failure {
    what: &'static str,
    error: io::Error,
}

// A file as far as the buffer holds it. One that is not there is empty. A read that fails is no end: half a list would
// be another list.
fn read_file<'a>(rt: &impl Files, name: &str, buf: &'a mut [u8]) -> io::Result<&'a [u8]> {
    let size = match File::open(rt, name) {
        Ok(mut file) => input::read_full(&mut file, buf)?,
        Err(error) if error.kind() == ErrorKind::NotFound => 0,
        Err(error) => return Err(error),
    };
    Ok(&buf[..size])
}

// The accesses that a run made, each on a line of its own.
fn print_accesses(rt: &impl Print, log: &[u32], made: usize) -> io::Result<()> {
    for entry in buffers::entries(log).take(made) {
        show::access(rt, entry)?;
        show::line_end(rt)?;
    }
    Ok(())
}

// The received bytes on one line; no line where there are none.
fn print_received(rt: &impl Print, bytes: &[u8]) -> io::Result<()> {
    if bytes.is_empty() {
        return Ok(());
    }
    show::received(rt, bytes)?;
    show::line_end(rt)
}

fn print_run(rt: &impl Print, rx: &[u8], log: &[u32], counts: Counts) -> io::Result<()> {
    print_accesses(rt, log, counts.made)?;
    print_received(rt, first(rx, counts.got))?;
    show::end(rt, counts)?;
    show::line_end(rt)
}

fn run(rt: &(impl Files + Print)) -> Result<(), Failure> {
    let mut list = [0u8; 65536];
    let list = read_file(rt, "list.bin", &mut list).map_err(|error| Failure {
        what: "list.bin",
        error,
    })?;
    let mut bytes = [0u8; 64000];
    let bytes = read_file(rt, "readings.bin", &mut bytes).map_err(|error| Failure {
        what: "readings.bin",
        error,
    })?;
    let mut readings = [0u32; 16000];
    let readings = buffers::to_words(bytes, &mut readings);
    let mut rx = [0u8; 4096];
    let mut log = [0u32; 16000];
    let counts = engine::run(list, readings, &mut rx, &mut log);
    print_run(rt, &rx, &log, counts).map_err(|error| Failure {
        what: "standard output",
        error,
    })
}

fn main(rt: HostRuntime) -> io::Result<()> {
    match run(&rt) {
        Ok(()) => Ok(()),
        Err(Failure { what, error }) => input::report(&rt, what, error),
    }
}
