// The program `fleet`: the words after its name, the real files and the two standard streams, handed to the top call,
// with the threads of the host and a gate that holds nobody up. What it makes of them is the top call's contract; the exit
// status is the number of the outcome.
#![tactic(auto)]

use fleet_io::{FileShelf, Sink, StdSink};
use fleet_run::{OpenGate, Outcome, fleet};
use std::env;
use std::io::{self, ErrorKind};
use std::process::ExitCode;

// The words after the program's name.
fn later_words(rt: &HostRuntime) -> io::Result<Vec<String>> {
    let mut words = Vec::new(rt.alloc());
    for word in env::args(rt)?.skip(1) {
        words.push(word)?;
    }
    Ok(words)
}

fn main(rt: HostRuntime) -> ExitCode {
    let alloc = rt.alloc();
    let mut shelf = FileShelf::new(rt);
    let mut out = StdSink::output(rt);
    let mut err = StdSink::error(rt);
    let words = match later_words(&rt) {
        Ok(words) => words,
        Err(error) if error.kind() == ErrorKind::OutOfMemory => {
            let _ = err.write(b"fleet: out of memory\n");
            return ExitCode::from(Outcome::Memory as u8);
        }
        // A word that isn't UTF-8: the line is no command, as the empty one.
        Err(_) => Vec::new(alloc),
    };
    let ended = fleet(
        &rt, alloc, &words, &mut shelf, &mut out, &mut err, &OpenGate,
    );
    ExitCode::from(ended.outcome as u8)
}
