ghost use Rattle.std.specs.Prelude.{◌≡◌, ◌≤◌, [], IfOk};
ghost use Rattle.fleet_run.specs.declared.outcome.Outcome.TheVariants.{Done};

use fleet_base::Memory;
use fleet_io::{MemShelf, MemSink};
use fleet_run::{Gate, OpenGate, Outcome, fleet};
use std::alloc::Global;
use std::thread::Threads;

/// A map of three open cells in one row.
pub const CORRIDOR: &str = "type octile\nheight 1\nwidth 3\nmap\n...\n";

/// What fails in a call: the numbers of fetches, and of writes of the two sinks.
#[derive(Clone, Copy)]
pub struct Failing<'a> {
    pub fetches: &'a [u32],
    pub out: &'a [u32],
    pub err: &'a [u32],
}

pub const NOTHING_FAILS: Failing<'static> = Failing {
    fetches: &[],
    out: &[],
    err: &[],
};

/// What a call left: its outcome, whether several workers joined for it, and the two sinks.
#[derive(Drop)]
pub struct Ended {
    pub outcome: Outcome,
    pub has_joined: bool,
    pub out: MemSink,
    pub err: MemSink,
}

/// The room of each sink, in bytes.
pub const ROOM: usize = 262_144;

/// A sink without bytes that has room, and whose writes of these numbers fail.
pub fn sink(alloc: Global, failing: &[u32]) -> Result<MemSink, Memory>
    ensures empty { IfOk result (λ s. s.bytes ≡ []) }
    ensures failing { IfOk result (λ s. s.failing ≡ failing.now) }
    ensures room { IfOk result (λ s. ROOM ≤ s.spare) }
{
    let mut sink = MemSink::new(alloc, Vec::from_slice(alloc, failing)?);
    sink.reserve(ROOM)?;
    Ok(sink)
}

/// The files that a call finds: a map `m.map`, and one more.
#[derive(Clone, Copy)]
pub struct Files<'a> {
    pub map: &'a [u8],
    pub second_name: &'a str,
    pub second: &'a [u8],
}

fn words_of(alloc: Global, line: &str) -> Result<Vec<String>, Memory> {
    let mut words = Vec::new(alloc);
    for word in line.split(' ') {
        words.push(String::from_str(alloc, word)?)?;
    }
    Ok(words)
}

fn shelf_of(alloc: Global, files: Files<'_>, failing: &[u32]) -> Result<MemShelf, Memory> {
    let mut named = Vec::new(alloc);
    named.push((
        String::from_str(alloc, "m.map")?,
        Vec::from_slice(alloc, files.map)?,
    ))?;
    named.push((
        String::from_str(alloc, files.second_name)?,
        Vec::from_slice(alloc, files.second)?,
    ))?;
    Ok(MemShelf::new(alloc, named, Vec::from_slice(alloc, failing)?))
}

/// The call of a line, whose words are parted by single spaces, with two files and a gate.
pub fn call_through<R: Threads + Sync, G: Gate>(
    rt: &R,
    alloc: Global,
    line: &str,
    files: Files<'_>,
    failing: Failing<'_>,
    gate: &G,
) -> Result<Ended, Memory>
    ensures { IfOk result (λ e. e.outcome ≡ Done → e.err.bytes ≡ []) }
{
    let words = words_of(alloc, line)?;
    let mut shelf = shelf_of(alloc, files, failing.fetches)?;
    let mut out = sink(alloc, failing.out)?;
    let mut err = sink(alloc, failing.err)?;
    let ended = fleet(rt, alloc, &words, &mut shelf, &mut out, &mut err, gate);
    Ok(Ended {
        outcome: ended.outcome,
        has_joined: ended.joined.is_some(),
        out,
        err,
    })
}

/// The same with a gate that holds nobody up.
pub fn call_on<R: Threads + Sync>(
    rt: &R,
    alloc: Global,
    line: &str,
    files: Files<'_>,
    failing: Failing<'_>,
) -> Result<Ended, Memory>
    ensures { IfOk result (λ e. e.outcome ≡ Done → e.err.bytes ≡ []) }
{
    call_through(rt, alloc, line, files, failing, &OpenGate)
}

/// The same with a map alone.
pub fn call<R: Threads + Sync>(
    rt: &R,
    alloc: Global,
    line: &str,
    map: &[u8],
    failing: Failing<'_>,
) -> Result<Ended, Memory>
    ensures { IfOk result (λ e. e.outcome ≡ Done → e.err.bytes ≡ []) }
{
    let files = Files {
        map,
        second_name: "o.txt",
        second: b"",
    };
    call_on(rt, alloc, line, files, failing)
}
