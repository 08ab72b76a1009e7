ghost use Rattle.std.specs.Prelude.{◌≡◌, ◌++◌, codes, IfOk};
ghost use Rattle.fleet_run.specs.Stopped.{outcome_of, map_kind_name, scen_kind_name, order_kind_name, fault_line, line_of};
ghost use Rattle.fleet_run.specs.Ended.{GotLine, HasReported};

use crate::outcome::Outcome;
use crate::stop::Stop;
use fleet_io::Sink;
use itoa::Buffer;
use map_text::MapKind;
use order_text::OrderKind;
use scen_text::ScenKind;
use std::alloc::{AllocError, Global};

fn map_kind_name(kind: MapKind) -> &'static str
    ensures { result.now ≡ map_kind_name kind }
{
    match kind {
        MapKind::BadHeader => "BadHeader",
        MapKind::BadNumber => "BadNumber",
        MapKind::TooLarge => "TooLarge",
        MapKind::ShortRow => "ShortRow",
        MapKind::LongRow => "LongRow",
        MapKind::BadChar => "BadChar",
        MapKind::MissingRows => "MissingRows",
        MapKind::TrailingText => "TrailingText",
    }
}

fn scen_kind_name(kind: ScenKind) -> &'static str
    ensures { result.now ≡ scen_kind_name kind }
{
    match kind {
        ScenKind::BadVersion => "BadVersion",
        ScenKind::FieldCount => "FieldCount",
        ScenKind::BadNumber => "BadNumber",
        ScenKind::SizeDiffers => "SizeDiffers",
        ScenKind::Outside => "Outside",
        ScenKind::TooMany => "TooMany",
    }
}

fn order_kind_name(kind: OrderKind) -> &'static str
    ensures { result.now ≡ order_kind_name kind }
{
    match kind {
        OrderKind::BadWord => "BadWord",
        OrderKind::FieldCount => "FieldCount",
        OrderKind::BadNumber => "BadNumber",
        OrderKind::Outside => "Outside",
        OrderKind::BadCancel => "BadCancel",
        OrderKind::TooMany => "TooMany",
    }
}

// The line of a fault of a text: which of the two files, its line, and what is wrong with it.
fn fault_line(alloc: Global, file: &str, line: u32, kind: &str) -> Result<Vec<u8>, AllocError>
    ensures { IfOk result (λ text. text.items ≡ fault_line file.now line kind.now) }
{
    let mut number = Buffer::new();
    let mut text = Vec::from_slice(alloc, b"fleet: ")?;
    text.extend_from_slice(file.as_bytes())?;
    text.extend_from_slice(b" line ")?;
    text.extend_from_slice(number.format(line).as_bytes())?;
    text.extend_from_slice(b": ")?;
    text.extend_from_slice(kind.as_bytes())?;
    text.extend_from_slice(b"\n")?;
    Ok(text)
}

fn cannot_read_line(alloc: Global, name: &str) -> Result<Vec<u8>, AllocError>
    ensures { IfOk result (λ text. text.items ≡ codes "fleet: cannot read " ++ name.now ++ codes "\n") }
{
    let mut text = Vec::from_slice(alloc, b"fleet: cannot read ")?;
    text.extend_from_slice(name.as_bytes())?;
    text.extend_from_slice(b"\n")?;
    Ok(text)
}

fn line_of(alloc: Global, stop: Stop<&str>) -> Result<Vec<u8>, AllocError>
    ensures { IfOk result (λ line. line.items ≡ line_of (λ n. n.now) stop.entry) }
{
    match stop {
        Stop::NoCommand => Vec::from_slice(alloc, b"fleet: the words are no command\n"),
        Stop::MapRefused { line, kind } => fault_line(alloc, "map", line, map_kind_name(kind)),
        Stop::OutsideMap => Vec::from_slice(alloc, b"fleet: orders line 0: Outside\n"),
        Stop::ScenRefused { line, kind } => {
            fault_line(alloc, "orders", line, scen_kind_name(kind))
        }
        Stop::OrdersRefused { line, kind } => {
            fault_line(alloc, "orders", line, order_kind_name(kind))
        }
        Stop::NotFetched { name } => cannot_read_line(alloc, name),
        Stop::NoMemory => Vec::from_slice(alloc, b"fleet: out of memory\n"),
    }
}

fn outcome_of(stop: Stop<&str>) -> Outcome
    ensures { result ≡ outcome_of stop.entry }
{
    match stop {
        Stop::NoCommand => Outcome::Usage,
        Stop::MapRefused { .. } => Outcome::MapBad,
        Stop::OutsideMap => Outcome::OrdersBad,
        Stop::ScenRefused { .. } => Outcome::OrdersBad,
        Stop::OrdersRefused { .. } => Outcome::OrdersBad,
        Stop::NotFetched { .. } => Outcome::ReadFault,
        Stop::NoMemory => Outcome::Memory,
    }
}

// Writes a line by one call. A fault of the sink changes nothing else.
pub(crate) fn write_line<S: Sink>(err: &mut S, line: &[u8])
    ensures { GotLine (S.told err.old) (S.faults err.old) line.now (S.told err.new) (S.faults err.new) }
{
    let _ = err.write(line);
}

// Writes the line of a stop, and tells the outcome.
pub(crate) fn report<S: Sink>(alloc: Global, err: &mut S, stop: Stop<&str>) -> Outcome
    ensures { HasReported (λ n. n.now) stop.entry
        (S.told err.old) (S.faults err.old) (S.told err.new) (S.faults err.new) result }
{
    match line_of(alloc, stop) {
        Ok(line) => {
            write_line(err, line.as_slice());
            outcome_of(stop)
        }
        Err(_) => {
            write_line(err, b"fleet: out of memory\n");
            Outcome::Memory
        }
    }
}
