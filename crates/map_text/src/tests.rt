ghost use Rattle.std.specs.Prelude.{◌<◌, ◌^◌, length};

use super::*;
use MapKind::{
    BadChar, BadHeader, BadNumber, LongRow, MissingRows, ShortRow, TooLarge, TrailingText,
};
use std::alloc::Global;
use std::test::Fail;

const THREE_OPEN: &[u8] = b"type octile\nheight 1\nwidth 3\nmap\n...\n";

fn fault_in(alloc: Global, text: &[u8]) -> Option<MapFault>
    requires { length text.now < 2 ^ 32 }
{
    read_map(alloc, text).err()
}

fn at(line: u32, kind: MapKind) -> Option<MapFault> {
    Some(MapFault::At { line, kind })
}

// Where a text is cut, the fault is that of the first line that isn't whole.
#[test]
fn prefixes(rt: HostRuntime) {
    let text = THREE_OPEN;
    assert_eq!(rt; text.len(), 37);
    for k in 0..38usize {
        let wanted = match k {
            0..=10 => at(1, BadHeader),
            11..=19 => at(2, BadHeader),
            20..=27 => at(3, BadHeader),
            28..=31 => at(4, BadHeader),
            32..=33 => at(5, MissingRows),
            34..=35 => at(5, ShortRow),
            _ => None,
        };
        if k <= text.len() {
            assert_eq!(rt; fault_in(rt.alloc(), &text[..k]), wanted, "{k}");
        }
    }
}

#[test]
fn refused(rt: HostRuntime) {
    let table: [(&[u8], u32, MapKind); 19] = [
        (b"octile type\n", 1, BadHeader),
        (b"type octile map\n", 1, BadHeader),
        (b"type octile\nheigth 0\n", 2, BadHeader),
        (b"type octile\nheight 0\n", 2, BadNumber),
        (b"type octile\nheight -1\n", 2, BadNumber),
        (b"type octile\nheight 2049\n", 2, TooLarge),
        (
            b"type octile\nheight 1\nwidth 2049\nmap\n...\n",
            3,
            TooLarge,
        ),
        (
            b"type octile\nheight 1\nwidth 99999999999999999999999\n",
            3,
            TooLarge,
        ),
        (b"type octile\nheight 2048\nwidth 513\n", 3, TooLarge),
        (b"type octile\nheight 1\nwidth 000\n", 3, BadNumber),
        (b"type octile\nheight 1\nwidth 3\nmap map\n", 4, BadHeader),
        (
            b"type octile\nheight 1024\nwidth 1024\nmap\n",
            5,
            MissingRows,
        ),
        (
            b"type octile\nheight 3\nwidth 3\nmap\n...\n",
            6,
            MissingRows,
        ),
        (
            b"type octile\nheight 2\nwidth 3\nmap\n...\n..\n",
            6,
            ShortRow,
        ),
        (
            b"type octile\nheight 2\nwidth 3\nmap\n...\n \t\n",
            6,
            ShortRow,
        ),
        (b"type octile\nheight 1\nwidth 3\nmap\n....\n", 5, LongRow),
        (b"type octile\nheight 1\nwidth 3\nmap\n,\n", 5, BadChar),
        (b"type octile\nheight 1\nwidth 3\nmap\n ...\n", 5, BadChar),
        (
            b"type octile\nheight 1\nwidth 3\nmap\n...\n\n \n.\n",
            8,
            TrailingText,
        ),
    ];
    for (text, line, kind) in table {
        assert_eq!(rt; fault_in(rt.alloc(), text), at(line, kind), "{text:?}");
    }
}

#[test]
fn accepted(rt: HostRuntime) -> Result<(), Fail> {
    let table: [(&[u8], &[bool]); 3] = [
        (
            b"type octile\r\nheight 1\r\nwidth 3\r\nmap\r\n...",
            &[true, true, true],
        ),
        (
            b" type\toctile \n\theight 01\nwidth  0003\n map\n.GS\n\n \t",
            &[true, true, true],
        ),
        (
            b"type octile\nheight 1\nwidth 4\nmap\n@OTW\n",
            &[false, false, false, false],
        ),
    ];
    for (text, cells) in table {
        let grid = read_map(rt.alloc(), text)?;
        assert_eq!(rt; grid.cells(), cells, "{text:?}");
        assert_eq!(rt;
            (grid.width() as usize, grid.height()),
            (cells.len(), 1),
            "{text:?}"
        );
    }
    Ok(())
}

#[test]
fn written(rt: HostRuntime) -> Result<(), Fail> {
    let text = b"type octile\nheight 2\nwidth 3\nmap\n@.@\n..@\n";
    let grid = read_map(
        rt.alloc(),
        b"type octile\nheight 02\nwidth 3\nmap\nTGO\nS.W\n",
    )?;
    assert_eq!(rt; write_map(rt.alloc(), &grid)?.as_slice(), text.as_slice());
    Ok(())
}

// The texts of the faults, and the numbers of the kinds.
#[test]
fn faults(rt: HostRuntime) -> Result<(), Fail> {
    let short = MapFault::At {
        line: 6,
        kind: ShortRow,
    };
    assert_eq!(rt;
        format!(in rt.alloc(); "{short}")?.as_str(),
        "line 6: ShortRow"
    );
    assert_eq!(rt;
        format!(in rt.alloc(); "{}", MapFault::Memory)?.as_str(),
        "out of memory"
    );
    let kinds = [
        BadHeader,
        BadNumber,
        TooLarge,
        ShortRow,
        LongRow,
        BadChar,
        MissingRows,
        TrailingText,
    ];
    for (index, kind) in kinds.iter().enumerate() {
        assert_eq!(rt; *kind as usize, index + 1);
    }
    Ok(())
}
