ghost use Rattle.std.specs.Prelude.{◌<◌, ◌+◌, ◌^◌, ◌≤◌, length, IfSome};

use super::*;
use ScenKind::{BadNumber, BadVersion, FieldCount, Outside, SizeDiffers, TooMany};
use fleet_base::{Cell, Grid, Request};
use std::alloc::{AllocError, Global};
use std::test::Fail;

const ONE_ROW: &[u8] = b"version 1\n0\tempty-8-8.map\t8\t8\t5\t3\t0\t4\t6";

fn eight_by_eight(alloc: Global) -> Result<Grid, AllocError> {
    Ok(Grid::new(8, 8, vec![in alloc; true; 64]?))
}

fn fault_in(alloc: Global, text: &[u8], grid: &Grid, take: Option<u32>) -> Option<ScenFault>
    requires size { length text.now + 1 < 2 ^ 32 }
    requires few { IfSome take (λ count. count ≤ 32767) }
{
    read_scen(alloc, text, grid, take).err()
}

fn at(line: u32, kind: ScenKind) -> Option<ScenFault> {
    Some(ScenFault::At { line, kind })
}

fn request(start: u32, goal: u32) -> Request {
    Request {
        start: Cell(start),
        goal: Cell(goal),
        depart: 0,
        stay: false,
    }
}

// Where a text is cut, the fault is that of the first line that isn't whole.
#[test]
fn prefixes(rt: HostRuntime) -> Result<(), Fail> {
    let grid = eight_by_eight(rt.alloc())?;
    let text = ONE_ROW;
    assert_eq!(rt; text.len(), 39);
    for k in 0..40usize {
        let wanted = match k {
            0..=8 => at(1, BadVersion),
            9..=10 => None,
            11..=38 => at(2, FieldCount),
            _ => None,
        };
        if k <= text.len() {
            assert_eq!(rt;
                fault_in(rt.alloc(), &text[..k], &grid, None),
                wanted,
                "{k}"
            );
        }
    }
    let requests = read_scen(rt.alloc(), text, &grid, None)?;
    assert_eq!(rt; requests.as_slice(), [request(29, 32)].as_slice());
    Ok(())
}

#[test]
fn refused(rt: HostRuntime) -> Result<(), Fail> {
    let grid = eight_by_eight(rt.alloc())?;
    let table: [(&[u8], u32, ScenKind); 17] = [
        (b"", 1, BadVersion),
        (b"\n \r\n", 3, BadVersion),
        (b"\n\n version\n", 3, BadVersion),
        (b"version 1 0\n", 1, BadVersion),
        (b"Version 1\n", 1, BadVersion),
        (b"0 a 8 8 5 3 0 4 6\n", 1, BadVersion),
        (b"version 1\n0 empty-8-8.map 8 8 5 3 0 4\n", 2, FieldCount),
        (b"version 1\n0 a 8 8 5 3 0 4 6 6\n", 2, FieldCount),
        (b"version 1\n0 a -8 8 5 3 0 4 6\n", 2, BadNumber),
        (b"version 1\n0 a 9 8 9 3 0 4294967296 6\n", 2, BadNumber),
        (
            b"version 1\n0 a 8 8 5 3 0 99999999999999999999 6\n",
            2,
            BadNumber,
        ),
        (b"version 1\n0 a 8 7 8 3 0 4 6\n", 2, SizeDiffers),
        (b"version 1\n0 a 9 8 5 3 0 4 6\n", 2, SizeDiffers),
        (b"version 1\n0 a 8 8 8 3 0 4 6\n", 2, Outside),
        (b"version 1\n0 a 8 8 5 8 0 4 6\n", 2, Outside),
        (b"version 1\n0 a 8 8 5 3 4294967295 4 6\n", 2, Outside),
        (
            b"version 1\n0 a 8 8 5 3 0 4 6\n\n0 a 8 8 5 3 0 8 6\nx\n",
            4,
            Outside,
        ),
    ];
    for (text, line, kind) in table {
        assert_eq!(rt;
            fault_in(rt.alloc(), text, &grid, None),
            at(line, kind),
            "{text:?}"
        );
    }
    // Rows that aren't kept are checked too.
    let text = b"version 1\n0 a 8 8 5 3 0 4 6\n0 a 8 8 5 3 0 9 6\n";
    assert_eq!(rt; fault_in(rt.alloc(), text, &grid, Some(1)), at(3, Outside));
    Ok(())
}

// Carriage returns, tabs, blanks at line ends, empty lines everywhere, no last line end, leading
// zeros, and fields of any bytes where they aren't read.
#[test]
fn accepted(rt: HostRuntime) -> Result<(), Fail> {
    let grid = eight_by_eight(rt.alloc())?;
    let text: &[u8] =
        b"\r\n\n \t version\t\xff\r\n\t\n\xfe\x0b a\rb 08 0000000008 5 3 0 4 - \t\r\n\n0 a 8 8 0 0 7 7 6 ";
    let requests = read_scen(rt.alloc(), text, &grid, None)?;
    assert_eq!(rt;
        requests.as_slice(),
        [request(29, 32), request(0, 63)].as_slice()
    );
    let first = read_scen(rt.alloc(), text, &grid, Some(1))?;
    assert_eq!(rt; first.as_slice(), [request(29, 32)].as_slice());
    let none = read_scen(rt.alloc(), text, &grid, Some(0))?;
    assert_eq!(rt; none.len(), 0);
    Ok(())
}

// A scenario of so many rows, on a map of one cell.
fn long_scenario(alloc: Global, count: u32) -> Result<Vec<u8>, AllocError> {
    let mut text = Vec::new(alloc);
    text.extend_from_slice(b"version 1\n")?;
    for _ in 0..count {
        text.extend_from_slice(b"0 a 1 1 0 0 0 0 0\n")?;
    }
    Ok(text)
}

// There may be 32,767 rows, and any count of rows where a number to take is given.
#[test]
fn many(rt: HostRuntime) -> Result<(), Fail> {
    let grid = Grid::new(1, 1, vec![in rt.alloc(); true; 1]?);
    let text = long_scenario(rt.alloc(), 32768)?;
    let text = text.as_slice();
    assert!(rt; 18 < text.len());
    assert!(rt; text.len() < 1000000);
    let less = &text[..text.len() - 18];
    assert_eq!(rt; fault_in(rt.alloc(), text, &grid, None), at(32769, TooMany));
    assert_eq!(rt; read_scen(rt.alloc(), less, &grid, None)?.len(), 32767);
    assert_eq!(rt;
        read_scen(rt.alloc(), text, &grid, Some(32767))?.len(),
        32767
    );
    Ok(())
}

// The texts of the faults, and the numbers of the kinds.
#[test]
fn faults(rt: HostRuntime) -> Result<(), Fail> {
    let fault = ScenFault::At {
        line: 2,
        kind: FieldCount,
    };
    assert_eq!(rt;
        format!(in rt.alloc(); "{fault}")?.as_str(),
        "line 2: FieldCount"
    );
    assert_eq!(rt;
        format!(in rt.alloc(); "{}", ScenFault::Memory)?.as_str(),
        "out of memory"
    );
    let kinds = [
        BadVersion,
        FieldCount,
        BadNumber,
        SizeDiffers,
        Outside,
        TooMany,
    ];
    for (index, kind) in kinds.iter().enumerate() {
        assert_eq!(rt; *kind as usize, index + 1);
    }
    Ok(())
}
