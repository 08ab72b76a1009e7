use crate::calling::{CORRIDOR, NOTHING_FAILS, call};
use std::test::Fail;

pub const CLOSED_FIRST: &str = "type octile\nheight 1\nwidth 2\nmap\n@.\n";

// Carriage returns, and no end of the last line.
const RETURNS: &str = "type octile\r\nheight 1\r\nwidth 3\r\nmap\r\n...";

const OPEN_2_BY_2: &str = "type octile\nheight 2\nwidth 2\nmap\n..\n..\n";

const OPEN_3_BY_3: &str = "type octile\nheight 3\nwidth 3\nmap\n...\n...\n...\n";

// A wall with one gap, below.
const WALL: &str = "type octile\nheight 3\nwidth 5\nmap\n..@..\n..T..\n.G.S.\n";

#[test]
fn one_prints_a_route_or_none(rt: HostRuntime) -> Result<(), Fail> {
    for (line, map, wanted) in [
        ("one m.map 0 0 2 0", CORRIDOR, "route 2 RR\n"),
        ("one m.map 1 0 1 0", CORRIDOR, "route 0 -\n"),
        ("one m.map 0 0 1 0", CLOSED_FIRST, "none\n"),
        ("one m.map 1 0 0 0", CLOSED_FIRST, "none\n"),
        ("one m.map 0 0 2 0", RETURNS, "route 2 RR\n"),
        ("one -- m.map 0 0 2 0", CORRIDOR, "route 2 RR\n"),
        ("one m.map 2 0 0 0", CORRIDOR, "route 2 LL\n"),
        ("one m.map 0 0 4 0", WALL, "route 8 RDDRRUUR\n"),
    ] {
        let ended = call(&rt, rt.alloc(), line, map.as_bytes(), NOTHING_FAILS)?;
        assert_eq!(rt; ended.outcome as u32, 0, "at {line}");
        assert_eq!(rt; ended.out.bytes(), wanted.as_bytes(), "at {line}");
        assert!(rt; ended.err.bytes().is_empty(), "at {line}");
    }
    Ok(())
}

// Of the shortest routes the one that is printed is read back from the goal, neighbours up, left, right, down.
#[test]
fn one_prints_the_canonical_route(rt: HostRuntime) -> Result<(), Fail> {
    for (line, map, wanted) in [
        ("one m.map 0 0 1 1", OPEN_2_BY_2, "route 2 RD\n"),
        ("one m.map 1 1 0 0", OPEN_2_BY_2, "route 2 UL\n"),
        ("one m.map 1 0 0 1", OPEN_2_BY_2, "route 2 LD\n"),
        ("one m.map 0 1 1 0", OPEN_2_BY_2, "route 2 UR\n"),
        ("one m.map 0 0 2 2", OPEN_3_BY_3, "route 4 RRDD\n"),
        ("one m.map 2 0 0 2", OPEN_3_BY_3, "route 4 LLDD\n"),
        ("one m.map 0 2 2 0", OPEN_3_BY_3, "route 4 UURR\n"),
        ("one m.map 2 2 0 0", OPEN_3_BY_3, "route 4 UULL\n"),
    ] {
        let ended = call(&rt, rt.alloc(), line, map.as_bytes(), NOTHING_FAILS)?;
        assert_eq!(rt; ended.outcome as u32, 0, "at {line}");
        assert_eq!(rt; ended.out.bytes(), wanted.as_bytes(), "at {line}");
    }
    Ok(())
}
