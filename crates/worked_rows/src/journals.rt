use crate::calling::{CORRIDOR, Files, NOTHING_FAILS, call_on};
use std::test::Fail;

const ONE_CELL: &str = "type octile\nheight 1\nwidth 1\nmap\n.\n";

const PAIR: &str = "type octile\nheight 1\nwidth 2\nmap\n..\n";

const CLOSED_SECOND: &str = "type octile\nheight 1\nwidth 2\nmap\n.@\n";

const FIVE: &str = "type octile\nheight 1\nwidth 5\nmap\n.....\n";

// A row of five cells, with a bay below the fourth.
const BAY: &str = "type octile\nheight 2\nwidth 5\nmap\n.....\n@@@.@\n";

// A row of three cells, with one more below the first.
const CORNER: &str = "type octile\nheight 2\nwidth 3\nmap\n...\n.@@\n";

#[test]
fn orders_print_their_journal(rt: HostRuntime) -> Result<(), Fail> {
    for (map, orders, line, wanted) in [
        (
            PAIR,
            "plan 0 0 1 0 0\nplan 1 0 0 0 0\n",
            "orders m.map o.txt --workers 1",
            "0 1 0 route 1 R\n0 2 1 none\nroutes 1 none 1 cancelled 0 sum 1 last 1\n",
        ),
        (
            BAY,
            "plan 0 0 4 0 0\nplan 4 0 0 0 0\n",
            "orders m.map o.txt --workers 1",
            "0 1 0 route 4 RRRR\n0 2 1 route 7 LDWULLL\nroutes 2 none 0 cancelled 0 sum 11 last 7\n",
        ),
        (
            PAIR,
            "plan 0 0 1 0 0\ncancel 0\nplan 1 0 0 0 0\n",
            "orders m.map o.txt --workers 1",
            "0 1 0 route 1 R\n0 - 1 cancel 0\n1 2 2 route 1 L\nroutes 2 none 0 cancelled 1 sum 2 last 1\n",
        ),
        (
            FIVE,
            "plan 0 0 4 0 0\n",
            "orders m.map o.txt --workers 1 --horizon 3",
            "0 1 0 none\nroutes 0 none 1 cancelled 0 sum 0 last 0\n",
        ),
        (
            FIVE,
            "plan 0 0 4 0 0\n",
            "orders m.map o.txt --horizon 4 --workers 1",
            "0 1 0 route 4 RRRR\nroutes 1 none 0 cancelled 0 sum 4 last 4\n",
        ),
        (
            CORRIDOR,
            "plan 0 0 2 0 5\n",
            "orders m.map o.txt --workers 1",
            "0 1 0 route 7 RR\nroutes 1 none 0 cancelled 0 sum 2 last 7\n",
        ),
        (
            CLOSED_SECOND,
            "plan 0 0 1 0 0\ncancel 0\n",
            "orders m.map o.txt --workers 1",
            "0 1 0 none\n0 - 1 cancel 0 gone\nroutes 0 none 1 cancelled 0 sum 0 last 0\n",
        ),
        (
            PAIR,
            "",
            "orders m.map o.txt --workers 1",
            "routes 0 none 0 cancelled 0 sum 0 last 0\n",
        ),
    ] {
        let files = Files {
            map: map.as_bytes(),
            second_name: "o.txt",
            second: orders.as_bytes(),
        };
        let ended = call_on(&rt, rt.alloc(), line, files, NOTHING_FAILS)?;
        assert_eq!(rt; ended.outcome as u32, 0, "at {orders}");
        assert_eq!(rt; ended.out.bytes(), wanted.as_bytes(), "at {orders}");
        assert!(rt; ended.err.bytes().is_empty(), "at {orders}");
    }
    Ok(())
}

// Agents that stay on their goal: nobody passes them until they are cancelled.
#[test]
fn parks_stay(rt: HostRuntime) -> Result<(), Fail> {
    for (map, orders, line, wanted) in [
        (
            CORRIDOR,
            "park 0 0 1 0 0\nplan 0 0 2 0 5\n",
            "orders m.map o.txt",
            "0 1 0 park 1 R\n0 2 1 none\nroutes 1 none 1 cancelled 0 sum 1 last 1\n",
        ),
        (
            CORNER,
            "plan 2 0 0 0 3\npark 0 0 1 0 0\n",
            "orders m.map o.txt",
            "0 1 0 route 5 LL\n0 2 1 park 7 DWWWWUR\nroutes 2 none 0 cancelled 0 sum 9 last 7\n",
        ),
        (
            PAIR,
            "park 0 0 1 0 0\nplan 1 0 1 0 1\n",
            "orders m.map o.txt --horizon 1",
            "0 1 0 park 1 R\n0 2 1 none\nroutes 1 none 1 cancelled 0 sum 1 last 1\n",
        ),
        (
            PAIR,
            "park 0 0 1 0 0\ncancel 0\nplan 1 0 0 0 0\n",
            "orders m.map o.txt",
            "0 1 0 park 1 R\n0 - 1 cancel 0\n1 2 2 route 1 L\nroutes 2 none 0 cancelled 1 sum 2 last 1\n",
        ),
    ] {
        let files = Files {
            map: map.as_bytes(),
            second_name: "o.txt",
            second: orders.as_bytes(),
        };
        let ended = call_on(&rt, rt.alloc(), line, files, NOTHING_FAILS)?;
        assert_eq!(rt; ended.outcome as u32, 0, "at {orders}");
        assert_eq!(rt; ended.out.bytes(), wanted.as_bytes(), "at {orders}");
    }
    Ok(())
}

// The agents of one cell, one after the other.
#[test]
fn one_cell_serves_many(rt: HostRuntime) -> Result<(), Fail> {
    let orders = "plan 0 0 0 0 2\nplan 0 0 0 0 0\nplan 0 0 0 0 1\nplan 0 0 0 0 1\n";
    let wanted =
        "0 1 0 route 2 -\n0 2 1 route 0 -\n0 3 2 route 1 -\n0 4 3 none\nroutes 3 none 1 cancelled 0 sum 0 last 2\n";
    let files = Files {
        map: ONE_CELL.as_bytes(),
        second_name: "o.txt",
        second: orders.as_bytes(),
    };
    let ended = call_on(&rt, rt.alloc(), "orders m.map o.txt", files, NOTHING_FAILS)?;
    assert_eq!(rt; ended.out.bytes(), wanted.as_bytes());
    Ok(())
}
