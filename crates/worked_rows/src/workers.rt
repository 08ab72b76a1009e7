use crate::calling::{Ended, Failing, Files, NOTHING_FAILS, call, call_on, call_through};
use fleet_run::Gate;
use std::alloc::Global;
use std::sync::atomic::{AtomicU32, Ordering};
use std::test::Fail;
use std::thread::Threads;

const ONE_CELL: &str = "type octile\nheight 1\nwidth 1\nmap\n.\n";

const PAIR: &str = "type octile\nheight 1\nwidth 2\nmap\n..\n";

// A row of five cells, with a bay below the fourth.
const BAY: &str = "type octile\nheight 2\nwidth 5\nmap\n.....\n@@@.@\n";

// Two rows of two cells that don't touch.
const TWO_ROWS: &str = "type octile\nheight 3\nwidth 2\nmap\n..\n@@\n..\n";

// Three rows of three cells that don't touch.
const THREE_ROWS: &str = "type octile\nheight 5\nwidth 3\nmap\n...\n@@@\n...\n@@@\n...\n";

fn orders_on<'a>(map: &'a str, orders: &'a str) -> Files<'a> {
    Files {
        map: map.as_bytes(),
        second_name: "o.txt",
        second: orders.as_bytes(),
    }
}

// Which of the two lanes comes first is the schedule's, and the other finds no way.
#[test]
fn two_workers_print_one_of_two_journals(rt: HostRuntime) -> Result<(), Fail> {
    let files = orders_on(PAIR, "plan 0 0 1 0 0\nlane\nplan 1 0 0 0 0\n");
    let line = "orders m.map o.txt --workers 2";
    let ended = call_on(&rt, rt.alloc(), line, files, NOTHING_FAILS)?;
    let left_first =
        "0 1 0 route 1 R\n0 2 1 none\nroutes 1 none 1 cancelled 0 sum 1 last 1\n".as_bytes();
    let right_first =
        "0 1 1 route 1 L\n0 2 0 none\nroutes 1 none 1 cancelled 0 sum 1 last 1\n".as_bytes();
    assert_eq!(rt; ended.outcome as u32, 0);
    assert!(rt; ended.out.bytes() == left_first || ended.out.bytes() == right_first);
    assert!(rt; ended.err.bytes().is_empty());
    Ok(())
}

// The orders of one lane are answered by one worker, so there is one journal.
#[test]
fn one_lane_has_one_journal(rt: HostRuntime) -> Result<(), Fail> {
    let standing =
        "plan 0 0 0 0 0\nplan 0 0 0 0 1\nplan 0 0 0 0 2\nplan 0 0 0 0 3\nplan 0 0 0 0 4\nplan 0 0 0 0 5\nplan 0 0 0 0 6\nplan 0 0 0 0 7\nplan 0 0 0 0 8\nplan 0 0 0 0 9\nplan 0 0 0 0 10\nplan 0 0 0 0 11\nplan 0 0 0 0 12\nplan 0 0 0 0 13\nplan 0 0 0 0 14\nplan 0 0 0 0 15\n";
    let stood =
        "0 1 0 route 0 -\n0 2 1 route 1 -\n0 3 2 route 2 -\n0 4 3 route 3 -\n0 5 4 route 4 -\n0 6 5 route 5 -\n0 7 6 route 6 -\n0 8 7 route 7 -\n0 9 8 route 8 -\n0 10 9 route 9 -\n0 11 10 route 10 -\n0 12 11 route 11 -\n0 13 12 route 12 -\n0 14 13 route 13 -\n0 15 14 route 14 -\n0 16 15 route 15 -\nroutes 16 none 0 cancelled 0 sum 0 last 15\n";
    for (line, map, orders, wanted) in [
        ("orders m.map o.txt --workers 2", ONE_CELL, standing, stood),
        (
            "orders m.map o.txt",
            BAY,
            "plan 0 0 4 0 0\nplan 4 0 0 0 0\n",
            "0 1 0 route 4 RRRR\n0 2 1 route 7 LDWULLL\nroutes 2 none 0 cancelled 0 sum 11 last 7\n",
        ),
        (
            "orders m.map o.txt --workers 16",
            PAIR,
            "plan 0 0 1 0 0\ncancel 0\nplan 1 0 0 0 0\n",
            "0 1 0 route 1 R\n0 - 1 cancel 0\n1 2 2 route 1 L\nroutes 2 none 0 cancelled 1 sum 2 last 1\n",
        ),
        (
            "orders m.map o.txt --workers 3",
            PAIR,
            "",
            "routes 0 none 0 cancelled 0 sum 0 last 0\n",
        ),
    ] {
        let files = orders_on(map, orders);
        let ended = call_on(&rt, rt.alloc(), line, files, NOTHING_FAILS)?;
        assert_eq!(rt; ended.outcome as u32, 0, "at {line}");
        assert_eq!(rt; ended.out.bytes(), wanted.as_bytes(), "at {line}");
    }
    Ok(())
}

// The turns for which the gate holds its order at most.
const TURNS: u32 = 1_000_000_000;

// A gate that holds the order 0 until the order 1 is answered.
#[derive(Drop)]
struct HoldingGate {
    is_answered: AtomicU32,
    was_freed: AtomicU32,
}

impl Gate for HoldingGate {
    fn before(&self, order: u32) {
        if order != 0 {
            return;
        }
        for _ in 0..TURNS {
            if self.is_answered.load(Ordering::SeqCst) == 1 {
                self.was_freed.store(1, Ordering::SeqCst);
                return;
            }
        }
    }

    fn after(&self, order: u32) {
        if order == 1 {
            self.is_answered.store(1, Ordering::SeqCst);
        }
    }
}

// One worker is held at its order, and another answers the order that frees it.
#[test]
fn workers_run_side_by_side(rt: HostRuntime) -> Result<(), Fail> {
    let files = orders_on(TWO_ROWS, "lane\nplan 0 0 1 0 0\nlane\nplan 0 2 1 2 0\n");
    let gate = HoldingGate {
        is_answered: AtomicU32::new(0),
        was_freed: AtomicU32::new(0),
    };
    let line = "orders m.map o.txt --workers 2";
    let ended = call_through(&rt, rt.alloc(), line, files, NOTHING_FAILS, &gate)?;
    assert_eq!(rt; ended.outcome as u32, 0);
    assert_eq!(rt; gate.was_freed.load(Ordering::SeqCst), 1);
    assert_eq!(rt;
        ended.out.bytes(),
        "0 1 1 route 1 R\n0 2 0 route 1 R\nroutes 2 none 0 cancelled 0 sum 2 last 1\n".as_bytes()
    );
    Ok(())
}

// How many lines of the text have this word as their third.
fn count_lines_of(text: &str, order: &str) -> usize {
    text.lines()
        .filter(|line| line.split(' ').nth(2) == Some(order))
        .count()
}

// Whatever the schedule: each order has its line, and as no two lanes meet, the last line is the same.
#[test]
fn three_workers_answer_each_order_once(rt: HostRuntime) -> Result<(), Fail> {
    let orders =
        "plan 0 0 2 0 0\ncancel 0\nplan 2 0 0 0 0\nlane\nplan 0 2 2 2 0\nplan 2 2 0 2 9\nlane\nplan 0 4 2 4 5\nlane\nplan 1 4 1 4 0\ncancel 6\n";
    let files = orders_on(THREE_ROWS, orders);
    let line = "orders m.map o.txt --workers 3";
    let ended = call_on(&rt, rt.alloc(), line, files, NOTHING_FAILS)?;
    assert_eq!(rt; ended.outcome as u32, 0);
    let Ok(text) = str::from_utf8(ended.out.bytes()) else {
        panic!(rt; "the journal is no text");
    };
    for order in ["0", "1", "2", "3", "4", "5", "6", "7"] {
        assert_eq!(rt; count_lines_of(text, order), 1, "at {order}");
    }
    assert_eq!(rt; text.lines().count(), 9);
    assert!(rt; text.ends_with("\nroutes 6 none 0 cancelled 2 sum 10 last 11\n"));
    Ok(())
}

// Where no two requests meet, the last line is that of one worker.
#[test]
fn gen_runs_by_several_workers(rt: HostRuntime) -> Result<(), Fail> {
    for (line, wanted) in [
        (
            "gen 1 1 0 3 7 --workers 2",
            "routes 3 none 0 cancelled 0 sum 0 last 2\n",
        ),
        (
            "gen 5 5 100 2 1 --workers 16",
            "routes 0 none 2 cancelled 0 sum 0 last 0\n",
        ),
    ] {
        let ended = call(&rt, rt.alloc(), line, b"", NOTHING_FAILS)?;
        assert_eq!(rt; ended.outcome as u32, 0, "at {line}");
        assert_eq!(rt; ended.out.bytes(), wanted.as_bytes(), "at {line}");
        assert!(rt; ended.has_joined, "at {line}");
    }
    Ok(())
}

const SCENARIO: &str = "version 1\n0\tpair.map\t2\t1\t0\t0\t1\t0\t1\n";

// The call of a line over the map of two cells, with a scenario or with orders.
fn call_on_pair<R: Threads + Sync>(
    rt: &R,
    alloc: Global,
    line: &str,
    failing: Failing<'_>,
) -> Result<Ended, Fail> {
    let second = if line.starts_with("run") {
        SCENARIO
    } else {
        "plan 0 0 1 0 0\ncancel 0\n"
    };
    Ok(call_on(rt, alloc, line, orders_on(PAIR, second), failing)?)
}

// What several workers have joined is handed out where all was done, and nowhere else.
#[test]
fn several_workers_join_for_a_text_that_is_written(rt: HostRuntime) -> Result<(), Fail> {
    let broken = Failing {
        out: &[1],
        ..NOTHING_FAILS
    };
    let unread = Failing {
        fetches: &[1],
        ..NOTHING_FAILS
    };
    for (line, failing, status, has_joined) in [
        ("run m.map o.txt", NOTHING_FAILS, 0, true),
        ("run m.map o.txt --workers 2", NOTHING_FAILS, 0, true),
        ("run m.map o.txt --workers 1", NOTHING_FAILS, 0, false),
        ("run m.map o.txt", broken, 6, false),
        ("orders m.map o.txt", NOTHING_FAILS, 0, true),
        ("orders m.map o.txt --workers 16", NOTHING_FAILS, 0, true),
        ("orders m.map o.txt --workers 1", NOTHING_FAILS, 0, false),
        ("orders m.map o.txt --workers 17", NOTHING_FAILS, 2, false),
        ("orders m.map o.txt --workers 2", broken, 6, false),
        ("orders m.map o.txt --workers 2", unread, 5, false),
        ("one m.map 0 0 1 0", NOTHING_FAILS, 0, false),
        ("gen 1 1 0 3 7", NOTHING_FAILS, 0, false),
        ("gen 1 1 0 3 7 --workers 4", NOTHING_FAILS, 0, true),
    ] {
        let ended = call_on_pair(&rt, rt.alloc(), line, failing)?;
        assert_eq!(rt; ended.outcome as u32, status, "at {line}");
        assert_eq!(rt; ended.has_joined, has_joined, "at {line}");
    }
    Ok(())
}
