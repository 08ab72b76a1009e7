use crate::calling::{CORRIDOR, Files, NOTHING_FAILS, call, call_on};
use fleet_base::{Grid, Memory, Request};
use itoa::Buffer;
use map_text::write_map;
use request_maker::generate;
use std::alloc::Global;
use std::test::Fail;

const OPEN_8_BY_8: &str =
    "type octile\nheight 8\nwidth 8\nmap\n........\n........\n........\n........\n........\n........\n........\n........\n";

const SCENARIO: &str = "version 1\n0\tempty-8-8.map\t8\t8\t5\t3\t0\t4\t6\n";

#[test]
fn a_scenario_prints_its_journal(rt: HostRuntime) -> Result<(), Fail> {
    let files = Files {
        map: OPEN_8_BY_8.as_bytes(),
        second_name: "s.scen",
        second: SCENARIO.as_bytes(),
    };
    for line in ["run m.map s.scen --workers 1", "run --take=1 m.map s.scen"] {
        let ended = call_on(&rt, rt.alloc(), line, files, NOTHING_FAILS)?;
        assert_eq!(rt;
            ended.out.bytes(),
            "0 1 0 route 6 LLLLLD\nroutes 1 none 0 cancelled 0 sum 6 last 6\n".as_bytes()
        );
    }
    Ok(())
}

#[test]
fn gen_prints_the_last_line(rt: HostRuntime) -> Result<(), Fail> {
    for (line, wanted) in [
        (
            "gen 1 1 0 3 7",
            "routes 3 none 0 cancelled 0 sum 0 last 2\n",
        ),
        (
            "gen 5 5 100 2 1",
            "routes 0 none 2 cancelled 0 sum 0 last 0\n",
        ),
        (
            "gen 64 64 20 1000 7",
            "routes 599 none 401 cancelled 0 sum 27070 last 332\n",
        ),
    ] {
        let ended = call(&rt, rt.alloc(), line, CORRIDOR.as_bytes(), NOTHING_FAILS)?;
        assert_eq!(rt; ended.outcome as u32, 0, "at {line}");
        assert_eq!(rt; ended.out.bytes(), wanted.as_bytes(), "at {line}");
    }
    Ok(())
}

fn push_number(text: &mut Vec<u8>, number: u32) -> Result<(), Memory> {
    let mut digits = Buffer::new();
    text.extend_from_slice(b" ")?;
    text.extend_from_slice(digits.format(number).as_bytes())?;
    Ok(())
}

// A lane with one plan.
fn push_lane(text: &mut Vec<u8>, width: u32, request: &Request) -> Result<(), Memory> {
    let width = width.max(1);
    text.extend_from_slice(b"lane\nplan")?;
    push_number(text, request.start.0 % width)?;
    push_number(text, request.start.0 / width)?;
    push_number(text, request.goal.0 % width)?;
    push_number(text, request.goal.0 / width)?;
    push_number(text, request.depart)?;
    text.extend_from_slice(b"\n")?;
    Ok(())
}

fn orders_text(alloc: Global, grid: &Grid, requests: &[Request]) -> Result<Vec<u8>, Memory> {
    let mut text = Vec::new(alloc);
    for request in requests {
        push_lane(&mut text, grid.width(), request)?;
    }
    Ok(text)
}

// What `gen` prints is the last line of its map and orders, written as files, with one worker.
#[test]
fn gen_is_a_run_over_its_files(rt: HostRuntime) -> Result<(), Fail> {
    let (grid, requests) = generate(rt.alloc(), 64, 64, 20, 1000, 7)?;
    let map = write_map(rt.alloc(), &grid)?;
    let orders = orders_text(rt.alloc(), &grid, &requests)?;
    let files = Files {
        map: &map,
        second_name: "o.txt",
        second: &orders,
    };
    let ended = call_on(
        &rt,
        rt.alloc(),
        "orders m.map o.txt --workers 1",
        files,
        NOTHING_FAILS,
    )?;
    assert_eq!(rt; ended.outcome as u32, 0);
    assert!(rt;
        ended
            .out
            .bytes()
            .ends_with(b"\nroutes 599 none 401 cancelled 0 sum 27070 last 332\n")
    );
    Ok(())
}
