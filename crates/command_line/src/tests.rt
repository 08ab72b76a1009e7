use super::*;
use std::alloc::Global;
use std::test::Fail;

// The words of a line, which are parted by single spaces.
fn words_of(alloc: Global, line: &str) -> Result<Vec<String>, Fail> {
    let mut words = Vec::new(alloc);
    for word in line.split(' ') {
        words.push(String::from_str(alloc, word)?)?;
    }
    Ok(words)
}

const fn one(map: &str, to_x: u32, to_y: u32) -> Command<&str> {
    Command::One {
        map,
        from_x: 0,
        from_y: 0,
        to_x,
        to_y,
    }
}

const fn run<'a>(
    map: &'a str,
    scenario: &'a str,
    workers: u32,
    take: Option<u32>,
) -> Command<&'a str> {
    Command::Run {
        map,
        scenario,
        workers,
        horizon: 8000,
        take,
    }
}

const fn orders<'a>(map: &'a str, orders: &'a str, workers: u32) -> Command<&'a str> {
    Command::Orders {
        map,
        orders,
        workers,
        horizon: 8000,
    }
}

const fn generated(height: u32, start: u64, workers: u32) -> Command<&'static str> {
    Command::Gen {
        width: 2048,
        height,
        percent: 100,
        orders: 32767,
        start,
        workers,
        horizon: 8000,
    }
}

#[test]
fn lines_that_are_commands(rt: HostRuntime) -> Result<(), Fail> {
    for (line, wanted) in [
        ("one m 0 0 2 0", one("m", 2, 0)),
        ("one -- m 0 0 2 0", one("m", 2, 0)),
        ("one m 0 0 -- 2 0", one("m", 2, 0)),
        ("one m 0 0 0002 2047", one("m", 2, 2047)),
        ("one - 0 0 2 0", one("-", 2, 0)),
        ("one -- -- 0 0 2 0", one("--", 2, 0)),
        ("run m s", run("m", "s", 4, None)),
        ("run --workers 1 m s --take 5", run("m", "s", 1, Some(5))),
        ("run m s --workers 2", run("m", "s", 2, None)),
        ("run m s --workers=16", run("m", "s", 16, None)),
        ("run m --take=0032767 s", run("m", "s", 4, Some(32767))),
        ("run --workers=1 -- --x --", run("--x", "--", 1, None)),
        ("run m s --horizon=8000", run("m", "s", 4, None)),
        ("orders - o", orders("-", "o", 4)),
        ("orders -- m --workers=2", orders("m", "--workers=2", 4)),
        ("orders m o --workers=001", orders("m", "o", 1)),
        ("orders --workers 0016 m o", orders("m", "o", 16)),
        ("gen 2048 512 100 32767 0", generated(512, 0, 1)),
        (
            "gen 2048 1 100 32767 18446744073709551615 --workers 2",
            generated(1, 18446744073709551615, 2),
        ),
        ("gen --workers=16 2048 1 100 32767 0", generated(1, 0, 16)),
        (
            "check m o j --horizon 3",
            Command::Check {
                map: "m",
                orders: "o",
                journal: "j",
                horizon: 3,
            },
        ),
        (
            "long m o",
            Command::Long {
                map: "m",
                orders: "o",
                horizon: 8000,
            },
        ),
        (
            "turns --horizon=1 m o",
            Command::Turns {
                map: "m",
                orders: "o",
                horizon: 1,
            },
        ),
    ] {
        let words = words_of(rt.alloc(), line)?;
        let Ok(found) = read_words(rt.alloc(), &words) else {
            panic!(rt; "out of memory at {line}");
        };
        assert_eq!(rt; found, Some(wanted), "at {line}");
    }
    Ok(())
}

#[test]
fn lines_that_are_no_command(rt: HostRuntime) -> Result<(), Fail> {
    for line in [
        "",
        "help",
        "--help",
        "-- one m 0 0 2 0",
        "ONE m 0 0 2 0",
        "one m 0 0 2",
        "one m 0 0 2 0 0",
        "one m 0 0 2 2048",
        "one m 0 0 2 +0",
        "one m 0 0 2 ",
        "one m 0 0 2 0x0",
        "one m 0 0 2 0 --horizon 3",
        "one -m 0 0 2 0",
        "run m",
        "run m s --workers 0",
        "run m s --workers 17",
        "run m s --workers 4294967297",
        "run m s --workers",
        "run m s --workers -1",
        "run m s --workers --",
        "run m s --workers=",
        "run m s --workers= 3",
        "run m s --workers 1 --workers 1",
        "run m s --workers=1=1",
        "run m s --=3",
        "run m s --horizon 8001",
        "run m s --take 0",
        "run m -s",
        "orders m o --take 3",
        "orders m o --workers 0",
        "orders m o --workers 17",
        "orders m o --Workers 3",
        "gen 2048 513 100 32767 1",
        "gen 0 1 100 1 1",
        "gen 1 1 101 1 1",
        "gen 1 1 0 32768 1",
        "gen 1 1 0 1 1 --workers 0",
        "gen 1 1 0 1 1 --workers 17",
        "gen 1 1 0 1 18446744073709551616",
        "check m o",
        "check m o j --workers 1",
        "long m o --workers 1",
        "turns m o --take 1",
    ] {
        let words = words_of(rt.alloc(), line)?;
        let Ok(found) = read_words(rt.alloc(), &words) else {
            panic!(rt; "out of memory at {line}");
        };
        assert!(rt; found.is_none(), "at {line}");
    }
    let Ok(found) = read_words(rt.alloc(), &[]) else {
        panic!(rt; "out of memory without words");
    };
    assert!(rt; found.is_none(), "without words");
    Ok(())
}
