use crate::calling::{CORRIDOR, Failing, Files, NOTHING_FAILS, call, call_on};
use std::test::Fail;

const SHORT_ROW: &str = "type octile\nheight 2\nwidth 3\nmap\n...\n..\n";

const TOO_WIDE: &str = "type octile\nheight 1\nwidth 2049\nmap\n...\n";

#[test]
fn a_refusal_writes_its_line(rt: HostRuntime) -> Result<(), Fail> {
    for (line, map, status, wanted) in [
        (
            "one m.map 0 0 2 +0",
            CORRIDOR,
            2,
            "fleet: the words are no command\n",
        ),
        (
            "check m.map o.txt j.txt",
            CORRIDOR,
            2,
            "fleet: the words are no command\n",
        ),
        (
            "one m.map 0 0 2 0",
            SHORT_ROW,
            3,
            "fleet: map line 6: ShortRow\n",
        ),
        (
            "one m.map 0 0 2 0",
            TOO_WIDE,
            3,
            "fleet: map line 3: TooLarge\n",
        ),
        (
            "one m.map 0 0 3 0",
            CORRIDOR,
            4,
            "fleet: orders line 0: Outside\n",
        ),
        (
            "one m.map 0 1 2 0",
            CORRIDOR,
            4,
            "fleet: orders line 0: Outside\n",
        ),
        (
            "one n.map 0 0 0 0",
            CORRIDOR,
            5,
            "fleet: cannot read n.map\n",
        ),
    ] {
        let ended = call(&rt, rt.alloc(), line, map.as_bytes(), NOTHING_FAILS)?;
        assert_eq!(rt; ended.outcome as u32, status, "at {line}");
        assert!(rt; ended.out.bytes().is_empty(), "at {line}");
        assert_eq!(rt; ended.err.bytes(), wanted.as_bytes(), "at {line}");
    }
    Ok(())
}

#[test]
fn calls_that_fail(rt: HostRuntime) -> Result<(), Fail> {
    let fetch = Failing {
        fetches: &[0],
        ..NOTHING_FAILS
    };
    let out = Failing {
        out: &[0],
        ..NOTHING_FAILS
    };
    let err = Failing {
        err: &[0],
        ..NOTHING_FAILS
    };
    for (map, failing, status, wanted) in [
        (CORRIDOR, fetch, 5, "fleet: cannot read m.map\n"),
        (CORRIDOR, out, 6, "fleet: cannot write\n"),
        (SHORT_ROW, err, 3, ""),
    ] {
        let ended = call(
            &rt,
            rt.alloc(),
            "one m.map 0 0 2 0",
            map.as_bytes(),
            failing,
        )?;
        assert_eq!(rt; ended.outcome as u32, status, "at {wanted}");
        assert!(rt; ended.out.bytes().is_empty(), "at {wanted}");
        assert_eq!(rt; ended.err.bytes(), wanted.as_bytes(), "at {wanted}");
    }
    Ok(())
}

#[test]
fn bytes_that_are_no_map(rt: HostRuntime) -> Result<(), Fail> {
    for (map, wanted) in [
        (b"".as_slice(), "fleet: map line 1: BadHeader\n"),
        (
            b"\xff\xfe\x00\x01".as_slice(),
            "fleet: map line 1: BadHeader\n",
        ),
        (b"\n\n\n\n\n".as_slice(), "fleet: map line 1: BadHeader\n"),
        (
            b"type octile\nheight 1\nwidth 3\nmap\n.\x80.\n".as_slice(),
            "fleet: map line 5: BadChar\n",
        ),
        (
            b"type octile\nheight 0\nwidth 3\nmap\n...\n".as_slice(),
            "fleet: map line 2: BadNumber\n",
        ),
    ] {
        let ended = call(&rt, rt.alloc(), "one m.map 0 0 0 0", map, NOTHING_FAILS)?;
        assert_eq!(rt; ended.outcome as u32, 3, "at {wanted}");
        assert_eq!(rt; ended.err.bytes(), wanted.as_bytes());
    }
    Ok(())
}

#[test]
fn a_map_file_that_is_too_long(rt: HostRuntime) -> Result<(), Fail> {
    let mut map = Vec::from_slice(rt.alloc(), CORRIDOR.as_bytes())?;
    map.resize(2_097_152, b'\n')?;
    let ended = call(&rt, rt.alloc(), "one m.map 0 0 2 0", &map, NOTHING_FAILS)?;
    assert_eq!(rt; ended.out.bytes(), "route 2 RR\n".as_bytes());
    map.push(b'\n')?;
    let ended = call(&rt, rt.alloc(), "one m.map 0 0 2 0", &map, NOTHING_FAILS)?;
    assert_eq!(rt; ended.outcome as u32, 3);
    assert_eq!(rt;
        ended.err.bytes(),
        "fleet: map line 0: TooLarge\n".as_bytes()
    );
    Ok(())
}

const OPEN_8_BY_8: &str =
    "type octile\nheight 8\nwidth 8\nmap\n........\n........\n........\n........\n........\n........\n........\n........\n";

const PAIR: &str = "type octile\nheight 1\nwidth 2\nmap\n..\n";

const PLAN_CANCEL_PLAN: &str = "plan 0 0 1 0 0\ncancel 0\nplan 1 0 0 0 0\n";

// What is wrong with a second file, and the numbers of workers.
#[test]
fn a_second_file_is_refused(rt: HostRuntime) -> Result<(), Fail> {
    for (line, map, second, status, wanted) in [
        (
            "orders m.map o.txt",
            PAIR,
            "cancel 0\n",
            4,
            "fleet: orders line 1: BadCancel\n",
        ),
        (
            "orders m.map o.txt",
            PAIR,
            "\nlane\nPlan 0 0 1 0 0\n",
            4,
            "fleet: orders line 3: BadWord\n",
        ),
        (
            "run m.map o.txt --workers 1",
            OPEN_8_BY_8,
            "version 1\n0\tempty-8-8.map\t8\t8\t5\t3\t0\t4\n",
            4,
            "fleet: orders line 2: FieldCount\n",
        ),
        (
            "run m.map o.txt",
            PAIR,
            "",
            4,
            "fleet: orders line 1: BadVersion\n",
        ),
        (
            "orders m.map o.txt --workers 0",
            PAIR,
            "",
            2,
            "fleet: the words are no command\n",
        ),
        (
            "orders m.map n.txt",
            PAIR,
            "",
            5,
            "fleet: cannot read n.txt\n",
        ),
        (
            "orders m.map o.txt",
            SHORT_ROW,
            "lanes\n",
            3,
            "fleet: map line 6: ShortRow\n",
        ),
    ] {
        let files = Files {
            map: map.as_bytes(),
            second_name: "o.txt",
            second: second.as_bytes(),
        };
        let ended = call_on(&rt, rt.alloc(), line, files, NOTHING_FAILS)?;
        assert_eq!(rt; ended.outcome as u32, status, "at {line}");
        assert!(rt; ended.out.bytes().is_empty(), "at {line}");
        assert_eq!(rt; ended.err.bytes(), wanted.as_bytes(), "at {line}");
    }
    Ok(())
}

// The write of the first line that fails, and what was written before it.
#[test]
fn a_write_that_fails_ends_the_journal(rt: HostRuntime) -> Result<(), Fail> {
    for (write, wanted) in [
        ([0], ""),
        ([1], "0 1 0 route 1 R\n"),
        ([2], "0 1 0 route 1 R\n0 - 1 cancel 0\n"),
        ([3], "0 1 0 route 1 R\n0 - 1 cancel 0\n1 2 2 route 1 L\n"),
    ] {
        let failing = Failing {
            out: &write,
            ..NOTHING_FAILS
        };
        let files = Files {
            map: PAIR.as_bytes(),
            second_name: "o.txt",
            second: PLAN_CANCEL_PLAN.as_bytes(),
        };
        let ended = call_on(
            &rt,
            rt.alloc(),
            "orders m.map o.txt --workers 1",
            files,
            failing,
        )?;
        assert_eq!(rt; ended.outcome as u32, 6, "at {wanted}");
        assert_eq!(rt; ended.out.bytes(), wanted.as_bytes());
        assert_eq!(rt; ended.err.bytes(), "fleet: cannot write\n".as_bytes());
    }
    Ok(())
}

#[test]
fn a_fetch_that_fails_names_its_file(rt: HostRuntime) -> Result<(), Fail> {
    for (fetch, wanted) in [
        ([0], "fleet: cannot read m.map\n"),
        ([1], "fleet: cannot read o.txt\n"),
    ] {
        let failing = Failing {
            fetches: &fetch,
            ..NOTHING_FAILS
        };
        let files = Files {
            map: PAIR.as_bytes(),
            second_name: "o.txt",
            second: PLAN_CANCEL_PLAN.as_bytes(),
        };
        let ended = call_on(&rt, rt.alloc(), "orders m.map o.txt", files, failing)?;
        assert_eq!(rt; ended.outcome as u32, 5, "at {wanted}");
        assert!(rt; ended.out.bytes().is_empty(), "at {wanted}");
        assert_eq!(rt; ended.err.bytes(), wanted.as_bytes());
    }
    Ok(())
}

#[test]
fn a_second_file_that_is_too_long(rt: HostRuntime) -> Result<(), Fail> {
    let mut second = Vec::from_slice(rt.alloc(), b"plan 0 0 1 0 0")?;
    second.resize(16_777_217, b'\n')?;
    let files = Files {
        map: PAIR.as_bytes(),
        second_name: "o.txt",
        second: &second,
    };
    let ended = call_on(&rt, rt.alloc(), "orders m.map o.txt", files, NOTHING_FAILS)?;
    assert_eq!(rt; ended.outcome as u32, 4);
    assert_eq!(rt;
        ended.err.bytes(),
        "fleet: orders line 0: TooMany\n".as_bytes()
    );
    Ok(())
}
