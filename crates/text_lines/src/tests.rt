use super::*;

// What a line is: where it ends, and what is dropped there and nowhere else.
#[test]
fn lines(rt: HostRuntime) {
    let table: [(&[u8], Option<(&[u8], &[u8])>); 6] = [
        (b"", None),
        (b"a", Some((b"a", b""))),
        (b"a \t\r\nb", Some((b"a", b"b"))),
        (b"\n\n", Some((b"", b"\n"))),
        (b" \r\n", Some((b"", b""))),
        (b"\ra\x0b\n", Some((b"\ra\x0b", b""))),
    ];
    for (text, wanted) in table {
        assert_eq!(rt; next_line(text), wanted, "{text:?}");
    }
    let counts: [(&[u8], usize); 4] = [(b"", 0), (b"\n", 1), (b"a\n\n", 2), (b"a\n\nb", 3)];
    for (text, wanted) in counts {
        assert_eq!(rt; count_lines(text), wanted, "{text:?}");
    }
    match next_filled_line(4, b" \n\t\r\n x\n y") {
        Some(found) => {
            assert_eq!(rt;
                (found.number, found.line, found.rest),
                (7, b" x".as_slice(), b" y".as_slice())
            );
        }
        None => assert!(rt; false, "a line isn't empty"),
    }
}

// A carriage return inside a line is a byte of a field.
#[test]
fn fields(rt: HostRuntime) {
    let table: [(&[u8], Option<(&[u8], &[u8])>); 4] = [
        (b" \t ", None),
        (b"a", Some((b"a", b""))),
        (b"\t a\rb  c", Some((b"a\rb", b" c"))),
        (b"a\x0bb\t", Some((b"a\x0bb", b""))),
    ];
    for (line, wanted) in table {
        assert_eq!(rt; next_field(line), wanted, "{line:?}");
    }
    assert_eq!(rt; only_field(b" a\t"), Some(b"a".as_slice()));
    assert_eq!(rt; only_field(b"a b"), None);
    assert_eq!(rt;
        two_fields(b"a b"),
        Some((b"a".as_slice(), b"b".as_slice()))
    );
    assert_eq!(rt; two_fields(b"a b c"), None);
}

#[test]
fn numbers(rt: HostRuntime) {
    let table: [(&[u8], u64, Result<u64, NumberFault>); 8] = [
        (b"0", 0, Ok(0)),
        (b"0002048", 2048, Ok(2048)),
        (b"2049", 2048, Err(NumberFault::TooGreat)),
        (b"18446744073709551615", u64::MAX, Ok(u64::MAX)),
        (
            b"18446744073709551616",
            u64::MAX,
            Err(NumberFault::TooGreat),
        ),
        (b"99999999999999999999999999", 7, Err(NumberFault::TooGreat)),
        (b"", 7, Err(NumberFault::NoNumber)),
        (b"+1", 7, Err(NumberFault::NoNumber)),
    ];
    for (field, limit, wanted) in table {
        assert_eq!(rt; read_number(field, limit), wanted, "{field:?}");
    }
    assert_eq!(rt; read_small_number(b"4294967295"), Some(4294967295));
    assert_eq!(rt; read_small_number(b"4294967296"), None);
}
