use super::*;

// Free but for place 3.
const FREE: u64 = 0b1111_0111;

#[test]
fn fills_both_ways_until_a_gap(rt: HostRuntime) {
    assert_eq!(rt; filled(0b0000_0100, FREE, 0xff, 0xff), 0b0000_0111);
    assert_eq!(rt; filled(0b0100_0000, FREE, 0xff, 0xff), 0b1111_0000);
    assert_eq!(rt; filled(0b0000_1000, FREE, 0xff, 0xff), 0);
    assert_eq!(rt; filled(1 << 63, u64::MAX, 0, u64::MAX), u64::MAX);
}

// The target is place 5: from below it flows up to it, and from above down to it.
#[test]
fn fills_toward_a_place_in_the_middle(rt: HostRuntime) {
    let up = below(5);
    let down = without(u64::MAX, below(6));
    assert_eq!(rt; filled(0b0001_0000, FREE, up, down), 0b0011_0000);
    assert_eq!(rt; filled(0b1000_0000, FREE, up, down), 0b1110_0000);
    assert_eq!(rt; filled(0b0000_0010, FREE, up, down), 0b0000_0110);
    assert_eq!(rt; filled(0b0010_0000, FREE, up, down), 0b0010_0000);
}

#[test]
fn places_of_cells(rt: HostRuntime) {
    assert_eq!(rt; open_places(&[true, false, true, true]), 0b1101);
    assert_eq!(rt; open_places(&[true; 64]), u64::MAX);
    assert_eq!(rt; open_places(&[]), 0);
    let mut cells = [false; 19];
    for place in [0, 2, 7, 8, 13, 17] {
        cells[place] = true;
    }
    assert_eq!(rt; open_places(&cells), 0b10_0010_0001_1000_0101);
}

// Each pattern of eight cells has its own number, with the first cell as the lowest bit.
#[test]
fn places_of_each_eight_cells(rt: HostRuntime) {
    for pattern in 0..256_u64 {
        let mut cells = [false; 8];
        for place in 0..8 {
            cells[place] = pattern >> place & 1 == 1;
        }
        assert_eq!(rt; open_places(&cells), pattern);
    }
}

#[test]
fn lowest_place(rt: HostRuntime) {
    assert_eq!(rt; lowest(0b0110_1000), Some(3));
    assert_eq!(rt; lowest(1 << 63), Some(63));
    assert_eq!(rt; lowest(0), None);
}

#[test]
fn words_of_places(rt: HostRuntime) {
    assert_eq!(rt;
        (
            both(0b1100, 0b1010),
            either(0b1100, 0b1010),
            without(0b1100, 0b1010)
        ),
        (0b1000, 0b1110, 0b0100)
    );
    assert_eq!(rt; (raised(1 << 63 | 1), lowered(0b101)), (0b10, 0b10));
    assert_eq!(rt;
        (below(0), below(3), below(64), below(90)),
        (0, 0b111, u64::MAX, u64::MAX)
    );
    assert_eq!(rt; (is_set(single(7), 7), is_set(single(7), 6)), (true, false));
}
