ghost use Rattle.std.specs.Prelude.{◌<◌, ◌+◌, ◌^◌, ◌≤◌, length};

use super::*;
use OrderKind::{BadCancel, BadNumber, BadWord, FieldCount, Outside, TooMany};
use fleet_base::{Cell, Grid, Request};
use itoa::Buffer;
use std::alloc::{AllocError, Global};
use std::test::Fail;

fn open_row(alloc: Global, width: u32) -> Result<Grid, AllocError>
    requires { (1 ≤ width) × (width ≤ 8) }
{
    Ok(Grid::new(width, 1, vec![in alloc; true; width as usize]?))
}

fn fault_in(alloc: Global, text: &[u8], grid: &Grid) -> Option<OrderFault>
    requires { length text.now < 2 ^ 32 }
{
    read_orders(alloc, text, grid).err()
}

fn at(line: u32, kind: OrderKind) -> Option<OrderFault> {
    Some(OrderFault::At { line, kind })
}

fn request(start: u32, goal: u32, depart: u32, stay: bool) -> Request {
    Request {
        start: Cell(start),
        goal: Cell(goal),
        depart,
        stay,
    }
}

fn plan(start: u32, goal: u32, depart: u32) -> Order {
    Order::Plan {
        request: request(start, goal, depart, false),
    }
}

fn cancel(target: u32) -> Order {
    Order::Cancel { target }
}

#[test]
fn refused(rt: HostRuntime) -> Result<(), Fail> {
    let grid = open_row(rt.alloc(), 2)?;
    let table: [(&[u8], u32, OrderKind); 22] = [
        (b"Lane", 1, BadWord),
        (b"\n \r\n\tlanes", 3, BadWord),
        (b"lane 0", 1, FieldCount),
        (b"plan 0 0 1 0", 1, FieldCount),
        (b"plan 0 0 1 0 0 0", 1, FieldCount),
        (b"park 0 0 1 0", 1, FieldCount),
        (b"cancel", 1, FieldCount),
        (b"cancel x 0", 1, FieldCount),
        (b"plan 0 0 1 0 4294967296", 1, BadNumber),
        (b"plan 0 0 9 0 -1", 1, BadNumber),
        (b"park 0 0 99999999999999999999 0 0", 1, BadNumber),
        (b"cancel 4294967296", 1, BadNumber),
        (b"plan 0 0 2 0 0", 1, Outside),
        (b"plan 0 1 0 0 0", 1, Outside),
        (b"park 4294967295 0 0 0 0", 1, Outside),
        (b"cancel 0", 1, BadCancel),
        (b"lane\ncancel 4294967295", 2, BadCancel),
        (b"plan 0 0 1 0 0\ncancel 1", 2, BadCancel),
        (b"plan 0 0 1 0 0\ncancel 0\ncancel 0", 3, BadCancel),
        (b"plan 0 0 1 0 0\ncancel 0\ncancel 1", 3, BadCancel),
        (
            b"plan 0 0 1 0 0\nlane\nplan 1 0 0 0 0\ncancel 0",
            4,
            BadCancel,
        ),
        (
            b"plan 0 0 1 0 0\r\n\r\nplan 0 0 1 0 0 0\r\nx",
            3,
            FieldCount,
        ),
    ];
    for (text, line, kind) in table {
        assert_eq!(rt;
            fault_in(rt.alloc(), text, &grid),
            at(line, kind),
            "{text:?}"
        );
    }
    Ok(())
}

// Lanes without orders are dropped, but a cancel is named by the number of all orders.
#[test]
fn two_lanes(rt: HostRuntime) -> Result<(), Fail> {
    let grid = open_row(rt.alloc(), 2)?;
    let text = b"lane\nplan 0 0 1 0 0\nlane\nlane\nplan 1 0 0 0 3\ncancel 1";
    let lanes = read_orders(rt.alloc(), text, &grid)?;
    assert_eq!(rt; lanes.len(), 2);
    if lanes.len() == 2 {
        assert_eq!(rt; (lanes[0].first, lanes[1].first), (0, 1));
        assert_eq!(rt; lanes[0].orders.as_slice(), [plan(0, 1, 0)].as_slice());
        assert_eq!(rt;
            lanes[1].orders.as_slice(),
            [plan(1, 0, 3), cancel(1)].as_slice()
        );
    }
    Ok(())
}

// Carriage returns, tabs, blanks at line ends, empty lines everywhere, no last line end, leading
// zeros, and lanes that begin after the last order.
#[test]
fn one_lane(rt: HostRuntime) -> Result<(), Fail> {
    let grid = open_row(rt.alloc(), 3)?;
    let text =
        b"\r\n\n \tpark 00 0 1\t0 0 \t\r\n\t\nplan 0 0 2 0 0000000005\r\ncancel 000 \n\n lane\r\nlane ";
    let lanes = read_orders(rt.alloc(), text, &grid)?;
    assert_eq!(rt; lanes.len(), 1);
    let park = Order::Plan {
        request: request(0, 1, 0, true),
    };
    if lanes.len() == 1 {
        assert_eq!(rt; lanes[0].first, 0);
        assert_eq!(rt;
            lanes[0].orders.as_slice(),
            [park, plan(0, 2, 5), cancel(0)].as_slice()
        );
    }
    let none = read_orders(rt.alloc(), b"\n lane\nlane\n\n", &grid)?;
    assert_eq!(rt; none.len(), 0);
    Ok(())
}

// Two plans and a cancel of the second one, again and again.
fn long_lane(alloc: Global, count: u32) -> Result<Vec<u8>, AllocError>
    requires { count ≤ 20000 }
{
    let mut text = Vec::new(alloc);
    for group in 0..count {
        let mut buffer = Buffer::new();
        text.extend_from_slice(b"plan 0 0 0 0 0\nplan 0 0 0 0 0\ncancel ")?;
        text.extend_from_slice(buffer.format(3 * group + 1).as_bytes())?;
        text.extend_from_slice(b"\n")?;
    }
    Ok(text)
}

// There may be 32,767 orders. No cancel goes through its lane, else this would take minutes.
#[test]
fn many(rt: HostRuntime) -> Result<(), Fail> {
    let grid = open_row(rt.alloc(), 1)?;
    let text = long_lane(rt.alloc(), 10923)?;
    let text = text.as_slice();
    assert!(rt; 28 < text.len());
    assert!(rt; text.len() < 1000000);
    assert_eq!(rt; fault_in(rt.alloc(), text, &grid), at(32768, TooMany));

    // Without the last plan and its cancel.
    let less = &text[..text.len() - 28];
    let lanes = read_orders(rt.alloc(), less, &grid)?;
    assert_eq!(rt; lanes.len(), 1);
    if lanes.len() == 1 {
        assert_eq!(rt; lanes[0].orders.as_slice().len(), 32767);
    }
    Ok(())
}

#[test]
fn requests(rt: HostRuntime) -> Result<(), Fail> {
    let wanted = [request(0, 1, 0, false), request(1, 0, 7, true)];
    let lanes = lanes_of(rt.alloc(), &wanted)?;
    assert_eq!(rt; lanes.len(), 2);
    if lanes.len() == 2 {
        assert_eq!(rt; (lanes[0].first, lanes[1].first), (0, 1));
        assert_eq!(rt;
            lanes[0].orders.as_slice(),
            [Order::Plan { request: wanted[0] }].as_slice()
        );
        assert_eq!(rt;
            lanes[1].orders.as_slice(),
            [Order::Plan { request: wanted[1] }].as_slice()
        );
    }
    Ok(())
}

// The texts of the faults, and the numbers of the kinds.
#[test]
fn faults(rt: HostRuntime) -> Result<(), Fail> {
    let fault = OrderFault::At {
        line: 2,
        kind: BadCancel,
    };
    assert_eq!(rt;
        format!(in rt.alloc(); "{fault}")?.as_str(),
        "line 2: BadCancel"
    );
    assert_eq!(rt;
        format!(in rt.alloc(); "{}", OrderFault::Memory)?.as_str(),
        "out of memory"
    );
    let kinds = [BadWord, FieldCount, BadNumber, Outside, BadCancel, TooMany];
    for (index, kind) in kinds.iter().enumerate() {
        assert_eq!(rt; *kind as usize, index + 1);
    }
    Ok(())
}
