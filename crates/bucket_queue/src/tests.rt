ghost use Rattle.std.specs.Prelude.{◌≡◌, IfOk};

use super::*;
use std::alloc::{AllocError, Global};

// Three ids, of which the first is moved from the greatest key to a lesser one.
fn three_ids(alloc: Global) -> Result<BucketQueue, AllocError>
    ensures { IfOk result (λ q. q.bound ≡ 9) }
{
    let mut queue = BucketQueue::new(alloc, 9)?;
    queue.add()?;
    queue.add()?;
    queue.add()?;
    queue.put(0, 7)?;
    queue.put(1, 2)?;
    queue.put(2, 6)?;
    queue.put(0, 3)?;
    Ok(queue)
}

#[test]
fn takes_in_rising_order(rt: HostRuntime) {
    let mut queue = three_ids(rt.alloc()).expect(&rt, "memory");
    let table = [
        (1, None),
        (2, Some(1)),
        (9, Some(0)),
        (5, None),
        (u32::MAX, Some(2)),
        (9, None),
    ];
    for (limit, wanted) in table {
        assert_eq!(rt; queue.take(limit), wanted, "up to {limit}");
    }
}

#[test]
fn no_ids_after_clearing(rt: HostRuntime) {
    let mut queue = three_ids(rt.alloc()).expect(&rt, "memory");
    assert_eq!(rt; queue.take(2), Some(1));
    queue.clear();
    assert_eq!(rt; queue.take(9), None);
    queue.add().expect(&rt, "memory");
    queue.put(0, 1).expect(&rt, "memory");
    assert_eq!(rt; queue.take(9), Some(0));
}

#[test]
fn added_with_its_key(rt: HostRuntime) {
    let mut queue = BucketQueue::new(rt.alloc(), 9).expect(&rt, "memory");
    queue.add_at(2).expect(&rt, "memory");
    queue.add().expect(&rt, "memory");
    queue.put(1, 8).expect(&rt, "memory");
    queue.add_at(2).expect(&rt, "memory");
    queue.put(0, 5).expect(&rt, "memory");
    for wanted in [2, 0, 1] {
        assert_eq!(rt; queue.take(9), Some(wanted));
    }
    assert_eq!(rt; queue.take(9), None);
}

#[test]
fn tells_who_has_the_floor_for_a_key(rt: HostRuntime) {
    let mut queue = BucketQueue::new(rt.alloc(), 9).expect(&rt, "memory");
    queue.add_at(4).expect(&rt, "memory");
    queue.add_at(6).expect(&rt, "memory");
    queue.add_at(4).expect(&rt, "memory");
    queue.add_at(4).expect(&rt, "memory");
    assert_eq!(rt; queue.take(9), Some(3));
    let wanted: [u32; 2] = [0, 2];
    assert!(rt; queue.at_floor() == wanted.as_slice());
}
