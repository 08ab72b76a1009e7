use super::*;

#[test]
fn zeros_after_clearing(rt: HostRuntime) {
    let mut list = StampedList::new(rt.alloc(), 3).expect(&rt, "memory");
    list.set(1, 7);
    assert_eq!(rt; (list.get(0), list.get(1)), (0, 7));
    list.clear();
    list.set(0, 5);
    assert_eq!(rt; (list.get(0), list.get(1)), (5, 0));
    assert_eq!(rt; list.len(), 3);
}

#[test]
fn great_numbers_are_cleared(rt: HostRuntime) {
    let mut list = StampedList::new(rt.alloc(), 3).expect(&rt, "memory");
    list.set(0, u32::MAX);
    list.clear();
    list.set(1, u32::MAX);
    list.set(2, 3);
    assert_eq!(rt; (list.get(0), list.get(1), list.get(2)), (0, u32::MAX, 3));
}

#[test]
fn numbers_outlast_the_writing_over(rt: HostRuntime) {
    let mut list = StampedList::new(rt.alloc(), 3).expect(&rt, "memory");
    list.set(0, 5);
    list.clear();
    list.set(1, 7);
    list.set(2, u32::MAX);
    assert_eq!(rt; (list.get(0), list.get(1), list.get(2)), (0, 7, u32::MAX));
    list.clear();
    assert_eq!(rt; (list.get(0), list.get(1), list.get(2)), (0, 0, 0));
}
