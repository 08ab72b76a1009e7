use super::*;
use std::test::Fail;

#[test]
fn one_worker_draws_all(rt: HostRuntime) -> Result<(), Fail> {
    let (line, mut tickets) = TicketLine::open(rt.alloc(), 3, 1)?;
    let Some(mut only) = tickets.pop() else {
        panic!(rt; "there is a ticket")
    };
    let drawn = [
        line.draw(&mut only),
        line.draw(&mut only),
        line.draw(&mut only),
        line.draw(&mut only),
        line.draw(&mut only),
    ];
    assert!(rt; drawn == [Some(0), Some(1), Some(2), None, None]);
    Ok(())
}

#[test]
fn two_tickets_share_the_numbers(rt: HostRuntime) -> Result<(), Fail> {
    let (line, mut tickets) = TicketLine::open(rt.alloc(), 3, 2)?;
    let Some(mut first) = tickets.pop() else {
        panic!(rt; "there are two tickets")
    };
    let Some(mut second) = tickets.pop() else {
        panic!(rt; "there are two tickets")
    };
    let drawn = [
        line.draw(&mut first),
        line.draw(&mut second),
        line.draw(&mut first),
        line.draw(&mut second),
    ];
    assert!(rt; drawn == [Some(0), Some(1), Some(2), None]);
    let mut both = line.gather(first, second);
    assert!(rt; line.draw(&mut both).is_none());
    Ok(())
}
