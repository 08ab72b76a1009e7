ghost use Rattle.std.specs.Prelude.{◌≡◌, IfOk, if◌then◌else◌};
ghost use Rattle.fleet_base.specs.Stays.{AreTheStays};
ghost use Rattle.fleet_base.specs.TimedWalk.{arrival};

use crate::request::{FOREVER, Memory, Record, RouteId, Stay};
use crate::walk::Walk;
use std::alloc::Global;

// When the last stay of a walk ends.
fn end_of(walk: &Walk) -> u32
    ensures { result ≡ (if walk.now.stay then FOREVER else arrival walk.now) }
{
    if walk.stays() {
        FOREVER
    } else {
        walk.arrival()
    }
}

/// The stays of a walk: one for each maximal run of equal cells, in order of time.
/// The last stay of a walk that stays never ends.
pub fn walk_records(alloc: Global, walk: &Walk, id: RouteId) -> Result<Vec<Stay>, Memory>
    ensures { IfOk result (λ stays. AreTheStays walk.now id stays.items) }
{
    let room = (walk.arrival() - walk.depart()) as usize + 1;
    let mut stays = Vec::with_capacity(alloc, room)?;
    let mut from = walk.depart();
    let mut cell = walk.cell_at(from);
    for time in from + 1..walk.arrival() + 1 {
        let next = walk.cell_at(time);
        if next != cell {
            let span = Record {
                from,
                to: time - 1,
                id,
            };
            stays.push(Stay { cell, span })?;
            from = time;
            cell = next;
        }
    }
    let span = Record {
        from,
        to: end_of(walk),
        id,
    };
    stays.push(Stay { cell, span })?;
    Ok(stays)
}

#[cfg(test)]
mod tests {
    use super::*;
    use crate::grid::Cell;
    use crate::walk::meets;
    use std::test::Fail;

    const ID: RouteId = RouteId {
        stamp: 1,
        caller: 0,
    };

    fn stay(cell: u32, from: u32, to: u32) -> Stay {
        let span = Record { from, to, id: ID };
        Stay {
            cell: Cell(cell),
            span,
        }
    }

    #[test]
    fn one_stay_for_each_run(rt: HostRuntime) -> Result<(), Fail> {
        let walk = Walk::new(3, vec![in rt.alloc(); Cell(4), Cell(4), Cell(5), Cell(4)]?);
        let stays = walk_records(rt.alloc(), &walk, ID)?;
        let wanted = [stay(4, 3, 4), stay(5, 5, 5), stay(4, 6, 6)];
        assert!(rt; stays.as_slice() == wanted.as_slice());
        Ok(())
    }

    #[test]
    fn last_stay_never_ends(rt: HostRuntime) -> Result<(), Fail> {
        let walk = Walk::staying(3, vec![in rt.alloc(); Cell(4), Cell(5), Cell(5)]?);
        let stays = walk_records(rt.alloc(), &walk, ID)?;
        let wanted = [stay(4, 3, 3), stay(5, 4, FOREVER)];
        assert!(rt; stays.as_slice() == wanted.as_slice());
        Ok(())
    }

    #[test]
    fn exchange_meets_and_following_does_not(rt: HostRuntime) -> Result<(), Fail> {
        let right = Walk::new(0, vec![in rt.alloc(); Cell(0), Cell(1)]?);
        let left = Walk::new(0, vec![in rt.alloc(); Cell(1), Cell(0)]?);
        assert!(rt; meets(&right, &left));
        let long = Walk::new(0, vec![in rt.alloc(); Cell(0), Cell(1), Cell(2)]?);
        let ahead = Walk::new(0, vec![in rt.alloc(); Cell(1), Cell(2)]?);
        assert!(rt; !meets(&long, &ahead));

        // The agent on cell 1 stands in the way only where it stays there.
        let parked = Walk::staying(0, vec![in rt.alloc(); Cell(0), Cell(1)]?);
        let later = Walk::new(5, vec![in rt.alloc(); Cell(0), Cell(1), Cell(2)]?);
        assert!(rt; meets(&parked, &later));
        assert!(rt; !meets(&right, &later));
        Ok(())
    }
}
