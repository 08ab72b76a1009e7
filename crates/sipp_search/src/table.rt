ghost use Rattle.std.specs.Prelude.{◌≡◌, ◌++◌, OnOk, IfOk};
ghost use Rattle.sipp_search.specs.Tabled.{entry_of, table_from};

use crate::answer::{Settled, Table};
use crate::states::{Mark, State};
use fleet_base::Memory;
use std::alloc::Global;

fn push_final(settled: &mut Vec<Settled>, state: State) -> Result<(), Memory>
    ensures { OnOk result (settled.new.items ≡ settled.old.items ++ entry_of state) }
{
    let Mark::Final(arrival) = state.mark else {
        return Ok(());
    };
    settled.push(Settled {
        cell: state.spot.cell,
        interval: state.spot.interval,
        arrival,
    })?;
    Ok(())
}

// The final states as a table.
pub fn table_of(alloc: Global, states: &[State]) -> Result<Table, Memory>
    ensures { IfOk result (λ table. table ≡ table_from states.now) }
{
    let mut settled = Vec::new(alloc);
    for state in states {
        push_final(&mut settled, *state)?;
    }
    Ok(Table::new(settled))
}
