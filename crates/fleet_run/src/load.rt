ghost use Rattle.std.specs.Prelude.{◌≡◌, ℕ, ◌≤◌, List, length, All, Some, IfOk, IfErr, IfSome};
ghost use Rattle.order_text.specs.Lanes.{AreLanes};
ghost use Rattle.scen_text.specs.ScenGrammar.{IsOnGrid};
ghost use Rattle.command_line.specs.declared.command.Command.{Command};
ghost use Rattle.command_line.specs.declared.command.Command.TheVariants.{Run, Orders};
ghost use Rattle.command_line.specs.Sorting.{Word};
ghost use Rattle.fleet_run.specs.Files.{map_name, IsMapRead, IsScenRead, IsOrdersRead};
ghost use Rattle.fleet_run.specs.Ended.{HasCauseIn};

use crate::stop::Stop;
use fleet_base::{Grid, Request};
use fleet_io::{Shelf, ShelfFault};
use map_text::{MapFault, MapKind, read_map};
use order_text::{Lane, OrderFault, OrderKind, read_orders};
use scen_text::{ScenFault, ScenKind, read_scen};
use std::alloc::Global;

// The greatest numbers of bytes of a map, and of a scenario or orders.
const MAP_LIMIT: usize = 2_097_152;

const SECOND_LIMIT: usize = 16_777_216;

// The map of the file of that name.
pub fn load_map<'a, H: Shelf>(
    alloc: Global,
    shelf: &mut H,
    name: &'a str,
) -> Result<Grid, Stop<&'a str>>
    ensures told { H.told shelf.new ≡ H.told shelf.old }
    ensures loaded { IfOk result (λ g. IsMapRead (H.told shelf.old) name.now g × (H.failed shelf.new ≡ H.failed shelf.old)) }
    ensures cause { IfErr result (λ stop. (c : Command Word) → map_name c ≡ Some name.now
        → HasCauseIn (λ n. n.now) (H.told shelf.old) c (H.failed shelf.old) (H.failed shelf.new) stop) }
{
    match shelf.fetch(name, MAP_LIMIT) {
        Err(ShelfFault::Failed) => Err(Stop::NotFetched { name }),
        Err(ShelfFault::TooLong) => Err(Stop::MapRefused {
            line: 0,
            kind: MapKind::TooLarge,
        }),
        Err(ShelfFault::Memory) => Err(Stop::NoMemory),
        Ok(text) => match read_map(alloc, text.as_slice()) {
            Ok(grid) => Ok(grid),
            Err(MapFault::At { line, kind }) => Err(Stop::MapRefused { line, kind }),
            Err(MapFault::Memory) => Err(Stop::NoMemory),
        },
    }
}

// The requests of the scenario of that name, once the map was read.
pub fn load_requests<'a, H: Shelf>(
    alloc: Global,
    shelf: &mut H,
    name: &'a str,
    grid: &Grid,
    kept: Option<u32>,
) -> Result<Vec<Request>, Stop<&'a str>>
    requires few { IfSome kept (λ count. count ≤ 32767) }
    ensures told { H.told shelf.new ≡ H.told shelf.old }
    ensures loaded { IfOk result (λ rows. IsScenRead (H.told shelf.old) name.now grid.now kept rows.items × (H.failed shelf.new ≡ H.failed shelf.old)) }
    ensures few { IfOk result (λ rows. length rows.items ≤ 32767) }
    ensures on_grid { IfOk result (λ rows. All (IsOnGrid grid.now) rows.items) }
    ensures cause { IfErr result (λ stop. (m : Word) (workers horizon : ℕ) → IsMapRead (H.told shelf.old) m grid.now
        → HasCauseIn (λ n. n.now) (H.told shelf.old) (Run m name.now workers horizon kept) (H.failed shelf.old) (H.failed shelf.new) stop) }
{
    match shelf.fetch(name, SECOND_LIMIT) {
        Err(ShelfFault::Failed) => Err(Stop::NotFetched { name }),
        Err(ShelfFault::TooLong) => Err(Stop::ScenRefused {
            line: 0,
            kind: ScenKind::TooMany,
        }),
        Err(ShelfFault::Memory) => Err(Stop::NoMemory),
        Ok(text) => match read_scen(alloc, text.as_slice(), grid, kept) {
            Ok(requests) => Ok(requests),
            Err(ScenFault::At { line, kind }) => Err(Stop::ScenRefused { line, kind }),
            Err(ScenFault::Memory) => Err(Stop::NoMemory),
        },
    }
}

// The lanes of the orders of that name, once the map was read.
pub fn load_lanes<'a, H: Shelf>(
    alloc: Global,
    shelf: &mut H,
    name: &'a str,
    grid: &Grid,
) -> Result<Vec<Lane>, Stop<&'a str>>
    ensures told { H.told shelf.new ≡ H.told shelf.old }
    ensures loaded { IfOk result (λ lanes. IsOrdersRead (H.told shelf.old) name.now grid.now lanes.items × (H.failed shelf.new ≡ H.failed shelf.old)) }
    ensures lanes { IfOk result (λ lanes. AreLanes (length grid.now.cells) lanes.items) }
    ensures cause { IfErr result (λ stop. (m : Word) (workers horizon : ℕ) → IsMapRead (H.told shelf.old) m grid.now
        → HasCauseIn (λ n. n.now) (H.told shelf.old) (Orders m name.now workers horizon) (H.failed shelf.old) (H.failed shelf.new) stop) }
{
    match shelf.fetch(name, SECOND_LIMIT) {
        Err(ShelfFault::Failed) => Err(Stop::NotFetched { name }),
        Err(ShelfFault::TooLong) => Err(Stop::OrdersRefused {
            line: 0,
            kind: OrderKind::TooMany,
        }),
        Err(ShelfFault::Memory) => Err(Stop::NoMemory),
        Ok(text) => match read_orders(alloc, text.as_slice(), grid) {
            Ok(lanes) => Ok(lanes),
            Err(OrderFault::At { line, kind }) => Err(Stop::OrdersRefused { line, kind }),
            Err(OrderFault::Memory) => Err(Stop::NoMemory),
        },
    }
}
