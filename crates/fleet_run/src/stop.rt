use map_text::MapKind;
use order_text::OrderKind;
use scen_text::ScenKind;

// Why there is nothing to write. `N` is the name of a file.
#[derive(Clone, Copy)]
pub enum Stop<N> {
    NoCommand,
    MapRefused { line: u32, kind: MapKind },
    OutsideMap,
    ScenRefused { line: u32, kind: ScenKind },
    OrdersRefused { line: u32, kind: OrderKind },
    NotFetched { name: N },
    NoMemory,
}
