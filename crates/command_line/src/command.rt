/// What a command line asks for. `N` is the name of a file, as the words have it.
/// An option that was left out has its default here; `take` has none.
#[derive(Clone, Copy, Debug, PartialEq, Eq)]
pub enum Command<N> {
    /// One route in an empty book.
    One {
        map: N,
        from_x: u32,
        from_y: u32,
        to_x: u32,
        to_y: u32,
    },
    /// The rows of a scenario, each a lane by itself.
    Run {
        map: N,
        scenario: N,
        workers: u32,
        horizon: u32,
        take: Option<u32>,
    },
    /// Lanes of plans and cancels.
    Orders {
        map: N,
        orders: N,
        workers: u32,
        horizon: u32,
    },
    /// A generated map and generated requests.
    Gen {
        width: u32,
        height: u32,
        percent: u32,
        orders: u32,
        start: u64,
        workers: u32,
        horizon: u32,
    },
    /// Whether a journal is right.
    Check {
        map: N,
        orders: N,
        journal: N,
        horizon: u32,
    },
    /// Orders over a long time, with a book that forgets what is past.
    Long {
        map: N,
        orders: N,
        horizon: u32,
    },
    /// Orders of agents that turn.
    Turns {
        map: N,
        orders: N,
        horizon: u32,
    },
}
