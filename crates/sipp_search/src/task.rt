use fleet_base::{Grid, Request};

// What is asked, and what stays the same during a search.
#[derive(Clone, Copy)]
pub struct Task<'a> {
    pub grid: &'a Grid,
    pub request: Request,
    pub horizon: u32,
}
