use fleet_base::Request;

/// One order of a lane.
#[derive(Clone, Copy, Debug, PartialEq, Eq)]
pub enum Order {
    /// A route is wanted. A request that stays was written `park`.
    Plan { request: Request },
    /// The route of the order of this number is given up. It is an earlier plan of the same lane.
    Cancel { target: u32 },
}
