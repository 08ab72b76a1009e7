/// Who is told of each order, and may hold up its worker.
pub trait Gate: Sync {
    /// Called before an order's first try, also where the order is left then.
    fn before(&self, order: u32);

    /// Called once an order is answered.
    fn after(&self, order: u32);
}

/// A gate that holds nobody up.
#[derive(Clone, Copy, Debug, Drop)]
pub struct OpenGate;

impl Gate for OpenGate {
    fn before(&self, _order: u32) {}

    fn after(&self, _order: u32) {}
}
