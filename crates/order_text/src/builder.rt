ghost use Rattle.std.specs.Prelude.{◌≡◌, ◌+◌, ◌≤◌, ◌<◌, ◌∷◌, [], ◌++◌, length, nat_lt, Ok, IfOk, OnOk, IsOkUnless};
ghost use Rattle.text_lines.specs.Faults.{Gives, at};
ghost use Rattle.order_text.specs.Lanes.{may_cancel, MayName, after_lane, with_order};
ghost use Rattle.order_text.specs.OrderGrammar.{no_lanes, has_room, fits, put, closed, fault_of};
ghost use Rattle.order_text.specs.Marks.{lanes_so_far, AreMarked, IsBuilding};

use crate::fault::{OrderFault, OrderKind, fault};
use crate::lane::{Lane, Orders};
use crate::line::Line;
use crate::order::Order;
use std::alloc::Global;
use std::mem;

// How many orders there may be.
const MAX_ORDERS: usize = 32_767;

// The lanes before, and the present lane in its parts.
#[derive(Drop)]
pub struct LaneBuilder {
    before: Vec<Lane>,
    first: u32,
    orders: Vec<Order>,
    // For each order whether it is a plan that isn't cancelled.
    marks: Vec<bool>,
}

impl LaneBuilder {
    pub fn new(alloc: Global) -> LaneBuilder
        ensures lanes { lanes_so_far result ≡ no_lanes }
        ensures building { IsBuilding result }
    {
        LaneBuilder {
            before: Vec::new(alloc),
            first: 0,
            orders: Vec::new(alloc),
            marks: Vec::new(alloc),
        }
    }

    // Whether a cancel may name this order: one look, however long the lane is.
    fn may_cancel(&self, target: u32) -> bool
        requires { AreMarked self.now.first self.now.orders.items self.now.marks.items }
        ensures { result ≡ may_cancel self.now.first self.now.orders.items target }
    {
        if target < self.first {
            return false;
        }
        match self.marks.get((target - self.first) as usize) {
            Some(mark) => *mark,
            None => false,
        }
    }

    fn check_room(&self) -> Result<(), OrderKind>
        ensures { result ≡ has_room (lanes_so_far self.now).present }
    {
        if self.first as usize + self.orders.len() < MAX_ORDERS {
            Ok(())
        } else {
            Err(OrderKind::TooMany)
        }
    }

    // Whether an order is right at the end of the present lane.
    #[tactic(auto, unfolding(crate::specs::OrderGrammar::fits))]
    fn check(&self, order: Order) -> Result<(), OrderKind>
        requires { IsBuilding self.now }
        ensures { result ≡ fits (lanes_so_far self.now).present order }
    {
        match order {
            Order::Plan { .. } => self.check_room(),
            Order::Cancel { target } => {
                if !self.may_cancel(target) {
                    return Err(OrderKind::BadCancel);
                }
                self.check_room()
            }
        }
    }

    // Marks an order that comes at the end of the present lane, and the one that it cancels.
    fn mark(&mut self, order: Order) -> Result<(), OrderFault>
        requires marked { AreMarked self.old.first self.old.orders.items self.old.marks.items }
        requires named { MayName self.old.first self.old.orders.items order }
        ensures memory { IsOkUnless result OrderFault.Memory }
        ensures before { self.new.before ≡ self.old.before }
        ensures first { self.new.first ≡ self.old.first }
        ensures orders { self.new.orders ≡ self.old.orders }
        ensures marked { OnOk result (AreMarked self.old.first (self.old.orders.items ++ order ∷ []) self.new.marks.items) }
    {
        match order {
            Order::Plan { .. } => self.marks.push(true)?,
            Order::Cancel { target } => {
                self.marks[(target - self.first) as usize] = false;
                self.marks.push(false)?;
            }
        }
        Ok(())
    }

    // Puts an order that is right at the end of the present lane.
    fn push(&mut self, order: Order) -> Result<(), OrderFault>
        requires building { IsBuilding self.old }
        requires right { fits (lanes_so_far self.old).present order ≡ Ok tt }
        ensures memory { IsOkUnless result OrderFault.Memory }
        ensures lanes { OnOk result (lanes_so_far self.new ≡ record {
          before = self.old.before.items;
          present = with_order (lanes_so_far self.old).present order;
        }) }
        ensures building { OnOk result (IsBuilding self.new) }
    {
        self.mark(order)?;
        self.orders.push(order)?;
        Ok(())
    }

    // Ends the present lane, and begins one after it.
    fn end_lane(&mut self, alloc: Global) -> Result<(), OrderFault>
        requires { IsBuilding self.old }
        ensures memory { IsOkUnless result OrderFault.Memory }
        ensures lanes { OnOk result (lanes_so_far self.new ≡ record {
          before = closed (lanes_so_far self.old);
          present = record { first = after_lane (lanes_so_far self.old).present; orders = [] };
        }) }
        ensures building { OnOk result (IsBuilding self.new) }
    {
        if self.orders.is_empty() {
            return Ok(());
        }
        let first = self.first;
        let orders = mem::replace(&mut self.orders, Vec::new(alloc));
        self.first += orders.len() as u32;
        self.marks.clear();
        self.before.push(Lane {
            first,
            orders: Orders::new(orders),
        })?;
        Ok(())
    }

    /// Puts one line more to the lanes.
    #[tactic(auto, unfolding(crate::specs::OrderGrammar::put))]
    pub fn put(&mut self, alloc: Global, number: u32, line: Line) -> Result<(), OrderFault>
        requires { IsBuilding self.old }
        ensures lanes { Gives fault_of (λ done. lanes_so_far self.new) result
            (at number (put (lanes_so_far self.old) line)) }
        ensures building { OnOk result (IsBuilding self.new) }
    {
        let order = match line {
            Line::NewLane => return self.end_lane(alloc),
            Line::Next(order) => order,
        };
        if let Err(kind) = self.check(order) {
            return fault(number, kind);
        }
        self.push(order)
    }

    /// The lanes, where the text ends.
    pub fn finish(mut self, alloc: Global) -> Result<Vec<Lane>, OrderFault>
        requires { IsBuilding self }
        ensures memory { IsOkUnless result OrderFault.Memory }
        ensures lanes { IfOk result (λ lanes. lanes.items ≡ closed (lanes_so_far self)) }
    {
        self.end_lane(alloc)?;
        Ok(self.before)
    }
}
