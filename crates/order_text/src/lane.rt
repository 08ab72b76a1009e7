ghost use Rattle.std.specs.Prelude.{◌≡◌, ◌≤◌, length, IfOk};
ghost use Rattle.order_text.specs.Lanes.{request_lanes};

use crate::order::Order;
use fleet_base::{Memory, Request};
use std::alloc::Global;
use std::marker::Model;

/// The orders of a lane, in their order.
#[derive(Debug, Drop)]
pub struct Orders {
    list: Vec<Order>,
}

impl Model for Orders {
    ghost use Rattle.std.specs.Prelude.{List};
    ghost use Rattle.order_text.specs.declared.order.Order.{Order};

    ghost Value = { List Order };

    ghost view = { λ o. o.list.items };
}

impl Orders {
    pub fn new(list: Vec<Order>) -> Orders
        ensures { result ≡ list.items }
    {
        Orders { list }
    }

    /// The orders as a slice.
    pub fn as_slice(&self) -> &[Order]
        ensures { result.now ≡ self.now }
    {
        self.list.as_slice()
    }
}

/// Orders that one caller carries out, one after the other.
#[derive(Debug, Drop)]
pub struct Lane {
    /// The number of the lane's first order; the orders of all lanes are numbered from 0.
    pub first: u32,
    pub orders: Orders,
}

/// A lane with one plan for each request, in the order of the requests.
pub fn lanes_of(alloc: Global, requests: &[Request]) -> Result<Vec<Lane>, Memory>
    requires { length requests.now ≤ 32767 }
    ensures { IfOk result (λ lanes. lanes.items ≡ request_lanes 0 requests.now) }
{
    let mut lanes = Vec::with_capacity(alloc, requests.len())?;
    for (number, request) in requests.iter().enumerate() {
        let plan = Order::Plan { request: *request };
        lanes.push(Lane {
            first: number as u32,
            orders: Orders::new(vec![in alloc; plan]?),
        })?;
    }
    Ok(lanes)
}
