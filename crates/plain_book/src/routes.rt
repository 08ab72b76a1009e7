ghost use Rattle.std.specs.Prelude.{◌≡◌, ◌∷◌, length, IsPermutation, OnOk, OnErr, IsTrue, ◌↔◌, filter, IfOk, false};
ghost use Rattle.std.proofs.Common.{not};
ghost use Rattle.std.specs.List.Sorted.{IsStrictlySortedBy};
ghost use Rattle.std.specs.Map.{keys_of};
ghost use Rattle.fleet_base.specs.History.{same_id, IsLive};
ghost use Rattle.plain_book.specs.Kept.{AreCalendarsOf, routes_of, id_cmp};
ghost use Rattle.plain_book.specs.Entering.{MayEnter};

use crate::pool::CalendarPool;
use crate::records::{put_in, take_out};
use fleet_base::{Memory, RouteId, Walk};
use std::alloc::Global;
use std::collections::BTreeMap;

/// The same walk once more.
pub fn copy_of(alloc: Global, walk: &Walk) -> Result<Walk, Memory>
    ensures { IfOk result (λ copy. copy ≡ walk.now) }
{
    let cells = walk.cells().to_vec(alloc)?;
    // The arrival tells that the walk is over in time.
    let _arrival = walk.arrival();
    if walk.stays() {
        Ok(Walk::staying(walk.depart(), cells))
    } else {
        Ok(Walk::new(walk.depart(), cells))
    }
}

/// Adds a route: its walk to the map, and its records to the calendars. After want of memory the routes are as before.
pub fn add_route(
    alloc: Global,
    calendars: &mut CalendarPool,
    routes: &mut BTreeMap<RouteId, Walk>,
    id: RouteId,
    walk: Walk,
) -> Result<(), Memory>
    requires calendars { AreCalendarsOf (routes_of routes.old.entries) calendars.old }
    requires route { MayEnter (routes_of routes.old.entries) (length calendars.old) id walk }
    ensures size { length calendars.new ≡ length calendars.old }
    ensures calendars { AreCalendarsOf (routes_of routes.new.entries) calendars.new }
    ensures ordered { IsStrictlySortedBy id_cmp (keys_of routes.old.entries) → IsStrictlySortedBy id_cmp (keys_of routes.new.entries) }
    ensures ok { OnOk result (IsPermutation (routes_of routes.new.entries) (record { id = id; walk = walk } ∷ routes_of routes.old.entries)) }
    ensures refused { OnErr result (routes.new.entries ≡ routes.old.entries) }
{
    match put_in(alloc, calendars, &walk, id) {
        Ok(()) => match routes.insert(id, walk) {
            Ok(_) => Ok(()),
            Err(refused) => {
                let (_, walk) = refused.value;
                take_out(calendars, &walk, id);
                Err(Memory)
            }
        },
        Err(cause) => {
            take_out(calendars, &walk, id);
            Err(cause)
        }
    }
}

/// Ends the route of that id with its records; false exactly where there is none. It takes no memory.
pub fn end_route(
    calendars: &mut CalendarPool,
    routes: &mut BTreeMap<RouteId, Walk>,
    id: RouteId,
) -> bool
    requires calendars { AreCalendarsOf (routes_of routes.old.entries) calendars.old }
    requires ordered { IsStrictlySortedBy id_cmp (keys_of routes.old.entries) }
    ensures size { length calendars.new ≡ length calendars.old }
    ensures calendars { AreCalendarsOf (routes_of routes.new.entries) calendars.new }
    ensures ordered { IsStrictlySortedBy id_cmp (keys_of routes.new.entries) }
    ensures was_live { IsTrue result ↔ IsLive id (routes_of routes.old.entries) }
    ensures refused { result ≡ false → routes.new.entries ≡ routes.old.entries }
    ensures routes { routes_of routes.new.entries ≡ filter (λ r. not (same_id r.id id)) (routes_of routes.old.entries) }
{
    let Some(walk) = routes.remove(&id) else {
        return false;
    };
    take_out(calendars, &walk, id);
    true
}
