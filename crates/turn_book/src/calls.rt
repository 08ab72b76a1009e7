ghost use Rattle.std.specs.Prelude.{◌≡◌, ◌+◌, ◌<◌, length, slice_index, IfOk, IfErr};
ghost use Rattle.std.specs.Vec.{vec_len, vec_capacity};
ghost use Rattle.fleet_base.specs.declared.request.Entry.TheVariants.{Cancel};
ghost use Rattle.plain_book.specs.Replies.{EndsRoute};
ghost use Rattle.book_trait.specs.Calls.{Plans, PlanStops, Cancels, CancelStops, Refuses};
ghost use Rattle.book_trait.specs.Passes.{HasLive};

use crate::pass::{Turn, TurnPass};
use crate::steps::TurnBook;
use book_trait::{CancelStop, FullKind, PlanStop, Reply};
use fleet_base::{Entry, Request, RouteId};
use plain_book::PlainBook;
use std::marker::Brand;
use std::slice;

// The last stamp and the last era that there are.
const LAST_STAMP: u32 = 67_108_863;

const LAST_ERA: u64 = 1_099_511_627_775;

impl TurnBook {
    ghost use Rattle.turn_book.specs.Seats.{layout_of};
    ghost use Rattle.turn_book.specs.Passes.{pass_view, IsPassOf, IsInTurn, HasTurn};
    ghost use Rattle.turn_book.specs.Replying.{HasPlanned, HasEnded};
    ghost use Rattle.turn_book.specs.Causes.{SameTry, IsCountedStamp, PlanIsShort, CancelIsShort};

    // The pass has the turn, and gives it back with its entry or without one.
    pub(crate) fn plan_in_turn(
        &self,
        pass: &mut TurnPass,
        mut book: PlainBook,
        request: Request,
    ) -> Result<Reply, PlanStop<Turn>>
        requires turn { HasTurn self.now pass.old book }
        requires cells { (request.start.0 < length (layout_of self.now).grid.cells) × (request.goal.0 < length (layout_of self.now).grid.cells) }
        ensures pass { IsPassOf self.now pass.new }
        ensures made { IfOk result (λ r. Plans (pass_view pass.old) request r (pass_view pass.new)) }
        ensures stop { IfErr result (λ e. PlanStops (pass_view pass.old) e (pass_view pass.new)) }
        ensures cause { IfErr result (λ e. PlanIsShort e pass.new) }
        ensures stamp { IfOk result (λ r. IsCountedStamp r pass.new) }
        ensures tries { SameTry pass.old pass.new }
    {
        if book.stamp() == LAST_STAMP {
            self.give_up(pass, book, 1);
            return Err(PlanStop::Full(FullKind::StampsSpent));
        }
        if pass.live.reserve(1).is_err() {
            self.give_up(pass, book, 0);
            return Err(PlanStop::Memory);
        }
        let Ok(entry) = book.plan(pass.caller, request) else {
            self.give_up(pass, book, 0);
            return Err(PlanStop::Memory);
        };
        Ok(self.answer(pass, book, request, entry))
    }

    // Gives the turn back with the entry of a plan.
    fn answer(&self, pass: &mut TurnPass, book: PlainBook, _request: Request, entry: Entry) -> Reply
        requires turn { IsInTurn self.now pass.old }
        requires planned { HasPlanned self.now pass.old _request entry book }
        requires room { vec_len pass.old.live < vec_capacity pass.old.live }
        ensures pass { IsPassOf self.now pass.new }
        ensures made { Plans (pass_view pass.old) _request result (pass_view pass.new) }
        ensures stamp { IsCountedStamp result pass.new }
        ensures tries { SameTry pass.old pass.new }
    {
        let caller = pass.caller;
        self.give::<Brand>(&mut pass.seat, caller, book, slice::from_ref(&entry), 0);
        pass.keep(entry)
    }

    // Gives the turn back without an entry.
    fn give_up(&self, pass: &mut TurnPass, book: PlainBook, full: u32)
        requires { HasTurn self.now pass.old book }
        ensures pass { IsPassOf self.now pass.new }
        ensures view { Refuses (pass_view pass.old) 0 full (pass_view pass.new) }
        ensures seen { (pass_view pass.new).seen ≡ (pass_view pass.old).seen }
        ensures tries { SameTry pass.old pass.new }
    {
        let caller = pass.caller;
        self.give::<Brand>(&mut pass.seat, caller, book, &[], full);
    }

    // The pass has the turn, and its live route of that stamp is the one at this place.
    pub(crate) fn cancel_in_turn(
        &self,
        pass: &mut TurnPass,
        mut book: PlainBook,
        stamp: u32,
        place: usize,
    ) -> Result<u64, CancelStop<Turn>>
        requires turn { HasTurn self.now pass.old book }
        requires place { (place < length pass.old.live.items) × (slice_index pass.old.live.items place ≡ stamp) }
        ensures pass { IsPassOf self.now pass.new }
        ensures made { IfOk result (λ era. Cancels (pass_view pass.old) stamp era (pass_view pass.new)) }
        ensures stop { IfErr result (λ e. CancelStops (pass_view pass.old) stamp e (pass_view pass.new)) }
        ensures cause { IfErr result (λ e. CancelIsShort e pass.new) }
        ensures era { IfOk result (λ era. era < 1099511627775) }
        ensures tries { SameTry pass.old pass.new }
    {
        let era = book.era();
        if era == LAST_ERA {
            self.give_up(pass, book, 1);
            return Err(CancelStop::Full(FullKind::ErasSpent));
        }
        let id = RouteId {
            stamp,
            caller: pass.caller,
        };
        let Ok(entry) = book.cancel(id) else {
            unreachable!()
        };
        self.end(pass, book, place, era, entry);
        Ok(era)
    }

    // Gives the turn back with the entry of a cancel.
    fn end(&self, pass: &mut TurnPass, book: PlainBook, place: usize, _era: u64, entry: Entry)
        requires turn { IsInTurn self.now pass.old }
        requires place { place < length pass.old.live.items }
        requires ended { HasEnded self.now pass.old (slice_index pass.old.live.items place) _era entry book }
        ensures pass { IsPassOf self.now pass.new }
        ensures made { Cancels (pass_view pass.old) (slice_index pass.old.live.items place) _era (pass_view pass.new) }
        ensures tries { SameTry pass.old pass.new }
    {
        let caller = pass.caller;
        self.give::<Brand>(&mut pass.seat, caller, book, slice::from_ref(&entry), 0);
        pass.live.remove(place);
    }
}
