ghost use Rattle.std.specs.Prelude.{◌<◌, length, IfOk, IfErr};
ghost use Rattle.book_trait.specs.Passes.{IsPass};
ghost use Rattle.book_trait.specs.Calls.{Plans, PlanStops, Cancels, CancelStops};

use crate::pass::{Turn, TurnJoined, TurnNote, TurnPass};
use crate::steps::TurnBook;
use book_trait::{CancelStop, Cause, NotesSpent, PlanStop, Reply, SharedBook};
use fleet_base::Request;

impl SharedBook for TurnBook {
    type Pass = TurnPass;

    type Word = Turn;

    type Note = TurnNote;

    type Joined = TurnJoined;

    ghost use Rattle.turn_book.specs.Passes.{book_view, pass_view, note_view, joined_view, IsPassOf, IsNoteOf, IsJoinedOf};
    ghost use Rattle.turn_book.specs.Causes.{FoundFree, IsCountedStamp, PlanCause, CancelCause};

    ghost book = { λ b. book_view b };

    ghost pass_view = { λ p. pass_view p };

    ghost note_view = { λ n. note_view n };

    ghost joined_view = { λ j. joined_view j };

    ghost has_pass = { λ b p. IsPassOf b p };

    ghost has_note = { λ b n. IsNoteOf b n };

    ghost has_joined = { λ b j. IsJoinedOf b j };

    ghost plan_cause = { λ b p q e p'. PlanCause b p e p' };

    ghost cancel_cause = { λ b p s e p'. CancelCause b p e p' };

    // The trait's clauses, and what an answer shows of the turn and of the book's stamp.
    fn plan(&self, pass: &mut TurnPass, request: Request) -> Result<Reply, PlanStop<Turn>>
        requires pass { IsPassOf self.now pass.old }
        requires cells { (request.start.0 < length (book_view self.now).grid.cells) × (request.goal.0 < length (book_view self.now).grid.cells) }
        ensures pass { IsPassOf self.now pass.new }
        ensures is_pass { IsPass (book_view self.now) (pass_view pass.new) }
        ensures made { IfOk result (λ r. Plans (pass_view pass.old) request r (pass_view pass.new)) }
        ensures stop { IfErr result (λ e. PlanStops (pass_view pass.old) e (pass_view pass.new)) }
        ensures cause { IfErr result (λ e. PlanCause self.now pass.old e pass.new) }
        ensures turn { IfOk result (λ r. FoundFree pass.old pass.new × IsCountedStamp r pass.new) }
    {
        let caller = pass.caller;
        let Some(book) = self.take(&mut pass.seat, caller) else {
            return Err(PlanStop::Again {
                word: Turn,
                cause: Cause::Held,
            });
        };
        self.plan_in_turn(pass, book, request)
    }

    // The trait's clauses, and what an answer shows of the turn and of the book's era.
    fn cancel(&self, pass: &mut TurnPass, stamp: u32) -> Result<u64, CancelStop<Turn>>
        requires pass { IsPassOf self.now pass.old }
        ensures pass { IsPassOf self.now pass.new }
        ensures is_pass { IsPass (book_view self.now) (pass_view pass.new) }
        ensures made { IfOk result (λ era. Cancels (pass_view pass.old) stamp era (pass_view pass.new)) }
        ensures stop { IfErr result (λ e. CancelStops (pass_view pass.old) stamp e (pass_view pass.new)) }
        ensures cause { IfErr result (λ e. CancelCause self.now pass.old e pass.new) }
        ensures turn { IfOk result (λ era. FoundFree pass.old pass.new × (era < 1099511627775)) }
    {
        let Ok(place) = pass.live.binary_search(&stamp) else {
            return Err(CancelStop::NotLive);
        };
        let caller = pass.caller;
        let Some(book) = self.take(&mut pass.seat, caller) else {
            return Err(CancelStop::Again {
                word: Turn,
                cause: Cause::Held,
            });
        };
        self.cancel_in_turn(pass, book, stamp, place)
    }

    fn tell(&self, pass: &mut TurnPass) -> Result<TurnNote, NotesSpent> {
        if pass.told == u32::MAX {
            return Err(NotesSpent);
        }
        pass.told += 1;
        Ok(TurnNote {
            seat: self.told(&mut pass.seat),
            last: pass.last,
        })
    }

    fn heed(&self, pass: &mut TurnPass, note: TurnNote) {
        let TurnNote { seat, last } = note;
        self.merge(&mut pass.seat, seat);
        pass.last = pass.last.max(last);
    }

    fn rest(&self, pass: TurnPass) -> TurnJoined {
        let TurnPass {
            seat,
            caller: _,
            last: _,
            told: _,
            live: _,
        } = pass;
        TurnJoined { seat }
    }

    fn join(&self, mut first: TurnJoined, second: TurnJoined) -> TurnJoined {
        let TurnJoined { seat } = second;
        self.merge(&mut first.seat, seat);
        first
    }
}
