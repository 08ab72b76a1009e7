ghost use Rattle.std.specs.Prelude.{◌≡◌, ◌+◌, ◌<◌, [], ◌∷◌, ◌++◌, length, IfOk};
ghost use Rattle.book_trait.specs.Passes.{IsStampIn, fresh};
ghost use Rattle.book_trait.specs.EndedCallers.{callers_in, again_in};

use crate::book::SharedBook;
use crate::reply::{CancelStop, Cause, NotesSpent, PlanStop, Reply};
use fleet_base::{Entry, Grid, Memory, Request};
use std::alloc::Global;

/// A book whose history is over: the callers that made its entries have ended, and for the others, who only look on,
/// each plan is refused, and they have no route to cancel.
#[derive(Drop)]
pub struct EndedBook<'a> {
    grid: &'a Grid,
    horizon: u32,
    callers: u32,
    entries: &'a [Entry],
}

/// A caller that made no entry. It has seen so many entries of the book.
#[derive(Drop)]
pub struct Onlooker<'a> {
    caller: u32,
    entries: &'a [Entry],
    seen: usize,
    last: u32,
    again: u32,
    told: u32,
    // Filled at the end, which takes no memory.
    room: Box<EndedCaller>,
}

/// What an onlooker had seen.
#[derive(Drop)]
pub struct EndedNote<'a> {
    entries: &'a [Entry],
    seen: usize,
    last: u32,
}

/// A caller's number, how often it was answered `Again`, and the callers that are joined behind it.
#[derive(Drop)]
pub struct EndedCaller {
    caller: u32,
    again: u32,
    next: Option<Box<EndedCaller>>,
}

/// Callers that have ended.
#[derive(Drop)]
pub struct EndedCallers<'a> {
    entries: &'a [Entry],
    seen: usize,
    first: Box<EndedCaller>,
}

/// The word that every plan meets. It never changes again.
#[derive(Clone, Copy, Debug, PartialEq, Eq, Drop)]
pub struct Over;

// A single caller, in the room that was made for it.
fn alone_in(mut room: Box<EndedCaller>, caller: u32, again: u32) -> Box<EndedCaller>
    ensures callers { callers_in result.value ≡ caller ∷ [] }
    ensures again { again_in result.value ≡ again }
{
    *room = EndedCaller {
        caller,
        again,
        next: None,
    };
    room
}

// Puts the second's callers behind the first's.
fn put_behind(first: &mut EndedCaller, other: Box<EndedCaller>)
    ensures callers { callers_in first.new ≡ callers_in first.old ++ callers_in other.value }
    ensures again { again_in first.new ≡ again_in first.old + again_in other.value }
{
    match &mut first.next {
        None => first.next = Some(other),
        Some(rest) => put_behind(rest, other),
    }
}

impl Onlooker<'_> {
    /// How many entries it has seen.
    pub fn seen(&self) -> usize
        ensures { result ≡ self.now.seen }
    {
        self.seen
    }

    /// Its last stamp.
    pub fn last(&self) -> u32
        ensures { result ≡ self.now.last }
    {
        self.last
    }
}

impl EndedCallers<'_> {
    /// How many entries these callers have seen.
    pub fn seen(&self) -> usize
        ensures { result ≡ self.now.seen }
    {
        self.seen
    }
}

impl<'a> EndedBook<'a> {
    ghost use Rattle.book_trait.specs.Ended.{HasHistory, IsSilent, IsOnlooker, IsEndedNote, onlooker, ended_note};

    /// The book of a history, as its callers left it.
    pub fn new(grid: &'a Grid, horizon: u32, callers: u32, entries: &'a [Entry]) -> EndedBook<'a>
        ensures kind { (result.grid.now ≡ grid.now) × (result.horizon ≡ horizon) × (result.callers ≡ callers) }
        ensures entries { result.entries.now ≡ entries.now }
    {
        EndedBook {
            grid,
            horizon,
            callers,
            entries,
        }
    }

    /// The pass of a caller that made no entry.
    pub fn look_on(&self, alloc: Global, caller: u32) -> Result<Onlooker<'a>, Memory>
        requires history { HasHistory self.now }
        requires caller { caller < self.now.callers }
        requires silent { IsSilent caller self.now.entries.now }
        ensures pass { IfOk result (IsOnlooker self.now) }
        ensures fresh { IfOk result (λ p. onlooker p ≡ fresh caller) }
    {
        let room = Box::new(
            alloc,
            EndedCaller {
                caller,
                again: 0,
                next: None,
            },
        )?;
        Ok(Onlooker {
            caller,
            entries: self.entries,
            seen: 0,
            last: 0,
            again: 0,
            told: 0,
            room,
        })
    }

    /// A note of the whole history, by a caller whose last stamp this was.
    pub fn last_note(&self, last: u32) -> EndedNote<'a>
        requires history { HasHistory self.now }
        requires last { IsStampIn last self.now.entries.now }
        ensures of { IsEndedNote self.now result }
        ensures note { ended_note result ≡ record { seen = self.now.entries.now; last = last } }
    {
        EndedNote {
            entries: self.entries,
            seen: self.entries.len(),
            last,
        }
    }
}

impl<'a> SharedBook for EndedBook<'a> {
    type Pass = Onlooker<'a>;

    type Word = Over;

    type Note = EndedNote<'a>;

    type Joined = EndedCallers<'a>;

    ghost use Rattle.book_trait.specs.Ended.{ended_book, onlooker, ended_note, ended_callers, IsOnlooker, IsEndedNote, AreEnded};
    ghost use Rattle.book_trait.specs.Ended.{PlanIsOver, HasNoRoute};

    ghost book = { λ b. ended_book b };

    ghost pass_view = { λ p. onlooker p };

    ghost note_view = { λ n. ended_note n };

    ghost joined_view = { λ j. ended_callers j };

    ghost has_pass = { λ b p. IsOnlooker b p };

    ghost has_note = { λ b n. IsEndedNote b n };

    ghost has_joined = { λ b j. AreEnded b j };

    ghost plan_cause = { λ b p q e p'. PlanIsOver b p e p' };

    ghost cancel_cause = { λ b p s e p'. HasNoRoute e };

    fn plan(&self, pass: &mut Onlooker<'a>, _request: Request) -> Result<Reply, PlanStop<Over>> {
        if pass.again == u32::MAX {
            return Err(PlanStop::Memory);
        }
        pass.again += 1;
        pass.seen = self.entries.len();
        Err(PlanStop::Again {
            word: Over,
            cause: Cause::Held,
        })
    }

    fn cancel(&self, _pass: &mut Onlooker<'a>, _stamp: u32) -> Result<u64, CancelStop<Over>> {
        Err(CancelStop::NotLive)
    }

    fn tell(&self, pass: &mut Onlooker<'a>) -> Result<EndedNote<'a>, NotesSpent> {
        if pass.told == u32::MAX {
            return Err(NotesSpent);
        }
        pass.told += 1;
        Ok(EndedNote {
            entries: pass.entries,
            seen: pass.seen,
            last: pass.last,
        })
    }

    fn heed(&self, pass: &mut Onlooker<'a>, note: EndedNote<'a>) {
        pass.seen = pass.seen.max(note.seen);
        pass.last = pass.last.max(note.last);
    }

    fn rest(&self, pass: Onlooker<'a>) -> EndedCallers<'a> {
        let Onlooker {
            caller,
            entries,
            seen,
            last: _,
            again,
            told: _,
            room,
        } = pass;
        EndedCallers {
            entries,
            seen,
            first: alone_in(room, caller, again),
        }
    }

    fn join(&self, mut first: EndedCallers<'a>, second: EndedCallers<'a>) -> EndedCallers<'a> {
        let EndedCallers {
            entries: _,
            seen,
            first: other,
        } = second;
        put_behind(&mut first.first, other);
        first.seen = first.seen.max(seen);
        first
    }
}
