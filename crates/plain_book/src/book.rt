ghost use Rattle.std.specs.Prelude.{◌≡◌, ◌+◌, ◌<◌, ◌≤◌, [], length, IfOk, OnOk, OnErr};
ghost use Rattle.fleet_base.specs.Planned.{NoneFree};
ghost use Rattle.fleet_base.specs.History.{IsLive};

use crate::finding::find_walk;
use crate::pool::CalendarPool;
use crate::routes::{add_route, copy_of, end_route};
use fleet_base::{Entry, Grid, Live, Memory, Request, RouteId, Walk};
use sipp_search::Searcher;
use std::alloc::Global;
use std::collections::BTreeMap;
use std::marker::Model;

/// No live route has that id.
#[derive(Clone, Copy, Debug, PartialEq, Eq, Hash)]
pub struct NotLive;

/// The live routes of a grid, and the last stamp and the era of their history.
#[derive(Drop)]
pub struct PlainBook {
    alloc: Global,
    grid: Grid,
    horizon: u32,
    calendars: CalendarPool,
    searcher: Searcher,
    routes: BTreeMap<RouteId, Walk>,
    stamp: u32,
    era: u64,
}

impl Model for PlainBook {
    ghost use Rattle.plain_book.specs.BookState.{BookState};
    ghost use Rattle.plain_book.specs.Kept.{routes_of, IsKept};

    ghost Value = { BookState };

    ghost view = { λ b. record { grid = b.grid; horizon = b.horizon; routes = routes_of b.routes.entries; stamp = b.stamp; era = b.era } };

    ghost invariant = { λ b. IsKept b.grid b.horizon b.stamp b.routes.entries b.calendars b.searcher };
}

impl PlainBook {
    ghost use Rattle.plain_book.specs.BookState.{IsOnSameGrid};
    ghost use Rattle.plain_book.specs.Replies.{IsReplyTo, EndsRoute};
    ghost use Rattle.plain_book.specs.History.{AnswersBook};
    ghost use Rattle.plain_book.specs.Resuming.{AreLive, HasRoutes};
    ghost use Rattle.plain_book.specs.Found.{PlansWalk};
    ghost use Rattle.plain_book.specs.Entering.{MayEnter, HasEntered};

    /// A book without routes, of era 0 and stamp 0. Walks arrive at the horizon or earlier.
    pub fn new(alloc: Global, grid: Grid, horizon: u32) -> Result<PlainBook, Memory>
        requires { (1 ≤ horizon) × (horizon ≤ 8000) }
        ensures { IfOk result (λ b. b ≡ record { grid = grid; horizon = horizon; routes = []; stamp = 0; era = 0 }) }
    {
        PlainBook::without_routes(alloc, grid, horizon, 0, 0)
    }

    fn without_routes(
        alloc: Global,
        grid: Grid,
        horizon: u32,
        stamp: u32,
        era: u64,
    ) -> Result<PlainBook, Memory>
        requires { (1 ≤ horizon) × (horizon ≤ 8000) }
        ensures { IfOk result (λ b. b ≡ record { grid = grid; horizon = horizon; routes = []; stamp = stamp; era = era }) }
    {
        let calendars = CalendarPool::new(alloc, grid.cells().len())?;
        let searcher = Searcher::new(alloc, grid.cells().len(), horizon)?;
        Ok(PlainBook {
            alloc,
            grid,
            horizon,
            calendars,
            searcher,
            routes: BTreeMap::new(alloc),
            stamp,
            era,
        })
    }

    /// A book with these live routes, whose history had `stamp` as its last stamp and `era` cancels.
    pub fn resume(
        alloc: Global,
        grid: Grid,
        horizon: u32,
        routes: Vec<Live>,
        stamp: u32,
        era: u64,
    ) -> Result<PlainBook, Memory>
        requires horizon { (1 ≤ horizon) × (horizon ≤ 8000) }
        requires live { AreLive grid horizon routes.items stamp }
        ensures { IfOk result (λ b. HasRoutes b grid horizon routes.items stamp era) }
    {
        let mut book = PlainBook::without_routes(alloc, grid, horizon, stamp, era)?;
        for live in routes {
            let Live { id, walk } = live;
            book.enter(id, walk)?;
        }
        Ok(book)
    }

    /// Plans a request: commits the canonical walk among the live routes, or answers that no walk of the request is free.
    /// The entry has the next stamp. After want of memory the book is as before.
    pub fn plan(&mut self, caller: u32, request: Request) -> Result<Entry, Memory>
        requires start { request.start.0 < length self.old.grid.cells }
        requires goal { request.goal.0 < length self.old.grid.cells }
        requires room { self.old.stamp < 67108863 }
        ensures reply { IfOk result (λ e. IsReplyTo self.old caller request e self.new) }
        ensures history { IfOk result (λ e. AnswersBook self.old self.new e) }
        ensures counts { IfOk result (λ _. (self.new.stamp ≡ self.old.stamp + 1) × (self.new.era ≡ self.old.era)) }
        ensures refused { OnErr result (self.new ≡ self.old) }
        ensures frame { IsOnSameGrid self.old self.new }
    {
        let Some(walk) = self.find_walk(request)? else {
            return Ok(self.refuse(caller, request));
        };
        let id = RouteId {
            stamp: self.stamp + 1,
            caller,
        };
        let copy = copy_of(self.alloc, &walk)?;
        self.enter(id, copy)?;
        Ok(Entry::Commit {
            id,
            era: self.era,
            request,
            walk,
        })
    }

    // The canonical walk among the live routes; none exactly where no walk of the request is free.
    fn find_walk(&mut self, request: Request) -> Result<Option<Walk>, Memory>
        requires start { request.start.0 < length self.old.grid.cells }
        requires goal { request.goal.0 < length self.old.grid.cells }
        ensures found { IfOk result (λ found. PlansWalk self.old request found) }
        ensures same { self.new ≡ self.old }
    {
        find_walk(&mut self.searcher, &self.calendars, &self.grid, request)
    }

    // The reply where no walk is free.
    fn refuse(&mut self, caller: u32, request: Request) -> Entry
        requires room { self.old.stamp < 67108863 }
        requires none_free { NoneFree self.old.grid self.old.horizon request self.old.routes }
        ensures reply { IsReplyTo self.old caller request result self.new }
        ensures history { AnswersBook self.old self.new result }
        ensures counts { (self.new.stamp ≡ self.old.stamp + 1) × (self.new.era ≡ self.old.era) }
        ensures frame { IsOnSameGrid self.old self.new }
    {
        self.stamp += 1;
        Entry::NoRoute {
            stamp: self.stamp,
            caller,
            era: self.era,
            request,
        }
    }

    // Takes a route in. After want of memory the book is as before.
    fn enter(&mut self, id: RouteId, walk: Walk) -> Result<(), Memory>
        requires { MayEnter self.old.routes (length self.old.grid.cells) id walk }
        ensures ok { OnOk result (HasEntered self.old id walk self.new) }
        ensures refused { OnErr result (self.new ≡ self.old) }
        ensures frame { IsOnSameGrid self.old self.new }
    {
        add_route(self.alloc, &mut self.calendars, &mut self.routes, id, walk)?;
        self.stamp = self.stamp.max(id.stamp);
        Ok(())
    }

    /// Takes a live route out, which raises the era by 1. `NotLive` exactly where no live route has the id; the book is
    /// as before then. It takes no memory.
    pub fn cancel(&mut self, id: RouteId) -> Result<Entry, NotLive>
        requires { self.old.era < 1099511627775 }
        ensures ok { IfOk result (λ e. EndsRoute self.old id e self.new) }
        ensures history { IfOk result (λ e. AnswersBook self.old self.new e) }
        ensures counts { IfOk result (λ _. (self.new.stamp ≡ self.old.stamp) × (self.new.era ≡ self.old.era + 1)) }
        ensures frame { IsOnSameGrid self.old self.new }
        ensures refused { OnErr result (self.new ≡ self.old) }
        ensures not_live { OnErr result (¬ (IsLive id self.old.routes)) }
    {
        if !end_route(&mut self.calendars, &mut self.routes, id) {
            return Err(NotLive);
        }
        let entry = Entry::Cancel { id, era: self.era };
        self.era += 1;
        Ok(entry)
    }

    /// The grid.
    pub fn grid(&self) -> &Grid
        ensures { result.now ≡ self.now.grid }
    {
        &self.grid
    }

    /// The last time at which a walk may arrive.
    pub fn horizon(&self) -> u32
        ensures value { result ≡ self.now.horizon }
        ensures in_range { (1 ≤ result) × (result ≤ 8000) }
    {
        self.horizon
    }

    /// How many routes were cancelled.
    pub fn era(&self) -> u64
        ensures { result ≡ self.now.era }
    {
        self.era
    }

    /// The stamp of the last reply, or 0 before the first one.
    pub fn stamp(&self) -> u32
        ensures { result ≡ self.now.stamp }
    {
        self.stamp
    }
}
