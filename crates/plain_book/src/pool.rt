ghost use Rattle.std.specs.Prelude.{◌≡◌, ℕ, suc, ◌<◌, ◌≤◌, Some, [], length, replicate, slice_get, slice_set, IfOk, OnOk, OnErr};
ghost use Rattle.calendars.specs.Records.{with_record, without_id, IsApart};
ghost use Rattle.plain_book.specs.Kept.{records_at};
ghost use Rattle.plain_book.specs.Pool.{calendars_in, place_of, IsPool, GetsNext};

use calendars::Calendar;
use fleet_base::{Cell, Memory, Record, RouteId};
use std::alloc::Global;
use std::marker::Model;

// Up to so many cells, each has a calendar of its own from the beginning.
const FEW: usize = 32768;

// The room of a calendar's first record where there are few cells: routes cross each of them often. A power of two.
const ROOM: usize = 8;

/// The calendar of each cell. Most cells of a great grid never have a record: these share one calendar. With few cells each
/// has its own, and is found without asking where it stands.
#[derive(Drop)]
pub struct CalendarPool {
    alloc: Global,
    few: bool,
    // By the number of a cell, where its calendar stands in the pool.
    places: Vec<u32>,
    // The first calendar stays empty. It is that of each cell that had no record yet. With few cells the others are those of
    // all cells, in their order.
    pool: Vec<Calendar>,
}

impl Model for CalendarPool {
    ghost use Rattle.std.specs.Prelude.{List};
    ghost use Rattle.fleet_base.specs.declared.request.Record.{Record};

    ghost Value = { List (List Record) };

    ghost use Rattle.plain_book.specs.Pool.{calendars_in, IsPool, AreInOrder};

    ghost view = { λ p. calendars_in p.pool.items p.places.items };

    ghost invariant = { λ p. IsPool p.places.items p.pool.items × AreInOrder p.few p.places.items };
}

impl CalendarPool {
    /// So many calendars without records.
    pub fn new(alloc: Global, count: usize) -> Result<CalendarPool, Memory>
        ensures { IfOk result (λ calendars. calendars ≡ replicate count []) }
    {
        let few = count <= FEW;
        let mut places = vec![in alloc; 0; count]?;
        let mut pool = Vec::new(alloc);
        pool.push(Calendar::new(alloc))?;
        if few {
            own_places(alloc, &mut places, &mut pool)?;
        }
        Ok(CalendarPool {
            alloc,
            few,
            places,
            pool,
        })
    }

    /// The calendar of a cell.
    #[inline(always)]
    pub fn at(&self, cell: Cell) -> &Calendar
        requires { cell.0 < length self.now }
        ensures { slice_get self.now cell.0 ≡ Some result.now }
    {
        if self.few {
            return &self.pool[cell.0 as usize + 1];
        }
        let place = self.places[cell.0 as usize];
        &self.pool[place as usize]
    }

    /// Puts a record into the calendar of a cell. Where memory runs out nothing has changed.
    pub fn insert(&mut self, cell: Cell, added: Record) -> Result<(), Memory>
        requires inside { cell.0 < length self.old }
        requires proper { added.from ≤ added.to }
        requires apart { IsApart added (records_at self.old cell.0) }
        ensures ok { OnOk result (self.new ≡ slice_set self.old cell.0 (with_record added (records_at self.old cell.0))) }
        ensures refused { OnErr result (self.new ≡ self.old) }
    {
        let place = own_place(self.alloc, &mut self.places, &mut self.pool, cell)?;
        insert_in(self.few, &mut self.pool[place], added)?;
        Ok(())
    }

    /// Takes every record of that id out of the calendar of a cell. It takes no memory.
    pub fn remove_id(&mut self, cell: Cell, id: RouteId)
        requires { cell.0 < length self.old }
        ensures { self.new ≡ slice_set self.old cell.0 (without_id id (records_at self.old cell.0)) }
    {
        let place = self.places[cell.0 as usize] as usize;
        if place > 0 {
            self.pool[place].remove_id(id);
        }
    }
}

// Puts a record into a calendar. That of a cell among few gets room for some, and as much again whenever it is full.
fn insert_in(few: bool, calendar: &mut Calendar, added: Record) -> Result<(), Memory>
    requires proper { added.from ≤ added.to }
    requires apart { IsApart added calendar.old }
    ensures ok { OnOk result (calendar.new ≡ with_record added calendar.old) }
    ensures refused { OnErr result (calendar.new ≡ calendar.old) }
{
    let count = calendar.records().len();
    if few && (count == 0 || (count >= ROOM && count.is_power_of_two())) {
        calendar.reserve(count.max(ROOM))?;
    }
    calendar.insert(added)
}

// Gives each cell a calendar of its own, in their order. None had one.
fn own_places(alloc: Global, places: &mut Vec<u32>, pool: &mut Vec<Calendar>) -> Result<(), Memory>
    requires pool { IsPool places.old.items pool.old.items }
    requires one { length pool.old.items ≡ 1 }
    requires few { length places.old.items ≤ 32768 }
    requires none { (c : ℕ) → place_of places.old.items c ≡ 0 }
    ensures pool { OnOk result (IsPool places.new.items pool.new.items) }
    ensures same { calendars_in pool.new.items places.new.items ≡ calendars_in pool.old.items places.old.items }
    ensures ordered { OnOk result ((c : ℕ) → c < length places.new.items → place_of places.new.items c ≡ suc c) }
{
    for cell in 0..places.len() {
        own_place(alloc, places, pool, Cell(cell as u32))?;
    }
    Ok(())
}

// The place of the calendar of a cell, which gets one of its own where it has none. The calendars are as before, also
// after want of memory.
fn own_place(
    alloc: Global,
    places: &mut Vec<u32>,
    pool: &mut Vec<Calendar>,
    cell: Cell,
) -> Result<usize, Memory>
    requires pool { IsPool places.old.items pool.old.items }
    requires inside { cell.0 < length places.old.items }
    ensures pool { IsPool places.new.items pool.new.items }
    ensures same { calendars_in pool.new.items places.new.items ≡ calendars_in pool.old.items places.old.items }
    ensures own { IfOk result (λ place. (place ≡ place_of places.new.items cell.0) × (0 < place)) }
    ensures had { 0 < place_of places.old.items cell.0 → places.new.items ≡ places.old.items }
    ensures first { place_of places.old.items cell.0 ≡ 0 → OnOk result (GetsNext cell.0 places.old.items pool.old.items places.new.items pool.new.items) }
{
    let place = places[cell.0 as usize] as usize;
    if place > 0 {
        return Ok(place);
    }
    let next = pool.len();
    // The places have numbers of 32 bits.
    if next > u32::MAX as usize {
        return Err(Memory);
    }
    pool.push(Calendar::new(alloc))?;
    places[cell.0 as usize] = next as u32;
    Ok(next)
}
