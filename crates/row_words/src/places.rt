ghost use Rattle.std.specs.Prelude.{◌≡◌, ℕ, ◌+◌, ◌<◌, ◌≤◌, ◌⊎◌, ◌↔◌, true, Some, length, slice_get, IsTrue, IfSome, IfNone};
ghost use Rattle.row_words.specs.Words.{IsSet};
ghost use Rattle.row_words.specs.Cells.{HasOpen};

// A word of eight bytes that are 0 or 1, times this, has them side by side in its top byte, the lowest byte as the lowest bit.
const GATHER: u64 = 0x0102_0408_1020_4080;

/// The places that both words have.
#[inline(always)]
pub fn both(a: u64, b: u64) -> u64
    ensures { (i : ℕ) → IsSet result i ↔ (IsSet a i × IsSet b i) }
{
    a & b
}

/// The places that one of the words has, or both.
#[inline(always)]
pub fn either(a: u64, b: u64) -> u64
    ensures { (i : ℕ) → IsSet result i ↔ (IsSet a i ⊎ IsSet b i) }
{
    a | b
}

/// The places that only the first word has.
#[inline(always)]
pub fn without(a: u64, b: u64) -> u64
    ensures { (i : ℕ) → IsSet result i ↔ (IsSet a i × ¬ (IsSet b i)) }
{
    a & !b
}

/// Each place moves to the next greater one, and place 63 falls out.
#[inline(always)]
pub fn raised(word: u64) -> u64
    ensures { (i : ℕ) → IsSet result i ↔ ((j : ℕ) × (i ≡ j + 1) × (i < 64) × IsSet word j) }
{
    word << 1
}

/// Each place moves to the next lesser one, and place 0 falls out.
#[inline(always)]
pub fn lowered(word: u64) -> u64
    ensures { (i : ℕ) → IsSet result i ↔ IsSet word (i + 1) }
{
    word >> 1
}

/// The places below a number: all 64 of them from 64 on.
#[inline(always)]
pub fn below(count: u32) -> u64
    ensures { (i : ℕ) → IsSet result i ↔ ((i < 64) × (i < count)) }
{
    if count < 64 {
        (1 << count) - 1
    } else {
        u64::MAX
    }
}

/// That place alone.
#[inline(always)]
pub fn single(place: u32) -> u64
    requires { place < 64 }
    ensures { (i : ℕ) → IsSet result i ↔ (i ≡ place) }
{
    1 << place
}

/// Whether the word has the place.
#[inline(always)]
pub fn is_set(word: u64, place: u32) -> bool
    requires { place < 64 }
    ensures { IsTrue result ↔ IsSet word place }
{
    (word >> place) & 1 == 1
}

/// The least place, or none where the word has none.
#[inline(always)]
pub fn lowest(word: u64) -> Option<u32>
    ensures some { IfSome result (λ i. (i < 64) × IsSet word i × ((j : ℕ) → j < i → ¬ (IsSet word j))) }
    ensures none { IfNone result ((i : ℕ) → ¬ (IsSet word i)) }
{
    if word == 0 {
        return None;
    }
    Some(word.trailing_zeros())
}

/// A place for each cell, set where the cell's value is true.
#[inline(always)]
pub fn open_places(cells: &[bool]) -> u64
    requires { length cells.now ≤ 64 }
    ensures { (i : ℕ) → IsSet result i ↔ (slice_get cells.now i ≡ Some true) }
{
    let mut word = 0;
    let mut place = 0;
    // Eight cells at a time: one read and one multiplication are enough for them.
    while place + 8 <= cells.len() {
        word = either(word, open_byte(cells, place) << place);
        place += 8;
    }
    either(word, open_rest(cells, place))
}

// The same for the cells from one on that fill no byte.
#[inline(always)]
fn open_rest(cells: &[bool], from: usize) -> u64
    requires { (from ≤ length cells.now) × (length cells.now ≤ 64) }
    ensures { HasOpen cells.now 0 from (length cells.now) result }
{
    let mut word = 0;
    for place in from..cells.len() {
        word = either(word, open_cell(cells, place));
    }
    word
}

// The same for the eight cells from one on, as if the first of them had place 0.
#[inline(always)]
fn open_byte(cells: &[bool], from: usize) -> u64
    requires { from + 8 ≤ length cells.now }
    ensures { HasOpen cells.now from 0 8 result }
{
    // A byte for each cell, in the order in which the cells lie in memory: so the compiler reads all eight at once.
    let bytes = cells[from] as u64
        | (cells[from + 1] as u64) << 8
        | (cells[from + 2] as u64) << 16
        | (cells[from + 3] as u64) << 24
        | (cells[from + 4] as u64) << 32
        | (cells[from + 5] as u64) << 40
        | (cells[from + 6] as u64) << 48
        | (cells[from + 7] as u64) << 56;
    bytes.wrapping_mul(GATHER) >> 56
}

// The place alone, where its cell is true.
#[inline(always)]
fn open_cell(cells: &[bool], place: usize) -> u64
    requires within { place < length cells.now }
    requires small { place < 64 }
    ensures { HasOpen cells.now 0 place (place + 1) result }
{
    (cells[place] as u64) << place
}
