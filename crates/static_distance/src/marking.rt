ghost use Rattle.std.specs.Prelude.{◌≡◌, ◌≢◌, ℕ, suc, ◌+◌, ◌-◌, ◌<◌, ◌≤◌, Some, length, slice_get};
ghost use Rattle.row_words.specs.Words.{IsSet};
ghost use Rattle.static_distance.specs.Levels.{gap};

use row_words::{lowest, single, without};
use stamped_list::StampedList;

// Up to so many cells a list with an entry for each stays in the processor's cache.
pub(crate) const FEW: usize = 32768;

// Marks the cells that the word has in a span, of which `first` is the first cell, each with 1 plus its moves: what is left of
// `reach` after the moves along the row.
#[inline(always)]
pub(crate) fn mark_each(
    marks: &mut StampedList,
    first: u32,
    word: u64,
    column: u32,
    toward: u32,
    reach: u32,
)
    requires inside { (i : ℕ) → IsSet word i → first + i < length marks.old }
    requires small { (first < 16777216) × (column ≤ first) }
    requires bounded { reach ≤ 16777216 }
    ensures count { length marks.new ≡ length marks.old }
    ensures marked { (i : ℕ) → IsSet word i → slice_get marks.new (first + i) ≡ Some (suc (reach - gap (column + i) toward)) }
    ensures others { (n : ℕ) → ((i : ℕ) → IsSet word i → n ≢ first + i) → slice_get marks.new n ≡ slice_get marks.old n }
{
    let mut rest = word;
    while let Some(place) = lowest(rest) {
        rest = without(rest, single(place));
        let moves = reach.saturating_sub((column + place).abs_diff(toward));
        marks.set((first + place) as usize, moves + 1);
    }
}
