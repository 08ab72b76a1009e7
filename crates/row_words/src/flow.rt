ghost use Rattle.row_words.specs.Words.{AreNext, IsFilled};

use crate::places::{both, either, lowered, raised, without};

// The free places next to the word's that it flows to and doesn't have yet.
#[inline(always)]
fn next_to(word: u64, free: u64, up: u64, down: u64) -> u64
    ensures { AreNext word free up down result }
{
    let risen = raised(both(word, up));
    let fallen = lowered(both(word, down));
    without(both(either(risen, fallen), free), word)
}

/// All places that are reached from the seeds that are free: over free places, to the next greater one from those of `up`, and to the
/// next lesser one from those of `down`. It takes a step for each place on the longest way.
#[inline]
pub fn filled(seeds: u64, free: u64, up: u64, down: u64) -> u64
    ensures { IsFilled seeds free up down result }
{
    let mut word = both(seeds, free);
    let mut more = next_to(word, free, up, down);
    while more != 0 {
        word = either(word, more);
        more = next_to(word, free, up, down);
    }
    word
}
