ghost use Rattle.std.specs.Prelude.{◌≡◌, IfOk, None, map};
ghost use Rattle.std.specs.List.Sorted.{IsPermutation, IsNonDecreasingBy};
ghost use Rattle.lane_runs.specs.Answers.{order_of};
ghost use Rattle.journal_lines.specs.Places.{head_after, places_from};
ghost use Rattle.journal_lines.specs.Printing.{AreOfRun, ArePrinted};

use fleet_base::{JournalKey, Memory};
use lane_runs::Answer;
use std::alloc::Global;

// Where the line of an answer stands: by the journal's key of the last entry up to it in the order of the numbers.
#[derive(Clone, Copy)]
struct LinePlace<'a> {
    head: Option<JournalKey>,
    answer: &'a Answer,
}

fn head_after(head: Option<JournalKey>, answer: &Answer) -> Option<JournalKey>
    ensures { result ≡ head_after head answer.now }
{
    match answer {
        Answer::Made { entry, .. } => Some(entry.journal_key()),
        Answer::Gone { .. } => head,
    }
}

/// Lends each answer, in their order.
pub fn lend_each<'a>(alloc: Global, answers: &'a [Answer]) -> Result<Vec<&'a Answer>, Memory>
    ensures { IfOk result (λ lent. map (λ a. a.now) lent.items ≡ answers.now) }
{
    let lent = answers.iter().collect(alloc)?;
    Ok(lent)
}

fn by_number<'a>(alloc: Global, answers: &'a [Answer]) -> Result<Vec<&'a Answer>, Memory>
    ensures same { IfOk result (λ numbered. IsPermutation answers.now (map (λ a. a.now) numbered.items)) }
    ensures rising { IfOk result (λ numbered. IsNonDecreasingBy (λ a. order_of a.now) numbered.items) }
{
    let mut numbered = lend_each(alloc, answers)?;
    numbered.sort_unstable_by_key(|answer| answer.order());
    Ok(numbered)
}

fn place_lines<'a>(alloc: Global, numbered: &[&'a Answer]) -> Result<Vec<LinePlace<'a>>, Memory>
    ensures { IfOk result (λ places. places.items ≡ places_from None numbered.now) }
{
    let mut places = Vec::with_capacity(alloc, numbered.len())?;
    let mut head = None;
    for answer in numbered {
        head = head_after(head, answer);
        places.push(LinePlace {
            head,
            answer: *answer,
        })?;
    }
    Ok(places)
}

fn answers_of<'a>(alloc: Global, places: &[LinePlace<'a>]) -> Result<Vec<&'a Answer>, Memory>
    ensures { IfOk result (λ answers. answers.items ≡ map (λ p. p.answer) places.now) }
{
    let answers = places.iter().map(|place| place.answer).collect(alloc)?;
    Ok(answers)
}

/// The answers of a run in the order in which a journal has their lines: the entries in the order of the journal, and
/// each cancel that is gone directly behind the answer to the order before its own.
pub fn print_order<'a>(alloc: Global, answers: &'a [Answer]) -> Result<Vec<&'a Answer>, Memory>
    requires run { AreOfRun answers.now }
    ensures { IfOk result (λ printed. ArePrinted answers.now (map (λ a. a.now) printed.items)) }
{
    let numbered = by_number(alloc, answers)?;
    let mut places = place_lines(alloc, numbered.as_slice())?;
    places.sort_unstable_by_key(|place| (place.head, place.answer.order()));
    answers_of(alloc, places.as_slice())
}
