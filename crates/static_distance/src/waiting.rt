ghost use Rattle.std.specs.Prelude.{◌≡◌, ℕ, ◌+◌, ◌<◌, ◌≤◌, Some, [], ◌∷◌, ◌++◌, length, reverse, OnOk, IfOk, slice_get, slice_set, replicate};
ghost use Rattle.std.specs.List.{insert};
ghost use Rattle.row_words.specs.Words.{IsSet};

use crate::place::Place;
use crate::span::Span;
use fleet_base::Memory;
use row_words::either;
use std::alloc::Global;

// A set of cells that wait: a word for each span by its number, and the spans whose words have cells.
#[derive(Drop)]
pub(crate) struct Waiting {
    pub(crate) words: Vec<u64>,
    pub(crate) spans: Vec<Span>,
}

impl Waiting {
    ghost use Rattle.static_distance.specs.Waiting.{HasAdded};

    // None waits, in so many spans.
    pub(crate) fn new(alloc: Global, count: usize) -> Result<Waiting, Memory>
        ensures words { IfOk result (λ w. w.words.items ≡ replicate count 0) }
        ensures spans { IfOk result (λ w. w.spans.items ≡ []) }
    {
        Ok(Waiting {
            words: vec![in alloc; 0; count]?,
            spans: Vec::new(alloc),
        })
    }

    // The cells that the word has in the span wait, too, and its span is taken before the others if it is there for them alone.
    #[inline(always)]
    pub(crate) fn add(&mut self, span: Span, word: u64) -> Result<(), Memory>
        requires { span.number < length self.old.words.items }
        ensures added { OnOk result (HasAdded self.old self.new span word) }
        ensures words { length self.new.words.items ≡ length self.old.words.items }
        ensures more { OnOk result (length self.new.spans.items ≤ length self.old.spans.items + 1) }
    {
        let number = span.number as usize;
        let before = self.words[number];
        if before == 0 {
            self.spans.push(span)?;
        }
        self.words[number] = either(before, word);
        Ok(())
    }

    // The same, but spans that are farther from that place are taken before this one.
    #[inline(always)]
    pub(crate) fn add_after_farther(
        &mut self,
        span: Span,
        word: u64,
        toward: Place,
    ) -> Result<(), Memory>
        requires { span.number < length self.old.words.items }
        ensures added { OnOk result (HasAdded self.old self.new span word) }
        ensures words { length self.new.words.items ≡ length self.old.words.items }
        ensures more { OnOk result (length self.new.spans.items ≤ length self.old.spans.items + 1) }
    {
        let number = span.number as usize;
        let before = self.words[number];
        if before == 0 {
            let place = under_farther(self.spans.as_slice(), span, toward);
            put_at(&mut self.spans, place, span)?;
        }
        self.words[number] = either(before, word);
        Ok(())
    }

    // The span that would be taken last is taken first.
    pub(crate) fn turn(&mut self)
        ensures words { self.new.words ≡ self.old.words }
        ensures spans { self.new.spans.items ≡ reverse self.old.spans.items }
    {
        self.spans.reverse();
    }
}

// Whether the first span is farther from that place than the second one: in its rows, and in its columns where the rows are
// the same.
#[inline(always)]
fn is_farther(a: Span, b: Span, from: Place) -> bool {
    let rows = a.row.abs_diff(from.row);
    let others = b.row.abs_diff(from.row);
    if rows != others {
        return others < rows;
    }
    let part = from.column / 64;
    (b.column / 64).abs_diff(part) < (a.column / 64).abs_diff(part)
}

// Where the spans at the end are farther from that place than this one: the place of the first of them.
fn under_farther(spans: &[Span], span: Span, toward: Place) -> usize
    ensures { result ≤ length spans.now }
{
    let mut place = spans.len();
    while place > 0 && is_farther(spans[place - 1], span, toward) {
        place -= 1;
    }
    place
}

fn put_at(spans: &mut Vec<Span>, place: usize, span: Span) -> Result<(), Memory>
    requires { place ≤ length spans.old.items }
    ensures { OnOk result (spans.new.items ≡ insert spans.old.items place span) }
{
    // Most are put behind all others, and there `push` is faster.
    if place == spans.len() {
        spans.push(span)?;
        return Ok(());
    }
    match spans.insert(place, span) {
        Ok(()) => Ok(()),
        Err(_) => Err(Memory),
    }
}
