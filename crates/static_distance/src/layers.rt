ghost use Rattle.std.specs.Prelude.{◌≡◌, ◌≢◌, ℕ, suc, ◌<◌, ◌≤◌, [], length, IfOk, OnOk, slice_set};
ghost use Rattle.static_distance.specs.Layers.{no_layer, told, AreFalling, IsLinked, HasLayer};

use fleet_base::Memory;
use row_words::{either, is_set};
use std::alloc::Global;

// Cells of a span that were counted on one level, and the next older layer of the span: 1 plus its place among the older
// ones, or 0.
#[derive(Clone, Copy)]
pub(crate) struct Layer {
    word: u64,
    level: u32,
    older: u32,
}

const NONE: Layer = Layer {
    word: 0,
    level: 0,
    older: 0,
};

// The level of each cell that is counted: a span has a layer for each level on which cells of it were counted.
#[derive(Drop)]
pub(crate) struct Layers {
    // The newest layer of each span, by its number. Before the span is begun it is left over from before, and means nothing.
    newest: Vec<Layer>,
    older: Vec<Layer>,
}

impl Layers {
    // For so many spans, none of which is begun.
    pub(crate) fn new(alloc: Global, count: usize) -> Result<Layers, Memory>
        ensures { IfOk result (λ l. length l.newest.items ≡ count) }
    {
        Ok(Layers {
            newest: vec![in alloc; NONE; count]?,
            older: Vec::new(alloc),
        })
    }

    // How many spans there are.
    pub(crate) fn len(&self) -> usize
        ensures { result ≡ length self.now.newest.items }
    {
        self.newest.len()
    }

    // No span is begun any more. It takes the same time for any number of spans.
    pub(crate) fn clear(&mut self)
        ensures newest { self.new.newest ≡ self.old.newest }
        ensures older { self.new.older.items ≡ [] }
    {
        self.older.clear();
    }

    // Begins a span: no cell of it is counted. It does nothing where there are no spans.
    #[inline(always)]
    pub(crate) fn begin(&mut self, number: usize)
        ensures newest { self.new.newest.items ≡ slice_set self.old.newest.items number no_layer }
        ensures older { self.new.older ≡ self.old.older }
    {
        if number < self.newest.len() {
            self.newest[number] = NONE;
        }
    }

    // The level of a cell that is counted, by its span and its place there. Most are in the newest layer.
    #[inline(always)]
    pub(crate) fn level_at(&self, number: usize, place: u32) -> u32
        requires inside { (number < length self.now.newest.items) × (place < 64) }
        requires falling { AreFalling self.now.older.items }
        requires linked { IsLinked self.now number }
        requires counted { told self.now number place ≢ 0 }
        ensures { told self.now number place ≡ suc result }
    {
        let mut layer = self.newest[number];
        while !is_set(layer.word, place) {
            layer = self.older[layer.older as usize - 1];
        }
        layer.level
    }

    // Cells of a span that was begun are counted on that level, as a word.
    #[inline(always)]
    pub(crate) fn add(&mut self, number: usize, word: u64, level: u32) -> Result<(), Memory>
        requires inside { number < length self.old.newest.items }
        requires few { length self.old.older.items < 16777216 }
        requires falling { AreFalling self.old.older.items }
        requires linked { IsLinked self.old number }
        ensures { OnOk result (HasLayer number word level self.old self.new) }
    {
        let newest = self.newest[number];
        if newest.word == 0 || newest.level == level {
            self.newest[number] = Layer {
                word: either(newest.word, word),
                level,
                older: newest.older,
            };
            return Ok(());
        }
        self.older.push(newest)?;
        self.newest[number] = Layer {
            word,
            level,
            older: self.older.len() as u32,
        };
        Ok(())
    }
}
