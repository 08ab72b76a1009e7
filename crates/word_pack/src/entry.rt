ghost use Rattle.std.specs.Prelude.{◌≡◌};
ghost use Rattle.word_pack.specs.declared.entry.EntryForm.{EntryForm};
ghost use Rattle.word_pack.specs.EntryWords.{FitsEntry, entry_word, IsEntryWord};

use crate::layout::{CELL, NEW, OLD};

/// One entry of a descriptor: a cell, and its rows before and after the swap.
#[derive(Clone, Copy, Debug, PartialEq, Eq)]
pub struct EntryForm {
    pub cell: u32,
    pub old: u32,
    pub new: u32,
}

/// The word of an entry.
pub fn pack_entry(form: EntryForm) -> u64
    requires { FitsEntry form }
    ensures { result ≡ entry_word form }
{
    let word = CELL.put(0, u64::from(form.cell));
    let word = OLD.put(word, u64::from(form.old));
    NEW.put(word, u64::from(form.new))
}

/// The entry of a word. Every word has one.
pub fn unpack_entry(word: u64) -> EntryForm
    ensures form { IsEntryWord result word }
    ensures every { (form : EntryForm) → IsEntryWord form word → result ≡ form }
{
    EntryForm {
        cell: CELL.of(word) as u32,
        old: OLD.of(word) as u32,
        new: NEW.of(word) as u32,
    }
}
