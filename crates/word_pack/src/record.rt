ghost use Rattle.std.specs.Prelude.{◌≡◌};
ghost use Rattle.word_pack.specs.declared.record.RecordForm.{RecordForm};
ghost use Rattle.word_pack.specs.RecordWords.{FitsRecord, record_word, IsRecordWord};

use crate::layout::{CALLER, FROM, STAMP, TO};

/// One record of a row: the first and the last time step of a stay, and the id of its route.
#[derive(Clone, Copy, Debug, PartialEq, Eq)]
pub struct RecordForm {
    pub from: u32,
    pub to: u32,
    pub stamp: u32,
    pub caller: u32,
}

/// The word of a record.
pub fn pack_record(form: RecordForm) -> u64
    requires { FitsRecord form }
    ensures { result ≡ record_word form }
{
    let word = FROM.put(0, u64::from(form.from));
    let word = TO.put(word, u64::from(form.to));
    let word = STAMP.put(word, u64::from(form.stamp));
    CALLER.put(word, u64::from(form.caller))
}

/// The record of a word. Every word has one.
pub fn unpack_record(word: u64) -> RecordForm
    ensures form { IsRecordWord result word }
    ensures every { (form : RecordForm) → IsRecordWord form word → result ≡ form }
{
    RecordForm {
        from: FROM.of(word) as u32,
        to: TO.of(word) as u32,
        stamp: STAMP.of(word) as u32,
        caller: CALLER.of(word) as u32,
    }
}
