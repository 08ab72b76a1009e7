ghost use Rattle.fleet_base.specs.Journal.{IsJournal};

use crate::request::Entry;

// By era, then the cancel last, then stamp, then caller.
#[derive(Clone, Copy, PartialEq, Eq, PartialOrd, Ord)]
pub struct JournalKey {
    era: u64,
    cancel: bool,
    stamp: u32,
    caller: u32,
}

impl Entry {
    ghost use Rattle.std.specs.Prelude.{◌≡◌};
    ghost use Rattle.fleet_base.specs.JournalKey.{journal_key_of};

    pub fn journal_key(&self) -> JournalKey
        ensures { result ≡ journal_key_of self.now }
    {
        match self {
            Entry::Commit { id, era, .. } => JournalKey {
                era: *era,
                cancel: false,
                stamp: id.stamp,
                caller: id.caller,
            },
            Entry::Cancel { id, era } => JournalKey {
                era: *era,
                cancel: true,
                stamp: 0,
                caller: id.caller,
            },
            Entry::NoRoute {
                stamp,
                caller,
                era,
                ..
            } => JournalKey {
                era: *era,
                cancel: false,
                stamp: *stamp,
                caller: *caller,
            },
        }
    }
}

/// Puts the entries in the order of the journal.
pub fn sort_journal(entries: &mut Vec<Entry>)
    ensures { IsJournal entries.old.items entries.new.items }
{
    entries.sort_unstable_by_key(|e| e.journal_key());
}
