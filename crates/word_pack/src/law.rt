ghost use Rattle.word_pack.specs.Packing.{IsOneToOne};
ghost use Rattle.word_pack.specs.CellWords.{FitsCell, cell_word};
ghost use Rattle.word_pack.specs.CountWords.{FitsCount, count_word};
ghost use Rattle.word_pack.specs.StatusWords.{FitsStatus, status_word};
ghost use Rattle.word_pack.specs.EntryWords.{FitsEntry, entry_word};
ghost use Rattle.word_pack.specs.RecordWords.{FitsRecord, record_word};
ghost use Rattle.word_pack.specs.RowHeadWords.{FitsRowHead, row_head_word};

/// Of each kind, two forms that have one word are one form. It does nothing when it runs.
pub fn packing_law()
    ensures cells { IsOneToOne FitsCell cell_word }
    ensures counts { IsOneToOne FitsCount count_word }
    ensures statuses { IsOneToOne FitsStatus status_word }
    ensures entries { IsOneToOne FitsEntry entry_word }
    ensures records { IsOneToOne FitsRecord record_word }
    ensures row_heads { IsOneToOne FitsRowHead row_head_word }
{}
