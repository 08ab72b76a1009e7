use super::*;

#[test]
fn packs_the_examples(rt: HostRuntime) {
    let words = [
        pack_cell(CellForm::Plain { row: 5 }),
        pack_cell(CellForm::Conditional {
            entry: 1023,
            descriptor: 17,
            helper: 2,
            fresh: 1,
        }),
        pack_cell(CellForm::Reference {
            entry: 2,
            descriptor: 3,
        }),
        pack_count(CountForm::Plain { count: 3 }),
        pack_status(StatusForm::Undecided),
        pack_status(StatusForm::Failed {
            entry: 2,
            held: false,
        }),
        pack_entry(EntryForm {
            cell: 1,
            old: 0,
            new: 1,
        }),
        pack_record(RecordForm {
            from: 2,
            to: 3,
            stamp: 1,
            caller: 0,
        }),
        pack_row_head(RowHead { count: 15, next: 1 }),
    ];
    let wanted = [
        20,
        35_794_941,
        24_586,
        12,
        1,
        11,
        4_398_046_511_105,
        4_295_163_906,
        31,
    ];
    assert_eq!(rt; words, wanted);
}

#[test]
fn unpacks_the_examples(rt: HostRuntime) {
    assert_eq!(rt; unpack_cell(20), Some(CellForm::Plain { row: 5 }));
    assert_eq!(rt; unpack_cell(3), None);
    assert_eq!(rt; unpack_count(12), Some(CountForm::Plain { count: 3 }));
    assert_eq!(rt; unpack_status(1), Some(StatusForm::Undecided));
    assert_eq!(rt; unpack_status(4), None);
    let failed = StatusForm::Failed {
        entry: 2,
        held: false,
    };
    assert_eq!(rt; unpack_status(11), Some(failed));
    let entry = EntryForm {
        cell: 1,
        old: 0,
        new: 1,
    };
    assert_eq!(rt; unpack_entry(4_398_046_511_105), entry);
    let record = RecordForm {
        from: 2,
        to: 3,
        stamp: 1,
        caller: 0,
    };
    assert_eq!(rt; unpack_record(4_295_163_906), record);
    let head = RowHead { count: 15, next: 1 };
    assert_eq!(rt; unpack_row_head(31 + (1 << 26)), head);
}
