ghost use Rattle.std.specs.Prelude.{◌≡◌, Some, IfSome};
ghost use Rattle.word_pack.specs.declared.cell.CellForm.{CellForm};
ghost use Rattle.word_pack.specs.CellWords.{FitsCell, cell_word, IsCellWord};

use crate::layout::{CONDITIONAL, DESCRIPTOR, ENTRY, FRESH, HELPER, PLAIN, REFERENCE, ROW, TAG};

/// What the word of a cell says.
///
/// A descriptor's number is `8 * caller + k`, with k from 0 to 7.
#[derive(Clone, Copy, Debug, PartialEq, Eq)]
pub enum CellForm {
    /// The cell's calendar begins in this row. Row 0 is an empty calendar.
    Plain {
        row: u32,
    },
    /// A descriptor's entry, installed by a helper under its install's number, and not in force yet.
    Conditional {
        entry: u32,
        descriptor: u32,
        helper: u32,
        fresh: u64,
    },
    /// A descriptor's entry, whose status decides between the old row and the new one.
    Reference {
        entry: u32,
        descriptor: u32,
    },
}

/// The word of a form.
pub fn pack_cell(form: CellForm) -> u64
    requires { FitsCell form }
    ensures { result ≡ cell_word form }
{
    match form {
        CellForm::Plain { row } => ROW.put(PLAIN, u64::from(row)),
        CellForm::Conditional {
            entry,
            descriptor,
            helper,
            fresh,
        } => {
            let word = ENTRY.put(CONDITIONAL, u64::from(entry));
            let word = DESCRIPTOR.put(word, u64::from(descriptor));
            let word = HELPER.put(word, u64::from(helper));
            FRESH.put(word, fresh)
        }
        CellForm::Reference { entry, descriptor } => {
            let word = ENTRY.put(REFERENCE, u64::from(entry));
            DESCRIPTOR.put(word, u64::from(descriptor))
        }
    }
}

/// The form of a word, or None where it is the word of no form.
pub fn unpack_cell(word: u64) -> Option<CellForm>
    ensures form { IfSome result (λ form. IsCellWord form word) }
    ensures every { (form : CellForm) → IsCellWord form word → result ≡ Some form }
{
    match TAG.of(word) {
        PLAIN if ROW.is_last_of(word) => Some(CellForm::Plain {
            row: ROW.of(word) as u32,
        }),
        CONDITIONAL => Some(CellForm::Conditional {
            entry: ENTRY.of(word) as u32,
            descriptor: DESCRIPTOR.of(word) as u32,
            helper: HELPER.of(word) as u32,
            fresh: FRESH.of(word),
        }),
        REFERENCE if DESCRIPTOR.is_last_of(word) => Some(CellForm::Reference {
            entry: ENTRY.of(word) as u32,
            descriptor: DESCRIPTOR.of(word) as u32,
        }),
        _ => None,
    }
}
