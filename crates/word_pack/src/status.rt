ghost use Rattle.std.specs.Prelude.{◌≡◌, Some, IfSome};
ghost use Rattle.word_pack.specs.declared.status.StatusForm.{StatusForm};
ghost use Rattle.word_pack.specs.StatusWords.{FitsStatus, status_word, IsStatusWord};

use crate::layout::{ENTRY, FAILED, HELD, IDLE, SUCCEEDED, TAG, UNDECIDED};

/// What the status word of a descriptor says.
#[derive(Clone, Copy, Debug, PartialEq, Eq)]
pub enum StatusForm {
    /// Nobody uses the descriptor.
    Idle,
    /// The swap is published and not decided yet.
    Undecided,
    /// The swap took place.
    Succeeded,
    /// The swap didn't take place, for the word of this entry: the word had changed or, where
    /// `held`, another swap held it and the owner gave up.
    Failed { entry: u32, held: bool },
}

/// The word of a form.
pub fn pack_status(form: StatusForm) -> u64
    requires { FitsStatus form }
    ensures { result ≡ status_word form }
{
    match form {
        StatusForm::Idle => IDLE,
        StatusForm::Undecided => UNDECIDED,
        StatusForm::Succeeded => SUCCEEDED,
        StatusForm::Failed { entry, held } => {
            let word = ENTRY.put(FAILED, u64::from(entry));
            HELD.put(word, u64::from(held))
        }
    }
}

/// The form of a word, or None where it is the word of no form.
pub fn unpack_status(word: u64) -> Option<StatusForm>
    ensures form { IfSome result (λ form. IsStatusWord form word) }
    ensures every { (form : StatusForm) → IsStatusWord form word → result ≡ Some form }
{
    match word {
        IDLE => Some(StatusForm::Idle),
        UNDECIDED => Some(StatusForm::Undecided),
        SUCCEEDED => Some(StatusForm::Succeeded),
        _ if TAG.of(word) == FAILED && HELD.is_last_of(word) => Some(StatusForm::Failed {
            entry: ENTRY.of(word) as u32,
            held: HELD.of(word) == 1,
        }),
        _ => None,
    }
}
