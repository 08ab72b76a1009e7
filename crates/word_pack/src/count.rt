ghost use Rattle.std.specs.Prelude.{◌≡◌, Some, IfSome};
ghost use Rattle.word_pack.specs.declared.count.CountForm.{CountForm};
ghost use Rattle.word_pack.specs.CountWords.{FitsCount, count_word, IsCountWord};

use crate::layout::{CONDITIONAL, COUNT, DESCRIPTOR, ENTRY, FRESH, HELPER, PLAIN, REFERENCE, TAG};

/// What the word of the cancellation count says.
///
/// A descriptor's number is `8 * caller + k`, with k from 0 to 7. The entry of the count is 1,023.
#[derive(Clone, Copy, Debug, PartialEq, Eq)]
pub enum CountForm {
    /// The count itself.
    Plain {
        count: u64,
    },
    /// A descriptor's entry, installed by a helper under its install's number, and not in force yet.
    Conditional {
        entry: u32,
        descriptor: u32,
        helper: u32,
        fresh: u64,
    },
    /// A descriptor's entry, whose status decides between the old count and the new one.
    Reference {
        entry: u32,
        descriptor: u32,
    },
}

/// The word of a form.
pub fn pack_count(form: CountForm) -> u64
    requires { FitsCount form }
    ensures { result ≡ count_word form }
{
    match form {
        CountForm::Plain { count } => COUNT.put(PLAIN, count),
        CountForm::Conditional {
            entry,
            descriptor,
            helper,
            fresh,
        } => {
            let word = ENTRY.put(CONDITIONAL, u64::from(entry));
            let word = DESCRIPTOR.put(word, u64::from(descriptor));
            let word = HELPER.put(word, u64::from(helper));
            FRESH.put(word, fresh)
        }
        CountForm::Reference { entry, descriptor } => {
            let word = ENTRY.put(REFERENCE, u64::from(entry));
            DESCRIPTOR.put(word, u64::from(descriptor))
        }
    }
}

/// The form of a word, or None where it is the word of no form.
pub fn unpack_count(word: u64) -> Option<CountForm>
    ensures form { IfSome result (λ form. IsCountWord form word) }
    ensures every { (form : CountForm) → IsCountWord form word → result ≡ Some form }
{
    match TAG.of(word) {
        PLAIN if COUNT.is_last_of(word) => Some(CountForm::Plain {
            count: COUNT.of(word),
        }),
        CONDITIONAL => Some(CountForm::Conditional {
            entry: ENTRY.of(word) as u32,
            descriptor: DESCRIPTOR.of(word) as u32,
            helper: HELPER.of(word) as u32,
            fresh: FRESH.of(word),
        }),
        REFERENCE if DESCRIPTOR.is_last_of(word) => Some(CountForm::Reference {
            entry: ENTRY.of(word) as u32,
            descriptor: DESCRIPTOR.of(word) as u32,
        }),
        _ => None,
    }
}
