ghost use Rattle.std.specs.Prelude.{◌≡◌};
ghost use Rattle.word_pack.specs.declared.row_head.RowHead.{RowHead};
ghost use Rattle.word_pack.specs.RowHeadWords.{FitsRowHead, row_head_word, row_head_of, IsRowHeadWord};

use crate::layout::{NEXT, RECORDS};

/// The first word of a row: how many records the row has, and the row that they go on in.
#[derive(Clone, Copy, Debug, PartialEq, Eq)]
pub struct RowHead {
    pub count: u32,
    /// The next row, or 0 where the row is the last of its chain.
    pub next: u32,
}

/// The word of a row's head.
pub fn pack_row_head(head: RowHead) -> u64
    requires { FitsRowHead head }
    ensures { result ≡ row_head_word head }
{
    let word = RECORDS.put(0, u64::from(head.count));
    NEXT.put(word, u64::from(head.next))
}

/// The row's head that a word has in its bits, whatever its other bits are.
pub fn unpack_row_head(word: u64) -> RowHead
    ensures bits { result ≡ row_head_of word }
    ensures fits { FitsRowHead result }
    ensures every { (head : RowHead) → IsRowHeadWord head word → result ≡ head }
{
    RowHead {
        count: RECORDS.of(word) as u32,
        next: NEXT.of(word) as u32,
    }
}
