ghost use Rattle.std.specs.Prelude.{◌≡◌, ◌+◌, ◌*◌, ◌^◌, ◌<◌, ◌≤◌, ◌↔◌, IsTrue};
ghost use Rattle.word_pack.specs.Fields.{field};

// Where a number stands in a word: from the bit `at` on, in so many bits.
#[derive(Clone, Copy)]
pub(crate) struct Field {
    pub(crate) at: u32,
    pub(crate) bits: u32,
}

impl Field {
    // The number that a word has there.
    pub(crate) fn of(self, word: u64) -> u64
        requires inside { self.at < 64 }
        requires narrow { self.bits < 64 }
        ensures { result ≡ field word self.at self.bits }
    {
        (word >> self.at) & ((1 << self.bits) - 1)
    }

    // The word with this number there, where none of its bits is set from there on.
    pub(crate) fn put(self, word: u64, number: u64) -> u64
        requires inside { self.at + self.bits ≤ 64 }
        requires within { self.at < 64 }
        requires clear { word < 2 ^ self.at }
        requires fits { number < 2 ^ self.bits }
        ensures { result ≡ word + number * 2 ^ self.at }
    {
        number << self.at | word
    }

    // Whether no bit of a word is set past this field.
    pub(crate) fn is_last_of(self, word: u64) -> bool
        requires inside { self.at + self.bits < 64 }
        ensures { IsTrue result ↔ (word < 2 ^ (self.at + self.bits)) }
    {
        word >> (self.at + self.bits) == 0
    }
}
