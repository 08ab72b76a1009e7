ghost use Rattle.std.specs.Prelude.{◌≡◌, ℕ, [], map, string_bytes, Err};
ghost use Rattle.fleet_io.specs.Files.{failed_after};

use crate::shelf::ShelfFault;
use std::alloc::Global;
use std::marker::Model;

// The names whose fetch failed, in order.
#[derive(Drop)]
pub(crate) struct FailedNames {
    alloc: Global,
    names: Vec<String>,
}

impl Model for FailedNames {
    ghost use Rattle.std.specs.Prelude.{ℕ, List, map, string_bytes};

    ghost Value = { List (List ℕ) };

    ghost view = { λ s. map string_bytes s.names.items };
}

impl FailedNames {
    pub(crate) fn new(alloc: Global) -> FailedNames
        ensures { result ≡ [] }
    {
        FailedNames {
            alloc,
            names: Vec::new(alloc),
        }
    }

    // Keeps the name of a fetch that failed. Where it can't be kept, that is want of memory.
    pub(crate) fn keep(&mut self, name: &str) -> ShelfFault
        ensures kind { ¬ (result ≡ ShelfFault.TooLong) }
        ensures kept { self.new ≡ failed_after {T = ℕ} self.old name.now (Err result) }
    {
        let Ok(name) = String::from_str(self.alloc, name) else {
            return ShelfFault::Memory;
        };
        match self.names.push(name) {
            Ok(()) => ShelfFault::Failed,
            Err(_) => ShelfFault::Memory,
        }
    }

    pub(crate) fn as_slice(&self) -> &[String]
        ensures { map string_bytes result.now ≡ self.now }
    {
        self.names.as_slice()
    }
}
