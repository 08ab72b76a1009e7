ghost use Rattle.std.specs.Prelude.{◌≡◌, ℕ, List, Option, IfOk, IsErrOf};
ghost use Rattle.fleet_io.specs.Files.{NamedFile, failed_after, IsFetched, IsTooLong};

use thiserror::Error;

/// Why a file wasn't fetched.
#[derive(Clone, Copy, Debug, PartialEq, Eq, Error)]
pub enum ShelfFault {
    /// The file isn't there or couldn't be read. The shelf keeps its name.
    #[error("the file cannot be read")]
    Failed,
    /// The file is longer than the limit that was asked for.
    #[error("the file is too long")]
    TooLong,
    /// Memory ran out, for the bytes or for keeping the name of a file that failed.
    #[error("out of memory")]
    Memory,
}

/// Files by name.
///
/// A shelf tells its files, or it tells none, as one over real files. It keeps the names whose
/// fetch failed, in order; how many there are is its count of faults.
pub trait Shelf {
    // The files, where the shelf tells them.
    ghost told: { Self → Option (List NamedFile) };

    // The names whose fetch failed.
    ghost failed: { Self → List (List ℕ) };

    /// The whole file of that name, of at most `limit` bytes.
    fn fetch(&mut self, name: &str, limit: usize) -> Result<Vec<u8>, ShelfFault>
        ensures told { told self.new ≡ told self.old }
        ensures failed { failed self.new ≡ failed_after (failed self.old) name.now result }
        ensures fetched { IfOk result (λ bytes. IsFetched (told self.old) name.now limit bytes.items) }
        ensures too_long { IsErrOf result ShelfFault.TooLong → IsTooLong (told self.old) name.now limit };
}
