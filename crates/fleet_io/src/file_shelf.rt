ghost use Rattle.std.specs.Prelude.{◌≡◌, ◌≤◌, [], length, map, string_bytes, None, IfOk, IfSome};

use crate::failed_names::FailedNames;
use crate::shelf::{Shelf, ShelfFault};
use std::alloc::Global;
use std::io::{ErrorKind, Read};
use std::marker::Model;
use std::rt::Files;
use std::{fs, io};

/// The files of the system, of which it tells nothing.
///
/// A file that can't be opened or read is `Failed`. Where the system itself lacks memory, or the
/// name of such a file can't be kept, the answer is `Memory`.
#[derive(Drop)]
pub struct FileShelf<R: Files + AllocGlobal + Drop> {
    rt: R,
    failed: FailedNames,
}

impl<R: Files + AllocGlobal + Drop> Model for FileShelf<R> {
    ghost use Rattle.std.specs.Prelude.{ℕ, List};

    ghost Value = { List (List ℕ) };

    ghost view = { λ s. s.failed };
}

impl<R: Files + AllocGlobal + Drop> FileShelf<R> {
    /// A shelf of which nothing was fetched yet. It keeps the runtime.
    pub fn new(rt: R) -> FileShelf<R>
        ensures { result ≡ [] }
    {
        let failed = FailedNames::new(rt.alloc());
        FileShelf { rt, failed }
    }

    /// The names whose fetch failed, in order.
    pub fn failed_names(&self) -> &[String]
        ensures { map string_bytes result.now ≡ self.now }
    {
        self.failed.as_slice()
    }
}

// What a file holds, unless that is longer than the limit.
fn read_within<R: Files + AllocGlobal>(
    rt: &R,
    name: &str,
    limit: usize,
) -> io::Result<Option<Vec<u8>>>
    ensures { IfOk result (λ found. IfSome found (λ bytes. length bytes.items ≤ limit)) }
{
    let file = fs::open(rt, name)?;
    let mut bytes = Vec::new(rt.alloc());
    // One byte past the limit shows that the file goes on.
    let most = (limit as u64).saturating_add(1);
    file.take(most).read_to_end(&mut bytes)?;
    if bytes.len() <= limit {
        Ok(Some(bytes))
    } else {
        Ok(None)
    }
}

impl<R: Files + AllocGlobal + Drop> Shelf for FileShelf<R> {
    ghost told = { λ _. None };

    ghost failed = { λ s. s };

    fn fetch(&mut self, name: &str, limit: usize) -> Result<Vec<u8>, ShelfFault> {
        match read_within(&self.rt, name, limit) {
            Ok(Some(bytes)) => Ok(bytes),
            Ok(None) => Err(ShelfFault::TooLong),
            Err(cause) if cause.kind() == ErrorKind::OutOfMemory => Err(ShelfFault::Memory),
            Err(_) => Err(self.failed.keep(name)),
        }
    }
}

#[cfg(test)]
mod tests {
    use super::*;
    use std::test::Fail;

    #[test]
    fn fetches_real_files(rt: HostRuntime) -> Result<(), Fail> {
        fs::write(&rt, "fetched.txt", "twelve bytes")?;
        let mut shelf = FileShelf::new(rt);
        let whole = shelf.fetch("fetched.txt", 12);
        let cut = shelf.fetch("fetched.txt", 11);
        let missing = shelf.fetch("no such folder/m.map", 11);
        let folder = shelf.fetch(".", 11);
        fs::remove_file(&rt, "fetched.txt")?;

        assert_eq!(rt; whole?.as_slice(), "twelve bytes".as_bytes());
        assert_eq!(rt; cut.err(), Some(ShelfFault::TooLong));
        assert_eq!(rt; missing.err(), Some(ShelfFault::Failed));
        assert_eq!(rt; folder.err(), Some(ShelfFault::Failed));
        let [first, second] = shelf.failed_names() else {
            panic!(rt; "another count of failed fetches");
        };
        assert_eq!(rt;
            (first.as_str(), second.as_str()),
            ("no such folder/m.map", ".")
        );
        Ok(())
    }
}
