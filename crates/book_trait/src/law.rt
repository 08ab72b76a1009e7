ghost use Rattle.std.specs.Prelude.{ℕ, ◌<◌, List, Contains};
ghost use Rattle.fleet_base.specs.declared.request.Entry.{Entry};
ghost use Rattle.book_trait.specs.Passes.{BookView, JoinedView, IsShared, IsJoined};
ghost use Rattle.book_trait.specs.Laws.{IsHistory, AreAllTheirs};

/// What a caller has seen of a book's list is a legal history, and so is its journal, with the same order of each
/// caller's entries and the same live routes.
pub fn shared_law()
    ensures { (b : BookView) (list : List Entry) → IsShared b list → IsHistory b list }
{}

/// Where all callers of a book are joined, each entry of the list is one of theirs.
pub fn joined_law()
    ensures { (b : BookView) (j : JoinedView) → IsJoined b j → ((c : ℕ) → c < b.callers → Contains j.callers c) → AreAllTheirs j }
{}
