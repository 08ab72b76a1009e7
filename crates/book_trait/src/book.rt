ghost use Rattle.std.specs.Prelude.{◌≡◌, ℕ, ◌<◌, length, IfOk, IfErr};
ghost use Rattle.book_trait.specs.declared.reply.PlanStop.{PlanStop};
ghost use Rattle.book_trait.specs.declared.reply.CancelStop.{CancelStop};
ghost use Rattle.book_trait.specs.Passes.{BookView, PassView, NoteView, JoinedView, IsPass, IsNote, IsJoined};
ghost use Rattle.book_trait.specs.Calls.{Plans, PlanStops, Cancels, CancelStops, Tells, IsSpent, Heeds, rested, Joins};

use crate::reply::{CancelStop, NotesSpent, PlanStop, Reply};
use fleet_base::Request;

/// A book of live routes with several callers. Each caller has a pass, and makes its calls with it; pass k, as the
/// book's opening gives them, is that of the caller number k.
/// A pass stands for its caller number, for what it has seen of the book's one list of entries, for its last stamp, and
/// for how often it was answered `Again` and `Full`. Its own entries are those of its number in what it has seen, and
/// its live routes are what these leave live.
pub trait SharedBook: Sync {
    /// One caller's right to call the book.
    type Pass: Send + Drop;
    /// What a refused attempt names as the word that it met.
    type Word: Copy + Send;
    /// What a pass has seen, to be taken in by another pass of the book.
    type Note: Send + Drop;
    /// What callers that have ended stand for together.
    type Joined: Send + Drop;

    // What a book, a pass, a note and a joined value stand for.
    ghost book: { Self → BookView };

    ghost pass_view: { Self.Pass → PassView };

    ghost note_view: { Self.Note → NoteView };

    ghost joined_view: { Self.Joined → JoinedView };

    // The pass, the note or the joined value is one of this book.
    ghost has_pass: { Self → Self.Pass → Type 0 };

    ghost has_note: { Self → Self.Note → Type 0 };

    ghost has_joined: { Self → Self.Joined → Type 0 };

    // Why a call may stop so in this kind of book: of the book, the pass before, what was asked, the stop, and the pass
    // after.
    ghost plan_cause: { Self → Self.Pass → Request → PlanStop Self.Word → Self.Pass → Type 0 };

    ghost cancel_cause: { Self → Self.Pass → ℕ → CancelStop Self.Word → Self.Pass → Type 0 };

    ghost use Rattle.fleet_base.specs.declared.request.Request.{Request};

    /// Plans a least walk of the request and commits it, or finds that none is free. The reply's stamp is above the
    /// pass's last one, which it becomes. After a refusal no entry was made; `Again` and `Full` are counted.
    fn plan(&self, pass: &mut Self::Pass, request: Request) -> Result<Reply, PlanStop<Self::Word>>
        requires pass { has_pass self.now pass.old }
        requires cells { (request.start.0 < length (book self.now).grid.cells) × (request.goal.0 < length (book self.now).grid.cells) }
        ensures pass { has_pass self.now pass.new }
        ensures is_pass { IsPass (book self.now) (pass_view pass.new) }
        ensures made { IfOk result (λ r. Plans (pass_view pass.old) request r (pass_view pass.new)) }
        ensures stop { IfErr result (λ e. PlanStops (pass_view pass.old) e (pass_view pass.new)) }
        ensures cause { IfErr result (λ e. plan_cause self.now pass.old request e pass.new) };

    /// Ends the caller's live route of that stamp, and answers the era that this ended. `NotLive` exactly where the pass
    /// has no such live route. After a refusal no entry was made; `Again` and `Full` are counted.
    fn cancel(&self, pass: &mut Self::Pass, stamp: u32) -> Result<u64, CancelStop<Self::Word>>
        requires pass { has_pass self.now pass.old }
        ensures pass { has_pass self.now pass.new }
        ensures is_pass { IsPass (book self.now) (pass_view pass.new) }
        ensures made { IfOk result (λ era. Cancels (pass_view pass.old) stamp era (pass_view pass.new)) }
        ensures stop { IfErr result (λ e. CancelStops (pass_view pass.old) stamp e (pass_view pass.new)) }
        ensures cause { IfErr result (λ e. cancel_cause self.now pass.old stamp e pass.new) };

    /// A note of what the pass has seen, and of its last stamp. `NotesSpent` exactly where the pass has told
    /// 4,294,967,295 notes. It takes no memory.
    fn tell(&self, pass: &mut Self::Pass) -> Result<Self::Note, NotesSpent>
        requires { has_pass self.now pass.old }
        ensures pass { has_pass self.now pass.new }
        ensures is_pass { IsPass (book self.now) (pass_view pass.new) }
        ensures is_note { IfOk result (λ n. IsNote (book self.now) (note_view n)) }
        ensures note { IfOk result (λ n. has_note self.now n × Tells (pass_view pass.old) (note_view n) (pass_view pass.new)) }
        ensures spent { IfErr result (λ e. IsSpent (pass_view pass.old) (pass_view pass.new)) };

    /// Takes a note in: the pass has then seen at least what the note's pass had seen, and its last stamp is the greater
    /// one of both.
    fn heed(&self, pass: &mut Self::Pass, note: Self::Note)
        requires pass { has_pass self.now pass.old }
        requires note { has_note self.now note }
        ensures pass { has_pass self.now pass.new }
        ensures is_pass { IsPass (book self.now) (pass_view pass.new) }
        ensures seen { Heeds (pass_view pass.old) (note_view note) (pass_view pass.new) };

    /// Ends a pass. The joined value stands for all that it stood for.
    fn rest(&self, pass: Self::Pass) -> Self::Joined
        requires { has_pass self.now pass }
        ensures joined { has_joined self.now result }
        ensures is_joined { IsJoined (book self.now) (joined_view result) }
        ensures view { joined_view result ≡ rested (pass_view pass) };

    /// One value for the callers of both. It has seen at least the longer one of both lists, and keeps the entries of
    /// all its callers.
    fn join(&self, first: Self::Joined, second: Self::Joined) -> Self::Joined
        requires first { has_joined self.now first }
        requires second { has_joined self.now second }
        ensures joined { has_joined self.now result }
        ensures is_joined { IsJoined (book self.now) (joined_view result) }
        ensures view { Joins (joined_view first) (joined_view second) (joined_view result) };
}
