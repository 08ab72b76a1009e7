ghost use Rattle.std.specs.Prelude.{◌≡◌, ℕ, List, Option, length, OnOk, OnErr, IsOk};
ghost use Rattle.fleet_io.specs.Counts.{HasCause};
ghost use Rattle.fleet_io.specs.Written.{Writes, WritesFront};

/// A write failed. The sink has taken a front of the piece, and counted the fault.
#[derive(Clone, Copy, Debug, PartialEq, Eq)]
pub struct SinkFailed;

/// Where bytes are written.
///
/// A sink tells the bytes that were written to it, or it tells none, as a standard stream. Its
/// count of faults never falls, and stands still at the end of a `u64`.
pub trait Sink {
    // The bytes written so far, where the sink tells them.
    ghost told: { Self → Option (List ℕ) };

    // How many writes failed.
    ghost faults: { Self → ℕ };

    /// Writes the whole piece. An empty piece is written by doing nothing.
    fn write(&mut self, piece: &[u8]) -> Result<(), SinkFailed>
        ensures written { OnOk result (Writes (told self.old) piece.now (told self.new)) }
        ensures cut { OnErr result (WritesFront (told self.old) piece.now (told self.new)) }
        ensures cause { HasCause (faults self.old) (faults self.new) result }
        ensures empty { length piece.now ≡ 0 → IsOk result };
}
