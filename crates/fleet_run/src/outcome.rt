use turn_book::TurnJoined;

/// How a call of `fleet` ended. Its number is the exit status of the program.
#[derive(Clone, Copy, Debug, PartialEq, Eq)]
pub enum Outcome {
    /// All of the text was written.
    Done = 0,
    /// The words are no command.
    Usage = 2,
    /// The map is refused, or longer than 2,097,152 bytes.
    MapBad = 3,
    /// The scenario or the orders are refused, or longer than 16,777,216 bytes; or a coordinate of `one` is outside the
    /// map.
    OrdersBad = 4,
    /// A file could not be fetched.
    ReadFault = 5,
    /// A write of `out` failed.
    WriteFault = 6,
    /// Memory ran out.
    Memory = 7,
}

/// The outcome of a call of `fleet`; and where it is `Done` and several workers ran, what they have joined: all entries of
/// their book's list, and how often they were answered 'again' and 'full'.
#[derive(Drop)]
pub struct Ended {
    pub outcome: Outcome,
    pub joined: Option<TurnJoined>,
}
