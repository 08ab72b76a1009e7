// The words of the command line.
//
// The contract: `read_words` gives exactly the command that the words are (`command_of`), with the value of each plain
// word and option, each number in its range, or says that they are none.
// `command` has the commands, `sorting` parts options from plain words, `options` reads values, `words` the whole line.
#![tactic(auto)]

mod command;
mod options;
mod sorting;
#[cfg(test)]
mod tests;
mod words;

pub use command::Command;
pub use words::read_words;
