ghost use Rattle.std.specs.Prelude.{◌≡◌};

use crate::answer::{Answer, Left};
use std::marker::Model;

/// The answers of a run, in no promised order.
#[derive(Drop)]
pub struct Answers {
    list: Vec<Answer>,
}

impl Model for Answers {
    ghost use Rattle.std.specs.Prelude.{List};
    ghost use Rattle.lane_runs.specs.declared.answer.Answer.{Answer};

    ghost Value = { List Answer };

    ghost view = { λ a. a.list.items };
}

impl Answers {
    pub fn new(list: Vec<Answer>) -> Answers
        ensures { result ≡ list.items }
    {
        Answers { list }
    }

    /// The answers as a slice.
    pub fn as_slice(&self) -> &[Answer]
        ensures { result.now ≡ self.now }
    {
        self.list.as_slice()
    }

    /// The list itself. It takes no memory.
    pub fn into_vec(self) -> Vec<Answer>
        ensures { result.items ≡ self }
    {
        self.list
    }
}

/// The lanes that were left.
#[derive(Debug, Drop)]
pub struct LeftList {
    list: Vec<Left>,
}

impl Model for LeftList {
    ghost use Rattle.std.specs.Prelude.{List};
    ghost use Rattle.lane_runs.specs.declared.answer.Left.{Left};

    ghost Value = { List Left };

    ghost view = { λ l. l.list.items };
}

impl LeftList {
    pub fn new(list: Vec<Left>) -> LeftList
        ensures { result ≡ list.items }
    {
        LeftList { list }
    }

    /// The lanes as a slice.
    pub fn as_slice(&self) -> &[Left]
        ensures { result.now ≡ self.now }
    {
        self.list.as_slice()
    }
}
