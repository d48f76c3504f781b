//! The ends of queries.

ghost use Rattle.std.specs.Prelude.{◌≡◌};

use std::marker::Model;

/// How a query ends.
#[derive(Clone, Copy, Debug, PartialEq, Eq)]
pub enum EndKind {
    /// Its answer is written.
    Answered,
    /// It is refused: for its grammar, its radius, or a total out of range.
    Refused,
    /// The script cancelled it in time.
    Cancelled,
    /// An allocation failed in its own work.
    Spent,
}

/// The ends of a script's queries, in the queries' order.
#[derive(Drop)]
pub struct Ends {
    ends: Vec<EndKind>,
}

impl Model for Ends {
    ghost use Rattle.std.specs.Prelude.{List};
    ghost use Rattle.session_rules.specs.declared.end.EndKind.{EndKind};

    ghost Value = { List EndKind };

    ghost view = { λ e. e.ends.items };
}

impl Ends {
    /// These ends, in the queries' order. Does not allocate.
    pub fn from_vec(ends: Vec<EndKind>) -> Ends
        ensures { result ≡ ends.items }
    {
        Ends { ends }
    }

    /// The ends in the queries' order. Does not allocate.
    pub fn as_slice(&self) -> &[EndKind]
        ensures { result.now ≡ self.now }
    {
        self.ends.as_slice()
    }
}
