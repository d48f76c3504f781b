//! The end of a query.

ghost use Rattle.std.specs.Prelude.{◌≡◌};
ghost use Rattle.query_ends.specs.Ends.{kind_of};

use answer_table::Table;
use session_rules::EndKind;
use sql_tree::Query;
use transcript_rules::Refusal;

/// The end of a query.
#[derive(Drop)]
pub enum End {
    /// The query's tree, its answer, and the number of chunks of its plan.
    Answered {
        head: Query,
        table: Table,
        chunks: u32,
    },
    /// The reason for which it is refused.
    Refused(Refusal),
    /// The script cancelled it in time.
    Cancelled,
    /// An allocation failed in its own work.
    Spent,
}

impl End {
    /// Returns how the query ended. Does not allocate.
    pub fn kind(&self) -> EndKind
        ensures { result ≡ kind_of self.now }
    {
        match self {
            End::Answered { .. } => EndKind::Answered,
            End::Refused(_) => EndKind::Refused,
            End::Cancelled => EndKind::Cancelled,
            End::Spent => EndKind::Spent,
        }
    }
}
