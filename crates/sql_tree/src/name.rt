//! Names and columns, as they are written.
ghost use Rattle.std.specs.Prelude.{◌≡◌};
ghost use Rattle.sql_tree.specs.Spans.{col_span};

use sql_token::Span;
use sqlite_items::Items;

/// A name: its bytes, and its span in its text.
#[derive(Drop)]
pub struct Name {
    pub text: Items<u8>,
    pub span: Span,
}

/// A column, with the qualifier that is written before it.
#[derive(Drop)]
pub struct Col {
    pub table: Option<Name>,
    pub name: Name,
}

impl Col {
    /// The span of the column: from its first name to the end of its last, blanks around the dot included. Does not
    /// allocate.
    pub fn span(&self) -> Span
        ensures { result ≡ col_span self.now }
    {
        let from = match &self.table {
            Some(table) => table.span.from,
            None => self.name.span.from,
        };
        Span {
            from,
            to: self.name.span.to,
        }
    }
}
