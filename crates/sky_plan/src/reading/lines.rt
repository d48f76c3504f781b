//! The lines of a sky text that are not comment lines, one by one.
ghost use Rattle.std.specs.Prelude.{◌≡◌, ◌≤◌, [], ◌∷◌, IfNone, IfSome, length};
ghost use Rattle.text_rules.specs.Lines.{lines_of};
ghost use Rattle.text_rules.specs.declared.limits.TheConstants.{TEXT_MOST};
ghost use Rattle.sky_text.specs.LineItems.{line_of};
ghost use Rattle.sky_plan.specs.Reading.{behind, said_lines};

use sky_text::{Line, Lines, is_note};
use std::marker::Model;

/// The lines that are left of a sky text. Comment lines among them are counted and skipped.
#[derive(Drop)]
pub(crate) struct PlanLines<'a> {
    lines: Lines<'a>,
    /// The number of the next line, from 1.
    number: u32,
}

impl<'a> Model for PlanLines<'a> {
    ghost use Rattle.std.specs.Prelude.{◌+◌, ◌≤◌, length};
    ghost use Rattle.text_rules.specs.declared.limits.TheConstants.{TEXT_MOST};
    ghost use Rattle.sky_plan.specs.Reading.{LinesLeft};

    ghost Value = { LinesLeft };

    ghost view = { λ l. record { lines = l.lines; number = l.number } };

    ghost invariant = { λ l. l.number + length l.lines ≤ TEXT_MOST + 1 };
}

impl<'a> PlanLines<'a> {
    /// Creates the lines of a text of at most 2^29 bytes.
    #[tactic(auto, using(crate::proofs::LineCounts::few_lines))]
    pub(crate) fn new(text: &'a [u8]) -> PlanLines<'a>
        requires { length text.now ≤ TEXT_MOST }
        ensures { result ≡ record { lines = lines_of text.now; number = 1 } }
    {
        PlanLines {
            lines: Lines::new(text),
            number: 1,
        }
    }

    /// Returns the next line that is no comment line, or `None` if there is none; then no line is left.
    pub(crate) fn next(&mut self) -> Option<Line<'a>>
        ensures line { IfSome result (λ line.
            said_lines self.old.lines ≡ line_of line ∷ said_lines self.new.lines) }
        ensures none { IfNone result ((said_lines self.old.lines ≡ []) × (self.new.lines ≡ [])) }
        ensures behind { behind self.new ≡ behind self.old }
    {
        while let Some(line) = self.lines.next() {
            self.number += 1;
            if !is_note(line.text) {
                return Some(line);
            }
        }
        None
    }

    /// Returns the number of the next line, or of the one after the last.
    pub(crate) fn number(&self) -> u32
        ensures { result ≡ self.now.number }
    {
        self.number
    }
}
