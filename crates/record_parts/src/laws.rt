//! Theorems on lines, as functions that do nothing: a caller has what they ensure.

ghost use Rattle.record_parts.specs.Lines.{FirstLinesStandApart, LinesStandApart};

/// The records of whole lines and of a text after them are those of the lines, followed by those of that text.
pub fn lines_stand_apart()
    ensures { LinesStandApart }
{}

/// A text that begins with whole lines has the records of the lines, followed by those of the text after them. The byte
/// order mark of the whole text is left out on both sides.
pub fn first_lines_stand_apart()
    ensures { FirstLinesStandApart }
{}
