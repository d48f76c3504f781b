//! Lemmas about printed texts, stated as functions that do nothing: a caller obtains what they ensure.

ghost use Rattle.print_rules.specs.Gaps.{APrintedQueryIsItsSymbols};
ghost use Rattle.print_rules.specs.Laws.{WrittenSymbolsAreRead};
ghost use Rattle.print_rules.specs.ReadBack.{APrintedQueryReadsBack};

/// A text that symbols write has exactly these tokens, if each symbol is printable and either follows a space or may
/// touch the symbol before it.
#[tactic(auto, using(crate::proofs::Written::written_out))]
pub fn written_symbols_are_read()
    ensures { WrittenSymbolsAreRead }
{}

/// The printed text of a query is the text of its symbols: those that spell it without the optional words. A space
/// precedes a symbol exactly if the printed syntax has one there.
#[tactic(auto, using(crate::proofs::QueryTexts::query_text))]
pub fn a_printed_query_is_its_symbols()
    ensures { APrintedQueryIsItsSymbols }
{}

/// A query that is read from a text reads back. Its printed text has tokens within the limits, and may be longer than a
/// line of a script. It is read as the same query, up to the spans of its words and the sign of a zero in a list of
/// integers.
#[tactic(auto, using(crate::proofs::ReadBack::read_back))]
pub fn a_printed_query_reads_back()
    ensures { APrintedQueryReadsBack }
{}
