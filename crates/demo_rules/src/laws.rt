//! Lemmas about the demo's catalogue, stated as functions that do nothing: a caller obtains what they ensure.

ghost use Rattle.demo_rules.specs.Laws.{DemoIsACatalogue, DemoIsTheOnlyOne, DemoIsThere};

/// For each count and each seed there is exactly one catalogue.
pub fn demo_is_one()
    ensures there { DemoIsThere }
    ensures only { DemoIsTheOnlyOne }
{}

/// The demo's catalogue of at most 2^22 rows is a catalogue: its rows are in ascending order of id, each within the
/// limits.
pub fn demo_is_a_catalogue()
    ensures { DemoIsACatalogue }
{}
