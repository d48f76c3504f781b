//! The three truth values: true, false, and `None` for unknown.

ghost use Rattle.std.specs.Prelude.{◌≡◌, ◌↔◌, IsTrue, if◌then◌else◌};
ghost use Rattle.value_rules.specs.Truth.{is_true, truth_and, truth_not, truth_or};

/// Returns whether the truth value is this one, and not unknown.
pub(crate) fn is(truth: Option<bool>, known: bool) -> bool
    ensures { IsTrue result ↔ (truth ≡ Some known) }
{
    match truth {
        None => false,
        Some(found) => found == known,
    }
}

/// Returns whether the truth value is true, and not unknown.
pub(crate) fn is_true(truth: Option<bool>) -> bool
    ensures { result ≡ is_true truth }
{
    truth.unwrap_or(false)
}

/// Returns the truth value, or with `negated` its negation.
pub(crate) fn negated_if(negated: bool, truth: Option<bool>) -> Option<bool>
    ensures { result ≡ (if negated then truth_not truth else truth) }
{
    if negated { Some(!truth?) } else { truth }
}

/// Returns the truth value of two parts joined by AND.
pub(crate) fn both(a: Option<bool>, b: Option<bool>) -> Option<bool>
    ensures { result ≡ truth_and a b }
{
    match (a, b) {
        (Some(false), _) | (_, Some(false)) => Some(false),
        (Some(true), Some(true)) => Some(true),
        _ => None,
    }
}

/// Returns the truth value of two parts joined by OR.
pub(crate) fn either(a: Option<bool>, b: Option<bool>) -> Option<bool>
    ensures { result ≡ truth_or a b }
{
    match (a, b) {
        (Some(true), _) | (_, Some(true)) => Some(true),
        (Some(false), Some(false)) => Some(false),
        _ => None,
    }
}
