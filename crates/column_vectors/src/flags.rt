//! The truth values of rows as two masks: the rows on which a condition is true, and those on which it is false.
//!
//! NOT exchanges the two masks; AND and OR are an AND of one pair of masks and an OR of the other.
ghost use Rattle.std.specs.Prelude.{◌≡◌, length};
ghost use Rattle.column_vectors.specs.Flags.{AreAnd, AreKnown, AreNegated, AreOr};

use crate::mask::{both, either, without};
use crate::scratch::Scratch;

/// The rows on which a condition is true, and those on which it is false.
#[derive(Drop)]
pub struct Flags {
    pub true_on: Vec<bool>,
    pub false_on: Vec<bool>,
}

/// Returns the flags of truth values that are valid on some rows.
pub fn flags_of(known: Vec<bool>, truth: Vec<bool>) -> Flags
    requires { length truth.items ≡ length known.items }
    ensures { AreKnown known.items truth.items result }
{
    let mut true_on = truth;
    let mut false_on = known;
    both(true_on.as_mut_slice(), false_on.as_slice());
    without(false_on.as_mut_slice(), true_on.as_slice());
    Flags { true_on, false_on }
}

/// Returns the truth values, or with `negated` their negations.
pub fn negated_if(negated: bool, flags: Flags) -> Flags
    ensures { AreNegated negated flags result }
{
    let Flags { true_on, false_on } = flags;
    if negated {
        Flags {
            true_on: false_on,
            false_on: true_on,
        }
    } else {
        Flags { true_on, false_on }
    }
}

/// Returns the truth values of two conditions joined by AND.
pub fn joined_by_and(left: Flags, right: Flags, scratch: &mut Scratch) -> Flags
    requires true_on { length right.true_on.items ≡ length left.true_on.items }
    requires false_on { length right.false_on.items ≡ length left.false_on.items }
    ensures { AreAnd left right result }
{
    let Flags {
        mut true_on,
        mut false_on,
    } = left;
    both(true_on.as_mut_slice(), right.true_on.as_slice());
    either(false_on.as_mut_slice(), right.false_on.as_slice());
    give_back(right, scratch);
    Flags { true_on, false_on }
}

/// Returns the truth values of two conditions joined by OR.
pub fn joined_by_or(left: Flags, right: Flags, scratch: &mut Scratch) -> Flags
    requires true_on { length right.true_on.items ≡ length left.true_on.items }
    requires false_on { length right.false_on.items ≡ length left.false_on.items }
    ensures { AreOr left right result }
{
    let Flags {
        mut true_on,
        mut false_on,
    } = left;
    either(true_on.as_mut_slice(), right.true_on.as_slice());
    both(false_on.as_mut_slice(), right.false_on.as_slice());
    give_back(right, scratch);
    Flags { true_on, false_on }
}

/// Gives the masks back to the scratch.
fn give_back(flags: Flags, scratch: &mut Scratch) {
    scratch.flags.give(flags.true_on);
    scratch.flags.give(flags.false_on);
}
