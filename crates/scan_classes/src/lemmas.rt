//! A lemma on the boards of two classes. A call here does nothing: its clause is the lemma.
ghost use Rattle.std.specs.Prelude.{◌≡◌};
ghost use Rattle.scan_classes.specs.Ends.{AllPairsHaveEnded, EachIsOfItsClass};

use crate::pair::Pair;
use scan_board::Work;

/// Let every other pair have ended in the first one. Then each query that it has seen attached to a board is of that
/// board's class.
pub fn each_query_is_of_its_class_once_all_pairs_have_ended<P: Work>(first: &Pair<P>)
    requires first { first.now.short.number ≡ 0 }
    requires ended { AllPairsHaveEnded first.now }
    ensures { EachIsOfItsClass first.now }
{
    // the contract of `number` gives what each pair keeps
    let _number = first.number();
}
