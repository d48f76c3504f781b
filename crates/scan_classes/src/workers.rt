//! A worker at the boards of two classes.
ghost use Rattle.std.specs.Prelude.{◌≡◌, true};
ghost use Rattle.scan_rules.specs.Lines.{seat_of};
ghost use Rattle.scan_rules.specs.Queries.{is_closed};
ghost use Rattle.scan_core.specs.Answers.{IsLapped};
ghost use Rattle.scan_core.specs.Boards.{IsLawful};
ghost use Rattle.turn_lock.specs.Seats.{Knows};
ghost use Rattle.scan_board.specs.Calls.{board_at};
ghost use Rattle.scan_worker.specs.Missing.{LosesOnly, MayLose};
ghost use Rattle.scan_worker.specs.Working.{AllDelivered, Worked};
ghost use Rattle.scan_classes.specs.Pairs.{seat_at, turn_at};
ghost use Rattle.scan_classes.specs.declared.class.Class.{Class};

use crate::classes::Classes;
use crate::pair::Pair;
use scan_board::Work;
use scan_worker::{Engine, worker};
use sky_io::Gate;
use std::alloc::Global;
use std::sync::Wait;

/// Runs rounds at both boards, until both are closed and nothing is left to take at either. Which board is asked first
/// is in the contract of `Classes::take`, and not in this one. Waits. Allocates memory for pieces, to absorb them, and
/// for a scratch, which is freed at the end.
pub fn class_worker<R: Wait, P: Work, E: Engine<P>, G: Gate>(
    alloc: Global,
    rt: &R,
    classes: &Classes<P>,
    pair: Pair<P>,
    engine: &E,
    gate: &G,
) -> Pair<P>
    requires own { (class : Class) → (seat_at pair class).turn ≡ turn_at classes.now class }
    requires root { E.root engine.now ≡ pair.short.root.root }
    requires delivered { (class : Class) → AllDelivered (seat_at pair class).mine }
    ensures worked { (class : Class) → Worked (seat_at pair class) (seat_at result class) }
    ensures lapped { (class : Class) →
        IsLapped (board_at (seat_at pair class) (seat_at result class).seen) }
    ensures closed { (class : Class) → is_closed (seat_at result class).seen ≡ true }
    ensures known { (class : Class) → Knows seat_of (seat_at result class) }
    ensures lawful { (class : Class) →
        IsLawful P.asks (board_at (seat_at pair class) (seat_at result class).seen) }
    ensures lost { (class : Class) → LosesOnly
        (MayLose (E.refused engine.now) (E.unlisted engine.now (E.refused engine.now)) P.refuses
        (P.stands (E.root engine.now)))
        (seat_at pair class).mine (seat_at result class).mine }
{
    // the contract of `number` gives that both boards have one root
    let _number = pair.number();
    worker(alloc, rt, classes, pair, engine, gate)
}
