//! Where a czar runs queries: one board, or several, each query at one of them.
ghost use Rattle.std.specs.Prelude.{◌≡◌, ◌≢◌, ◌-◌, ◌<◌, ◌≤◌, ◌^◌, ℕ, List, Bool, true, false, [], All};
ghost use mathlib.Core.List.{IsPrefix};
ghost use Rattle.scan_rules.specs.declared.limits.TheConstants.{QUERY_MOST};
ghost use Rattle.scan_rules.specs.Lines.{seat_of};
ghost use Rattle.scan_core.specs.Answers.{AnswersAttach, AnswersCollect};
ghost use Rattle.turn_lock.specs.Seats.{Knows, joined_with, next_seat, one_more_made};
ghost use Rattle.scan_board.specs.Calls.{AnswersCancel, AnswersClose, Called};

use crate::tasks::Tasks;
use scan_board::{Attach, Board, ChunkSet, Collect, Seat, SharedBoard, Work};
use std::sync::Wait;

/// Boards of which each query has one.
pub trait Boards<P: Work>: Tasks<P> {
    /// The place of a query's board.
    ghost home: { Self → ℕ → Self.Place };

    /// Whether a query's board is at a place.
    ghost has: { Self → Self.Place → ℕ → Bool };

    /// These chunks suit the board of the query. One shared board suits all.
    ghost suits: { Self → ℕ → List ℕ → Type 0 };

    /// Attaches a query to its board, as the board does. Waits for the lock. Allocates memory.
    fn attach<R: Wait>(
        &self,
        rt: &R,
        seat: Self::Seat,
        q: u32,
        chunks: ChunkSet,
        empty: P,
    ) -> (Attach<P>, Self::Seat)
        requires own { (p : Self.Place) → (Self.at seat p).turn ≡ Self.turn self.now p }
        requires from_1 { 1 ≤ q }
        requires to_255 { q ≤ QUERY_MOST }
        requires suits { suits self.now q chunks }
        requires in_ring { (p : Self.Place) →
            All (λ chunk. chunk < (Self.at seat p).root.ring) chunks }
        requires asked { (p : Self.Place) → All (P.asks (Self.at seat p).root.root q) chunks }
        requires nothing { (p : Self.Place) → P.stands (Self.at seat p).root.root q [] empty }
        ensures called { (p : Self.Place) → has self.now p q ≡ true → Called P.asks
            (λ before after. AnswersAttach (Self.at seat p).number before q chunks empty
            result.0 after)
            (Self.at seat p) (Self.at result.1 p) }
        ensures others { (p : Self.Place) → has self.now p q ≡ false
            → Self.at result.1 p ≡ Self.at seat p };

    /// Cancels a running query. Returns true exactly if it ran. Waits for the lock. Does not allocate.
    fn cancel<R: Wait>(&self, rt: &R, seat: Self::Seat, q: u32) -> (bool, Self::Seat)
        requires own { (p : Self.Place) → (Self.at seat p).turn ≡ Self.turn self.now p }
        ensures called { (p : Self.Place) → has self.now p q ≡ true → Called P.asks
            (λ before after. AnswersCancel (Self.at seat p).number before q result.0 after)
            (Self.at seat p) (Self.at result.1 p) }
        ensures others { (p : Self.Place) → has self.now p q ≡ false
            → Self.at result.1 p ≡ Self.at seat p };

    /// Hands out the end of a query, once, as its board does. Waits for the lock. Does not allocate.
    fn collect<R: Wait>(&self, rt: &R, seat: Self::Seat, q: u32) -> (Collect<P>, Self::Seat)
        requires own { (p : Self.Place) → (Self.at seat p).turn ≡ Self.turn self.now p }
        ensures called { (p : Self.Place) → has self.now p q ≡ true → Called P.asks
            (λ before after. AnswersCollect P.stands (Self.at seat p).number before q
            result.0 after)
            (Self.at seat p) (Self.at result.1 p) }
        ensures others { (p : Self.Place) → has self.now p q ≡ false
            → Self.at result.1 p ≡ Self.at seat p };

    /// Closes each board: no query can be attached from then on. Waits for the locks. Does not allocate.
    fn close<R: Wait>(&self, rt: &R, seat: Self::Seat) -> Self::Seat
        requires own { (p : Self.Place) → (Self.at seat p).turn ≡ Self.turn self.now p }
        ensures called { (p : Self.Place) → Called P.asks
            (AnswersClose (Self.at seat p).number) (Self.at seat p) (Self.at result p) };

    /// Makes one more participant of each board, with the next number, out of participant 0. Does not allocate.
    fn split(&self, seat: &mut Self::Seat) -> Self::Seat
        requires own { (p : Self.Place) → (Self.at seat.old p).turn ≡ Self.turn self.now p }
        requires first { (p : Self.Place) → (Self.at seat.old p).number ≡ 0 }
        requires room { (p : Self.Place) → (Self.at seat.old p).made < 2 ^ 32 - 1 }
        ensures kept { (p : Self.Place) → Self.at seat.new p ≡ one_more_made (Self.at seat.old p) }
        ensures next { (p : Self.Place) → Self.at result p ≡ next_seat (Self.at seat.old p) }
        ensures known { (p : Self.Place) → Knows seat_of (Self.at seat.new p)
            × Knows seat_of (Self.at result p) };

    /// Ends another participant in this one, which has then seen the longer journal of each board. Does not allocate.
    fn join(&self, seat: &mut Self::Seat, other: Self::Seat)
        requires own { (p : Self.Place) → (Self.at seat.old p).turn ≡ Self.turn self.now p }
        requires other_own { (p : Self.Place) → (Self.at other p).turn ≡ Self.turn self.now p }
        requires not_first { (p : Self.Place) → (Self.at other p).number ≢ 0 }
        ensures joined { (p : Self.Place) → Self.at seat.new p
            ≡ joined_with (Self.at seat.old p) (Self.at other p) }
        ensures own_seen { (p : Self.Place) →
            IsPrefix (Self.at seat.old p).seen (Self.at seat.new p).seen }
        ensures other_seen { (p : Self.Place) →
            IsPrefix (Self.at other p).seen (Self.at seat.new p).seen }
        ensures known { (p : Self.Place) → Knows seat_of (Self.at seat.new p) };

    /// Each query has a board.
    ghost housed: { (boards : Self) (q : ℕ) → has boards (home boards q) q ≡ true };
}

impl<P: Work> Boards<P> for SharedBoard<P> {
    ghost use Rattle.std.specs.Prelude.{true, refl};

    ghost home = { λ board q. tt };

    ghost has = { λ board place q. true };

    ghost suits = { λ board q chunks. Unit {0} };

    ghost housed = { λ board q. refl };

    fn attach<R: Wait>(
        &self,
        rt: &R,
        seat: Seat<Board<P>>,
        q: u32,
        chunks: ChunkSet,
        empty: P,
    ) -> (Attach<P>, Seat<Board<P>>) {
        self.attach(rt, seat, q, chunks, empty)
    }

    fn cancel<R: Wait>(&self, rt: &R, seat: Seat<Board<P>>, q: u32) -> (bool, Seat<Board<P>>) {
        self.cancel(rt, seat, q)
    }

    fn collect<R: Wait>(
        &self,
        rt: &R,
        seat: Seat<Board<P>>,
        q: u32,
    ) -> (Collect<P>, Seat<Board<P>>) {
        self.collect(rt, seat, q)
    }

    fn close<R: Wait>(&self, rt: &R, seat: Seat<Board<P>>) -> Seat<Board<P>> {
        self.close(rt, seat)
    }

    fn split(&self, seat: &mut Seat<Board<P>>) -> Seat<Board<P>> {
        self.split(seat)
    }

    fn join(&self, seat: &mut Seat<Board<P>>, other: Seat<Board<P>>) {
        self.join(seat, other)
    }
}
