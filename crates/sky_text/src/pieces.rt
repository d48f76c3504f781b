//! The pieces of a text between equal bytes, split off one by one.
ghost use Rattle.std.specs.Prelude.{◌≡◌, [], ◌∷◌, IfNone, IfSome, ◌==◌, IsTrue, ◌↔◌};
ghost use Rattle.std.specs.List.{position};
ghost use Rattle.text_rules.specs.Lines.{pieces};

use std::marker::Model;

/// The remaining pieces of a text: what is before, between and after its separators. Each piece may be empty.
#[derive(Drop)]
pub struct Pieces<'a> {
    rest: Option<&'a [u8]>,
    by: u8,
}

impl<'a> Model for Pieces<'a> {
    ghost use Rattle.std.specs.Prelude.{ℕ, List};
    ghost use Rattle.std.specs.Option.{option_copied};
    ghost use Rattle.sky_text.specs.PiecesLeft.{left_of};

    ghost Value = { List (List ℕ) };

    ghost view = { λ p. left_of p.by (option_copied p.rest) };
}

/// The position of the first such byte, from 0.
fn place_of(text: &[u8], by: u8) -> Option<usize>
    ensures { result ≡ position (λ b. b == by) text.now }
{
    text.iter().position(|b| *b == by)
}

impl<'a> Pieces<'a> {
    /// All pieces of the text between the bytes `by`. Does not allocate.
    pub fn new(text: &'a [u8], by: u8) -> Pieces<'a>
        ensures { result ≡ pieces by text.now }
    {
        Pieces {
            rest: Some(text),
            by,
        }
    }

    /// Splits off the first piece, or returns `None` if none is left. Does not allocate.
    #[tactic(auto, using(crate::proofs::PieceEnds::piece_found, crate::proofs::PieceEnds::piece_last))]
    pub fn next(&mut self) -> Option<&'a [u8]>
        ensures none { IfNone result ((self.old ≡ []) × (self.new ≡ [])) }
        ensures piece { IfSome result (λ piece. self.old ≡ piece.now ∷ self.new) }
    {
        let by = self.by;
        let rest = self.rest?;
        match place_of(rest, by) {
            Some(at) => {
                self.rest = Some(&rest[at + 1..]);
                Some(&rest[..at])
            }
            None => {
                self.rest = None;
                Some(rest)
            }
        }
    }

    /// Whether no piece is left. Does not allocate.
    #[tactic(auto, using(crate::proofs::PieceEnds::some_piece))]
    pub fn is_done(&self) -> bool
        ensures { IsTrue result ↔ (self.now ≡ []) }
    {
        self.rest.is_none()
    }
}
