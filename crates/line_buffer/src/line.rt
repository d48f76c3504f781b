//! The bytes of a line, before which more are written.

ghost use Rattle.std.specs.Prelude.{◌≡◌, ◌+◌, ◌<◌, ◌≤◌, ◌^◌, ◌∷◌, ◌++◌, ◌↔◌, [], codes, length, false, true, FitsSigned};
ghost use Rattle.std.specs.Fmt.{decimal, signed_decimal};
ghost use Rattle.std.specs.Int.{w64};
ghost use Rattle.line_buffer.specs.declared.limits.TheConstants.{LINE_ROOM, NUMBER_ROOM};

use crate::limits::LINE_ROOM;
use itoa::write_digits;
use std::marker::Model;

/// The bytes of a line, which end where the buffer does.
#[derive(Drop)]
pub struct LineBuffer {
    bytes: [u8; LINE_ROOM],
    from: usize,
}

impl Model for LineBuffer {
    ghost use Rattle.std.specs.Prelude.{◌≤◌, ℕ, List, drop};
    ghost use Rattle.line_buffer.specs.declared.limits.TheConstants.{LINE_ROOM};

    ghost Value = { List ℕ };

    ghost view = { λ l. drop l.from l.bytes };

    ghost invariant = { λ l. l.from ≤ LINE_ROOM };
}

impl LineBuffer {
    /// Creates an empty line. Does not allocate.
    pub fn new() -> LineBuffer
        ensures { result ≡ [] }
    {
        LineBuffer {
            bytes: [0; LINE_ROOM],
            from: LINE_ROOM,
        }
    }

    /// Returns the bytes. Does not allocate.
    pub fn as_slice(&self) -> &[u8]
        ensures { result.now ≡ self.now }
    {
        &self.bytes[self.from..]
    }

    /// Removes all bytes.
    pub fn clear(&mut self)
        ensures { self.new ≡ [] }
    {
        self.from = LINE_ROOM;
    }

    /// Adds a byte at the front.
    pub fn push(&mut self, byte: u8)
        requires room { length self.old < LINE_ROOM }
        ensures { self.new ≡ byte ∷ self.old }
    {
        self.from -= 1;
        self.bytes[self.from] = byte;
    }

    /// Adds NULL at the front.
    pub fn push_null(&mut self)
        requires room { length self.old + 4 ≤ LINE_ROOM }
        ensures { self.new ≡ codes "NULL" ++ self.old }
    {
        self.push(b'L');
        self.push(b'L');
        self.push(b'U');
        self.push(b'N');
    }

    /// Adds a number that is not negative at the front, in decimal.
    fn push_size(&mut self, n: u64)
        requires room { length self.old + length (decimal n) ≤ LINE_ROOM }
        ensures { self.new ≡ decimal n ++ self.old }
    {
        self.from = write_digits(n, &mut self.bytes, self.from);
    }

    /// Adds a number of 64 bits at the front, in decimal, after a minus if it is negative.
    fn push_short(&mut self, n: i64)
        requires room { length self.old + NUMBER_ROOM ≤ LINE_ROOM }
        ensures text { self.new ≡ signed_decimal n ++ self.old }
        ensures few { length self.new ≤ length self.old + NUMBER_ROOM }
    {
        self.push_size(n.unsigned_abs());
        if n < 0 {
            self.push(b'-');
        }
    }

    /// Adds a whole number at the front, in decimal, after a minus if it is negative, and returns true. If it does not
    /// fit in 64 bits, adds nothing and returns false.
    pub fn push_whole(&mut self, n: i128) -> bool
        requires room { length self.old + NUMBER_ROOM ≤ LINE_ROOM }
        ensures fits { (result ≡ true) ↔ FitsSigned w64 n }
        ensures text { result ≡ true → self.new ≡ signed_decimal n ++ self.old }
        ensures same { result ≡ false → self.new ≡ self.old }
        ensures few { length self.new ≤ length self.old + NUMBER_ROOM }
    {
        match i64::try_from(n) {
            Ok(short) => {
                self.push_short(short);
                true
            }
            Err(_) => false,
        }
    }
}
