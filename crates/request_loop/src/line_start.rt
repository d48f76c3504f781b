//! How a line begins: as much of it as shows whether it ends a request.
ghost use Rattle.std.specs.Prelude.{◌≡◌};
ghost use Rattle.request_loop.specs.Drafts.{bytes_in, may_end, start_after};

/// The bytes of a line so far, if they may be those of a line that ends a request.
#[derive(Clone, Copy, Debug, PartialEq, Eq)]
pub(crate) enum LineStart {
    /// There are none.
    Empty,
    /// `+`
    Plus,
    /// `+` and a carriage return.
    PlusReturn,
    /// Any others.
    Other,
}

impl LineStart {
    /// Returns what it is after one more byte.
    pub(crate) fn after(self, byte: u8) -> LineStart
        ensures { result ≡ start_after self byte }
    {
        match (self, byte) {
            (_, b'\n') => LineStart::Empty,
            (LineStart::Empty, b'+') => LineStart::Plus,
            (LineStart::Plus, b'\r') => LineStart::PlusReturn,
            _ => LineStart::Other,
        }
    }

    /// Reports whether a line feed now ends a request.
    pub(crate) fn may_end(self) -> bool
        ensures { result ≡ may_end self }
    {
        match self {
            LineStart::Plus | LineStart::PlusReturn => true,
            LineStart::Empty | LineStart::Other => false,
        }
    }

    /// Returns the number of bytes, if they may be those of a line that ends a request.
    pub(crate) fn bytes(self) -> usize
        ensures { result ≡ bytes_in self }
    {
        match self {
            LineStart::Plus => 1,
            LineStart::PlusReturn => 2,
            LineStart::Empty | LineStart::Other => 0,
        }
    }
}
