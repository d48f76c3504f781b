//! The signs: operators and punctuation.
ghost use Rattle.std.specs.Prelude.{◌≡◌};
ghost use Rattle.sql_token.specs.Signs.{long_sign, short_sign};

/// An operator or a punctuation mark of SQL.
#[derive(Clone, Copy, Debug, PartialEq, Eq)]
pub enum Sign {
    /// `<=`
    AtMost,
    /// `>=`
    AtLeast,
    /// `<>`, or `!=`
    Differs,
    /// `<`
    Less,
    /// `>`
    More,
    /// `=`
    Equal,
    /// `,`
    Comma,
    /// `(`
    Open,
    /// `)`
    Close,
    /// `*`
    Star,
    /// `+`
    Plus,
    /// `-`
    Minus,
    /// `.`
    Dot,
    /// `;`
    Semicolon,
}

/// The sign that two bytes write. Does not allocate.
pub(crate) fn long_sign(first: u8, second: u8) -> Option<Sign>
    ensures { result ≡ long_sign first second }
{
    match (first, second) {
        (b'<', b'=') => Some(Sign::AtMost),
        (b'>', b'=') => Some(Sign::AtLeast),
        (b'<', b'>') | (b'!', b'=') => Some(Sign::Differs),
        _ => None,
    }
}

/// The sign that one byte writes. Does not allocate.
pub(crate) fn short_sign(byte: u8) -> Option<Sign>
    ensures { result ≡ short_sign byte }
{
    match byte {
        b'<' => Some(Sign::Less),
        b'>' => Some(Sign::More),
        b'=' => Some(Sign::Equal),
        b',' => Some(Sign::Comma),
        b'(' => Some(Sign::Open),
        b')' => Some(Sign::Close),
        b'*' => Some(Sign::Star),
        b'+' => Some(Sign::Plus),
        b'-' => Some(Sign::Minus),
        b'.' => Some(Sign::Dot),
        b';' => Some(Sign::Semicolon),
        _ => None,
    }
}
