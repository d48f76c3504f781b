//! The reserved words.
ghost use Rattle.std.specs.Prelude.{◌≡◌};
ghost use Rattle.sql_token.specs.Keywords.{keyword_of, is_spelled, spelling};

/// A reserved word of SQL.
#[derive(Clone, Copy, Debug, PartialEq, Eq)]
pub enum Keyword {
    Select,
    From,
    Where,
    Group,
    By,
    Order,
    Asc,
    Desc,
    Limit,
    As,
    And,
    Or,
    Not,
    Between,
    In,
    Is,
    Null,
    Count,
    Sum,
    Min,
    Max,
    Avg,
    Chord2,
    AreaBand,
    AreaCap,
    AreaBox,
}

const KEYWORDS: [Keyword; 26] = [
    Keyword::Select,
    Keyword::From,
    Keyword::Where,
    Keyword::Group,
    Keyword::By,
    Keyword::Order,
    Keyword::Asc,
    Keyword::Desc,
    Keyword::Limit,
    Keyword::As,
    Keyword::And,
    Keyword::Or,
    Keyword::Not,
    Keyword::Between,
    Keyword::In,
    Keyword::Is,
    Keyword::Null,
    Keyword::Count,
    Keyword::Sum,
    Keyword::Min,
    Keyword::Max,
    Keyword::Avg,
    Keyword::Chord2,
    Keyword::AreaBand,
    Keyword::AreaCap,
    Keyword::AreaBox,
];

impl Keyword {
    /// The word in capitals. Does not allocate.
    pub fn spelling(self) -> &'static [u8]
        ensures { result.now ≡ spelling self }
    {
        match self {
            Keyword::Select => b"SELECT",
            Keyword::From => b"FROM",
            Keyword::Where => b"WHERE",
            Keyword::Group => b"GROUP",
            Keyword::By => b"BY",
            Keyword::Order => b"ORDER",
            Keyword::Asc => b"ASC",
            Keyword::Desc => b"DESC",
            Keyword::Limit => b"LIMIT",
            Keyword::As => b"AS",
            Keyword::And => b"AND",
            Keyword::Or => b"OR",
            Keyword::Not => b"NOT",
            Keyword::Between => b"BETWEEN",
            Keyword::In => b"IN",
            Keyword::Is => b"IS",
            Keyword::Null => b"NULL",
            Keyword::Count => b"COUNT",
            Keyword::Sum => b"SUM",
            Keyword::Min => b"MIN",
            Keyword::Max => b"MAX",
            Keyword::Avg => b"AVG",
            Keyword::Chord2 => b"CHORD2",
            Keyword::AreaBand => b"AREA_BAND",
            Keyword::AreaCap => b"AREA_CAP",
            Keyword::AreaBox => b"AREA_BOX",
        }
    }
}

// Whether the word is the keyword, in capitals or small letters.
fn is_spelled(word: &[u8], keyword: Keyword) -> bool
    ensures { result ≡ is_spelled word.now keyword }
{
    word.eq_ignore_ascii_case(keyword.spelling())
}

/// The keyword that the word spells, in capitals or small letters, or `None` if it is a name. Does not allocate.
#[tactic(auto, unfolding(crate::specs::Keywords::keyword_of))]
pub(crate) fn keyword_of(word: &[u8]) -> Option<Keyword>
    ensures { result ≡ keyword_of word.now }
{
    KEYWORDS
        .iter()
        .copied()
        .find(|keyword| is_spelled(word, *keyword))
}
