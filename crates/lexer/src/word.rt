//! The reserved words, and how each is spelled.

ghost use Rattle.std.specs.Prelude.{◌≡◌, ◌==◌, IsTrue, map, filter, option_map, slice_index};
ghost use Rattle.std.specs.List.{list_all};
ghost use Rattle.definitions.specs.Characters.{is_upper, folded};
ghost use Rattle.definitions.specs.Word as spec;
ghost use Rattle.lexer.specs.Meaning.{word_of};
ghost use Rattle.lexer.specs.Words.{all_words, spelling};

/// A reserved word (ISO/IEC 9075:1992, 5.2; the list is own).
#[derive(Clone, Copy, PartialEq, Eq)]
pub enum Word {
    All,
    And,
    Any,
    As,
    Asc,
    Avg,
    Between,
    By,
    Char,
    Character,
    Clustered,
    Count,
    Create,
    Dec,
    Decimal,
    Desc,
    Distinct,
    Exists,
    Explain,
    From,
    Group,
    Having,
    High,
    In,
    Index,
    Int,
    Integer,
    Is,
    Key,
    Keys,
    Like,
    Load,
    Low,
    Max,
    Min,
    Not,
    Null,
    Numeric,
    On,
    Or,
    Order,
    Pages,
    Primary,
    Rows,
    Select,
    Set,
    Smallint,
    Some,
    Statistics,
    Sum,
    Table,
    Unique,
    Where,
}

impl Word {
    /// The letters of the word, in upper case.
    pub fn as_str(self) -> &'static str
        ensures spelling { result.now ≡ spelling (word_of self) }
        ensures in_upper_case { IsTrue (list_all is_upper result.now) }
    {
        match self {
            Word::All => "ALL",
            Word::And => "AND",
            Word::Any => "ANY",
            Word::As => "AS",
            Word::Asc => "ASC",
            Word::Avg => "AVG",
            Word::Between => "BETWEEN",
            Word::By => "BY",
            Word::Char => "CHAR",
            Word::Character => "CHARACTER",
            Word::Clustered => "CLUSTERED",
            Word::Count => "COUNT",
            Word::Create => "CREATE",
            Word::Dec => "DEC",
            Word::Decimal => "DECIMAL",
            Word::Desc => "DESC",
            Word::Distinct => "DISTINCT",
            Word::Exists => "EXISTS",
            Word::Explain => "EXPLAIN",
            Word::From => "FROM",
            Word::Group => "GROUP",
            Word::Having => "HAVING",
            Word::High => "HIGH",
            Word::In => "IN",
            Word::Index => "INDEX",
            Word::Int => "INT",
            Word::Integer => "INTEGER",
            Word::Is => "IS",
            Word::Key => "KEY",
            Word::Keys => "KEYS",
            Word::Like => "LIKE",
            Word::Load => "LOAD",
            Word::Low => "LOW",
            Word::Max => "MAX",
            Word::Min => "MIN",
            Word::Not => "NOT",
            Word::Null => "NULL",
            Word::Numeric => "NUMERIC",
            Word::On => "ON",
            Word::Or => "OR",
            Word::Order => "ORDER",
            Word::Pages => "PAGES",
            Word::Primary => "PRIMARY",
            Word::Rows => "ROWS",
            Word::Select => "SELECT",
            Word::Set => "SET",
            Word::Smallint => "SMALLINT",
            Word::Some => "SOME",
            Word::Statistics => "STATISTICS",
            Word::Sum => "SUM",
            Word::Table => "TABLE",
            Word::Unique => "UNIQUE",
            Word::Where => "WHERE",
        }
    }
}

/// The reserved words that begin with a letter.
fn words_from(letter: u8) -> &'static [Word]
    ensures { map word_of result.now ≡ filter (λ w. slice_index (spelling w) 0 == letter) all_words }
{
    match letter {
        b'A' => &[
            Word::All,
            Word::And,
            Word::Any,
            Word::As,
            Word::Asc,
            Word::Avg,
        ],
        b'B' => &[Word::Between, Word::By],
        b'C' => &[
            Word::Char,
            Word::Character,
            Word::Clustered,
            Word::Count,
            Word::Create,
        ],
        b'D' => &[Word::Dec, Word::Decimal, Word::Desc, Word::Distinct],
        b'E' => &[Word::Exists, Word::Explain],
        b'F' => &[Word::From],
        b'G' => &[Word::Group],
        b'H' => &[Word::Having, Word::High],
        b'I' => &[Word::In, Word::Index, Word::Int, Word::Integer, Word::Is],
        b'K' => &[Word::Key, Word::Keys],
        b'L' => &[Word::Like, Word::Load, Word::Low],
        b'M' => &[Word::Max, Word::Min],
        b'N' => &[Word::Not, Word::Null, Word::Numeric],
        b'O' => &[Word::On, Word::Or, Word::Order],
        b'P' => &[Word::Pages, Word::Primary],
        b'R' => &[Word::Rows],
        b'S' => &[
            Word::Select,
            Word::Set,
            Word::Smallint,
            Word::Some,
            Word::Statistics,
            Word::Sum,
        ],
        b'T' => &[Word::Table],
        b'U' => &[Word::Unique],
        b'W' => &[Word::Where],
        _ => &[],
    }
}

/// The reserved word that a text is in letters of either case (ISO/IEC 9075:1992, 5.2), if it is one.
pub fn reserved_word(text: &[u8]) -> Option<Word>
    ensures { option_map word_of result ≡ spec.reserved (folded text.now) }
{
    let first = text.first()?;
    for word in words_from(first.to_ascii_uppercase()) {
        if word.as_str().as_bytes().eq_ignore_ascii_case(text) {
            return Some(*word);
        }
    }
    None
}
