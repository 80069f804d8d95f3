//! The refusals E01 to E22 with their labels and SQLSTATEs, and the faults of fields.

ghost use Rattle.std.specs.Prelude.{◌≡◌};
ghost use Rattle.definitions.specs.Refusal as spec;
ghost use Rattle.sqlvalue.specs.RefusalMeaning.{refusal_of};

use crate::field::FieldFault;

/// Why a script or a statement is refused.
#[derive(Clone, Copy, PartialEq, Eq)]
pub enum Refusal {
    /// A character that begins no token.
    StrayCharacter,
    /// A string that is not closed.
    OpenString,
    /// A number of too many digits, or a string of too many characters.
    LongLiteral,
    /// An identifier of too many characters.
    LongName,
    /// A token with which no script goes on.
    Unexpected,
    /// Nesting of too many levels.
    TooDeep,
    /// The name of a table or a column is taken.
    NameTaken,
    /// There is no such table.
    NotFound,
    /// A limit of the database.
    OverLimit,
    /// A record has not as many fields as the table has columns.
    FieldCount,
    /// A field does not load into its column.
    Field(FieldFault),
    /// A key is null, or there already.
    NullOrRepeated,
    /// A scale over 18.
    ScaleTooGreat,
    /// There is no such column, or there are several.
    UnknownColumn,
    /// Values of two kinds where one kind is wanted.
    MixedKinds,
    /// A condition for a value, or a value for a condition.
    MisplacedCondition,
    /// A set function where none may stand.
    MisplacedFunction,
    /// A column of a grouped block that is not grouped by.
    UngroupedColumn,
    /// A key of ORDER BY that names no result column, or several.
    UnknownKey,
    /// Too many tables in one block.
    ManyTables,
    /// Another limit of a query.
    OverQueryLimit,
    /// The library has no such file.
    NoFile,
}

impl Refusal {
    /// The label that is printed (own).
    pub fn label(self) -> &'static str
        ensures { result.now ≡ spec.label (refusal_of self) }
    {
        match self {
            Refusal::StrayCharacter => "E01",
            Refusal::OpenString => "E02",
            Refusal::LongLiteral => "E03",
            Refusal::LongName => "E04",
            Refusal::Unexpected => "E05",
            Refusal::TooDeep => "E06",
            Refusal::NameTaken => "E07",
            Refusal::NotFound => "E08",
            Refusal::OverLimit => "E09",
            Refusal::FieldCount => "E10",
            Refusal::Field(_) => "E11",
            Refusal::NullOrRepeated => "E12",
            Refusal::ScaleTooGreat => "E13",
            Refusal::UnknownColumn => "E14",
            Refusal::MixedKinds => "E15",
            Refusal::MisplacedCondition => "E16",
            Refusal::MisplacedFunction => "E17",
            Refusal::UngroupedColumn => "E18",
            Refusal::UnknownKey => "E19",
            Refusal::ManyTables => "E20",
            Refusal::OverQueryLimit => "E21",
            Refusal::NoFile => "E22",
        }
    }

    /// The SQLSTATE (ISO/IEC 9075:1992, 22.1).
    pub fn state(self) -> &'static str
        ensures { result.now ≡ spec.state (refusal_of self) }
    {
        match self {
            Refusal::Field(FieldFault::NoNumber | FieldFault::Unprintable) => "42000",
            Refusal::Field(FieldFault::TooLong) => "22001",
            Refusal::Field(_) => "22003",
            Refusal::NullOrRepeated => "23000",
            _ => "42000",
        }
    }
}
