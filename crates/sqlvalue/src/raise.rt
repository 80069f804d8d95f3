//! What a query raises.

ghost use Rattle.std.specs.Prelude.{◌≡◌};
ghost use Rattle.definitions.specs.Queries.Outcomes.{raise_state};
ghost use Rattle.sqlvalue.specs.Raises.{exception_of};

/// An exception that evaluating an expression may raise (ISO/IEC 9075:1992, 22.1).
#[derive(Clone, Copy, PartialEq, Eq)]
pub enum Exception {
    /// 22003: a number of more than 38 digits.
    OutOfRange,
    /// 22012: a division by zero.
    DivisionByZero,
    /// 21000: more than one row where one value is wanted.
    Cardinality,
}

impl Exception {
    /// The SQLSTATE (ISO/IEC 9075:1992, 22.1).
    pub fn state(self) -> &'static str
        ensures { result.now ≡ raise_state (exception_of self) }
    {
        match self {
            Exception::OutOfRange => "22003",
            Exception::DivisionByZero => "22012",
            Exception::Cardinality => "21000",
        }
    }
}

/// An exception, and the byte of the script at which stands what raised it: an operator, a set function or a subquery. The
/// place is for messages, and nothing is promised of it.
#[derive(Clone, Copy, PartialEq, Eq)]
pub struct Raise {
    pub exception: Exception,
    pub place: usize,
}
