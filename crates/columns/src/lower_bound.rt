//! Where a look-up in an ordered column begins.

/// The values of a column from a limit on, or all of them; nulls are never among them.
#[derive(Clone, Copy)]
pub enum LowerBound<'a> {
    /// All values.
    Filled,
    /// Numbers of more units than these, at the column's scale.
    Above(i128),
    /// Texts that are not less than this one.
    From(&'a str),
    /// Texts that are greater than this one.
    Behind(&'a str),
}
