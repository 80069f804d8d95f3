//! The signs that trees are drawn with.

/// How trees are drawn.
#[derive(Clone, Copy, PartialEq)]
pub enum Drawing {
    /// With signs for boxes, which a terminal shows in UTF-8.
    Boxes,
    /// In ASCII.
    Plain,
}

impl Drawing {
    /// What stands before a row that belongs to one above.
    pub(crate) fn branch(self) -> &'static str {
        match self {
            Drawing::Boxes => "└ ",
            Drawing::Plain => "'- ",
        }
    }
}
