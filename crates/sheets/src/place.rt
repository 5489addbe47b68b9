// Where a line of a sheet starts.

// The offset at which a line starts, and its number, from 1.
#[derive(Clone, Copy, PartialEq, Eq, Debug)]
pub struct Place {
    pub offset: usize,
    pub line: usize,
}

// Where a sheet's first line starts.
pub(crate) const FIRST: Place = Place { offset: 0, line: 1 };
