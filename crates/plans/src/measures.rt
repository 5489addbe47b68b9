// Sides, placed modules and chips, in any kind of length.

// Width and height of a module that is not rotated.
#[derive(Clone, Copy)]
pub struct Sides<L> {
    pub width: L,
    pub height: L,
}

// A placed module by its near edges, left and bottom, and its far edges, right and top.
#[derive(Clone, Copy)]
pub struct Placed<L> {
    pub left: L,
    pub bottom: L,
    pub right: L,
    pub top: L,
}

// A chip by its latest far edges, with the product of their extents.
#[derive(Clone, Copy)]
pub struct Chip<L> {
    pub width: L,
    pub height: L,
    pub area: u64,
}
