// The two directions in which one module follows another.
ghost use Rattle.std.specs.Prelude.{◌≡◌};
ghost use Rattle.plans.specs.Directions.{code_along, turned};

// Where a module lies that another has an edge to, which tells the graph of the edge.
#[derive(Clone, Copy, PartialEq, Eq)]
pub enum Direction {
    // right of the other: an edge of the horizontal graph
    Right,
    // above the other: an edge of the vertical graph
    Above,
}

impl Direction {
    // The other of the two.
    pub fn turned(self) -> Direction
        ensures { result ≡ turned self }
    {
        match self {
            Direction::Right => Direction::Above,
            Direction::Above => Direction::Right,
        }
    }
}

// The code of an edge in this direction.
impl From<Direction> for u8 {
    ghost from_gives = { λ direction code. code ≡ code_along direction };

    fn from(direction: Direction) -> u8 {
        match direction {
            Direction::Right => 1,
            Direction::Above => 2,
        }
    }
}
