// Lengths of whole numbers in each kind, and lists of them.
use lengths::{Counted, Length, Plain};
use packing::Sides;

// A kind that has a length for each whole number.
pub trait Whole: Length {
    fn whole(number: u32) -> Self;
}

impl Whole for Plain {
    fn whole(number: u32) -> Plain {
        Plain(number)
    }
}

// With one border.
impl Whole for Counted {
    fn whole(number: u32) -> Counted {
        Counted::new(number, 1).unwrap_or(Counted::ZERO)
    }
}

// Sides by their numbers.
pub fn sides_of<L: Whole>(width: u32, height: u32) -> Sides<L> {
    Sides {
        width: L::whole(width),
        height: L::whole(height),
    }
}
