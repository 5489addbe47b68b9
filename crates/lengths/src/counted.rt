// Counted lengths: whole numbers with their module borders.
ghost use Rattle.std.specs.Prelude.{◌≤◌};

mod making;
mod measuring;

// A length with its number of module borders, never more than the length.
#[derive(Clone, Copy, PartialEq, Eq, PartialOrd, Ord, Debug)]
pub struct Counted {
    length: u32,
    borders: u32,
    ghost few: { borders ≤ length },
}
