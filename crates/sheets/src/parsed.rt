// What is read of the plan sheet's head, and what a done reading answers.
use crate::place::Place;

// The word of the head.
#[derive(Clone, Copy, PartialEq, Eq, Debug)]
pub enum Head {
    // the table is loaded as it is meant
    Plan,
    // the table is loaded as written, and read with its axes exchanged
    Side,
}

// The head, the number of modules, and where the script starts.
#[derive(Clone, Copy)]
pub struct Parsed {
    pub head: Head,
    pub modules: usize,
    pub script: Place,
}
