// Commands of the script, and the words that name them.
use crate::place::Place;
use plans::Change;

// One command of the script.
#[derive(Clone, Copy)]
pub enum Command {
    // a change on trial
    Change(Change),
    // keeps the change on trial
    Keep,
    // undoes it
    Undo,
    // packs the plan
    Pack,
}

// The word of a script line.
#[derive(Clone, Copy)]
pub enum Word {
    Turn,
    Swap,
    Flip,
    Move,
    Keep,
    Undo,
    Pack,
}

// A script line that is read: its command, and where the next line starts.
#[derive(Clone, Copy)]
pub struct ScriptLine {
    pub command: Command,
    pub next: Place,
}
