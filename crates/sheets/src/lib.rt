// The two sheets of a task: the sizes and the plan, parsed into lists, and the lines of the script.
#![tactic(auto)]

mod command;
mod fault;
mod field;
mod head;
mod lending;
mod line;
mod line_field;
mod parsed;
mod place;
mod reader;
mod rows;
mod script;
mod sequence;
mod sizes;
mod word;
mod zeros;

pub use command::{Command, ScriptLine, Word};
pub use fault::{Fault, Finding, Layer, Sheet, Wrong};
pub use parsed::{Head, Parsed};
pub use place::Place;
pub use reader::parse;
pub use script::read_command;
