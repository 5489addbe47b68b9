// A graph on modules 0 to 63, as the set of successors of each module.
mod combining;
mod edits;
mod reads;

ghost use Rattle.std.specs.Prelude.{◌≡◌, length};

use module_set::ModuleSet;

/// The edges from each module. A number over 63 has none. There is a row for each of 64 modules, since a change may not
/// use the heap.
#[derive(Clone, Copy)]
pub struct Graph {
    rows: [ModuleSet; 64],
    ghost full: { length rows ≡ 64 },
}
