// The four changes of a floorplan.
ghost use Rattle.std.specs.Prelude.{◌≡◌};
ghost use Rattle.plans.specs.Changes.{exchange};

// One change, with the modules that it names.
#[derive(Clone, Copy)]
pub enum Change {
    // exchanges the two sides of a module
    Rotate(usize),
    // two modules take each other's place in both graphs and in the sequence
    Swap(usize, usize),
    // turns a reduction edge round, in its graph
    Reverse(usize, usize),
    // moves a reduction edge to the other graph
    MoveEdge(usize, usize),
}

// b for a, a for b, and any other module as it is.
pub fn exchanged(a: usize, b: usize, module: usize) -> usize
    ensures { result ≡ exchange a b «module» }
{
    if module == a {
        b
    } else if module == b {
        a
    } else {
        module
    }
}
