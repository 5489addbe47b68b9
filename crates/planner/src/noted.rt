// What an open trial notes.
use crate::current::Current;
use closure_graphs::ClosureGraphs;
use module_set::ModuleSet;
use representations::Representation;

// What was current before a trial: the floorplan as closure graphs, whatever the representation keeps, and the rotated
// modules.
#[derive(Drop)]
pub(crate) struct Noted {
    graphs: ClosureGraphs,
    rotated: ModuleSet,
}

impl Noted {
    ghost use Rattle.std.specs.Prelude.{◌≡◌};
    ghost use Rattle.planner.specs.Layouts.{layout_of, noted_layout};

    // What is current.
    pub(crate) fn new<R: Representation>(current: &Current<R>) -> Noted
        ensures { noted_layout result ≡ layout_of R.Representation.means current.now }
    {
        Noted {
            graphs: current.representation.to_graphs(),
            rotated: current.rotated,
        }
    }

    // Makes what was noted current again. It is feasible, so its load is not refused.
    pub(crate) fn restore<R: Representation>(&self, current: &mut Current<R>)
        ensures { layout_of R.Representation.means current.new ≡ noted_layout self.now }
    {
        current.representation.load_graphs(&self.graphs).unwrap();
        current.rotated = self.rotated;
    }
}
