// The examples at each representation.
use crate::examples::{changes, largest, refused_changes, refused_loads, smallest};
use closure_graphs::ClosureGraphs;
use representations::{Representation, Transposed};
use sequence_pairs::SequencePair;

fn all<R: Representation>(r: &mut R) -> bool {
    smallest(r) && refused_loads(r) && refused_changes(r) && changes(r) && largest(r)
}

#[test]
fn graphs(rt: HostRuntime) {
    assert!(rt; all(&mut ClosureGraphs::new()));
}

#[test]
fn pair(rt: HostRuntime) {
    assert!(rt; all(&mut SequencePair::new()));
}

#[test]
fn layer(rt: HostRuntime) {
    assert!(rt; all(&mut Transposed(ClosureGraphs::new())));
}

#[test]
fn layer_on_layer(rt: HostRuntime) {
    assert!(rt; all(&mut Transposed(Transposed(SequencePair::new()))));
}
