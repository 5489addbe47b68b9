// The examples in both kinds. An array whose elements have a type parameter is not known to fit in memory, so each
// test makes its own: the sides of the three modules, 4 by 2, 3 by 3 and 5 by 1, and the longest for 64.
use crate::examples::all_hold;
use crate::kinds::sides_of;
use lengths::{Counted, Plain};
use packing::unplaced;

#[test]
fn plain(rt: HostRuntime) {
    let few = [sides_of::<Plain>(4, 2), sides_of(3, 3), sides_of(5, 1)];
    let many = [sides_of::<Plain>(100_000, 100_000); 64];
    assert!(rt; all_hold(&few, &many, &mut [unplaced(); 64]));
}

#[test]
fn counted(rt: HostRuntime) {
    let few = [sides_of::<Counted>(4, 2), sides_of(3, 3), sides_of(5, 1)];
    let many = [sides_of::<Counted>(100_000, 100_000); 64];
    assert!(rt; all_hold(&few, &many, &mut [unplaced(); 64]));
}
