// Lengths that a user would write.
use crate::counted::Counted;
use crate::length::Length;
use crate::plain::Plain;
use std::test::Fail;

#[test]
fn plain_lengths_add_and_join(rt: HostRuntime) {
    assert!(rt; Plain(4).plus(Plain(3)).0 == 7);
    assert!(rt; Plain(4).join(Plain(3)).0 == 4);
}

#[test]
fn borders_are_counted(rt: HostRuntime) -> Result<(), Fail> {
    let Ok(a) = Counted::new(4, 1) else {
        return Err(Fail::new("refused"));
    };
    assert!(rt; a.plus(a).borders() == 2);
    assert!(rt; !a.plus(a).at_most(a));
    Ok(())
}

#[test]
fn more_borders_than_length(rt: HostRuntime) {
    assert!(rt; Counted::new(3, 3).is_ok());
    assert!(rt; Counted::new(3, 4).is_err());
}
