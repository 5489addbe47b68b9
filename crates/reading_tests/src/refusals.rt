// Well-written sheets of three modules that a representation refuses to load.
use closure_graphs::ClosureGraphs;
use lengths::{Plain, Sides};
use plans::Refusal;
use reading::read;
use std::process::Abort;
use std::test::Fail;

// Checks that reading a plan is refused: the number, the sheet, the line and the column that are
// told (numbers, as the listing prints them), the field that is lent, and that the codes and the sequence stand in the lists as read.
fn check_refused(
    rt: &impl Abort,
    plan: &[u8],
    told: [usize; 4],
    field: &[u8],
    table: &[u8],
    sequence: &[usize],
) -> Result<(), Fail> {
    let one = Sides {
        width: Plain(1),
        height: Plain(1),
    };
    let mut graphs = ClosureGraphs::new();
    let mut sides = [one; 64];
    let mut codes = [7u8; 4096];
    let mut places = [7usize; 64];
    let sizes = b"       4       2\n       3       3\n       5       1\n";
    let Err(fault) = read(
        sizes,
        plan,
        &mut graphs,
        &mut sides,
        &mut codes,
        &mut places,
    ) else {
        return Err(Fail::new("a plan that is not feasible was loaded"));
    };
    assert_eq!(rt;
        [
            fault.wrong.number() as usize,
            fault.sheet.number() as usize,
            fault.line,
            fault.column,
        ],
        told
    );
    assert_eq!(rt; fault.field, field);
    assert_eq!(rt; [sides[2].width.0, sides[3].width.0], [5, 0]);
    assert_eq!(rt; &codes[0..10], table);
    assert_eq!(rt; &places[0..4], sequence);
    Ok(())
}

// A module that is related to itself, and two modules without an edge.
#[test]
fn pairs(rt: HostRuntime) -> Result<(), Fail> {
    check_refused(
        &rt,
        b"PLAN   3\nhhv\n..v\n...\n   0   1   2\n",
        [12, 2, 2, 1],
        b"h",
        &[1, 1, 2, 0, 0, 2, 0, 0, 0, 0],
        &[0, 1, 2, 0],
    )?;
    check_refused(
        &rt,
        b"PLAN   3\n.hv\n...\n...\n   0   1   2\n",
        [13, 2, 3, 3],
        b".",
        &[0, 1, 2, 0, 0, 0, 0, 0, 0, 0],
        &[0, 1, 2, 0],
    )
}

// A closing edge that is missing.
#[test]
fn closure(rt: HostRuntime) -> Result<(), Fail> {
    check_refused(
        &rt,
        b"PLAN   3\n.hv\n..h\n...\n   0   1   2\n",
        [14, 2, 2, 3],
        b"v",
        &[0, 1, 2, 0, 0, 1, 0, 0, 0, 0],
        &[0, 1, 2, 0],
    )
}

// A place that repeats, and an edge that points backwards.
#[test]
fn sequences(rt: HostRuntime) -> Result<(), Fail> {
    check_refused(
        &rt,
        b"SIDE   3\n.hv\n..v\n...\n   0   1   1\n",
        [15, 2, 5, 9],
        b"   1",
        &[0, 1, 2, 0, 0, 2, 0, 0, 0, 0],
        &[0, 1, 1, 0],
    )?;
    check_refused(
        &rt,
        b"PLAN   3\n.hv\n..v\n...\n   1   0   2\n",
        [16, 2, 2, 2],
        b"h",
        &[0, 1, 2, 0, 0, 2, 0, 0, 0, 0],
        &[1, 0, 2, 0],
    )
}
