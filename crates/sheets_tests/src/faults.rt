// Sheets that are well written or have one fault.
use lengths::{Plain, Sides};
use plans::Refusal;
use sheets::parse;

// What parsing answers, as numbers: the fault's number, sheet, line, column and the width of
// its field, or five zeros where it is done. They stay numbers: the listing prints them so.
pub fn told(sizes: &[u8], plan: &[u8]) -> [usize; 5] {
    let none = Sides {
        width: Plain(0),
        height: Plain(0),
    };
    let mut sides = [none; 64];
    let mut codes = [0u8; 4096];
    let mut places = [0usize; 64];
    match parse(sizes, plan, &mut sides, &mut codes, &mut places) {
        Ok(_) => [0; 5],
        Err(fault) => [
            fault.wrong.number() as usize,
            fault.sheet.number() as usize,
            fault.line,
            fault.column,
            fault.field.len(),
        ],
    }
}

#[test]
fn well_written(rt: HostRuntime) {
    assert_eq!(rt; told(b"", b"PLAN   0\n\n"), [0; 5]);
    assert_eq!(rt; told(b"       4       2\n", b"SIDE   1\n.\n   0\n"), [0; 5]);
    assert_eq!(rt;
        told(b"       1  100000\n", b"PLAN   1\nv\n9999\nPACK"),
        [0; 5]
    );
}

#[test]
fn heads(rt: HostRuntime) {
    assert_eq!(rt; told(b"", b""), [61, 2, 1, 1, 0]);
    assert_eq!(rt; told(b"", b"PLAN   0"), [61, 2, 1, 1, 0]);
    assert_eq!(rt; told(b"", b"PLOT   0\n\n"), [62, 2, 1, 1, 4]);
    assert_eq!(rt; told(b"", b"PLAN    \n\n"), [63, 2, 1, 5, 4]);
    assert_eq!(rt; told(b"", b"PLAN  01\n\n"), [63, 2, 1, 5, 4]);
    assert_eq!(rt; told(b"", b"PLAN  65\n\n"), [64, 2, 1, 5, 4]);
}

#[test]
fn sizes(rt: HostRuntime) {
    let plan = b"PLAN   1\n.\n   0\n";
    assert_eq!(rt; told(b"", plan), [61, 1, 1, 1, 0]);
    assert_eq!(rt; told(b"       1       1", plan), [61, 1, 1, 1, 0]);
    assert_eq!(rt; told(b"       1       1\n\n", plan), [61, 1, 2, 1, 0]);
    assert_eq!(rt; told(b"       1        \n", plan), [63, 1, 1, 9, 8]);
    assert_eq!(rt; told(b"       0       1\n", plan), [64, 1, 1, 1, 8]);
    assert_eq!(rt; told(b"       1  100001\n", plan), [64, 1, 1, 9, 8]);
}

#[test]
fn rows_and_sequence(rt: HostRuntime) {
    let sizes = b"       1       1\n       1       1\n";
    assert_eq!(rt; told(sizes, b"PLAN   2\n.h\n..\n   0   1\n"), [0; 5]);
    assert_eq!(rt;
        told(sizes, b"PLAN   2\n.h\n.\n   0   1\n"),
        [61, 2, 3, 1, 0]
    );
    assert_eq!(rt;
        told(sizes, b"PLAN   2\n.h\n.x\n   0   1\n"),
        [62, 2, 3, 2, 1]
    );
    assert_eq!(rt;
        told(sizes, b"PLAN   2\n.h\n..\n   0  1 \n"),
        [63, 2, 4, 5, 4]
    );
    assert_eq!(rt;
        told(sizes, b"PLAN   2\n.h\n..\n   0   1"),
        [61, 2, 4, 1, 0]
    );
}
