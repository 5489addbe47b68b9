// The largest and smallest sheets and lists.
use crate::faults::told;
use lengths::{Plain, Sides};
use plans::Refusal;
use sheets::parse;
use std::test::Fail;

// What the lists of sides hold before.
const ONE: Sides<Plain> = Sides {
    width: Plain(1),
    height: Plain(1),
};

// A list of one place too few is told, and every list stays as it was.
#[test]
fn a_place_too_few(rt: HostRuntime) -> Result<(), Fail> {
    let mut sides = [ONE; 64];
    let mut codes = [7u8; 4096];
    let mut places = [7usize; 63];
    let Err(fault) = parse(b"", b"", &mut sides, &mut codes, &mut places) else {
        return Err(Fail::new("a list too short was taken"));
    };
    assert_eq!(rt; fault.wrong.number(), 60);
    assert_eq!(rt; fault.sheet.number(), 2);
    assert_eq!(rt; fault.line + fault.column, 0);
    assert_eq!(rt; codes[0], 7);
    assert_eq!(rt; places[62], 7);
    Ok(())
}

// What is read stands in the lists, and zero behind it.
#[test]
fn read_and_zero_behind(rt: HostRuntime) -> Result<(), Fail> {
    let mut sides = [ONE; 65];
    let mut codes = [7u8; 4097];
    let mut places = [7usize; 65];
    let sizes = b"       4       2\n       3      30\n";
    let plan = b"SIDE   2\n.v\n..\n   1   0\nPACK\n";
    let Ok(parsed) = parse(sizes, plan, &mut sides, &mut codes, &mut places) else {
        return Err(Fail::new("well written sheets were refused"));
    };
    assert_eq!(rt; parsed.modules, 2);
    assert_eq!(rt; parsed.script.offset, 24);
    assert_eq!(rt; parsed.script.line, 5);
    assert_eq!(rt; sides[1].height.0, 30);
    assert_eq!(rt; sides[2].width.0, 0);
    assert_eq!(rt; codes[1], 2);
    assert_eq!(rt; codes[4096], 0);
    assert_eq!(rt; places[0], 1);
    assert_eq!(rt; places[64], 0);
    Ok(())
}

// 64 modules are read.
#[test]
fn as_many_as_can_be(rt: HostRuntime) -> Result<(), Fail> {
    let sizes = b"  100000       1\n".repeat(rt.alloc(), 64)?;
    let row = b"................................................................\n";
    let mut plan = b"PLAN  64\n".to_vec(rt.alloc())?;
    plan.extend_from_slice(&row.repeat(rt.alloc(), 64)?)?;
    plan.extend_from_slice(&b"   0".repeat(rt.alloc(), 64)?)?;
    plan.push(b'\n')?;
    assert_eq!(rt; told(&sizes, &plan), [0; 5]);
    Ok(())
}

// A sheet of 32,768 bytes is read, and one of 32,769 is too long.
#[test]
fn as_long_as_can_be(rt: HostRuntime) -> Result<(), Fail> {
    let mut plan = b"PLAN   0\n\n".to_vec(rt.alloc())?;
    let script = vec![in rt.alloc(); b'x'; 32_758]?;
    plan.extend_from_slice(&script)?;
    assert_eq!(rt; told(b"", &plan), [0; 5]);
    plan.push(b'x')?;
    assert_eq!(rt; told(b"", &plan), [65, 2, 0, 0, 0]);
    assert_eq!(rt; told(&plan, &plan), [65, 1, 0, 0, 0]);
    Ok(())
}
