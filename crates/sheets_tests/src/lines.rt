// Script lines, one at a time.
use plans::{Change, Refusal};
use sheets::{Command, Place, read_command};
use std::test::Fail;

// What reading the first line of a sheet answers, as numbers: a fault's number, line, column
// and the width of its field; or the command's kind, 1 to 7, its modules and the next offset.
// They stay numbers, since a `Command` and a `Fault` have no `==` to compare by.
fn told(plan: &[u8]) -> [usize; 4] {
    match read_command(plan, Place { offset: 0, line: 1 }) {
        Err(fault) => [
            fault.wrong.number() as usize,
            fault.line,
            fault.column,
            fault.field.len(),
        ],
        Ok(None) => [0; 4],
        Ok(Some(line)) => match line.command {
            Command::Change(Change::Rotate(a)) => [1, a, 0, line.next.offset],
            Command::Change(Change::Swap(a, b)) => [2, a, b, line.next.offset],
            Command::Change(Change::Reverse(a, b)) => [3, a, b, line.next.offset],
            Command::Change(Change::MoveEdge(a, b)) => [4, a, b, line.next.offset],
            Command::Keep => [5, 0, 0, line.next.offset],
            Command::Undo => [6, 0, 0, line.next.offset],
            Command::Pack => [7, 0, 0, line.next.offset],
        },
    }
}

#[test]
fn read(rt: HostRuntime) {
    assert_eq!(rt; told(b"TURN   3\n"), [1, 3, 0, 9]);
    assert_eq!(rt; told(b"SWAP   0  12\nPACK\n"), [2, 0, 12, 13]);
    assert_eq!(rt; told(b"FLIP9999   1\n"), [3, 9999, 1, 13]);
    assert_eq!(rt; told(b"MOVE   0   1\n"), [4, 0, 1, 13]);
    assert_eq!(rt; told(b"KEEP\n"), [5, 0, 0, 5]);
    assert_eq!(rt; told(b"UNDO\n"), [6, 0, 0, 5]);
    assert_eq!(rt; told(b"PACK\n"), [7, 0, 0, 5]);
    assert_eq!(rt; told(b""), [0; 4]);
}

#[test]
fn refused(rt: HostRuntime) {
    assert_eq!(rt; told(b"\n"), [61, 1, 1, 0]);
    assert_eq!(rt; told(b"KEE\n"), [61, 1, 1, 0]);
    assert_eq!(rt; told(b"KEPT"), [62, 1, 1, 4]);
    assert_eq!(rt; told(b"KEEP"), [61, 1, 1, 0]);
    assert_eq!(rt; told(b"TURN\n"), [61, 1, 1, 0]);
    assert_eq!(rt; told(b"MOVE  01   1\n"), [63, 1, 5, 4]);
    assert_eq!(rt; told(b"MOVE   0    \n"), [63, 1, 9, 4]);
}

// Line numbers go on counting from the place that is given.
#[test]
fn in_turn(rt: HostRuntime) -> Result<(), Fail> {
    let plan = b"KEEP\nUNDO\nTURN x\n";
    let Ok(Some(line)) = read_command(plan, Place { offset: 5, line: 8 }) else {
        return Err(Fail::new("the second line was refused"));
    };
    assert_eq!(rt; line.next.line, 9);
    let Err(fault) = read_command(plan, line.next) else {
        return Err(Fail::new("the third line was taken"));
    };
    assert_eq!(rt; fault.line, 9);
    Ok(())
}
