// Listings of a small task, well written and not.
use listing::listing;
use std::process::Abort;
use std::test::Fail;

const SIZES: &[u8] = b"       4       2\n       3       3\n       5       1\n";

const PLAN: &[u8] = b"PLAN   3\n.hv\n..v\n...\n   0   1   2\n";

// Checks what the listing of two sheets is.
fn lists<'a>(
    rt: &(impl Abort + AllocGlobal),
    sizes: &'a [u8],
    plan: &'a [u8],
    bytes: &[u8],
) -> Result<(), Fail> {
    assert_eq!(rt; listing(rt.alloc(), sizes, plan)?.as_slice(), bytes);
    Ok(())
}

#[test]
fn no_script(rt: HostRuntime) -> Result<(), Fail> {
    lists(&rt, SIZES, PLAN, b"")?;
    lists(&rt, b"", b"SIDE   0\n\n", b"")
}

// Two modules beside each other under a third: on trial they stand one above the other.
#[test]
fn move_pack_undo(rt: HostRuntime) -> Result<(), Fail> {
    lists(
        &rt,
        SIZES,
        b"PLAN   3\n.hv\n..v\n...\n   0   1   2\nMOVE   0   1\nPACK\nUNDO\nKEEP\n",
        b"MOVE   0\nPACK   0\nCHIP         5         6              30\n   0         0         0\n   1         0         2\n   2         0         5\nEDGE   1   3\nUNDO   0\nKEEP  30\n",
    )
}

// The same table with its axes exchanged, a refused second change, and a trial that is open at the end.
#[test]
fn side(rt: HostRuntime) -> Result<(), Fail> {
    lists(
        &rt,
        SIZES,
        b"SIDE   3\n.hv\n..v\n...\n   0   1   2\nTURN   1\nSWAP   0   2\nPACK\n",
        b"TURN   0\nSWAP  20\nPACK   0\nCHIP         9         5              45\n   0         0         0\n   1         0         2\n   2         4         0\nEDGE   2   2\n",
    )
}

#[test]
fn faults(rt: HostRuntime) -> Result<(), Fail> {
    let leading_zero = b"       4       2\n       3      03\n       5       1\n";
    lists(&rt, leading_zero, PLAN, b"FAIL  63   1     2     9\n")?;
    lists(
        &rt,
        SIZES,
        b"PLAN   3\n.hv\n..x\n",
        b"FAIL  62   2     3     3\n",
    )?;
    lists(&rt, SIZES, b"", b"FAIL  61   2     1     1\n")?;
    lists(
        &rt,
        SIZES,
        b"PLAN   3\n.hv\n..v\n...\n   1   0   2\n",
        b"FAIL  16   2     2     2\n",
    )?;
    lists(
        &rt,
        SIZES,
        b"PLAN   3\n.hv\n..v\n...\n   0   1   2\nKEEP\nSTOP\nPACK\n",
        b"KEEP  30\nFAIL  62   2     7     1\n",
    )
}
