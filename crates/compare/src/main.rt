// The comparison program: makes the listing of each case in cases.txt, and says whether it is the expected one.
#![tactic(auto)]

mod cases;

use cases::Cases;
use std::fs;
use std::io::Write;

fn run(rt: &HostRuntime) -> anyhow::Result<()> {
    let bytes = fs::read(rt, "cases.txt")?;
    let mut cases = Cases(&bytes);
    let mut compared = 0u64;
    for case in &mut cases {
        let made = listing::listing(rt.alloc(), case.sizes, case.plan)?;
        let said: &[u8] = if made.as_slice() == case.expected {
            b"same: "
        } else {
            b"DIFFERS: "
        };
        rt.stdout().write_all(said)?;
        rt.stdout().write_all(case.name)?;
        rt.stdout().write_all(b"\n")?;
        compared = compared.saturating_add(1);
    }
    if !cases.0.is_empty() {
        println!(rt; "what follows is no case")?;
    }
    println!(rt; "{compared} cases compared")?;
    Ok(())
}

fn main(rt: HostRuntime) -> anyhow::Result<()> {
    run(&rt)
}
