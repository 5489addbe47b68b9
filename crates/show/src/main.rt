// The program: reads sizes.txt and plan.txt in the current folder, and writes the listing.
#![tactic(auto)]

use anyhow::anyhow;
use std::fs;
use std::io::Write;

// The bytes of a sheet, or an error that names it.
fn sheet(rt: &HostRuntime, name: &str) -> anyhow::Result<Vec<u8>> {
    fs::read(rt, name).map_err(|e| anyhow!("{name}: {e}"))
}

fn run(rt: &HostRuntime) -> anyhow::Result<()> {
    let sizes = sheet(rt, "sizes.txt")?;
    let plan = sheet(rt, "plan.txt")?;
    let bytes = listing::listing(rt.alloc(), &sizes, &plan)?;
    rt.stdout().write_all(&bytes)?;
    Ok(())
}

fn main(rt: HostRuntime) -> anyhow::Result<()> {
    run(&rt)
}
