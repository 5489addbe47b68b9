// The whole listing of a task.
ghost use Rattle.std.specs.Prelude.{◌≡◌, ◌≤◌, All, map, length, IfOk, Some};
ghost use Rattle.closure_graphs.specs.Meaning.{graphs_mean};
ghost use Rattle.listing.specs.Bordered.{PossibleSides, bordered_sides};
ghost use Rattle.listing.specs.Line.{Appends};
ghost use Rattle.listing.specs.ScriptLines.{lines_from};
ghost use Rattle.listing.specs.Whole.{start_of, whole_listing};

use crate::bordered::with_borders;
use crate::fault::append_fault;
use crate::script::append_script;
use closure_graphs::ClosureGraphs;
use lengths::{Plain, Sides};
use reading::read;
use representations::Transposed;
use sheets::{Head, Parsed};
use std::alloc::{AllocError, Global};

// Appends the script's lines at a plan over the graphs as loaded or, under the head SIDE, over the layer that
// exchanges their axes.
fn append_loaded(
    out: &mut Vec<u8>,
    graphs: ClosureGraphs,
    sides: &[Sides<Plain>],
    plan: &[u8],
    parsed: Parsed,
) -> Result<(), AllocError>
    requires few { length sides.now ≤ 64 }
    requires possible { All PossibleSides sides.now }
    ensures { Appends out.old.items out.new.items (lines_from plan.now (map bordered_sides sides.now) (length plan.now) parsed.script (start_of (Some parsed.head) (graphs_mean graphs))) result }
{
    let counted = with_borders(sides);
    let own = &counted[..sides.len()];
    match parsed.head {
        Head::Plan => append_script(out, graphs, own, plan, parsed.script),
        Head::Side => append_script(out, Transposed(graphs), own, plan, parsed.script),
    }
}

// The listing of a sizes sheet and a plan sheet.
pub fn listing<'a>(heap: Global, sizes: &'a [u8], plan: &'a [u8]) -> Result<Vec<u8>, AllocError>
    ensures { IfOk result (λ v. v.items ≡ whole_listing sizes.now plan.now) }
{
    let nothing = Sides {
        width: Plain(0),
        height: Plain(0),
    };
    // the room that reading asks for, however few the modules are
    let mut sides = [nothing; 64];
    let mut codes = [0; 4096];
    let mut places = [0; 64];
    let mut graphs = ClosureGraphs::new();
    let mut out = Vec::new(heap);
    match read(
        sizes,
        plan,
        &mut graphs,
        &mut sides,
        &mut codes,
        &mut places,
    ) {
        Ok(parsed) => append_loaded(&mut out, graphs, &sides[..parsed.modules], plan, parsed)?,
        Err(fault) => append_fault(&mut out, fault)?,
    }
    Ok(out)
}
