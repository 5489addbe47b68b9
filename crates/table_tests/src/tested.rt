// A table and a sequence, tested as a load asks, with the two graphs of the table.
ghost use Rattle.std.specs.Prelude.{◌≡◌};
ghost use Rattle.plans.specs.Changes.{unless};
ghost use Rattle.plans.specs.Tests.{load_refusal};
ghost use Rattle.table_tests.specs.Tested.{Tested, TestedWhole};

use crate::accepted::accepted_graphs;
use crate::build::TwoGraphs;
use crate::codes::tested_table;
use crate::order::Sequenced;
use plans::LoadRefusal;

/// The first refusal of a load, or the graphs of what it accepts.
pub fn tested_graphs(codes: &[u8], sequence: &[usize]) -> Result<TwoGraphs, LoadRefusal>
    ensures tested { Tested codes.now sequence.now result }
    ensures whole { TestedWhole codes.now sequence.now result }
{
    match accepted_graphs(codes, sequence) {
        Some(graphs) => Ok(graphs),
        // the tests refuse what the pass did not accept
        None => Err(check_load(codes, sequence).unwrap_err()),
    }
}

// The first refusal of a load, by all its tests in their turn.
fn check_load(codes: &[u8], sequence: &[usize]) -> Result<(), LoadRefusal>
    ensures { result ≡ unless (load_refusal codes.now sequence.now) tt }
{
    let table = tested_table(64, 2, sequence.len(), codes)?;
    table.check_closure()?;
    Sequenced { table, sequence }.check()
}
