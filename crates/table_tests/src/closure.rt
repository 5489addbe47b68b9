// The test that the two graphs of a table are closed, by rows.
ghost use Rattle.std.specs.Prelude.{◌≡◌, ℕ, ◌<◌, true, None};
ghost use Rattle.module_set.specs.Members.{member};
ghost use Rattle.plans.specs.Changes.{unless};
ghost use Rattle.plans.specs.Search.{first_pair};
ghost use Rattle.plans.specs.Tests.{codes_refusal, not_closed, telling_pair};
ghost use Rattle.plans.specs.declared.refusals.LoadRefusal.TheVariants.{NotClosed};
ghost use Rattle.table_tests.specs.Closure.{lacks, missing};
ghost use Rattle.table_tests.specs.Codes.{table_given};

use crate::build::TwoGraphs;
use crate::rows::first_in_rows;
use crate::table::Table;
use graphs::Graph;
use module_set::ModuleSet;
use plans::LoadRefusal;

impl<'a> Table<'a> {
    // Each edge is there that two others of one graph close.
    pub(crate) fn check_closure(self) -> Result<(), LoadRefusal>
        requires passed { codes_refusal 64 2 self.modules self.codes.now ≡ None }
        ensures { result ≡ unless (telling_pair NotClosed (first_pair self.entry.modules (not_closed self.entry.modules (table_given self.entry)))) tt }
    {
        let graphs = TwoGraphs::of(self);
        graphs
            .first_missing(self.modules)
            .map_or(Ok(()), |(i, k)| { Err(LoadRefusal::NotClosed(i, k)) })
    }
}

impl TwoGraphs {
    // The first edge that is missing, row after row.
    fn first_missing(&self, modules: usize) -> Option<(usize, usize)>
        requires inside { (i k : ℕ) → missing self.now.right self.now.above i k ≡ true → k < modules }
        ensures { result ≡ first_pair modules (missing self.now.right self.now.above) }
    {
        first_in_rows(modules, |i| self.missing_from(i).first())
    }

    // The modules to which i lacks an edge that two others of one graph close.
    fn missing_from(&self, i: usize) -> ModuleSet
        ensures { (k : ℕ) → member result k ≡ missing self.now.right self.now.above i k }
    {
        lacking(&self.right, i).union(lacking(&self.above, i))
    }
}

// The modules to which i lacks an edge that two others of this graph close.
fn lacking(graph: &Graph, i: usize) -> ModuleSet
    ensures { (k : ℕ) → member result k ≡ lacks graph.now i k }
{
    graph.two_steps(i).minus(graph.successors(i))
}
