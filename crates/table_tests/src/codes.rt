// The tests of a table's codes: its shape, its codes, its diagonal, and its pairs.
ghost use Rattle.std.specs.Prelude.{◌≡◌, ◌<◌};
ghost use Rattle.plans.specs.Changes.{unless};
ghost use Rattle.plans.specs.Search.{first_below, first_pair};
ghost use Rattle.plans.specs.Tests.{codes_refusal, code_wrong, self_related, not_one_edge, telling_pair};
ghost use Rattle.plans.specs.declared.refusals.LoadRefusal.TheVariants.{WrongCode, SelfRelated, NotOneEdge};
ghost use Rattle.table_tests.specs.Codes.{table_given, TestedTable};

use crate::rows::first_in_rows;
use crate::table::Table;
use plans::LoadRefusal;

/// The first refusal of the codes of m modules that does not ask for closure: at most `limit` modules, one code
/// for each ordered pair of them, none above the greatest, none on the diagonal, and one edge for each two modules.
pub fn check_codes(limit: usize, greatest: u8, m: usize, codes: &[u8]) -> Result<(), LoadRefusal>
    ensures { result ≡ unless (codes_refusal limit greatest m codes.now) tt }
{
    tested_table(limit, greatest, m, codes)?;
    Ok(())
}

// The table of codes that pass these tests, or their first refusal.
pub(crate) fn tested_table(
    limit: usize,
    greatest: u8,
    m: usize,
    codes: &[u8],
) -> Result<Table<'_>, LoadRefusal>
    ensures { TestedTable limit greatest m codes.now result }
{
    if m > limit {
        return Err(LoadRefusal::WrongShape);
    }
    let table = Table::new(m, codes).ok_or(LoadRefusal::WrongShape)?;
    table.check_greatest(greatest)?;
    table.check_diagonal()?;
    table.check_pairs()?;
    Ok(table)
}

impl<'a> Table<'a> {
    // No code is above the greatest.
    fn check_greatest(self, greatest: u8) -> Result<(), LoadRefusal>
        ensures { result ≡ unless (telling_pair WrongCode (first_pair self.entry.modules (code_wrong greatest (table_given self.entry)))) tt }
    {
        let wrong = self.codes.iter().position(|&code| code > greatest);
        wrong.map_or(Ok(()), |k| {
            Err(LoadRefusal::WrongCode(k / self.modules, k % self.modules))
        })
    }

    // No module is related to itself.
    fn check_diagonal(self) -> Result<(), LoadRefusal>
        ensures { result ≡ unless (telling_pair SelfRelated (first_pair self.entry.modules (self_related (table_given self.entry)))) tt }
    {
        (0..self.modules)
            .find(|&i| self.code(i, i) > 0)
            .map_or(Ok(()), |i| Err(LoadRefusal::SelfRelated(i, i)))
    }

    // Each two modules have one edge.
    fn check_pairs(self) -> Result<(), LoadRefusal>
        ensures { result ≡ unless (telling_pair NotOneEdge (first_pair self.entry.modules (not_one_edge (table_given self.entry)))) tt }
    {
        first_in_rows(self.modules, |i| self.not_one_edge_with(i)).map_or(
            Ok(()),
            |(i, j)| Err(LoadRefusal::NotOneEdge(i, j)),
        )
    }

    // The first module above i that has no edge with i, or two.
    fn not_one_edge_with(self, i: usize) -> Option<usize>
        requires inside { i < self.modules }
        ensures { result ≡ first_below self.entry.modules (not_one_edge (table_given self.entry) i) }
    {
        (i + 1..self.modules).find(|&j| (self.code(i, j) > 0) == (self.code(j, i) > 0))
    }
}
