// A table of codes, row after row, as it is given to a load.
ghost use Rattle.std.specs.Prelude.{◌≡◌, ◌*◌, length};

/// The codes of some modules: one for each ordered pair of them.
#[derive(Clone, Copy)]
pub struct Table<'a> {
    pub modules: usize,
    pub codes: &'a [u8],
    ghost full: { length codes.now ≡ modules * modules },
}

impl<'a> Table<'a> {
    ghost use Rattle.std.specs.Prelude.{ℕ, ◌<◌, ◌≤◌, [], slice_index};
    ghost use Rattle.table_tests.specs.Codes.{table_given, MadeOf};

    /// The table of m × m codes; none where there are more or fewer.
    pub fn new(modules: usize, codes: &'a [u8]) -> Option<Table<'a>>
        ensures { MadeOf modules codes.now result }
    {
        if modules.checked_mul(modules) == Some(codes.len()) {
            Some(Table { modules, codes })
        } else {
            None
        }
    }

    /// The codes of row i, none where i is no module.
    pub fn row(self, i: usize) -> &'a [u8]
        ensures codes { (j : ℕ) → slice_index result.now j ≡ table_given self.entry i j }
        ensures long { i < self.entry.modules → length result.now ≡ self.entry.modules }
        ensures outside { self.entry.modules ≤ i → result.now ≡ [] }
    {
        if i < self.modules {
            &self.codes[i * self.modules..(i + 1) * self.modules]
        } else {
            &[]
        }
    }

    /// The code at (i, j), 0 outside the table: the byte that a load is given, which need not be that of a direction.
    pub fn code(self, i: usize, j: usize) -> u8
        ensures { result ≡ table_given self.entry i j }
    {
        self.row(i).get(j).copied().unwrap_or(0)
    }
}
