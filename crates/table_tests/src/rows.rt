// The first pair of two modules that a test finds, going through the rows.
ghost use Rattle.std.specs.Prelude.{ℕ, ◌<◌};
ghost use Rattle.table_tests.specs.Rows.{FirstRow};

// The first row in which something is found, with what is found there first.
pub(crate) fn first_in_rows<F: Fn(usize) -> Option<usize>>(
    modules: usize,
    in_row: F,
) -> Option<(usize, usize)>
    requires { (i : ℕ) → i < modules → F.pre in_row i }
    ensures { FirstRow modules (F.post in_row) result }
{
    (0..modules).find_map(
        |i| -> Option<(usize, usize)>
            requires { F.pre in_row i }
        { Some((i, in_row(i)?)) },
    )
}
