// Step 3 of a visit: "Every rule satisfied".
ghost use Rattle.std.specs.Prelude.{◌≡◌};
ghost use Rattle.qbf.specs.Formula.{Prefix, Node, all, satisfied};
ghost use Rattle.tables.specs.Views.{Values, rows_of};

use lent_rows::LentRows;
use literal::{TRUE, status_of};

fn is_satisfied(lits: &[i16], values: &[u8]) -> bool
    ensures { (D : Prefix) (s : Node) → Values D s values.now → result ≡ satisfied D s lits.now }
{
    lits.iter().any(|lit| status_of(values, *lit) == TRUE)
}

pub fn all_satisfied(clauses: LentRows, values: &[u8]) -> bool
    ensures { (D : Prefix) (s : Node)
        → Values D s values.now
        → result
        ≡ all (satisfied D s) (rows_of clauses.entry.width clauses.entry.cells.now clauses.entry.sizes.now) }
{
    clauses.rows().all(|row| is_satisfied(row, values))
}
