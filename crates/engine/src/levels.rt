// Where a level becomes a number of rows.
ghost use Rattle.std.specs.Prelude.{◌≡◌, false, ◌≤◌};
ghost use Rattle.limits.specs.Limits.{table_rows_most};
ghost use Rattle.refusals.specs.Limits as limits;

// e, the allowance: floor(M × a/b).
pub fn allowance(rows: usize, a: usize, b: usize) -> usize
    requires { (rows ≤ table_rows_most) × (limits.bad_level a b ≡ false) }
    ensures { result ≡ limits.allowance rows a b }
{
    rows * a / b
}
