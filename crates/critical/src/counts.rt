// The offers' counts: the rows, the observed one included, whose value is at least an offer's observed value. All of them by one look at the table.
ghost use Rattle.std.specs.Prelude.{◌≡◌, ℕ, ◌<◌, ◌≤◌, ◌+◌, ◌*◌, length, get_or};
ghost use Rattle.std.specs.Float.{nan};
ghost use Rattle.order.specs.Order.{at_most};
ghost use Rattle.order.specs.Counting.{bit};
ghost use Rattle.order.specs.Lists.{rows_of, tabulate, padded};
ghost use Rattle.method.specs.Method.{at_least};
ghost use Rattle.critical.specs.Internal.{Tallying};

use masks::Table;

// One row more.
fn tally(row: &[f64], observed: &[f64], counts: &mut [usize])
    requires { Tallying row.now observed.now counts.old }
    ensures { ((j : ℕ) → j < length row.now → get_or counts.new j 0 ≡ get_or counts.old j 0 + bit (at_most (get_or observed.now j nan) (get_or row.now j nan))) × ((j : ℕ) → length row.now ≤ j → get_or counts.new j 0 ≡ get_or counts.old j 0) }
{
    for (j, &x) in row.iter().enumerate() {
        counts[j] += order::one_where(observed[j], x);
    }
}

// The count of each column.
pub fn at_least(table: Table<'_>, observed: usize) -> [usize; 32]
    requires { observed < table.rows }
    ensures { result ≡ padded 32 0 (tabulate table.entry.columns (λ j. at_least (rows_of table.entry.rows table.entry.columns table.entry.values.now) (get_or table.entry.values.now (observed * table.entry.columns + j) nan) j)) }
{
    let mut counts = [0usize; 32];
    let seen = table.row(observed);
    for g in 0..table.rows {
        tally(table.row(g), seen, &mut counts);
    }
    counts
}
