// One column of a table: the places of its values, and its ranks put into it.
ghost use Rattle.std.specs.Prelude.{◌≡◌, ◌*◌, ◌^◌, ◌<◌, ◌≤◌, cond, T, eqb, length};
ghost use Rattle.limits.specs.Limits.{table_rows_most, columns_most};
ghost use Rattle.order.specs.Order.{finite};
ghost use Rattle.order.specs.Counting.{all};
ghost use Rattle.order.specs.Places.{place};
ghost use Rattle.balance.specs.Balance.{whole};
ghost use Rattle.ranking.specs.Internal.{places_in, Put, Ordered};

// The place of a value in the 64-bit order.
fn place(x: f64) -> u64
    requires { T (finite x) }
    ensures { result ≡ place x }
{
    order::bits_place(order::plus_zero(x).to_bits())
}

// A whole number as an f64, exact.
fn whole(n: usize) -> f64
    requires { n ≤ 2 ^ 53 }
    ensures { result ≡ whole n }
{
    n as f64
}

// The places of the values in column j, row after row.
pub(crate) fn places(table: &[f64], columns: usize, j: usize, out: &mut [u64])
    requires { (length table.now ≡ length out.old * columns) × (j < columns) × (columns ≤ columns_most) × (length out.old ≤ table_rows_most) × T (all finite table.now) }
    ensures { out.new ≡ places_in table.now columns j (length out.old) }
{
    for h in 0..out.len() {
        out[h] = place(table[h * columns + j]);
    }
}

// The rank of a row, from the last one down: that of the row above it where their places are equal, and else how many rows stand up to it, itself counted.
fn rank_of(p: u64, above: u64, rank: usize, standing: usize) -> usize
    ensures { result ≡ cond (eqb p above) rank standing }
{
    if p == above { rank } else { standing }
}

// Each entry of column j becomes the number of places of its column that stand no higher than its own; `order` has all rows in rising order of their places.
pub(crate) fn put_ranks(table: &mut [f64], columns: usize, j: usize, places: &[u64], order: &[u16])
    requires { Ordered table.old columns j places.now order.now }
    ensures { Put columns j places.now table.old table.new }
{
    let mut rank = order.len();
    let mut above: u64 = 0;
    for i in (0..order.len()).rev() {
        let h = usize::from(order[i]);
        let p = places[h];
        rank = rank_of(p, above, rank, i + 1);
        above = p;
        table[h * columns + j] = whole(rank);
    }
}
