// Ranking: each entry of a table becomes its rank in its own column, in place. Column by column the rows are sorted by the places of
// their values in the 64-bit order, and the ranks are handed out from the last row down. What the balanced table is stands in crate balance.
#![tactic(auto)]

mod column; // one column: its places, and its ranks

ghost use Rattle.std.specs.Prelude.{◌≡◌};
ghost use Rattle.balance.specs.Balance.{balanced_table};
ghost use Rattle.ranking.specs.Internal.{Rankable, Room};

// Makes a table its balanced table. The spaces have a place for each row.
pub fn balance(
    table: &mut [f64],
    rows: usize,
    columns: usize,
    places: &mut [u64],
    order: &mut [u16],
    spare: &mut [u16],
)
    requires { Rankable table.old rows columns × Room rows places.old order.old spare.old }
    ensures { table.new ≡ balanced_table table.old rows columns }
{
    for j in 0..columns {
        column::places(table, columns, j, places);
        sorting::sort(places, order, spare);
        column::put_ranks(table, columns, j, places, order);
    }
}
