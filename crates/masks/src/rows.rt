// Rows as masks: which of a row's columns reach a value, or lie above it. What a set of columns asks of the rows then costs one pass over one number a row.
ghost use Rattle.std.specs.Prelude.{◌≡◌, ◌<◌, ◌≤◌, ◌-◌, ◌*◌, ◌^◌, T, leb, ltb, length, take};
ghost use Rattle.order.specs.Counting.{bit, all};
ghost use Rattle.order.specs.Lists.{rows_of, tabulate};
ghost use Rattle.columns.specs.Columns.{size, columns_of};
ghost use Rattle.masks.specs.Marks.{passing, mark_of, rows_kept, marks_at, holds, holding};

use super::Table;

// A set without its lowest column. In a function of its own the compiler sees that the test is not needed.
fn without_lowest(x: u32) -> u32
    ensures { size (columns_of 32 result) ≡ size (columns_of 32 x) - 1 }
{
    if x == 0 {
        return 0;
    }
    x & (x - 1)
}

// The same where t is below k.
fn one_fewer(x: u32, k: usize, t: usize) -> u32
    ensures { size (columns_of 32 result) ≡ size (columns_of 32 x) - bit (ltb t k) }
{
    if k <= t {
        return x;
    }
    without_lowest(x)
}

// Whether a set has at least k columns: one is left without its k - 1 lowest.
fn has_at_least(x: u32, k: usize) -> bool
    requires { (0 < k) × (k ≤ 4) }
    ensures { result ≡ leb k (size (columns_of 32 x)) }
{
    let a = one_fewer(x, k, 1);
    let b = one_fewer(a, k, 2);
    let c = one_fewer(b, k, 3);
    c != 0
}

// Whether a mark holds at least k columns of `set`.
pub fn holds(mark: u32, set: u32, k: usize) -> bool
    requires { (0 < k) × (k ≤ 4) }
    ensures { result ≡ holds k set mark }
{
    has_at_least(mark & set, k)
}

// How many marks hold at least k columns of `set`. Counted in a u32: then the loop takes several marks at a time.
pub fn count_holding(marks: &[u32], set: u32, k: usize) -> usize
    requires { (0 < k) × (k ≤ 4) × (length marks.now ≤ 4096) }
    ensures { result ≡ holding k set marks.now }
{
    let n: u32 = marks
        .iter()
        .map(|&mark| u32::from(holds(mark, set, k)))
        .sum();
    n as usize
}

// What is asked of a value: that it is above a bound, or that it reaches it.
#[derive(Clone, Copy)]
pub enum Bound {
    Above(f64),
    Reached(f64),
}

impl Bound {
    // Whether x passes.
    fn passes(self, x: f64) -> bool
        ensures { result ≡ passing self x }
    {
        match self {
            Bound::Above(v) => v < x,
            Bound::Reached(v) => v <= x,
        }
    }
}

// The bit of each column.
fn bits() -> [u64; 32]
    ensures { result ≡ tabulate 32 (λ j. 2 ^ j) }
{
    let mut bits = [0u64; 32];
    for j in 0..32 {
        bits[j] = 1 << j;
    }
    bits
}

// A bit where x passes, and none where it does not.
fn bit_where(b: u64, bound: Bound, x: f64) -> u64
    ensures { result ≡ bit (passing bound x) * b }
{
    if bound.passes(x) {
        return b;
    }
    0
}

// The columns of a row whose value passes. A sum of words as wide as the values: then the loop takes several columns at a time.
fn row_mask(row: &[f64], bits: &[u64], bound: Bound) -> u32
    requires { (length row.now ≤ 32) × (bits.now ≡ tabulate 32 (λ j. 2 ^ j)) }
    ensures { result ≡ mark_of (passing bound) row.now }
{
    let mut m: u64 = 0;
    for (i, &x) in row.iter().enumerate() {
        m += bit_where(bits[i], bound, x);
    }
    m as u32
}

// The number of each row, into the first places of `kept`.
fn every_row(kept: &mut [u16], rows: usize)
    requires { (rows ≤ 4096) × (rows ≤ length kept.old) }
    ensures { take rows kept.new ≡ tabulate rows (λ g. g) }
{
    for g in 0..rows {
        kept[g] = g as u16;
    }
}

// Of the n rows whose numbers stand in `kept`, those stay that have at least k columns which pass, and their marks are made anew: answers how many. Each row is
// written to the next place, which is taken only where the row stays: no branch.
pub fn mark(table: Table<'_>, kept: &mut [u16], marks: &mut [u32], n: usize, bound: Bound) -> usize
    requires { (n ≤ length kept.old) × (n ≤ length marks.old) × T (all (λ g. ltb g table.rows) (take n kept.old)) }
    ensures { (result ≤ n) × (take result kept.new ≡ rows_kept table.entry.k (passing bound) (rows_of table.entry.rows table.entry.columns table.entry.values.now) (take n kept.old)) × (take result marks.new ≡ marks_at (passing bound) (rows_of table.entry.rows table.entry.columns table.entry.values.now) (take result kept.new)) }
{
    let bits = bits();
    let mut m: usize = 0;
    for i in 0..n {
        let g = kept[i];
        let x = row_mask(table.row(g as usize), &bits, bound);
        kept[m] = g;
        marks[m] = x;
        if has_at_least(x, table.k) {
            m += 1;
        }
    }
    m
}

// The same from all rows on.
pub fn mark_all(table: Table<'_>, kept: &mut [u16], marks: &mut [u32], bound: Bound) -> usize
    requires { (table.rows ≤ length kept.old) × (table.rows ≤ length marks.old) }
    ensures { (result ≤ table.entry.rows) × (take result kept.new ≡ rows_kept table.entry.k (passing bound) (rows_of table.entry.rows table.entry.columns table.entry.values.now) (tabulate table.entry.rows (λ g. g))) × (take result marks.new ≡ marks_at (passing bound) (rows_of table.entry.rows table.entry.columns table.entry.values.now) (take result kept.new)) }
{
    every_row(kept, table.rows);
    mark(table, kept, marks, table.rows, bound)
}
