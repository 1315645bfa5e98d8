// Sets of columns as the bits of a number.
ghost use Rattle.std.specs.Prelude.{◌≡◌, ◌<◌, ◌≤◌, ◌^◌, ◌%◌, ◌&&◌, eqb, length};
ghost use Rattle.order.specs.Order.{smaller, equal};
ghost use Rattle.columns.specs.Columns.{size, columns_of, mask_of, over, equal_to, lowest, ◌∩◌, full_mask};

// Column j alone.
pub fn bit(j: usize) -> u32
    requires { j < 32 }
    ensures { result ≡ 2 ^ j }
{
    1u32 << j
}

// All columns.
pub fn full_mask(cols: usize) -> u32
    requires { cols ≤ 32 }
    ensures { result ≡ full_mask cols }
{
    if cols == 32 {
        return u32::MAX;
    }
    bit(cols) - 1
}

// How many columns a set has.
pub fn size_of(cols: usize, set: u32) -> usize
    ensures { result ≡ size (columns_of cols set) }
{
    if 32 < cols {
        return set.count_ones() as usize;
    }
    (set & full_mask(cols)).count_ones() as usize
}

// Whether the lowest column is in the set and its value is larger than v.
pub fn lowest_over(s: u32, v: f64, x: f64) -> bool
    ensures { result ≡ (eqb (s % 2) 1 && smaller v x) }
{
    s % 2 == 1 && v < x
}

// The columns of a set whose value in the row is larger than v.
pub fn above(row: &[f64], set: u32, v: f64) -> u32
    requires { length row.now ≤ 32 }
    ensures { result ≡ mask_of (columns_of (length row.now) set ∩ over v row.now) }
{
    let mut m: u32 = 0;
    let mut s = set;
    for (i, &x) in row.iter().enumerate() {
        if lowest_over(s, v, x) {
            m += bit(i);
        }
        s /= 2;
    }
    m
}

// Whether the lowest column is in the set and its value equals v.
fn lowest_is(s: u32, v: f64, x: f64) -> bool
    ensures { result ≡ (eqb (s % 2) 1 && equal v x) }
{
    s % 2 == 1 && order::equal(v, x)
}

// The lowest column of a set whose value in the row equals v; the number of columns where there is none.
pub fn lowest_equal(row: &[f64], set: u32, v: f64) -> usize
    ensures { result ≡ lowest (columns_of (length row.now) set ∩ equal_to v row.now) }
{
    let mut s = set;
    for (i, &x) in row.iter().enumerate() {
        if lowest_is(s, v, x) {
            return i;
        }
        s /= 2;
    }
    row.len()
}
