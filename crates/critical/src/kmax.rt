// A row's k-max: its k-th largest value over a list of columns, in one pass that keeps the k largest values and takes no branch.
ghost use Rattle.std.specs.Prelude.{◌≡◌, map, ◌<◌, ◌≤◌, T, ltb, length, get_or, take};
ghost use Rattle.std.specs.Float.{nan};
ghost use Rattle.order.specs.Order.{finite};
ghost use Rattle.order.specs.Counting.{all};
ghost use Rattle.select.specs.Rank.{kth_largest};
ghost use Rattle.columns.specs.Columns.{size, columns_of};
ghost use Rattle.critical.specs.Internal.{pushed, members_from};

// The columns of a set, in rising order, in the first places: as many as the set has.
pub(crate) fn members(columns: usize, set: u32) -> [usize; 32]
    requires { columns ≤ 32 }
    ensures { (size (columns_of columns set) ≤ length result) × (take (size (columns_of columns set)) result ≡ members_from 0 (columns_of columns set)) }
{
    let mut at = [0usize; 32];
    let mut n: usize = 0;
    let mut s = set;
    for i in 0..columns {
        if s % 2 == 1 {
            at[n] = i;
            n += 1;
        }
        s /= 2;
    }
    at
}

// The largest values so far, in falling order, with x seen too: each place keeps the larger of its value and what the place before it gives up.
#[inline(always)]
fn push(largest: &mut [f64], x: f64)
    ensures { largest.new ≡ pushed largest.old x }
{
    let mut given_up = x;
    for value in largest.iter_mut() {
        let rest = order::lesser(*value, given_up);
        *value = order::larger(*value, given_up);
        given_up = rest;
    }
}

// The K-th largest of a row's values at the listed columns. K is a constant: each has a loop of its own then, and a plain maximum is left for K = 1.
fn kth<const K: usize>(row: &[f64], list: &[usize]) -> f64
    requires { T (all finite row.now) × T (all (λ j. ltb j (length row.now)) list.now) × (0 < K) × (K ≤ 4) × (K ≤ length list.now) }
    ensures { result ≡ kth_largest K (map (λ j. get_or row.now j nan) list.now) }
{
    let mut largest = [f64::NEG_INFINITY; K];
    for &j in list {
        push(&mut largest, row[j]);
    }
    order::plus_zero(largest[K - 1])
}

// The k-th largest of a row's values at the listed columns.
pub(crate) fn kmax(row: &[f64], list: &[usize], k: usize) -> f64
    requires { T (all finite row.now) × T (all (λ j. ltb j (length row.now)) list.now) × (0 < k) × (k ≤ 4) × (k ≤ length list.now) }
    ensures { result ≡ kth_largest k (map (λ j. get_or row.now j nan) list.now) }
{
    match k {
        1 => kth::<1>(row, list),
        2 => kth::<2>(row, list),
        3 => kth::<3>(row, list),
        _ => kth::<4>(row, list),
    }
}
