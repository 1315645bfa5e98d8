// The count of rows that a value needs: the masks of the rows' columns that reach it are made once, and each set of columns is one look at them.
ghost use Rattle.std.specs.Prelude.{◌≡◌, false, map, ◌++◌, ◌<◌, ◌≤◌, ◌-◌, max, length, replicate};
ghost use Rattle.columns.specs.Columns.{◌∪◌, choose, columns_of};
ghost use Rattle.masks.specs.Internal.{Walk};
ghost use Rattle.masks.specs.Marks.{holding_columns};
ghost use Rattle.adjustment.specs.Passes.{largest_of};
ghost use Rattle.figuring.specs.Internal.{Countable, needed_in};

// The largest of `best` and the counts of `set` with each choice of `left` columns among those of `rest`, which start at column `from`: one column is
// chosen and then, with one fewer to choose, later ones. A row that holds k columns in the end holds all but those still to choose now: a choice that
// too few rows bear out is left at once.
fn walk(
    marks: &[u32],
    columns: usize,
    k: usize,
    set: u32,
    rest: u32,
    from: usize,
    left: usize,
    best: usize,
) -> usize
    requires { Walk columns set rest from × (columns ≤ 32) × (length marks.now ≤ 4096) × (k ≤ 4) × (0 < left) × (left < k) }
    ensures { result ≡ max best (largest_of (map (λ I. holding_columns k (columns_of columns set ∪ (replicate from false ++ I)) marks.now) (choose left (columns_of (columns - from) rest)))) }
{
    if rest == 0 {
        return best;
    }
    if rest % 2 == 0 {
        return walk(marks, columns, k, set, rest / 2, from + 1, left, best);
    }
    let chosen = set + masks::bit(from);
    let c = masks::count_holding(marks, chosen, k + 1 - left);
    if c <= best {
        return walk(marks, columns, k, set, rest / 2, from + 1, left, best);
    }
    if left == 1 {
        return walk(marks, columns, k, set, rest / 2, from + 1, left, c);
    }
    let b = walk(
        marks,
        columns,
        k,
        chosen,
        rest / 2,
        from + 1,
        left - 1,
        best,
    );
    walk(marks, columns, k, set, rest / 2, from + 1, left, b)
}

// The larger of `best` and the count that is needed with the columns of `passed` passed, for k above 1.
pub(crate) fn needed(
    marks: &[u32],
    columns: usize,
    k: usize,
    live: u32,
    passed: u32,
    best: usize,
) -> usize
    requires { Countable marks.now columns k live passed }
    ensures { result ≡ max best (needed_in k marks.now (columns_of columns live) (columns_of columns passed)) }
{
    if masks::size_of(columns, passed) < k {
        return best.max(masks::count_holding(marks, live, k));
    }
    let left = live - passed;
    let c = masks::count_holding(marks, left, 1);
    if c <= best {
        return best;
    }
    walk(marks, columns, k, left, passed, 0, k - 1, best)
}
