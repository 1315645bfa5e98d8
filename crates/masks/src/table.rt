// A table that has passed its checks.
ghost use Rattle.std.specs.Prelude.{◌≡◌, [], ◌<◌, length, get_or};
ghost use Rattle.order.specs.Lists.{rows_of};
ghost use Rattle.masks.specs.Internal.{CheckedTable};

// M rows of some columns each, row after row, and k.
#[derive(Clone, Copy)]
pub struct Table<'a> {
    pub values: &'a [f64],
    pub rows: usize,
    pub columns: usize,
    pub k: usize,
    pub ghost checked: { CheckedTable values.now rows columns k },
}

impl<'a> Table<'a> {
    // Row g.
    #[inline(always)]
    pub fn row(self, g: usize) -> &'a [f64]
        requires { g < self.rows }
        ensures { result.now ≡ get_or (rows_of self.entry.rows self.entry.columns self.entry.values.now) g [] }
    {
        &self.values[g * self.columns..(g + 1) * self.columns]
    }
}
