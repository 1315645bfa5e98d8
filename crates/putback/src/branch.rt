// Where the walk stands: at the sets of the columns of `set` with each choice of `left` columns among those of `rest`, which start at column `from`.
ghost use Rattle.std.specs.Prelude.{◌≡◌, ◌<◌, ◌+◌, ◌^◌};
ghost use Rattle.putback.specs.Internal.{with, without};

#[derive(Clone, Copy)]
pub struct Branch {
    pub set: u32,
    pub rest: u32,
    pub from: usize,
    pub left: usize,
}

// The next column is chosen.
pub(crate) fn with_next(b: Branch) -> Branch
    requires { (b.from < 32) × (b.set + 2 ^ b.from < 2 ^ 32) × (0 < b.left) }
    ensures { result ≡ with b }
{
    Branch {
        set: b.set + masks::bit(b.from),
        rest: b.rest / 2,
        from: b.from + 1,
        left: b.left - 1,
    }
}

// It is passed over.
pub(crate) fn without_next(b: Branch) -> Branch
    requires { b.from < 32 }
    ensures { result ≡ without b }
{
    Branch {
        rest: b.rest / 2,
        from: b.from + 1,
        ..b
    }
}
