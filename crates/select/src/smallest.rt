// The m-th smallest of a slice by the 64-bit order: its place bit by bit from the top. Each pass over the values settles one bit more; a pass that
// gathers the bits of the values left settles all that they share. Nothing is moved.
ghost use Rattle.std.specs.Prelude.{◌≡◌, cond, ◌+◌, ◌-◌, ◌^◌, ◌<◌, ◌≤◌, T, ltb, length};
ghost use Rattle.order.specs.Order.{finite};
ghost use Rattle.order.specs.Places.{value_at};
ghost use Rattle.order.specs.Counting.{all};
ghost use Rattle.select.specs.Rank.{mth_smallest};
ghost use Rattle.select.specs.Passes.{top_bits, passed};
ghost use Rattle.select.specs.Internal.{Holds};

use super::scans;

// The place of the m-th smallest with its lowest `free` bits zero: it is one of the 2^free places from here on, those that are left.
// The rest only tells when gathering pays: of the values, `under` stand below the places left, and `upto` in them or below; `unsplit` says that
// the last pass told none of those left apart.
#[derive(Clone, Copy)]
pub struct Held {
    pub place: u64,
    pub free: u32,
    pub under: usize,
    pub upto: usize,
    pub unsplit: bool,
}

// Bit j alone.
fn bit(j: u32) -> u64
    requires { j < 64 }
    ensures { result ≡ 2 ^ j }
{
    1u64 << j
}

// How many of the lowest bits are enough for d.
fn bits_of(d: u64) -> u32
    ensures { (result ≤ 64) × (d < 2 ^ result) }
{
    u64::BITS - d.leading_zeros()
}

// p with its lowest `free` bits zero.
fn cleared(p: u64, free: u32) -> u64
    requires { free < 64 }
    ensures { result ≡ top_bits free p }
{
    p - p % bit(free)
}

// The value at the first place after the 2^o from p on.
fn value_past(p: u64, o: u32) -> f64
    requires { (o < 64) × (p + 2 ^ o ≤ 2 ^ 64) }
    ensures { result ≡ value_at (p + 2 ^ o) }
{
    match p.checked_add(bit(o)) {
        Some(end) => order::value_at(end),
        None => f64::INFINITY,
    }
}

impl Held {
    ghost use Rattle.std.specs.Prelude.{◌≡◌, cond, ◌-◌, ◌<◌, ltb};

    // One bit more, `middle` being the place with that bit set: it is set where n, the number of values below it, is less than m.
    fn one_bit(self, middle: u64, n: usize, m: usize) -> Held
        requires { 0 < self.free }
        ensures { (result.place ≡ cond (ltb n m) middle self.place) × (result.free ≡ self.free - 1) }
    {
        let free = self.free - 1;
        if n < m {
            Held {
                place: middle,
                free,
                under: n,
                unsplit: n == self.under,
                ..self
            }
        } else {
            Held {
                free,
                upto: n,
                unsplit: n == self.upto,
                ..self
            }
        }
    }

    // Whether the next pass is to gather, which takes as long as some three others: once the sign is settled; where one value is left; and, where the last
    // pass told no values apart, at every sixth bit. Not for the last bit, which any pass settles. Either answer is right.
    fn worth_gathering(self) -> bool {
        2 <= self.free
            && (self.free == 63
                || self.upto.saturating_sub(self.under) == 1
                || self.unsplit && self.free % 6 == 0)
    }
}

// Finite values, and the rank that is sought among them.
#[derive(Clone, Copy)]
struct Sought<'a> {
    values: &'a [f64],
    m: usize,
    ghost finite: { T (all finite values.now) },
    ghost rank: { (0 < m) × (m ≤ length values.now) },
}

impl<'a> Sought<'a> {
    ghost use Rattle.std.specs.Prelude.{◌≡◌, ◌-◌, ◌<◌};
    ghost use Rattle.select.specs.Passes.{passed};
    ghost use Rattle.select.specs.Internal.{Holds};

    // One pass, one bit more.
    fn pass(self, h: Held) -> Held
        requires { Holds self.m self.values.now h × (0 < h.free) }
        ensures { (result.place ≡ passed self.entry.m self.entry.values.now (h.free - 1) h.place) × (result.free ≡ h.free - 1) × Holds self.entry.m self.entry.values.now result }
    {
        let middle = h.place + bit(h.free - 1);
        let n = scans::count_below(self.values, order::value_at(middle));
        h.one_bit(middle, n, self.m)
    }

    // One pass, and all bits that the values left share: free stay those from the highest in which some of them differ, and none where all are equal.
    // Where they share none, it is one bit more.
    fn gathering_pass(self, h: Held) -> Held
        requires { Holds self.m self.values.now h × (0 < h.free) }
        ensures { (result.free < h.free) × Holds self.entry.m self.entry.values.now result }
    {
        let o = h.free - 1;
        let middle = h.place + bit(o);
        let left = scans::gather(
            self.values,
            order::value_at(middle),
            order::value_at(h.place),
            value_past(middle, o),
        );
        let free = bits_of(left.any ^ left.every);
        if free < h.free {
            Held {
                place: cleared(order::bits_place(left.any), free),
                free,
                unsplit: false,
                ..h
            }
        } else {
            h.one_bit(middle, left.below, self.m)
        }
    }
}

// The m-th smallest, m from 1.
pub fn mth_smallest(xs: &[f64], m: usize) -> f64
    requires { T (all finite xs.now) × (0 < m) × (m ≤ length xs.now) }
    ensures { result ≡ mth_smallest m xs.now }
{
    let sought = Sought { values: xs, m };
    let mut h = Held {
        place: 0,
        free: 64,
        under: 0,
        upto: xs.len(),
        unsplit: false,
    };
    // Not counted: a pass may settle many bits.
    while 0 < h.free {
        h = if h.worth_gathering() {
            sought.gathering_pass(h)
        } else {
            sought.pass(h)
        };
    }
    order::value_at(h.place)
}
