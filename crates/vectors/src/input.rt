// The input: numbers, each a byte that tells how many bytes follow and then those, the highest first. After its end all are zero.
ghost use Rattle.vectors.specs.Parts.{Within};

use std::io::Read;

fn byte(rt: HostRuntime) -> u8 {
    let mut b = [0u8; 1];
    let _ = rt.stdin().read_exact(&mut b);
    b[0]
}

// The remainder, since the number has 64 bits whatever the input holds.
pub(crate) fn word(rt: HostRuntime) -> usize {
    let mut n: usize = 0;
    for _ in 0..byte(rt) {
        n = n % 72057594037927936 * 256 + usize::from(byte(rt));
    }
    n
}

// n, or all places where there are fewer.
pub(crate) fn places_of<X>(n: usize, xs: &[X]) -> usize
    ensures { Within result xs.now }
{
    n.min(xs.len())
}
