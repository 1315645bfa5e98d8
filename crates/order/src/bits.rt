// The 64-bit order: the place of a bit pattern, and the value at a place.
ghost use Rattle.std.specs.Prelude.{◌≡◌};
ghost use Rattle.order.specs.Places.{bits_place, bits_at, value_at};

// The sign's bit.
const SIGN: u64 = 1 << 63;

// The place of a bit pattern: the sign's bit set where it is clear, and all bits turned where it is set.
#[tactic(auto, using(std::proofs::lemmas::Bool::Decides::nat_tests), unfolding(crate::specs::Places::bits_place))]
pub fn bits_place(bits: u64) -> u64
    ensures { result ≡ bits_place bits }
{
    if bits < SIGN {
        bits + SIGN
    } else {
        u64::MAX - bits
    }
}

// The bit pattern at a place.
#[tactic(auto, using(std::proofs::lemmas::Bool::Decides::nat_tests), unfolding(crate::specs::Places::bits_at))]
fn bits_at(p: u64) -> u64
    ensures { result ≡ bits_at p }
{
    if p < SIGN { u64::MAX - p } else { p - SIGN }
}

// The value at a place; minus infinity below the finite values' places, and infinity above them.
pub fn value_at(p: u64) -> f64
    ensures { result ≡ value_at p }
{
    if 0xFFF0_0000_0000_0000 <= p {
        f64::INFINITY
    } else if p <= 0x000F_FFFF_FFFF_FFFF {
        f64::NEG_INFINITY
    } else {
        f64::from_bits(bits_at(p))
    }
}
