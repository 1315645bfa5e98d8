// Numbers and lines as text, each put after what a text of a fixed room holds; `give` puts a whole text into a lent buffer.
// The definitions are in specs/, their laws in proofs/.
#![tactic(auto)]

ghost use Rattle.std.specs.Prelude.{◌≡◌, [], ◌∷◌, ◌++◌, ◌+◌, ◌≤◌, length, T};
ghost use Rattle.std.specs.Float.{binary64};
ghost use Rattle.std.specs.Float.Ieee.{fits, in_signed};
ghost use Rattle.arrayvec.specs.ArrayString.{array_string_len};
ghost use Rattle.text.specs.Ascii.{ascii};
ghost use Rattle.text.specs.Text.{printed, decimal, decimal_int, cents, line};
ghost use Rattle.text.specs.Renderings.{text_answer, after_text};

use arrayvec::ArrayString;
use itoa::Buffer;
use refusals::Refusal;

fn push_number<const N: usize>(text: &mut ArrayString<N>, n: usize)
    requires room { array_string_len text.old + length (decimal n) ≤ N }
    ensures bytes { text.new.bytes ≡ text.old.bytes ++ decimal n }
    ensures len { array_string_len text.new ≡ array_string_len text.old + length (decimal n) }
{
    text.push_str(Buffer::new().format(n));
}

// a number after a space
pub fn push_field<const N: usize>(text: &mut ArrayString<N>, n: usize)
    requires room { array_string_len text.old + length (ascii " " ++ decimal n) ≤ N }
    ensures bytes { text.new.bytes ≡ text.old.bytes ++ (ascii " " ++ decimal n) }
    ensures len { array_string_len text.new ≡ array_string_len text.old + 1 + length (decimal n) }
{
    text.push_str(" ");
    push_number(text, n);
}

// the last `digits` digits of a code: leading zeros are given back
pub fn push_code<const N: usize>(text: &mut ArrayString<N>, code: usize, digits: usize)
    requires room { array_string_len text.old + digits ≤ N }
    ensures bytes { text.new.bytes ≡ text.old.bytes ++ printed digits code }
    ensures len { array_string_len text.new ≡ array_string_len text.old + digits }
{
    if digits > 0 {
        push_code(text, code / 10, digits - 1);
        push_number(text, code % 10);
    }
}

// a critical value in cents after a space: a minus sign before a negative one
pub fn push_cents<const N: usize>(text: &mut ArrayString<N>, c: f64)
    requires whole { T (fits binary64 c) × T (in_signed binary64 63 c) }
    requires room { array_string_len text.old + length (ascii " " ++ decimal_int (cents c)) ≤ N }
    ensures bytes { text.new.bytes ≡ text.old.bytes ++ (ascii " " ++ decimal_int (cents c)) }
    ensures len { array_string_len text.new ≡ array_string_len text.old + 1 + length (decimal_int (cents c)) }
{
    text.push_str(" ");
    text.push_str(Buffer::new().format(c as i64));
}

// a word, a number and a line end
pub fn push_numbered<const N: usize>(text: &mut ArrayString<N>, word: &str, n: usize)
    requires room { array_string_len text.old + length (line word.now (decimal n ∷ [])) ≤ N }
    ensures bytes { text.new.bytes ≡ text.old.bytes ++ line word.now (decimal n ∷ []) }
{
    text.push_str(word);
    push_field(text, n);
    text.push_str("\n");
}

// A whole text into the buffer's first places: its length. Where the buffer is too short it is refused, and the buffer unchanged.
#[tactic(auto, unfolding(crate::specs::Renderings::text_answer, crate::specs::Renderings::after_text, refusals::specs::Answers::answer))]
pub fn give(text: &[u8], out: &mut [u8]) -> Result<usize, Refusal>
    ensures value { result ≡ text_answer text.now (length out.old) }
    ensures out_after { out.new ≡ after_text text.now out.old }
{
    let n = text.len();
    Refusal::Buffer.if_true(out.len() < n)?;
    out[..n].copy_from_slice(text);
    Ok(n)
}
