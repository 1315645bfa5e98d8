// The writer of trial files; the reader is `trialfile`. The definitions are in specs/, their laws and the round trips in proofs/.
#![tactic(auto)]

mod word; // a word, made of the values of its kind
mod writer; // the file of an accepted trial

ghost use Rattle.std.specs.Prelude.{◌≡◌, length};
ghost use Rattle.trialwriter.specs.Writings.{writing_of, after_writing};

use refusals::Refusal;
use trial::Trial;

// Writes a trial's file into the buffer's first places, and answers how long it is. Where the call is refused the buffer is as it was.
pub fn write(t: Trial, out: &mut [u8]) -> Result<usize, Refusal>
    ensures { (result ≡ writing_of t (length out.old)) × (out.new ≡ after_writing t out.old) }
{
    trial::check(t)?;
    let l = layouts::of_shape(t.shape);
    let length = 4 * (l.end + 1);
    Refusal::Buffer.if_true(out.len() < length)?;
    writer::write_words(t, l, out);
    Ok(length)
}
