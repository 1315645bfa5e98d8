// The reader of trial files; the writer is `trialwriter`. The definitions are in specs/, their laws in proofs/.
#![tactic(auto)]

mod judging; // what a file is turned away for
mod reader; // the trial of an accepted file

ghost use Rattle.std.specs.Prelude.{◌≡◌};
ghost use Rattle.trialfile.specs.Files.{reading_of};

use refusals::Refusal;
use trial::Trial;

// Reads a file: the trial that it holds, or its refusal.
pub fn read(file: &[u8]) -> Result<Trial, Refusal>
    ensures { result ≡ reading_of file.now }
{
    judging::judge(file)?;
    Ok(reader::read_trial(file))
}
