// What is read off the verdicts of a full run: the number that tells one, and how many are rejected. The report and the C calls tell these.
#![tactic(auto)]

ghost use Rattle.std.specs.Prelude.{◌≡◌};
ghost use Rattle.runs.specs.FullRuns.{is_rejected};
ghost use Rattle.verdicts.specs.Verdicts.{verdict_byte, rejected_count};

use runs::Verdict;

// The step that rejected; 0 where the verdict is kept, and 255 where the column is set aside.
pub fn verdict_byte(v: Verdict) -> usize
    ensures { result ≡ verdict_byte v }
{
    match v {
        Verdict::Rejected(step, _) => step,
        Verdict::Kept(_) => 0,
        Verdict::Aside => 255,
    }
}

fn is_rejected(v: &Verdict) -> bool
    ensures { result ≡ is_rejected v.now }
{
    match v {
        Verdict::Rejected(_, _) => true,
        Verdict::Kept(_) => false,
        Verdict::Aside => false,
    }
}

// How many of the first n verdicts are rejected; of all 32 where n is more.
#[tactic(auto, unfolding(crate::specs::Verdicts::rejected_count))]
pub fn rejected_count(verdicts: [Verdict; 32], n: usize) -> usize
    ensures { result ≡ rejected_count n verdicts }
{
    verdicts.iter().take(n).filter(|v| is_rejected(*v)).count()
}
