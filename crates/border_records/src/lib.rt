// How the receiving check's answer crosses the C border. An inner crate of the static library `exports_records`.
#![tactic(auto)]

ghost use Rattle.std.specs.Prelude.{◌≡◌};
ghost use Rattle.receive_rules.specs.Receiving.{part_number, tell_received};
ghost use Rattle.border.specs.Border.{count_of};

use answers::Answer;
use border::ToldCount;
use receive_rules::Part;

// The number of a part.
fn part_number(part: Part) -> u64
    ensures { result ≡ part_number part }
{
    part as u64
}

// 0 for accepted, or the number of the part that differs.
// No `From`: both types are other crates'.
pub fn told_received(answer: Answer<Option<Part>>) -> ToldCount
    ensures { result ≡ count_of (tell_received answer) }
{
    answer.map(|part| part.map_or(0, part_number)).into()
}
