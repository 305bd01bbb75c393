// How the lengths of an op list cross the C border. An inner crate of the static libraries `exports` and `exports_long`.
#![tactic(auto)]

ghost use Rattle.std.specs.Prelude.{◌≡◌};
ghost use Rattle.length_rules.specs.Lengths.{tell_lengths};
ghost use Rattle.border.specs.Border.{lengths_of};

use answers::Answer;
use border::ToldLengths;
use length_rules::RecordLengths;

// Reference and query length, and the clips at both ends. No `From`: both types are of other crates (`orphan-impl`).
pub fn told_lengths(answer: Answer<RecordLengths>) -> ToldLengths
    ensures { result ≡ lengths_of (tell_lengths answer) }
{
    match answer {
        Ok(
            RecordLengths {
                reference,
                query,
                leading,
                trailing,
            },
        ) => ToldLengths {
            refusal: 0,
            reference,
            query,
            leading_soft: leading.soft,
            leading_hard: leading.hard,
            trailing_soft: trailing.soft,
            trailing_hard: trailing.hard,
        },
        Err(why) => ToldLengths {
            refusal: answers::number(why),
            ..Default::default()
        },
    }
}
