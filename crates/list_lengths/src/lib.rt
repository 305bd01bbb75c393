// Document 01, module 3: the lengths of a list that lies in a record, and the clips at its ends. An inner crate: `lengths` asks it of a record's own ops, and
// `true_cigar` of its true list.
#![tactic(auto)]

ghost use Rattle.std.specs.Prelude.{◌≡◌};
ghost use Rattle.length_rules.specs.Lengths.{list_lengths};
ghost use Rattle.list_lengths.specs.InnerLengths.{of_clips};

use answers::Answer;
use length_rules::{Clips, RecordLengths};
use oplist::{Facing, OpList};

// The lengths of a record that has no op but clips.
fn of_clips(soft: u64, hard: u64) -> RecordLengths
    ensures { result ≡ of_clips soft hard }
{
    RecordLengths {
        reference: 0,
        query: soft,
        leading: Clips { soft, hard },
        trailing: Clips { soft: 0, hard: 0 },
    }
}

// The lengths of a list, and the clips at its ends. Refusal 4. The runs of clips are walked from both ends and the sums between them, so that
// each op is read once, but for the two that end a run.
pub fn list_lengths<L: OpList>(list: L) -> Answer<RecordLengths>
    ensures { result ≡ list_lengths (L.ops list) }
{
    let n = list.count();
    if n == 0 {
        return Ok(of_clips(0, 0));
    }
    let first = clip_runs::clip_run(list);
    if first.next == n {
        return Ok(of_clips(first.soft, first.hard));
    }
    let last = clip_runs::clip_run(Facing::new(list, false));
    let inner = op_sums::sums_between(list, first.next, n - last.next);
    let reference = op_sums::as_int(inner.refs)?;
    Ok(RecordLengths {
        reference,
        query: first.soft + inner.query + last.soft,
        leading: Clips {
            soft: first.soft,
            hard: first.hard,
        },
        trailing: Clips {
            soft: last.soft,
            hard: last.hard,
        },
    })
}
