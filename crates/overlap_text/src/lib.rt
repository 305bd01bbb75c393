// Document 01, module 10: the query bases that a record has past its mate, by a text of the mate's ops.
#![tactic(auto)]

ghost use Rattle.std.specs.Prelude.{◌≡◌, ◌≤◌, length};
ghost use Rattle.answers.specs.Settled.{Settled};
ghost use Rattle.oplist.specs.Ops.{most_ops};
ghost use Rattle.sam.specs.Record.{mate_pos_of};
ghost use Rattle.text_rules.specs.Text.{text_ops};
ghost use Rattle.overlap_rules.specs.Overlap.{placed_pair, list_left, past_mate_text};

use answers::{Answer, Refusal};
use oplist::Lent;
use overlap_rules::Overhang;
use parsed_rules::Measured;

// Writes the n ops of a text that the strict reader takes, and counts. Refusals 4 and 6.
fn list_left(fr: bool, bam: &[u8], text: &[u8], n: u64, out: &mut [u32]) -> Answer<Overhang>
    requires { (32 ≤ length bam.now) × (length (text_ops text.now) ≡ n) × (n ≤ most_ops) }
    ensures { Settled (list_left (placed_pair fr bam.now (mate_pos_of bam.now)) bam.now (text_ops text.now) out.old) result out.new }
{
    let placed = overlap::placed_pair(fr, bam, fields::mate_place(bam))?;
    if (out.len() as u64) < n {
        return Err(Refusal::NoRoom);
    }
    measure_text::write_ops(text, out);
    let list = Lent::new(&out[..n as usize], oplist::MOST_OPS).unwrap();
    Ok(Overhang {
        bases: overlap::bases_at(Ok(placed), bam, list),
        written: n,
    })
}

// The query bases past the mate, whose ops are given as text; the ops go to the first places of out. A text that the strict reader refuses by 5 counts 0 and
// writes nothing. Refusals 1, 3, 2, 4 and 6.
pub fn num_bases_extending_past_mate_text_raw(
    bam: &[u8],
    text: &[u8],
    out: &mut [u32],
) -> Answer<Overhang>
    ensures { Settled (past_mate_text bam.now text.now out.old) result out.new }
{
    if bam.len() < 32 {
        return Err(Refusal::ShortRecord);
    }
    let Some(Measured { ops: n, refs: span }) = measure_text::measure(text) else {
        return Ok(Overhang {
            bases: 0,
            written: 0,
        });
    };
    if (oplist::MOST_OPS as u64) < n {
        return Err(Refusal::TooManyOps);
    }
    let fr = pairs::fr_with_mate(bam, span)?;
    list_left(fr, bam, text, n, out)
}
