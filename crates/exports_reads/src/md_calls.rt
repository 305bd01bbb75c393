// Matches told apart from MD.
ghost use Rattle.answers.specs.Answers.{tell_count};
ghost use Rattle.answers.specs.Settled.{Settled};
ghost use Rattle.md_rules.specs.Rule.{match_ops};
ghost use Rattle.border.specs.Border.{count_of, across};

use border::ToldCount;

#[unsafe(no_mangle)]
pub extern "C" fn cigar_match_ops_from_md(ops: &[u32], text: &[u8], out: &mut [u32]) -> ToldCount
    ensures { Settled (across count_of tell_count (match_ops ops.now text.now out.old)) result out.new }
{
    md::match_ops_from_md(ops, text, out).into()
}
