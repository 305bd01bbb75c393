// Document 02, item 1: a record's true op list, which may stand in its tag CG: the part of the record that holds it, and the calls that read it. Each is the walk that
// reads a record's own list, over the list that `tags` finds.
#![tactic(auto)]

ghost use Rattle.std.specs.Prelude.{◌≡◌};
ghost use Rattle.answers.specs.Settled.{Settled};
ghost use Rattle.true_rules.specs.True.{true_part, true_part_refusal, true_ops, true_printed, true_lengths};

use answers::Answer;
use fields::Part;
use length_rules::RecordLengths;

// The part of the record that holds its true list; empty beside a refusal.
fn true_bytes(bam: &[u8]) -> &[u8]
    ensures { result.now ≡ true_part bam.now }
{
    let Ok(area) = tags::true_list(bam) else {
        return &bam[..0];
    };
    let end = area.at + 4 * (area.n as usize);
    &bam[area.at..end]
}

// The number that stands beside that part.
fn true_refusal(bam: &[u8]) -> u32
    ensures { result ≡ true_part_refusal bam.now }
{
    match tags::true_list(bam) {
        Ok(_) => 0,
        Err(why) => answers::number(why),
    }
}

// The part of the record that holds its true list: an empty part beside refusals 1, 2, 12, 13 and 3.
pub fn true_cigar_raw_bytes<'a>(bam: &'a [u8]) -> Part<'a>
    ensures { (result.refusal ≡ true_part_refusal bam.now) × (result.part.now ≡ true_part bam.now) }
{
    let refusal = true_refusal(bam);
    let part = true_bytes(bam);
    Part { refusal, part }
}

// The ops of the true list, in the first places of out. Refusals 1, 2, 12, 13, 3 and 6.
pub fn true_cigar_ops(bam: &[u8], out: &mut [u32]) -> Answer<u64>
    ensures { Settled (true_ops bam.now out.old) result out.new }
{
    let area = tags::true_list(bam)?;
    copied_ops::copy_ops(oplist::ops_at(bam, area), out)
}

// The text of the true list, in the first places of out. Refusals 1, 2, 12, 13, 3, 7 and 6.
pub fn true_cigar_to_bytes_into(bam: &[u8], out: &mut [u8]) -> Answer<u64>
    ensures { Settled (true_printed bam.now out.old) result out.new }
{
    let area = tags::true_list(bam)?;
    print::print_ops(oplist::ops_at(bam, area), out)
}

// The lengths of the true list, and the clips at its ends. Refusals 1, 2, 12, 13, 3 and 4.
pub fn true_cigar_lengths(bam: &[u8]) -> Answer<RecordLengths>
    ensures { result ≡ true_lengths bam.now }
{
    let area = tags::true_list(bam)?;
    list_lengths::list_lengths(oplist::ops_at(bam, area))
}
