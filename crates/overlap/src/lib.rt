// Document 01, module 10: the query bases that a record has past its mate, by the mate's ops or its record.
#![tactic(auto)]

ghost use Rattle.std.specs.Prelude.{◌≡◌, ◌≤◌, Ok, length};
ghost use Rattle.overlap_rules.specs.Overlap.{placed_pair, bases_at, pair_overhang, past_mate_cigar, past_mate_record};

use answers::{Answer, Pos0, Pos1, Refusal};
use oplist::{Lent, OpList};
use overlap_rules::PairPlaces;

// Where a record and its mate lie, with the mate's place as a record has it; none where they are no FR pair. Refusal 4.
pub fn placed_pair(fr: bool, bam: &[u8], mate: Pos0) -> Answer<Option<PairPlaces>>
    requires { 32 ≤ length bam.now }
    ensures { result ≡ placed_pair fr bam.now mate.0 }
{
    if !fr {
        return Ok(None);
    }
    let own = ends::plus_one(fields::own_place(bam)).ok_or(Refusal::Overflow)?;
    let other = ends::plus_one(mate).ok_or(Refusal::Overflow)?;
    Ok(Some(PairPlaces {
        own: Pos1(own),
        mate: Pos1(other),
    }))
}

// The overhang of a record that lies so to its mate; 0 where it does not.
pub fn bases_at<L: OpList>(placed: Answer<Option<PairPlaces>>, bam: &[u8], mate_list: L) -> u64
    requires { 32 ≤ length bam.now }
    ensures { result ≡ bases_at placed bam.now (L.ops mate_list) }
{
    let Ok(Some(places)) = placed else {
        return 0;
    };
    let reverse = fields::is_reverse(little_endian::u16_at(bam, 14));
    overhang::overhang(
        reverse,
        places.own,
        oplist::of_record(bam),
        places.mate,
        mate_list,
    )
}

// The overhang by the answer of the pair test. Refusal 4.
fn pair_overhang<L: OpList>(fr: bool, bam: &[u8], mate: Pos0, mate_list: L) -> Answer<u64>
    requires { 32 ≤ length bam.now }
    ensures { result ≡ pair_overhang (Ok fr) bam.now mate.0 (L.ops mate_list) }
{
    let placed = placed_pair(fr, bam, mate)?;
    Ok(bases_at(Ok(placed), bam, mate_list))
}

// The query bases past the mate, whose ops are given. Refusals 1, 3, 2 and 4.
pub fn num_bases_extending_past_mate_cigar_raw(bam: &[u8], mate_ops: &[u32]) -> Answer<u64>
    ensures { result ≡ past_mate_cigar bam.now mate_ops.now }
{
    if bam.len() < 32 {
        return Err(Refusal::ShortRecord);
    }
    let list = Lent::new(mate_ops, oplist::MOST_OPS).ok_or(Refusal::TooManyOps)?;
    let total = op_sums::sums(list);
    let fr = pairs::fr_with_mate(bam, op_sums::saturated(total.refs));
    if let Ok(false) = fr {
        return Ok(0);
    }
    if !validity::valid(list) {
        return Ok(0);
    }
    pair_overhang(fr?, bam, fields::mate_place(bam), list)
}

// The query bases past the mate, whose record is given. Refusals 1, 2 and 4.
pub fn num_bases_extending_past_mate_vs_mate_raw(rec: &[u8], mate: &[u8]) -> Answer<u64>
    ensures { result ≡ past_mate_record rec.now mate.now }
{
    if rec.len() < 32 {
        return Err(Refusal::ShortRecord);
    }
    if mate.len() < 32 {
        return Err(Refusal::ShortRecord);
    }
    let fr = pairs::primary_fr(rec, mate)?;
    pair_overhang(fr, rec, fields::own_place(mate), oplist::of_record(mate))
}
