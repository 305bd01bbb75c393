// Document 01, module 1: `RawRecordView` keeps the caller's record, of any length. A method is the call over that record, and refuses as it does.
#![tactic(auto)]

ghost use Rattle.std.specs.Prelude.{◌≡◌};
ghost use Rattle.answers.specs.Settled.{Settled};
ghost use Rattle.sam.specs.Record.{ref_id_of, pos_of, name_len_of, stored_bin_of, op_count_of, flags_of, seq_len_of, mate_ref_id_of, mate_pos_of, template_len_of};
ghost use Rattle.fields.specs.Fields.{int_field, nat_field, pos_field, part_refusal, cigar_part};
ghost use Rattle.true_rules.specs.True.{true_part, true_part_refusal};
ghost use Rattle.length_rules.specs.Lengths.{checked_ref_length, record_query_length, record_lengths};
ghost use Rattle.ends_rules.specs.Ends.{unclipped_of, alignment_start, alignment_end};
ghost use Rattle.print_rules.specs.Text.{printed};
ghost use Rattle.clip_rules.specs.Answer.{record_start, record_end};

use answers::{Answer, Pos0, Pos1};
use clip_rules::Clipped;
use ends_rules::Unclipped;
use fields::Part;
use length_rules::RecordLengths;

#[derive(Clone, Copy)]
pub struct RawRecordView<'a>(&'a [u8]);

impl<'a> RawRecordView<'a> {
    pub fn new(bam: &'a [u8]) -> RawRecordView<'a>
        ensures { result.0 ≡ bam.entry }
    {
        RawRecordView(bam)
    }

    pub fn as_bytes(&self) -> &'a [u8]
        ensures { result ≡ self.now.0 }
    {
        self.0
    }

    pub fn ref_id(&self) -> Answer<i32>
        ensures { result ≡ int_field ref_id_of self.now.0.now }
    {
        fields::ref_id(self.0)
    }

    pub fn pos(&self) -> Answer<Pos0>
        ensures { result ≡ pos_field pos_of self.now.0.now }
    {
        fields::pos(self.0)
    }

    pub fn l_read_name(&self) -> Answer<u32>
        ensures { result ≡ nat_field name_len_of self.now.0.now }
    {
        fields::l_read_name(self.0)
    }

    pub fn bin(&self) -> Answer<u32>
        ensures { result ≡ nat_field stored_bin_of self.now.0.now }
    {
        fields::bin(self.0)
    }

    pub fn n_cigar_op(&self) -> Answer<u32>
        ensures { result ≡ nat_field op_count_of self.now.0.now }
    {
        fields::n_cigar_op(self.0)
    }

    pub fn flags(&self) -> Answer<u32>
        ensures { result ≡ nat_field flags_of self.now.0.now }
    {
        fields::flags(self.0)
    }

    pub fn l_seq(&self) -> Answer<u32>
        ensures { result ≡ nat_field seq_len_of self.now.0.now }
    {
        fields::l_seq(self.0)
    }

    pub fn mate_ref_id(&self) -> Answer<i32>
        ensures { result ≡ int_field mate_ref_id_of self.now.0.now }
    {
        fields::mate_ref_id(self.0)
    }

    pub fn mate_pos(&self) -> Answer<Pos0>
        ensures { result ≡ pos_field mate_pos_of self.now.0.now }
    {
        fields::mate_pos(self.0)
    }

    pub fn template_length(&self) -> Answer<i32>
        ensures { result ≡ int_field template_len_of self.now.0.now }
    {
        fields::template_length(self.0)
    }

    // The part of the record that holds its ops: an empty part where they overrun it, and beside refusal 1.
    pub fn cigar_raw_bytes(&self) -> Part<'a>
        ensures { (result.refusal ≡ part_refusal self.now.0.now) × (result.part.now ≡ cigar_part self.now.0.now) }
    {
        fields::cigar_raw_bytes(self.0)
    }

    // The part of the record that holds its true op list, in its op area or in its tag CG: an empty part beside refusals 1, 2, 12, 13 and 3.
    pub fn true_cigar_raw_bytes(&self) -> Part<'a>
        ensures { (result.refusal ≡ true_part_refusal self.now.0.now) × (result.part.now ≡ true_part self.now.0.now) }
    {
        true_cigar::true_cigar_raw_bytes(self.0)
    }

    pub fn reference_length(&self) -> Answer<i32>
        ensures { result ≡ checked_ref_length self.now.0.now }
    {
        lengths::reference_length_from_raw_bam(self.0)
    }

    pub fn query_length(&self) -> Answer<u64>
        ensures { result ≡ record_query_length self.now.0.now }
    {
        lengths::query_length(self.0)
    }

    pub fn cigar_lengths(&self) -> Answer<RecordLengths>
        ensures { result ≡ record_lengths self.now.0.now }
    {
        lengths::cigar_lengths(self.0)
    }

    pub fn alignment_start_1based(&self) -> Answer<Option<Pos1>>
        ensures { result ≡ alignment_start self.now.0.now }
    {
        ends::alignment_start_from_raw(self.0)
    }

    pub fn alignment_end_1based(&self) -> Answer<Option<Pos1>>
        ensures { result ≡ alignment_end self.now.0.now }
    {
        ends::alignment_end_from_raw(self.0)
    }

    pub fn unclipped_5prime_1based(&self) -> Answer<Unclipped>
        ensures { result ≡ unclipped_of self.now.0.now }
    {
        unclipped::unclipped_5prime_from_raw_bam(self.0)
    }

    pub fn cigar_to_string(&self, out: &mut [u8]) -> Answer<u64>
        ensures { Settled (printed self.now.0.now out.old) result out.new }
    {
        print::cigar_to_bytes_into(self.0, out)
    }

    pub fn clip_cigar_start(&self, amount: u64, out: &mut [u32]) -> Answer<Clipped>
        ensures { Settled (record_start self.now.0.now amount out.old) result out.new }
    {
        clip::clip_cigar_start(self.0, amount, out)
    }

    pub fn clip_cigar_end(&self, amount: u64, out: &mut [u32]) -> Answer<u64>
        ensures { Settled (record_end self.now.0.now amount out.old) result out.new }
    {
        clip::clip_cigar_end(self.0, amount, out)
    }
}
