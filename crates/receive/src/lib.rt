// Document 02, item 14: whether a received record is the one that item 8 would write of the record that was sent. The received record is compared with the plan, part by part;
// nothing is written.
#![tactic(auto)]

ghost use Rattle.std.specs.Prelude.{◌≡◌, ◌+◌, ◌≤◌, length};
ghost use Rattle.sam.specs.Record.{name_len_of, op_count_of, seq_len_of, tags_start};
ghost use Rattle.record_rules.specs.Clipping.{clipped_fate};
ghost use Rattle.record_rules.specs.InnerPlan.{change_by, Fits};
ghost use Rattle.receive_rules.specs.Receiving.{compared, weighed, received_as, checked_start, checked_end};
ghost use Rattle.receive_rules.specs.InnerCompared.{behind_ops, behind_header};

use answers::{Answer, Refusal};
use clip_rules::Plan;
use receive_rules::Part;
use record_rules::RecordPlan;

// Whether the received record is the sent one clipped by `amount` bases at its start, and else the first part that differs. Refusals 1, 2, 8, 19, 15, 16, 4, 23, 24.
pub fn check_clipped_start(sent: &[u8], amount: u64, received: &[u8]) -> Answer<Option<Part>>
    ensures { result ≡ checked_start sent.now amount received.now }
{
    check_clipped(&*sent, amount, true, &*received)
}

// The same at the end. Refusals 1, 2, 8, 19, 15, 16, 4, 23, 24.
pub fn check_clipped_end(sent: &[u8], amount: u64, received: &[u8]) -> Answer<Option<Part>>
    ensures { result ≡ checked_end sent.now amount received.now }
{
    check_clipped(&*sent, amount, false, &*received)
}

// Both ends. The records are lent anew to each call, so that their places and lengths are handed on in registers (`record_write`).
fn check_clipped(sent: &[u8], amount: u64, start: bool, received: &[u8]) -> Answer<Option<Part>>
    ensures { result ≡ received_as received.now sent.now (clipped_fate sent.now amount start) }
{
    let p = record_plan::plan_record(&*sent, amount, start)?;
    weigh(&*received, &*sent, p, start)
}

// A received record beside the plan of the one that was sent. Refusals 23, 24.
fn weigh(got: &[u8], rec: &[u8], p: RecordPlan, start: bool) -> Answer<Option<Part>>
    requires fits { Fits rec.now p }
    requires n_bound { p.n ≤ 65535 }
    ensures { result ≡ weighed got.now rec.now (change_by rec.now start p) }
{
    if got.len() < 32 {
        return Err(Refusal::ReceivedShort);
    }
    if got.len() < record_parts::tags_start(got) {
        return Err(Refusal::ReceivedCut);
    }
    compare(got, rec, p, start)
}

// The first part that differs.
fn compare(got: &[u8], rec: &[u8], p: RecordPlan, start: bool) -> Answer<Option<Part>>
    requires fits { Fits rec.now p }
    requires n_bound { p.n ≤ 65535 }
    requires got_in_bounds { tags_start got.now ≤ length got.now }
    ensures { result ≡ compared got.now rec.now (change_by rec.now start p) }
{
    if !receive_header::same_header(got, rec, p) {
        return Ok(Some(Part::Header));
    }
    compare_behind(got, rec, p, start)
}

// The first part behind the header that differs.
fn compare_behind(got: &[u8], rec: &[u8], p: RecordPlan, start: bool) -> Answer<Option<Part>>
    requires fits { Fits rec.now p }
    requires got_in_bounds { tags_start got.now ≤ length got.now }
    requires got_value { name_len_of got.now ≡ name_len_of rec.now }
    requires got_value_2 { op_count_of got.now ≡ p.n }
    requires got_value_3 { seq_len_of got.now ≡ p.len }
    ensures { result ≡ behind_header got.now rec.now (change_by rec.now start p) }
{
    let name = little_endian::u8_at(rec, 8) as usize;
    let n = little_endian::u16_at(rec, 12) as usize;
    let ops: Plan = p.ops;
    if !receive_parts::same_bytes(got, 32, rec, 32, name) {
        return Ok(Some(Part::Name));
    }
    if !receive_parts::same_ops(got, 32 + name, rec, 32 + name, n, ops, start) {
        return Ok(Some(Part::Ops));
    }
    compare_tail(got, rec, p.from as usize, p.len as usize)
}

// The first part behind the ops that differs.
fn compare_tail(got: &[u8], rec: &[u8], from: usize, n: usize) -> Answer<Option<Part>>
    requires rec_in_bounds { tags_start rec.now ≤ length rec.now }
    requires n_bound { from + n ≤ seq_len_of rec.now }
    requires got_in_bounds { tags_start got.now ≤ length got.now }
    requires got_value { seq_len_of got.now ≡ n }
    ensures { result ≡ behind_ops got.now rec.now from n }
{
    let bases = record_parts::bases_start(rec);
    let quals = record_parts::quals_start(rec);
    let tags = record_parts::tags_start(rec);
    if !receive_parts::same_bases(got, record_parts::bases_start(got), rec, bases, from, n) {
        return Ok(Some(Part::Bases));
    }
    if !receive_parts::same_bytes(got, record_parts::quals_start(got), rec, quals + from, n) {
        return Ok(Some(Part::Qualities));
    }
    if !receive_parts::same_rest(got, record_parts::tags_start(got), rec, tags) {
        return Ok(Some(Part::Tags));
    }
    Ok(None)
}
