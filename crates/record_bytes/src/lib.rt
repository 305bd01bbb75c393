// What stands before and behind the ops of a clipped record: the header and the name; bases, qualities and tags. An inner crate.
// Buffers come with a place in them: it is a sum of a record's parts, and for slices each caller would cut at two such sums.
#![tactic(auto)]

ghost use Rattle.std.specs.Prelude.{◌≡◌, Bool, ◌++◌, ◌+◌, ◌-◌, ◌/◌, ◌≤◌, length};
ghost use Rattle.lists.specs.Lists.{splice};
ghost use Rattle.sam.specs.Record.{name_len_of, seq_len_of, tags_start};
ghost use Rattle.sam.specs.Bases.{packed};
ghost use Rattle.sam.specs.Parts.{part, quals_part, tags_part, record_bases};
ghost use Rattle.record_rules.specs.Written.{new_header, new_name};
ghost use Rattle.record_rules.specs.InnerPlan.{change_by, Fits};

use record_rules::RecordPlan;

// The header with its new numbers, and the name.
pub fn put_front(rec: &[u8], p: RecordPlan, out: &mut [u8])
    requires fits { Fits rec.now p }
    requires rec_in_bounds { 32 + name_len_of rec.now ≤ length out.old }
    ensures { (start : Bool) → out.new ≡ splice out.old 0 (new_header rec.now (change_by rec.now start p) ++ new_name rec.now (change_by rec.now start p)) }
{
    let n = 32 + little_endian::u8_at(rec, 8) as usize;
    record_parts::copy_bytes(&rec[..n], &mut out[..n]);
    record_parts::put_u32(signed::bits32(p.place), out, 4);
    record_parts::put_u16(p.bin, out, 10);
    record_parts::put_u16(p.n, out, 12);
    record_parts::put_u32(p.len, out, 16);
}

// The bases and qualities that stay, and the tags. Where the last quality stays, the qualities and the tags stand side by side in the record, and are copied as one.
pub fn put_tail(rec: &[u8], from: usize, n: usize, out: &mut [u8], at: usize)
    requires rec_in_bounds { tags_start rec.now ≤ length rec.now }
    requires n_bound { from + n ≤ seq_len_of rec.now }
    requires rec_in_bounds_2 { at + ((n + 1) / 2 + (n + (length rec.now - tags_start rec.now))) ≤ length out.old }
    ensures { out.new ≡ splice out.old at (packed (part (record_bases rec.now) from n) ++ (part (quals_part rec.now) from n ++ tags_part rec.now)) }
{
    let bases = record_parts::bases_start(rec);
    let quals = record_parts::quals_start(rec);
    let tags = record_parts::tags_start(rec);
    let first = quals + from;
    let second = at + (n + 1) / 2;
    record_bases::put_bases(&rec[bases..], from, n, &mut out[at..second]);
    if first + n == tags {
        let rest = rec.len() - first;
        record_parts::copy_bytes(&rec[first..], &mut out[second..second + rest]);
        return;
    }
    let third = second + n;
    let rest = rec.len() - tags;
    record_parts::copy_bytes(&rec[first..first + n], &mut out[second..third]);
    record_parts::copy_bytes(&rec[tags..], &mut out[third..third + rest]);
}
