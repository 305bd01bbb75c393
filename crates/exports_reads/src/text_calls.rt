// Text: printing, the strict reader, and the validity of an op list.
ghost use Rattle.std.specs.Prelude.{◌≡◌};
ghost use Rattle.answers.specs.Settled.{Settled};
ghost use Rattle.answers.specs.Answers.{tell_count, tell_flag};
ghost use Rattle.print_rules.specs.Text.{printed};
ghost use Rattle.validity.specs.Validity.{validity};
ghost use Rattle.parsed_rules.specs.Parsed.{parsed};
ghost use Rattle.border.specs.Border.{count_of, flag_of, across};

use border::{ToldCount, ToldFlag};

#[unsafe(no_mangle)]
pub extern "C" fn cigar_cigar_to_bytes_into(rec: &[u8], out: &mut [u8]) -> ToldCount
    ensures { Settled (across count_of tell_count (printed rec.now out.old)) result out.new }
{
    print::cigar_to_bytes_into(rec, out).into()
}

#[unsafe(no_mangle)]
pub extern "C" fn cigar_parse_cigar_string_ops(text: &[u8], out: &mut [u32]) -> ToldCount
    ensures { Settled (across count_of tell_count (parsed text.now out.old)) result out.new }
{
    strict_text::parse_cigar_string_ops(text, out).into()
}

#[unsafe(no_mangle)]
pub extern "C" fn cigar_is_valid_mapped_cigar(ops: &[u32]) -> ToldFlag
    ensures { result ≡ flag_of (tell_flag (validity ops.now)) }
{
    validity::is_valid_mapped_cigar(ops).into()
}
