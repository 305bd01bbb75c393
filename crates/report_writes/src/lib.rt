// What waits to be written between two turns of the program `report`: how much of it is due, and its write. An inner crate of that program.
#![tactic(auto)]

ghost use Rattle.std.specs.Prelude.{◌≡◌, ◌≤◌, length, take, OnOk};
ghost use Rattle.std.specs.Io.KnownBytes.{Appends};
ghost use Rattle.report_rules.specs.Run.{due_of, relieved_of};

use report_rules::State;
use std::io;

// How many of the bytes that wait are written now: all of them at the end, or where there is no room for a line more.
fn due(s: State) -> usize
    ensures value { result ≡ due_of s }
    ensures upper_bound { result ≤ s.put }
{
    if s.going && s.put <= report_stream::FULL {
        return 0;
    }
    s.put
}

// Hands over what is due; the state behind it comes from here alone.
fn write<W: io::Write>(to: &mut W, s: &mut State, out: &[u8], part: &[u8]) -> io::Result<()>
    requires { part.now ≡ take (due_of s.old) out.now }
    ensures state { (s.new ≡ relieved_of s.old) × (s.new.put ≤ 65280) }
    ensures bytes { OnOk result (Appends (W.contents to.old) (W.contents to.new) (take (due_of s.old) out.now)) }
{
    s.put -= due(*s);
    to.write_all(part)
}

// Writes what is due: nothing, or all that waits.
pub fn write_due<W: io::Write>(to: &mut W, s: &mut State, out: &[u8]) -> io::Result<()>
    requires { s.old.put ≤ length out.now }
    ensures state { (s.new ≡ relieved_of s.old) × (s.new.put ≤ 65280) }
    ensures bytes { OnOk result (Appends (W.contents to.old) (W.contents to.new) (take (due_of s.old) out.now)) }
{
    let n = due(*s);
    write(to, s, out, &out[..n])
}
