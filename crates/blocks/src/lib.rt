// A block of an input: bytes are read behind those at hand, and what is left of it moves to its front. An inner crate of the programs.
#![tactic(auto)]

ghost use Rattle.std.specs.Prelude.{◌≡◌, ◌-◌, ◌≤◌, ◌<◌, length, take, drop};
ghost use Rattle.std.specs.Io.KnownBytes.{Consumes, IsAtEnd};
ghost use Rattle.blocks.specs.Fill.{is_over, is_failed, Filled, First, given};
ghost use Rattle.blocks.specs.declared.Source.TheVariants.{Ended};

use std::io;

// What is known of an input behind its last read: that gave bytes, or none, since the input has ended, or it failed. `Failing` is what no read gives, failed and not over:
// the turns of the programs (`report_turns::turn`, `bam_turns::turn`) take a state of that kind, too.
#[derive(Clone, Copy)]
pub enum Source {
    Open,
    Ended,
    Failed,
    Failing,
}

impl Source {
    // Whether the last read gave none, at the end of the input or since it failed.
    pub fn is_over(self) -> bool
        ensures { result ≡ is_over self }
    {
        matches!(self, Source::Ended | Source::Failed)
    }

    pub fn is_failed(self) -> bool
        ensures { result ≡ is_failed self }
    {
        matches!(self, Source::Failed | Source::Failing)
    }
}

// The bytes at hand behind a read, and what is known of the input.
#[derive(Clone, Copy)]
pub struct Read {
    pub have: usize,
    pub source: Source,
}

// Room for a block.
pub fn large_buffer() -> [u8; 65536]
    ensures { 65536 ≡ length result }
{
    [0; 65536]
}

// One read behind the bytes at hand.
pub fn fill<R: io::Read>(input: &mut R, block: &mut [u8], have: usize) -> Read
    requires { have ≤ length block.old }
    ensures filled { Filled block.old have result block.new }
    ensures have_le_have { (have ≤ result.have) × (result.have ≤ length block.old) }
    ensures bytes { Consumes (R.remaining input.old) (R.remaining input.new) (given have result block.new) }
    ensures end { result.source ≡ Ended → have < length block.old → IsAtEnd (R.remaining input.new) }
{
    match input.read(&mut block[have..]) {
        Ok(0) => Read {
            have,
            source: Source::Ended,
        },
        Ok(n) => Read {
            have: have + n,
            source: Source::Open,
        },
        Err(_) => Read {
            have,
            source: Source::Failed,
        },
    }
}

// Reads until n bytes are at hand, or a read gives none.
pub fn first<R: io::Read>(input: &mut R, block: &mut [u8], n: usize) -> Read
    requires { n ≤ length block.old }
    ensures first { First n result block.new }
    ensures bytes { Consumes (R.remaining input.old) (R.remaining input.new) (take result.have block.new) }
    ensures end { result.source ≡ Ended → IsAtEnd (R.remaining input.new) }
{
    let mut r = Read {
        have: 0,
        source: Source::Open,
    };
    while r.have < n {
        r = fill(input, block, r.have);
        if r.source.is_over() {
            return r;
        }
    }
    r
}

// Moves the bytes from `used` to before `have` to the front.
pub fn shift(block: &mut [u8], used: usize, have: usize)
    requires { (used ≤ have) × (have ≤ length block.old) }
    ensures { take (have - used) block.new ≡ take (have - used) (drop used block.old) }
{
    block.copy_within(used..have, 0);
}
