// Dates and texts in the bytes of a block.

ghost use Rattle.std.specs.Prelude.{◌≡◌, ◌≤◌, ◌<◌, ◌+◌, ◌*◌, length};
ghost use Rattle.adf_base.specs.{Words.with_bytes, Dates.IsStamp};
ghost use Rattle.adf_blocks.specs.{Fields.stamp, Fields.text, Forms.stamp_at};

use adf_base::{Block, Stamp, put_bytes, put_words};

// The date in words `i` to `i + 2`.
pub fn stamp_in(b: &Block<'_>, i: usize) -> Stamp
    requires { i < 126 }
    ensures { result ≡ stamp_at b.now i }
{
    Stamp {
        days: b.word(i),
        mins: b.word(i + 1),
        ticks: b.word(i + 2),
    }
}

// Writes a date to three words of a block, from word `i` on.
pub fn put_stamp(block: &mut [u8], i: usize, s: Stamp)
    requires { 4 * i + 12 ≤ length block.old }
    ensures exact { block.new ≡ with_bytes block.old (4 * i) (stamp s) }
    ensures fits { IsStamp s }
{
    put_words(block, i, &[s.days, s.mins, s.ticks]);
}

// Writes a length byte and a text to a block, from byte `from` on.
#[tactic(auto, using(adf_base::proofs::WordLaws::side_by_side))]
pub fn put_text(block: &mut [u8], from: usize, bytes: &[u8])
    requires room { from + 1 + length bytes.now ≤ length block.old }
    requires short { length bytes.now ≤ 255 }
    ensures { block.new ≡ with_bytes block.old from (text bytes.now) }
{
    put_bytes(block, from, &[bytes.len() as u8]);
    put_bytes(block, from + 1, bytes);
}
