// The pieces of a file, written one after the other.

ghost use Rattle.std.specs.Prelude.{◌≡◌, ◌≤◌, ◌<◌, ◌+◌, ◌^◌, ◌++◌, false, is_err, length, take, IfOk, OnOk, OnErr};
ghost use Rattle.std.specs.{Io.KnownBytes.Appends, List.concat};
ghost use Rattle.adf_runs.specs.Streams.{AppendsPart, KeepsPending};

use adf_runs::{Failed, Sink, write_all};
use adf_volume::Pieces;

/// Bytes of the room in which pieces wait to be written together.
pub const ROOM: usize = 32768;

// Puts a piece into the room behind what waits there, and answers how many bytes wait then.
fn put_piece(piece: &[u8], room: &mut [u8], waiting: usize) -> usize
    requires { waiting + length piece.now ≤ length room.old }
    ensures text { take result room.new ≡ take waiting room.old ++ piece.now }
    ensures within { result ≤ length room.new }
{
    let end = waiting + piece.len();
    room[waiting..end].copy_from_slice(piece);
    end
}

// Puts a piece behind what waits, which is written first where the room is too small for both; answers how many bytes wait then.
fn copy_piece<W: Sink>(
    piece: &[u8],
    room: &mut [u8],
    waiting: usize,
    output: &mut W,
) -> Result<usize, Failed>
    requires works { W.has_failed output.old ≡ false }
    requires within { waiting ≤ length room.old }
    ensures ok { IfOk result (λ n. KeepsPending
        (W.held output.old) (take waiting room.old ++ piece.now)
        (W.held output.new) (take n room.new)) }
    ensures within { IfOk result (λ n. n ≤ length room.new) }
    ensures err { OnErr result (AppendsPart (W.has_failed output.new)
        (W.held output.old) (W.held output.new) (take waiting room.old ++ piece.now)) }
    ensures failed { W.has_failed output.new ≡ is_err result }
{
    if piece.len() <= room.len() - waiting {
        return Ok(put_piece(piece, room, waiting));
    }
    write_all(output, &room[..waiting])?;
    if piece.len() <= room.len() {
        return Ok(put_piece(piece, room, 0));
    }
    write_all(output, piece)?;
    Ok(0)
}

// Writes the pieces of a file, one after the other, through a room.
fn write_pieces<W: Sink>(pieces: Pieces<'_>, room: &mut [u8], output: &mut W) -> Result<(), Failed>
    requires { W.has_failed output.old ≡ false }
    ensures ok { OnOk result
        (Appends (W.held output.old) (W.held output.new) (concat pieces.entry)) }
    ensures err { OnErr result (AppendsPart (W.has_failed output.new)
        (W.held output.old) (W.held output.new) (concat pieces.entry)) }
    ensures failed { W.has_failed output.new ≡ is_err result }
{
    let mut waiting = 0;
    for piece in pieces {
        waiting = copy_piece(piece, room, waiting, output)?;
    }
    write_all(output, &room[..waiting])
}

/// Writes the pieces of a file through a room of so many bytes. `Failed` if the writer failed or wrote
/// 0 of some bytes; then a front part of them is written, but not all.
pub fn write_through<const N: usize, W: Sink>(
    pieces: Pieces<'_>,
    output: &mut W,
) -> Result<(), Failed>
    requires small { N < 2 ^ 32 }
    requires works { W.has_failed output.old ≡ false }
    ensures ok { OnOk result
        (Appends (W.held output.old) (W.held output.new) (concat pieces.entry)) }
    ensures err { OnErr result (AppendsPart (W.has_failed output.new)
        (W.held output.old) (W.held output.new) (concat pieces.entry)) }
    ensures failed { W.has_failed output.new ≡ is_err result }
{
    let mut room = [0; N];
    write_pieces(pieces, &mut room, output)
}
