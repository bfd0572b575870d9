// The data blocks of a file.

ghost use Rattle.std.specs.Prelude.{◌≡◌, ◌≤◌, ◌+◌, ◌*◌, [], ◌∷◌, length};
ghost use Rattle.adf_base.specs.Words.{with_block};
ghost use Rattle.adf_blocks.specs.{Fields.block_of_fields, DataBlock.data_fields, Sizes.chunk, Sizes.count};
ghost use Rattle.adf_build.specs.{Laid.data_bytes, Laid.data_writes, Writes.with_blocks, Plan.HasFree, Plan.exts_needed};

use crate::counting::ext_count;
use crate::plan::Plan;
use adf_base::{put_block, put_bytes};
use adf_blocks::{DataOut, chunk_len, data_count, write_data};
use adf_tree::Kind;

// The 512 bytes of an FFS data block: the bytes held, then zeros.
fn bare_block(held: &[u8]) -> [u8; 512]
    requires { length held.now ≤ 512 }
    ensures { result ≡ block_of_fields ((0, held.now) ∷ []) }
{
    let mut block = [0u8; 512];
    put_bytes(&mut block, 0, held);
    block
}

// Writes a data block of this kind.
#[tactic(auto, unfolding(adf_blocks::specs::Sizes::chunk))]
fn write_one(image: &mut [u8], b: u32, kind: Kind, data: &DataOut<'_>)
    requires whole { b * 512 + 512 ≤ length image.old }
    requires held { length data.now.bytes.now ≤ chunk kind }
    ensures { image.new ≡ with_block image.old b (data_bytes kind (data_fields data.now)) }
{
    match kind {
        Kind::Ofs => write_data(image, b, data),
        Kind::Ffs => put_block(image, b, &bare_block(data.bytes)),
    }
}

/// Writes the data blocks of a file with its header in the `k`-th free block; they follow its extension blocks.
#[tactic(auto, using(crate::proofs::FreeBlocks::free_fits))]
pub fn write_datas(image: &mut [u8], plan: Plan, kind: Kind, k: u32, bytes: &[u8])
    requires whole { length image.old ≡ plan.blocks * 512 }
    requires room { let c = count kind (length bytes.now) in HasFree plan.blocks
        (k + (1 + exts_needed c + c)) }
    ensures { image.new ≡ with_blocks image.old (data_writes plan.blocks kind k bytes.now) }
{
    let datas = data_count(kind, bytes.len());
    let first = k + 1 + ext_count(datas) as u32;
    let count = datas as u32;
    let mut left = bytes;
    for j in 0..count {
        let (held, rest) = left.split_at(left.len().min(chunk_len(kind)));
        let data = DataOut {
            head: plan.nth_free(k),
            number: 1 + j,
            next: plan.nth_free_or_none(first + j + 1, count - (j + 1)),
            bytes: held,
        };
        write_one(image, plan.nth_free(first + j), kind, &data);
        left = rest;
    }
}
