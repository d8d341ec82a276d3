// A fresh disk at the seam: a copy of a volume in good order, written to a second lent volume.
#![tactic(auto)]

ghost use Rattle.std.specs.Prelude.{◌≡◌};
ghost use Rattle.disk_geometry.specs.Geometry.{geometry_of, with_placing};
ghost use Rattle.seam_fresh.specs.SeamFresh.{fresh_sealed, fresh_at_seam};

use seam_words::{geometry, seal};

// Copies the first volume to the second in good order; refused, both stay as they are.
pub fn copy(
    block_bytes: u32,
    blocks: u32,
    directory_blocks: u32,
    placing: u32,
    first: &[u8],
    second: &mut [u8],
) -> u32
    ensures { fresh_sealed result first.now second.new
        ≡ fresh_at_seam (with_placing (geometry_of block_bytes blocks directory_blocks) placing) first.now
        second.old }
{
    let g = geometry(block_bytes, blocks, directory_blocks, placing);
    let answer = fresh_copy::fresh_copy(g, first, second);
    seal(answer)
}
