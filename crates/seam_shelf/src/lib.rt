// A volume is put on the shelf whose figures stand in 64 lent bytes.
#![tactic(auto)]

ghost use Rattle.std.specs.Prelude.{◌≡◌, length};
ghost use Rattle.disk_geometry.specs.Geometry.{geometry_of, with_placing};
ghost use Rattle.shelf_bytes.specs.Layout.{shelf_bytes};
ghost use Rattle.seam_shelf.specs.Shelf.{shelved_answer, shelf_sealed, shelved_in, shelf_at_seam};

use seam_words::{geometry, halves};
use shelf_bytes::SHELF_BYTES;
use shelf_figures::{Added, ShelfRefusal};

// A shelf's answer as one number: its number in the low 16 bits, what log-in answered in the high 16.
fn seal_shelved(a: Result<u8, ShelfRefusal>) -> u32
    ensures { result ≡ shelved_answer a }
{
    let number = u16::from(shelf_figures::shelved_number(a));
    let value = u16::from(shelf_figures::shelved_value(a));
    halves(number, value)
}

// Lays the shelf back where it counted the volume.
fn lay_shelved(added: Added, shelf: &mut [u8])
    requires { length shelf.old ≡ shelf_bytes }
    ensures { shelf.new ≡ shelved_in added shelf.old }
{
    if added.answer.is_ok() {
        shelf_bytes::encode(added.shelf, shelf);
    }
}

// Puts a volume on the shelf; where that is refused by 47 or 32 the shelf's bytes stay.
pub fn put_volume(
    shelf: &mut [u8],
    block_bytes: u32,
    blocks: u32,
    directory_blocks: u32,
    placing: u32,
    volume: &[u8],
) -> u32
    ensures { shelf_sealed result shelf.new volume.now
        ≡ shelf_at_seam (with_placing (geometry_of block_bytes blocks directory_blocks) placing) volume.now
        shelf.old }
{
    if shelf.len() != SHELF_BYTES {
        return seal_shelved(Err(ShelfRefusal::Outside));
    }
    let g = geometry(block_bytes, blocks, directory_blocks, placing);
    let added = shelf_bytes::decode(shelf).put(g, volume);
    lay_shelved(added, shelf);
    seal_shelved(added.answer)
}
