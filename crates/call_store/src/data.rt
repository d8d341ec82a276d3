// The data of a write: the record alone, or with it the other records of its block, filled with zeros.
ghost use Rattle.std.specs.Prelude.{◌≡◌, true, [], ◌∷◌, ◌-◌, ◌<◌, length};
ghost use Rattle.disk_geometry.specs.Geometry.{blocks, record_of};
ghost use Rattle.disk_volume.specs.CodeLent.{IsVolume, IsRecord};
ghost use Rattle.disk_stores.specs.Stores.{store, cut, fill_store, record_stores};

use disk_geometry::Geometry;

// Stores the buffer as record n of the block.
fn put_record(
    g: Geometry,
    volume: &mut [u8],
    block: usize,
    n: usize,
    buffer: &[u8],
    left: &mut usize,
)
    requires volume { IsVolume g volume.old }
    requires block_bound { (block < blocks g) × IsRecord buffer.now }
    ensures volume_after { volume.new
        ≡ cut g volume.old left.old (store (record_of g block n) buffer.now ∷ []) }
    ensures left_after { left.new ≡ left.old - 1 }
{
    let q = g.record_of(block, n);
    disk_stores::store_record(g, volume, q, buffer, left);
}

// Stores record k of a block that is filled: the bytes for record n, zeros for any other.
fn fill_record(
    g: Geometry,
    volume: &mut [u8],
    block: usize,
    n: usize,
    buffer: &[u8],
    k: usize,
    left: &mut usize,
)
    requires volume { IsVolume g volume.old }
    requires block_bound { (block < blocks g) × IsRecord buffer.now }
    ensures volume_after { volume.new
        ≡ cut g volume.old left.old (fill_store g block n buffer.now k ∷ []) }
    ensures left_after { left.new ≡ left.old - 1 }
{
    if k == (n & g.blm()) {
        put_record(g, volume, block, k, buffer, left);
        return;
    }
    let zeros = [0u8; Geometry::RECORD_BYTES];
    put_record(g, volume, block, k, &zeros, left);
}

// Stores every record of the block, each once, rising: the bytes for record n, zeros for all others.
fn fill_block(
    g: Geometry,
    volume: &mut [u8],
    block: usize,
    n: usize,
    buffer: &[u8],
    left: &mut usize,
)
    requires volume { IsVolume g volume.old }
    requires block_bound { (block < blocks g) × IsRecord buffer.now }
    ensures volume_after { volume.new
        ≡ cut g volume.old left.old (record_stores g true block n buffer.now) }
    ensures left_after { left.new ≡ left.old - length (record_stores g true block n buffer.now) }
{
    let records = g.records();
    for k in 0..records {
        fill_record(g, volume, block, n, buffer, k, left);
    }
}

// Stores record n of the block, which is filled with zeros beside it if so.
pub(crate) fn put_filled(
    g: Geometry,
    fills: bool,
    volume: &mut [u8],
    block: usize,
    n: usize,
    buffer: &[u8],
    left: &mut usize,
)
    requires volume { IsVolume g volume.old }
    requires block_bound { (block < blocks g) × IsRecord buffer.now }
    ensures volume_after { volume.new
        ≡ cut g volume.old left.old (record_stores g fills block n buffer.now) }
    ensures left_after { left.new ≡ left.old - length (record_stores g fills block n buffer.now) }
{
    if fills {
        fill_block(g, volume, block, n, buffer, left);
        return;
    }
    put_record(g, volume, block, n, buffer, left);
}
