// The bytes of a write: those that are lent, or those that stand, with the first two changed.
ghost use Rattle.std.specs.Prelude.{◌≡◌, ◌<◌};
ghost use Rattle.disk_geometry.specs.Geometry.{blocks, record_bytes};
ghost use Rattle.disk_volume.specs.CodeLent.{VolumeAnd, IsEntry, IsRecord};
ghost use Rattle.call_write.specs.Rewrite.{with_first_two, source_length};
ghost use Rattle.call_write.specs.CodeWrite.{counted_bytes, laid_bytes};

use crate::Source;
use disk_geometry::Geometry;

// Record n goes from the block to the buffer, if the entry counts it.
fn fetch(g: Geometry, volume: &[u8], e: &[u8], n: usize, block: usize, buffer: &mut [u8])
    requires { VolumeAnd g volume.now (IsEntry e.now × (IsRecord buffer.old × (block < blocks g))) }
    ensures { buffer.new ≡ counted_bytes g volume.now e.now n block buffer.old }
{
    if !call_read::read::is_counted(g, e, n) {
        return;
    }
    let at = g.record_start(block, n);
    buffer.copy_from_slice(&volume[at..at + Geometry::RECORD_BYTES]);
}

// Lays two bytes into a record.
fn set_first_two(buffer: &mut [u8], low: u8, high: u8)
    requires { IsRecord buffer.old }
    ensures { buffer.new ≡ with_first_two low high buffer.old }
{
    buffer[0] = low;
    buffer[1] = high;
}

// Lays the bytes of a write of record n: the buffer's, or the record as it stands, if the entry counts it, but with these first two
// bytes.
pub(crate) fn lay_bytes(
    g: Geometry,
    volume: &[u8],
    e: &[u8],
    n: usize,
    block: usize,
    source: Source<'_>,
    bytes: &mut [u8],
)
    requires { VolumeAnd g volume.now (IsEntry e.now × (IsRecord bytes.old × ((source_length source ≡ record_bytes) × (block < blocks g)))) }
    ensures { bytes.new
        ≡ laid_bytes g volume.now e.now n block source.entry bytes.old }
{
    match source {
        Source::Buffer(buffer) => bytes.copy_from_slice(buffer),
        Source::Standing { low, high } => {
            fetch(g, volume, e, n, block, bytes);
            set_first_two(bytes, low, high);
        }
    }
}
