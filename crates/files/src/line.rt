// A file's line, laid into 24 lent bytes.
ghost use Rattle.std.specs.Prelude.{◌≡◌, ◌<◌, length};
ghost use Rattle.disk_geometry.specs.Geometry.{slots};
ghost use Rattle.disk_volume.specs.Directory.{slot_at};
ghost use Rattle.disk_volume.specs.CodeLent.{IsVolume, IsEntry};
ghost use Rattle.files.specs.Line.{file_length, line_bytes, file_bytes};

use crate::blocks_held;
use disk_geometry::Geometry;
use disk_volume::fields::{NAME, NAME_END, T1, T2, USER};
use disk_volume::names::TOP_BIT;

// How many bytes a file's line has.
pub const FILE_BYTES: usize = 24;

// Lays the line of a file with this entry, these marks, so many records and so many blocks.
fn put_line(out: &mut [u8], e: &[u8], read_only: bool, system: bool, records: usize, blocks: usize)
    requires { (length out.old ≡ file_length) × IsEntry e.now }
    ensures { out.new ≡ line_bytes e.now read_only system records blocks }
{
    let records = records.to_le_bytes();
    let blocks = blocks.to_le_bytes();
    let bytes = [
        e[USER],
        e[NAME] % TOP_BIT,
        e[NAME + 1] % TOP_BIT,
        e[NAME + 2] % TOP_BIT,
        e[NAME + 3] % TOP_BIT,
        e[NAME + 4] % TOP_BIT,
        e[NAME + 5] % TOP_BIT,
        e[NAME + 6] % TOP_BIT,
        e[NAME + 7] % TOP_BIT,
        e[NAME + 8] % TOP_BIT,
        e[NAME + 9] % TOP_BIT,
        e[NAME + 10] % TOP_BIT,
        u8::from(read_only),
        u8::from(system),
        records[0],
        records[1],
        records[2],
        records[3],
        blocks[0],
        blocks[1],
        0,
        0,
        0,
        0,
    ];
    out.copy_from_slice(&bytes);
}

// Lays the line of the file that has the entry e.
fn put_file_of(out: &mut [u8], g: Geometry, volume: &[u8], e: &[u8])
    requires { IsVolume g volume.now × ((length out.old ≡ file_length) × IsEntry e.now) }
    ensures { out.new ≡ file_bytes g volume.now e.now }
{
    let user = e[USER];
    let read_only = crate::is_marked(g, volume, user, &e[NAME..NAME_END], T1);
    let system = crate::is_marked(g, volume, user, &e[NAME..NAME_END], T2);
    let records = call_size::size_of(g, volume, user, &e[NAME..NAME_END]);
    let blocks = blocks_held::blocks_of(g, volume, user, &e[NAME..NAME_END]);
    put_line(out, e, read_only, system, records, blocks);
}

// Lays the line of the file that has the entry in slot i.
pub fn put_file(out: &mut [u8], g: Geometry, volume: &[u8], i: usize)
    requires { IsVolume g volume.now × ((length out.old ≡ file_length) × (i < slots g)) }
    ensures { out.new ≡ file_bytes g volume.now (slot_at g volume.now i) }
{
    let at = g.slot_start(i);
    put_file_of(out, g, volume, &volume[at..at + Geometry::ENTRY_BYTES]);
}
