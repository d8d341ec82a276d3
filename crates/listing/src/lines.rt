// The lines of a listing: the header, a line for each file by its lowest slot, and the free blocks.
ghost use Rattle.std.specs.Prelude.{◌<◌};
ghost use Rattle.disk_geometry.specs.Geometry.{slots};
ghost use Rattle.disk_volume.specs.Name.{strip};
ghost use Rattle.disk_volume.specs.CodeLent.{IsVolume, VolumeAnd, IsEntry};
ghost use Rattle.text.specs.Writer.{Appends};
ghost use Rattle.listing.specs.Listing.{name_text, line, line_at, lines_from, accepted};

use disk_geometry::Geometry;
use disk_volume::fields::{NAME, NAME_END, TYPE, USER};
use disk_volume::names::TOP_BIT;
use files::{blocks_held, is_listed};
use text::Writer;

// The bytes of s without their top bits.
fn put_stripped(w: &mut Writer<'_>, s: &[u8])
    ensures { Appends w.old (strip s.now) w.new }
{
    for b in s {
        w.byte(*b % TOP_BIT);
    }
}

// Name, full stop and type of an entry.
fn put_name(w: &mut Writer<'_>, e: &[u8])
    requires { IsEntry e.now }
    ensures { Appends w.old (name_text e.now) w.new }
{
    put_stripped(w, &e[NAME..TYPE]);
    w.byte(b'.');
    put_stripped(w, &e[TYPE..NAME_END]);
}

// The line of the file that has this entry.
fn put_line(w: &mut Writer<'_>, g: Geometry, volume: &[u8], e: &[u8])
    requires { VolumeAnd g volume.now (IsEntry e.now) }
    ensures { Appends w.old (line g volume.now e.now) w.new }
{
    let user = e[USER];
    let size = call_size::size_of(g, volume, user, &e[NAME..NAME_END]);
    let blocks = blocks_held::blocks_of(g, volume, user, &e[NAME..NAME_END]);
    w.decimal(usize::from(user));
    w.byte(b' ');
    put_name(w, e);
    w.byte(b' ');
    w.decimal(size);
    w.byte(b' ');
    w.decimal(blocks);
    w.byte(b'\n');
}

// What slot i adds: the file's line where its entry stands for the file.
fn put_slot_line(w: &mut Writer<'_>, g: Geometry, volume: &[u8], i: usize)
    requires { VolumeAnd g volume.now (i < slots g) }
    ensures { Appends w.old (line_at g volume.now i) w.new }
{
    let s = g.slot_start(i);
    let e = &volume[s..s + Geometry::ENTRY_BYTES];
    if is_listed(g, volume, e, i) {
        put_line(w, g, volume, e);
    }
}

// The line of each file.
fn put_lines(w: &mut Writer<'_>, g: Geometry, volume: &[u8])
    requires { IsVolume g volume.now }
    ensures { Appends w.old (lines_from g volume.now 0 (slots g)) w.new }
{
    for i in 0..g.slots() {
        put_slot_line(w, g, volume, i);
    }
}

// The listing of a volume that is accepted, with so many free blocks.
pub(crate) fn put_accepted(w: &mut Writer<'_>, g: Geometry, volume: &[u8], free: usize)
    requires { IsVolume g volume.now }
    ensures { Appends w.old (accepted g volume.now free) w.new }
{
    w.bytes(b"USER NAME TYPE RECORDS BLOCKS\n");
    put_lines(w, g, volume);
    w.bytes(b"FREE ");
    w.decimal(free);
    w.byte(b'\n');
}
