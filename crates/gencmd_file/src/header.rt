// The header: a descriptor for each group that is there, then zeros.
ghost use Rattle.std.specs.Prelude.{◌≡◌, ◌≤◌, length};
ghost use Rattle.lists.specs.Bytes.{put};
ghost use Rattle.text.specs.Writer.{Appends};
ghost use Rattle.numbers.specs.Numbers.{bytes_of};
ghost use Rattle.gencmd_file.specs.File.{header_bytes, descriptor, header};

use gencmd_groups::Groups;
use load_header::{CODE, DATA, EXTRA, STACK};
use text::Writer;

// How many bytes the header has.
pub(crate) const HEADER_BYTES: usize = 128;

// The base of a group that may stand anywhere.
const ANYWHERE: usize = 0;

// A number of 16 bits, low byte first.
fn put_two(w: &mut Writer<'_>, n: usize)
    ensures { Appends w.old (bytes_of 2 n) w.new }
{
    w.bytes(&n.to_le_bytes()[..2]);
}

// The descriptor of a group of n paragraphs, form, length, base, least and most; nothing for a group that is not there.
fn put_descriptor(w: &mut Writer<'_>, group: usize, n: usize)
    ensures { Appends w.old (descriptor group n) w.new }
{
    if n == 0 {
        return;
    }
    w.byte((group % 256) as u8);
    put_two(w, n);
    put_two(w, ANYWHERE);
    let (least, most) = (n, n);
    put_two(w, least);
    put_two(w, most);
}

// The header for groups of these sizes, in 128 bytes.
fn lay_header(part: &mut [u8], sizes: Groups)
    requires { length part.old ≡ header_bytes }
    ensures { part.new ≡ header sizes }
{
    part.fill(0);
    let mut w = Writer::new(part, 0);
    put_descriptor(&mut w, CODE, sizes.code);
    put_descriptor(&mut w, DATA, sizes.data);
    put_descriptor(&mut w, EXTRA, sizes.extra);
    put_descriptor(&mut w, STACK, sizes.stack);
}

// The header in the first bytes of the file.
pub(crate) fn put_header(out: &mut [u8], sizes: Groups)
    requires { header_bytes ≤ length out.old }
    ensures { out.new ≡ put out.old 0 header_bytes (header sizes) }
{
    lay_header(&mut out[0..HEADER_BYTES], sizes);
}
