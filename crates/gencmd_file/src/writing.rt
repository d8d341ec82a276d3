// Writing: header, groups and zeros, each into its own part of the output buffer, one behind the other.
ghost use Rattle.std.specs.Prelude.{◌≡◌, ◌++◌, ◌+◌, ◌≤◌, length, drop, replicate};
ghost use Rattle.lists.specs.Bytes.{put};
ghost use Rattle.gencmd_lines.specs.Lines.{lines_in};
ghost use Rattle.gencmd_groups.specs.Groups.{group_bytes};
ghost use Rattle.gencmd_groups.specs.CodeMeasure.{SizeWithin};
ghost use Rattle.gencmd_file.specs.File.{image_end, file_length, file_with};
ghost use Rattle.gencmd_file.specs.Longest.{longest};
ghost use Rattle.gencmd_file.specs.CodePlan.{image_of};

use crate::header::{HEADER_BYTES, put_header};
use disk_geometry::Geometry;
use gencmd_groups::Groups;
use gencmd_groups::laying::lay_group;
use load_header::{CODE, DATA, EXTRA, STACK};
use memory_spans::PARAGRAPH_BYTES;

// n bytes of a group at a place of the file.
fn put_group(out: &mut [u8], at: usize, n: usize, text: &[u8], group: usize)
    requires { at + n ≤ length out.old }
    ensures { out.new
        ≡ put out.old at n (group_bytes (lines_in text.now) group n) }
{
    lay_group(&mut out[at..at + n], text, group);
}

// n zeros at a place of the file.
fn put_zeros(out: &mut [u8], at: usize, n: usize)
    requires { at + n ≤ length out.old }
    ensures { out.new ≡ put out.old at n (replicate n 0) }
{
    out[at..at + n].fill(0);
}

// Four groups of so many bytes, one behind the other from a place on.
fn put_image(
    out: &mut [u8],
    at: usize,
    text: &[u8],
    code: usize,
    data: usize,
    extra: usize,
    stack: usize,
)
    requires { at + (code + («data» + (extra + stack))) ≤ length out.old }
    ensures { out.new
        ≡ put out.old at (code + («data» + (extra + stack)))
        (image_of (lines_in text.now) code «data» extra stack) }
{
    put_group(out, at, code, text, CODE);
    put_group(out, at + code, data, text, DATA);
    put_group(out, at + code + data, extra, text, EXTRA);
    put_group(out, at + code + data + extra, stack, text, STACK);
}

// Where the image ends.
fn image_end(sizes: Groups) -> usize
    requires { SizeWithin sizes }
    ensures { (result ≡ image_end sizes) × (result ≤ longest) }
{
    HEADER_BYTES + PARAGRAPH_BYTES * (sizes.code + sizes.data + sizes.extra + sizes.stack)
}

// How long the file is: whole records.
pub(crate) fn file_length(sizes: Groups) -> usize
    requires { SizeWithin sizes }
    ensures { result ≡ file_length sizes }
{
    image_end(sizes).next_multiple_of(Geometry::RECORD_BYTES)
}

// The file of a text whose groups have these sizes.
pub(crate) fn write(out: &mut [u8], text: &[u8], sizes: Groups)
    requires { SizeWithin sizes × (file_length sizes ≤ length out.old) }
    ensures { out.new
        ≡ file_with (lines_in text.now) sizes ++ drop (file_length sizes) out.old }
{
    let length = file_length(sizes);
    let end = image_end(sizes);
    put_header(out, sizes);
    put_image(
        out,
        HEADER_BYTES,
        text,
        PARAGRAPH_BYTES * sizes.code,
        PARAGRAPH_BYTES * sizes.data,
        PARAGRAPH_BYTES * sizes.extra,
        PARAGRAPH_BYTES * sizes.stack,
    );
    put_zeros(out, end, length - end);
}
