// The text of a shelf's figures, laid into a lent buffer.
#![tactic(auto)]

ghost use Rattle.std.specs.Prelude.{◌≡◌, ◌≤◌, length};
ghost use Rattle.text.specs.Text.{text, puts};
ghost use Rattle.text.specs.Writer.{Appends};
ghost use Rattle.shelf_report.specs.Report.{line, report};

use shelf_figures::Shelf;
use text::Writer;

// No report has more bytes than this.
pub const ROOM: usize = 77;

// A number on a line of its own.
fn put_line(w: &mut Writer<'_>, n: usize)
    ensures { Appends w.old (line n) w.new }
{
    w.decimal(n);
    w.byte(b'\n');
}

// The seven figures, one a line, as far as `out` has room, and how many bytes they have taken. In a buffer of ROOM bytes the
// report is whole: theorem `fits`.
pub fn put_report(shelf: Shelf, out: &mut [u8]) -> usize
    ensures result_after { text out.new result ≡ puts (text out.old 0) (report shelf) }
    ensures upper_bound { result ≤ length out.new }
{
    let mut w = Writer::new(out, 0);
    put_line(&mut w, shelf.refused);
    put_line(&mut w, shelf.files);
    put_line(&mut w, shelf.entries);
    put_line(&mut w, shelf.records);
    put_line(&mut w, shelf.held);
    put_line(&mut w, shelf.free);
    put_line(&mut w, shelf.waste);
    w.at()
}
