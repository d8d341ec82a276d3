// Reads volumes of V's geometry from standard input, one after another, and prints what they hold together, one figure a line.
#![tactic(auto)]

ghost use Rattle.std.specs.Prelude.{◌≡◌, ◌≤◌, length, take, OnOk};
ghost use Rattle.std.specs.Io.KnownBytes.{Appends};
ghost use Rattle.streams.specs.Counts.{IsPrefixLen};
ghost use Rattle.shelf_report.specs.Report.{report};
ghost use Rattle.shelf_report.specs.Room.{room, OfVolumes};
ghost use Rattle.shelf.specs.Reading.{volume_bytes, after_read};

use shelf_figures::Shelf;
use std::io;
use std::io::{Read, Write};

// The report, whole, in the first bytes of `out`, and how many they are.
fn lay(shelf: Shelf, out: &mut [u8]) -> usize
    requires { (room ≤ length out.old) × OfVolumes shelf }
    ensures { (take result out.new ≡ report shelf) × (result ≤ length out.new) }
{
    shelf_report::put_report(shelf, out)
}

// To a writer whose contents are known the report is appended; where the writer fails, it may be cut off.
fn print<W: Write>(shelf: Shelf, out: &mut [u8], to: &mut W) -> io::Result<()>
    requires { (room ≤ length out.old) × OfVolumes shelf }
    ensures { OnOk result (Appends (W.contents to.old) (W.contents to.new) (report shelf)) }
{
    let n = lay(shelf, out);
    to.write_all(&out[0..n])
}

// The shelf after a reading, and whether another follows.
#[derive(Clone, Copy)]
pub struct Reading {
    pub shelf: Shelf,
    pub more: bool,
}

// What was read, the first n bytes of `buffer`, put on the shelf. Nothing ends the reading, and so does the 65,536th volume; a short one is
// the last, and refused.
fn after_read(shelf: Shelf, buffer: &[u8], n: usize) -> Reading
    requires { IsPrefixLen n buffer.now }
    ensures { result ≡ after_read shelf (take n buffer.now) }
{
    if (n == 0) | (Shelf::VOLUMES <= shelf.seen) {
        return Reading { shelf, more: false };
    }
    let added = shelf.put(listing::geometry(), &buffer[..n]);
    Reading {
        shelf: added.shelf,
        more: n == listing::VOLUME_BYTES,
    }
}

// One volume after another. `volume` has room for one.
fn read_volumes<R: Read>(from: &mut R, volume: &mut [u8]) -> Shelf
    requires { length volume.old ≡ volume_bytes }
    ensures { OfVolumes result }
{
    let mut shelf = Shelf::bare();
    let mut more = true;
    // A `while`: it is no count, each turn goes to the next volume, until a reading says that none follows.
    while more {
        let n = streams::read_full(from, volume);
        let reading = after_read(shelf, volume, n);
        shelf = reading.shelf;
        more = reading.more;
    }
    shelf
}

fn main(rt: HostRuntime) {
    let mut volume = [0u8; listing::VOLUME_BYTES];
    let mut out = [0u8; shelf_report::ROOM];
    let shelf = read_volumes(&mut rt.stdin(), &mut volume);
    let _ = print(shelf, &mut out, &mut rt.stdout());
}
