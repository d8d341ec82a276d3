// The shelf in 64 lent bytes: read from them, and laid into them.
#![tactic(auto)]

ghost use Rattle.std.specs.Prelude.{◌≡◌, ◌<◌, length};
ghost use Rattle.shelf_bytes.specs.Layout.{shelf_bytes, figure_at, encoded, decoded};

use shelf_figures::Shelf;

// Bytes of a figure, and of a shelf: seven figures and the volumes seen.
const FIGURE_BYTES: usize = 8;

pub const SHELF_BYTES: usize = 64;

// The figure in place k.
fn figure_at(b: &[u8], k: usize) -> usize
    requires { (length b.now ≡ shelf_bytes) × (k < 8) }
    ensures { result ≡ figure_at b.now k }
{
    let at = FIGURE_BYTES * k;
    numbers::eight_of(&b[at..at + FIGURE_BYTES]) as usize
}

// The shelf in these bytes.
pub fn decode(b: &[u8]) -> Shelf
    requires { length b.now ≡ shelf_bytes }
    ensures { result ≡ decoded b.now }
{
    Shelf {
        refused: figure_at(b, 0),
        files: figure_at(b, 1),
        entries: figure_at(b, 2),
        records: figure_at(b, 3),
        held: figure_at(b, 4),
        free: figure_at(b, 5),
        waste: figure_at(b, 6),
        seen: figure_at(b, 7),
    }
}

// Lays the shelf into the bytes.
pub fn encode(s: Shelf, out: &mut [u8])
    requires { length out.old ≡ shelf_bytes }
    ensures { out.new ≡ encoded s }
{
    let figures = [
        s.refused, s.files, s.entries, s.records, s.held, s.free, s.waste, s.seen,
    ];
    for (k, x) in figures.iter().enumerate() {
        let at = FIGURE_BYTES * k;
        numbers::put_eight(&mut out[at..at + FIGURE_BYTES], *x as u64);
    }
}
