// The drive's state in lent bytes: read from them, and laid into them. A drive has 64 bytes up to T 256, 544 above.
#![tactic(auto)]

ghost use Rattle.std.specs.Prelude.{◌≡◌, true, eqb, length};
ghost use Rattle.disk_held.specs.Held.{none_held};
ghost use Rattle.filecalls.specs.CodeFront.{front_of};
ghost use Rattle.drive_bytes.specs.Layout.{blocks_at, drive_bytes, fields, is_drive, decoded, encoded_in};
ghost use Rattle.drive_bytes.specs.CodeLaid.{with_front, with_words};

use crate::layout::BLOCKS_AT;
use disk_geometry::Geometry;
use disk_held::WORDS;
use filecalls::{Drive, Front};

mod lay;
mod layout;
mod load;

// How many bytes a drive has, up to T 256 and above.
pub const DRIVE_BYTES: usize = 64;

pub const WIDE_DRIVE_BYTES: usize = 544;

// How many bytes a drive of so many blocks has.
pub fn length_for(blocks: usize) -> usize
    ensures { result ≡ drive_bytes blocks }
{
    if blocks <= Geometry::NARROW_BLOCKS {
        return DRIVE_BYTES;
    }
    WIDE_DRIVE_BYTES
}

// Are they as many bytes as a drive of their T has?
pub fn has_length(s: &[u8]) -> bool
    ensures { result ≡ eqb (length s.now) (drive_bytes (blocks_at s.now)) }
{
    if s.len() < DRIVE_BYTES {
        return false;
    }
    s.len() == length_for(numbers::two_at(s, BLOCKS_AT))
}

// Are the bytes laid out as a drive's?
pub fn is_drive(s: &[u8]) -> bool
    ensures { result ≡ is_drive s.now }
{
    if !has_length(s) {
        return false;
    }
    load::is_laid(s)
}

// All of the state in a drive's bytes but the held blocks.
pub fn fields(s: &[u8]) -> Front
    requires { is_drive s.now ≡ true }
    ensures { result ≡ front_of (fields s.now) }
{
    load::front(s)
}

// The same of any bytes: the closed state's where they are no drive's.
pub fn front(s: &[u8]) -> Front
    ensures { result ≡ front_of (decoded s.now) }
{
    if !is_drive(s) {
        return Drive::closed().front();
    }
    fields(s)
}

// The held blocks in a drive's bytes.
pub fn load_words(s: &[u8], held: &mut [u64; WORDS])
    requires { (is_drive s.now ≡ true) × (held.old ≡ none_held) }
    ensures { held.new ≡ (fields s.now).held }
{
    load::words(s, held, lay::words_in(s.len()));
}

// Lays user, protection and search into a drive's bytes; the rest of the front is never changed.
pub fn lay_front(out: &mut [u8], f: Front)
    requires { is_drive out.old ≡ true }
    ensures { out.new ≡ with_front out.old f }
{
    lay::front(out, f);
}

// Lays the held blocks into a drive's bytes.
pub fn lay_words(out: &mut [u8], held: &[u64; WORDS])
    requires { is_drive out.old ≡ true }
    ensures { out.new ≡ with_words out.old held.now }
{
    let n = lay::words_in(out.len());
    lay::words(out, held, n);
}

// Lays the state into bytes of its length; any other number of bytes becomes zeros.
pub fn encode(d: Drive, out: &mut [u8])
    ensures { out.new ≡ encoded_in d out.old }
{
    if out.len() != length_for(d.geometry.blocks) {
        out.fill(0);
        return;
    }
    lay::put_drive(out, d);
}
