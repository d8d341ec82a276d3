// Bytes in hex, appended to a lent buffer.
ghost use Rattle.std.specs.Prelude.{◌≡◌, ◌*◌, ◌<◌, ◌≤◌, length, take};
ghost use Rattle.text.specs.Writer.{Appends};
ghost use Rattle.replay_transcript.specs.Hex.{hex_digit, hex};

use disk_geometry::Geometry;
use text::Writer;

// The digits of a byte.
const DIGITS: usize = 2;

// One digit, in capitals.
fn digit(n: u8) -> u8
    requires { n < 16 }
    ensures { result ≡ hex_digit n }
{
    if n < 10 { 48 + n } else { 55 + n }
}

// Lays the digits of the bytes of s in a row.
fn lay_digits(digits: &mut [u8], s: &[u8])
    requires { 2 * length s.now ≤ length digits.old }
    ensures laid { take (2 * length s.now) digits.new ≡ hex s.now }
{
    for (i, b) in s.iter().enumerate() {
        digits[DIGITS * i] = digit(*b / 16);
        digits[DIGITS * i + 1] = digit(*b % 16);
    }
}

// The bytes of s, two digits each. They are taken in pieces of a record's length, whose digits are laid in a row and appended at once: a
// block is copied faster than single bytes are.
pub fn put_hex(w: &mut Writer<'_>, s: &[u8])
    ensures { Appends w.old (hex s.now) w.new }
{
    let mut digits = [0u8; DIGITS * Geometry::RECORD_BYTES];
    for piece in s.chunks(Geometry::RECORD_BYTES) {
        lay_digits(&mut digits, piece);
        w.bytes(&digits[..DIGITS * piece.len()]);
    }
}
