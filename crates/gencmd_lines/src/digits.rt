// The digits of a line, and the bytes that pairs of them spell.
ghost use Rattle.std.specs.Prelude.{◌≡◌, ◌<◌};
ghost use Rattle.gencmd_lines.specs.Digits.{is_figure, is_letter, is_digit, digit_of, line_byte};
ghost use Rattle.gencmd_lines.specs.CodeWalk.{most_bytes};

// Is it 0 to 9?
fn is_figure(c: u8) -> bool
    ensures { result ≡ is_figure c }
{
    (b'0' <= c) & (c <= b'9')
}

// Is it A to F?
fn is_letter(c: u8) -> bool
    ensures { result ≡ is_letter c }
{
    (b'A' <= c) & (c <= b'F')
}

// Is it one of the two?
pub(crate) fn is_digit(c: u8) -> bool
    ensures { result ≡ is_digit c }
{
    is_figure(c) | is_letter(c)
}

// The value of a digit, 0 for any other byte.
fn digit_of(c: u8) -> u8
    ensures { (result ≡ digit_of c) × (result < 16) }
{
    if is_figure(c) {
        return c - b'0';
    }
    if is_letter(c) {
        return c - b'A' + 10;
    }
    0
}

// Byte k of a line; no line has more than 260.
pub(crate) fn line_byte(line: &[u8], k: usize) -> u8
    requires { k < most_bytes }
    ensures { result ≡ line_byte line.now k }
{
    16 * digit_of(numbers::byte_at(line, 2 * k)) + digit_of(numbers::byte_at(line, 2 * k + 1))
}
