// Names: eleven bytes, compared and tested without their top bits.
ghost use Rattle.std.specs.Prelude.{◌≡◌, true, false, length};
ghost use Rattle.numbers.specs.Numbers.{number};
ghost use Rattle.disk_volume.specs.Name.{strip, same, like, good_name};
ghost use Rattle.disk_volume.specs.CodeLent.{IsName};

use crate::fields;

// The byte that matches any byte in a pattern, and the blank.
pub const WILDCARD: u8 = 0x3F;

pub const BLANK: u8 = 0x20;

// What a top bit counts in its byte.
pub const TOP_BIT: u8 = 128;

// The bytes of a word, and where the last word of a name begins; it shares bytes with the first.
const WORD_BYTES: usize = 8;

const LAST_WORD: usize = fields::NAME_BYTES - WORD_BYTES;

// A word of bytes that have every bit but the top one.
const LOW_BITS: u64 = 0x7F7F7F7F7F7F7F7F;

// Eight bytes as a number, without their top bits.
fn stripped(bytes: &[u8]) -> u64
    requires { length bytes.now ≡ 8 }
    ensures { result ≡ number (strip bytes.now) }
{
    numbers::eight_of(bytes) & LOW_BITS
}

// Are the two names the same? They are compared a word at a time.
pub fn same_name(a: &[u8], b: &[u8]) -> bool
    requires { IsName a.now × IsName b.now }
    ensures { result ≡ same (strip a.now) (strip b.now) }
{
    if stripped(&a[0..WORD_BYTES]) != stripped(&b[0..WORD_BYTES]) {
        return false;
    }
    stripped(&a[LAST_WORD..fields::NAME_BYTES]) == stripped(&b[LAST_WORD..fields::NAME_BYTES])
}

// Does the pattern match the name? A 3FH in the pattern matches any byte.
pub fn like_name(name: &[u8], pattern: &[u8]) -> bool
    requires { IsName name.now × IsName pattern.now }
    ensures { result ≡ like (strip name.now) (strip pattern.now) }
{
    for k in 0..fields::NAME_BYTES {
        let p = pattern[k] % TOP_BIT;
        if !((p == WILDCARD) | (name[k] % TOP_BIT == p)) {
            return false;
        }
    }
    true
}

// Is the name within the byte rule? 3FH passes in a pattern. After the first no byte is a reason to stop, so that several are
// looked at at once.
pub fn good_name(pattern: bool, name: &[u8]) -> bool
    requires { IsName name.now }
    ensures { result ≡ good_name pattern (strip name.now) }
{
    if name[0] % TOP_BIT == BLANK {
        return false;
    }
    let mut printable = true;
    let mut plain = true;
    for k in 0..fields::NAME_BYTES {
        let x = name[k] % TOP_BIT;
        printable &= (BLANK <= x) & (x <= 0x7E);
        plain &= x != WILDCARD;
    }
    printable & (pattern | plain)
}
