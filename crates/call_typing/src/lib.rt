// Names that can be typed: eleven bytes, tested without their top bits.
#![tactic(auto)]

ghost use Rattle.std.specs.Prelude.{◌≡◌, not};
ghost use Rattle.lists.specs.Bytes.{all};
ghost use Rattle.disk_volume.specs.CodeLent.{IsName};
ghost use Rattle.disk_volume.specs.Name.{strip};
ghost use Rattle.call_typing.specs.Typing.{typeable_byte, blank_before, typeable};

use disk_volume::fields::{NAME, NAME_BYTES, TYPE};
use disk_volume::names::{BLANK, TOP_BIT};

// Where the type begins within the eleven bytes.
const TYPE_START: usize = TYPE - NAME;

// Can the byte be typed in a name?
fn typeable_byte(x: u8) -> bool
    ensures { result ≡ typeable_byte x }
{
    let small = (b'a' <= x) & (x <= b'z');
    let character = (x == b'<')
        | (x == b'>')
        | (x == b'.')
        | (x == b',')
        | (x == b';')
        | (x == b':')
        | (x == b'=')
        | (x == b'*')
        | (x == b'[')
        | (x == b']');
    !(small | character)
}

// Can each byte of the name be typed?
fn typeable_bytes(name: &[u8]) -> bool
    requires { IsName name.now }
    ensures { result ≡ all typeable_byte (strip name.now) }
{
    name.iter().all(|x| typeable_byte(*x % TOP_BIT))
}

// Do none but blanks follow a blank? It is enough to look at the byte behind each.
fn blanks_last(field: &[u8]) -> bool
    ensures { result ≡ not (blank_before (strip field.now)) }
{
    for k in 1..field.len() {
        if (field[k - 1] % TOP_BIT == BLANK) & (field[k] % TOP_BIT != BLANK) {
            return false;
        }
    }
    true
}

// Answers whether the name can be typed; name and type are looked at apart.
pub fn typeable_name(name: &[u8]) -> bool
    requires { IsName name.now }
    ensures { result ≡ typeable (strip name.now) }
{
    typeable_bytes(name)
        & blanks_last(&name[0..TYPE_START])
        & blanks_last(&name[TYPE_START..NAME_BYTES])
}
