// The script of a replay: its header, and the call that stands next.
#![tactic(auto)]

ghost use Rattle.std.specs.Prelude.{◌≡◌, length};
ghost use Rattle.numbers.specs.Numbers.{three};
ghost use Rattle.replay_script.specs.Script.{header_of, next_of, is_known};
ghost use Rattle.replay_script.specs.CodeNext.{AtMost, Within};

use crate::layout::{
    B_AT, D_AT, F_AT, FCB_AT, FUNCTION_AT, HEAD_BYTES, HEADER_BYTES, L_AT, LONGEST_VOLUME,
    PARAMETER_AT, PLACING_AT, T_AT, TOUCH,
};
use disk_geometry::Geometry;

pub mod layout;
pub mod lending;
pub mod window;

// What the header says: a geometry and the volume's length.
#[derive(Clone, Copy)]
pub struct Header {
    pub geometry: Geometry,
    pub volume_bytes: usize,
}

// The start of a call: function, parameter, and how many bytes are lent as control block and as buffer.
#[derive(Clone, Copy)]
pub struct Head {
    pub function: u8,
    pub parameter: u8,
    pub fcb: usize,
    pub buffer: usize,
}

// What stands next in a script.
#[derive(Clone, Copy)]
pub enum Next {
    End,
    Bad,
    Call(Head),
}

// The header at the start of s; None where it is cut off, or its volume is too long.
pub fn header_of(s: &[u8]) -> Option<Header>
    ensures value { result ≡ header_of s.now }
    ensures at_most { AtMost result }
{
    let volume_bytes = numbers::four_at(s, L_AT);
    let good = (HEADER_BYTES <= s.len()) & (volume_bytes <= LONGEST_VOLUME);
    if !good {
        return None;
    }
    let geometry = Geometry {
        block_bytes: numbers::two_at(s, B_AT),
        blocks: numbers::two_at(s, T_AT),
        directory_blocks: usize::from(numbers::byte_at(s, D_AT)),
        placing: usize::from(numbers::byte_at(s, PLACING_AT)),
    };
    Some(Header {
        geometry,
        volume_bytes,
    })
}

// May a script have this number?
fn is_known(function: u8) -> bool
    ensures { result ≡ is_known function }
{
    (function == TOUCH) | lending::is_served(function)
}

// What stands at the start of s.
pub fn next_of(s: &[u8]) -> Next
    ensures value { result ≡ next_of s.now }
    ensures within { Within (length s.now) result }
{
    if s.is_empty() {
        return Next::End;
    }
    let function = numbers::byte_at(s, FUNCTION_AT);
    let parameter = numbers::byte_at(s, PARAMETER_AT);
    let fcb = usize::from(numbers::byte_at(s, F_AT));
    let buffer = numbers::two_at(s, FCB_AT + fcb);
    let good = (HEAD_BYTES + fcb + buffer <= s.len()) & is_known(function);
    if !good {
        return Next::Bad;
    }
    Next::Call(Head {
        function,
        parameter,
        fcb,
        buffer,
    })
}

// The offset that the control block of function 0 begins with.
pub fn offset_of(fcb: &[u8]) -> usize
    ensures { result ≡ three fcb.now 0 }
{
    numbers::two_at(fcb, 0) + 65536 * usize::from(numbers::byte_at(fcb, 2))
}
