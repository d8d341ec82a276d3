// One line: its fields, its sum, and why it is refused.
ghost use Rattle.std.specs.Prelude.{◌≡◌, ◌*◌, ◌<◌, ◌≤◌};
ghost use Rattle.gencmd_lines.specs.Line.{addresses, data_most, count_of, address_of, data_of, digits_in, is_spelled, sum_of, group_of_type, group_of, is_end, data_refusal, line_refusal};
ghost use Rattle.gencmd_lines.specs.Refusal.{unless};
ghost use Rattle.gencmd_lines.specs.CodeWalk.{most_bytes};

use crate::Refusal;
use crate::digits::{is_digit, line_byte};
use load_header::{CODE, DATA, EXTRA, STACK};

// Where a line has its fields (000, table 2), and how many bytes it has beside its data: ll, aaaa, tt and cc.
const AT_COUNT: usize = 0;

const AT_ADDRESS: usize = 1;

const AT_TYPE: usize = 3;

const AT_DATA: usize = 4;

const BESIDE_DATA: usize = 5;

// The type of the end line.
const END: u8 = 0x01;

// How many addresses a group has: FFFFH is the last.
const ADDRESSES: usize = 65536;

// How many data bytes a line has.
pub fn count_of(line: &[u8]) -> usize
    ensures { (result ≡ count_of line.now) × (result ≤ data_most) }
{
    usize::from(line_byte(line, AT_COUNT))
}

// The address of its first data byte.
pub fn address_of(line: &[u8]) -> usize
    ensures { (result ≡ address_of line.now) × (result < addresses) }
{
    256 * usize::from(line_byte(line, AT_ADDRESS)) + usize::from(line_byte(line, AT_ADDRESS + 1))
}

// Its data byte i.
pub fn data_of(line: &[u8], i: usize) -> u8
    requires { i ≤ data_most }
    ensures { result ≡ data_of line.now i }
{
    line_byte(line, AT_DATA + i)
}

// How many digits it has.
pub(crate) fn digits_in(line: &[u8]) -> usize
    ensures { (result ≡ digits_in line.now) × (result ≤ 2 * most_bytes) }
{
    2 * (BESIDE_DATA + count_of(line))
}

// Are all its digits there?
fn is_spelled(line: &[u8]) -> bool
    ensures { result ≡ is_spelled line.now }
{
    let n = digits_in(line);
    if line.len() < n {
        return false;
    }
    for c in &line[..n] {
        if !is_digit(*c) {
            return false;
        }
    }
    true
}

// The running sum of its bytes, checksum included.
fn sum_of(line: &[u8]) -> u8
    ensures { result ≡ sum_of line.now }
{
    let n = BESIDE_DATA + count_of(line);
    let mut sum: u8 = 0;
    for i in 0..n {
        sum = sum.wrapping_add(line_byte(line, i));
    }
    sum
}

// The group that a line's type names, 0 for no group: no Option, since `gives` and what lay_group promises speak of group 0 too.
#[tactic(auto, unfolding(crate::specs::Line::group_of_type))]
fn group_of_type(kind: u8) -> usize
    ensures { result ≡ group_of_type kind }
{
    match kind {
        0x00 | 0x81 => CODE,
        0x82 => DATA,
        0x83 => STACK,
        0x84 => EXTRA,
        _ => 0,
    }
}

// The group of its data bytes.
pub fn group_of(line: &[u8]) -> usize
    ensures { result ≡ group_of line.now }
{
    group_of_type(line_byte(line, AT_TYPE))
}

// Is it the end line?
pub fn is_end(line: &[u8]) -> bool
    ensures { result ≡ is_end line.now }
{
    line_byte(line, AT_TYPE) == END
}

// Why a line that is not the end line is refused for what it says.
fn data_why(line: &[u8]) -> Result<(), Refusal>
    ensures { result ≡ unless (data_refusal line.now) tt }
{
    if group_of(line) == 0 {
        return Err(Refusal::OtherType);
    }
    if ADDRESSES < address_of(line) + count_of(line) {
        return Err(Refusal::Beyond);
    }
    Ok(())
}

// Why the line is refused.
pub fn line_why(line: &[u8]) -> Result<(), Refusal>
    ensures { result ≡ unless (line_refusal line.now) tt }
{
    if !is_spelled(line) {
        return Err(Refusal::Digits);
    }
    if sum_of(line) != 0 {
        return Err(Refusal::Sum);
    }
    if is_end(line) {
        return Ok(());
    }
    data_why(line)
}
