// What all functions of the seam share: a caller's numbers as sizes and as a geometry, and an answer as one number.
#![tactic(auto)]

ghost use Rattle.std.specs.Prelude.{◌≡◌, ◌+◌, ◌*◌, ◌%◌, ◌<◌};
ghost use Rattle.call_answers.specs.Answer.{number_of, value_of};
ghost use Rattle.disk_geometry.specs.Geometry.{geometry_of, with_placing};
ghost use Rattle.seam_words.specs.Answered.{answered};

use call_answers::Answer;
use disk_geometry::Geometry;

// A number of 32 bits as a size; std has no From for it.
pub fn size(x: u32) -> usize
    ensures { result ≡ x }
{
    x as usize
}

// A number and the value beside it as one of 32 bits: the number in the low 16, the value in the high 16.
pub fn halves(number: u16, value: u16) -> u32
    ensures { result ≡ number + 65536 * value }
{
    u32::from(number) + 65536 * u32::from(value)
}

// A number and the value beside it as one of 64 bits: the number in the low 32, the value in the high 32.
pub fn with_high(number: u32, value: u32) -> u64
    ensures { result ≡ number + 4294967296 * value }
{
    u64::from(number) + 4294967296 * u64::from(value)
}

// The geometry of a caller's four numbers.
pub fn geometry(block_bytes: u32, blocks: u32, directory_blocks: u32, placing: u32) -> Geometry
    ensures { result ≡ with_placing (geometry_of block_bytes blocks directory_blocks) placing }
{
    Geometry {
        block_bytes: size(block_bytes),
        blocks: size(blocks),
        directory_blocks: size(directory_blocks),
        placing: size(placing),
    }
}

// The answer as one number: its number in the low 16 bits, the value beside it in the high 16.
pub fn seal(a: Answer) -> u32
    ensures { (result % 65536 ≡ number_of a) × (value_of a < 65536 → result ≡ answered a) }
{
    let number = u16::from(call_answers::number(a));
    let value = (call_answers::value(a) % 65536) as u16;
    halves(number, value)
}
