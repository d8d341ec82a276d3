// Laying: the bytes of one group, each at its address, in a lent part.
ghost use Rattle.std.specs.Prelude.{◌≡◌, length, set};
ghost use Rattle.gencmd_lines.specs.Lines.{lines_in};
ghost use Rattle.gencmd_groups.specs.Groups.{group_bytes};
ghost use Rattle.gencmd_groups.specs.CodeLaying.{laid};

use gencmd_lines::line;
use gencmd_lines::walk::Lines;

// The byte b at address a, where the part reaches so far.
fn lay_byte(part: &mut [u8], a: usize, b: u8)
    ensures { part.new ≡ set part.old a b }
{
    if a < part.len() {
        part[a] = b;
    }
}

// The data bytes of a line of the group, over what was laid before; none of another group's line.
fn lay_line(part: &mut [u8], line: &[u8], group: usize)
    ensures { part.new ≡ laid part.old line.now group }
{
    if line::group_of(line) != group {
        return;
    }
    let address = line::address_of(line);
    let count = line::count_of(line);
    for i in 0..count {
        lay_byte(part, address + i, line::data_of(line, i));
    }
}

// The bytes of a group, from address 0 to the end of the part; zero where no line gives one.
pub fn lay_group(part: &mut [u8], text: &[u8], group: usize)
    ensures { part.new
        ≡ group_bytes (lines_in text.now) group (length part.old) }
{
    if part.len() == 0 {
        return;
    }
    part.fill(0);
    for line in Lines::new(text) {
        if line::is_end(line) {
            return;
        }
        lay_line(part, line, group);
    }
}
