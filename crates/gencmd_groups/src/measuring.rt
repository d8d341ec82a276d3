// Measuring: the lines tested one after the other, and how far each group reaches.
ghost use Rattle.std.specs.Prelude.{◌≡◌, cond, max};
ghost use Rattle.gencmd_lines.specs.Lines.{lines_of};
ghost use Rattle.gencmd_groups.specs.CodeMeasure.{reach_over, measured};

use crate::Groups;
use gencmd_lines::walk::Lines;
use gencmd_lines::{Refusal, line};
use load_header::{CODE, DATA, EXTRA, STACK};

// The larger of two numbers, where the second counts.
fn larger(old: usize, here: bool, n: usize) -> usize
    ensures { result ≡ max old (cond here n 0) }
{
    if here { old.max(n) } else { old }
}

// How far the groups reach with one more line.
fn reach_over(reach: Groups, line: &[u8]) -> Groups
    ensures { result ≡ reach_over reach line.now }
{
    let group = line::group_of(line);
    let count = line::count_of(line);
    let end = line::address_of(line) + count;
    let some = 0 < count;
    Groups {
        code: larger(reach.code, (group == CODE) & some, end),
        data: larger(reach.data, (group == DATA) & some, end),
        extra: larger(reach.extra, (group == EXTRA) & some, end),
        stack: larger(reach.stack, (group == STACK) & some, end),
    }
}

// Why the lines of a text are refused, or how far the groups of those before the end line reach.
pub fn measure(text: &[u8]) -> Result<Groups, Refusal>
    ensures { result ≡ measured (lines_of text.now) }
{
    let mut reach = Groups {
        code: 0,
        data: 0,
        extra: 0,
        stack: 0,
    };
    for line in Lines::new(text) {
        line::line_why(line)?;
        if line::is_end(line) {
            return Ok(reach);
        }
        reach = reach_over(reach, line);
    }
    Err(Refusal::NoEnd)
}
