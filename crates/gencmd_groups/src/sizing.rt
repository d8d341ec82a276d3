// Sizing: how many paragraphs groups have that reach so far.
ghost use Rattle.std.specs.Prelude.{◌≡◌, cond, ◌≤◌, eqb};
ghost use Rattle.load_header.specs.Header.{page_paragraphs};
ghost use Rattle.gencmd_lines.specs.Line.{addresses};
ghost use Rattle.gencmd_groups.specs.Groups.{paragraphs, sizes_of};
ghost use Rattle.gencmd_groups.specs.CodeMeasure.{ReachWithin};

use crate::Groups;
use load_header::PAGE_PARAGRAPHS;
use memory_spans::PARAGRAPH_BYTES;

// How many paragraphs a group has that reaches so far, at least so many.
fn paragraphs_of(least: usize, reach: usize) -> usize
    requires { reach ≤ addresses }
    ensures { result ≡ paragraphs least reach }
{
    if reach == 0 {
        return 0;
    }
    let n = reach.div_ceil(PARAGRAPH_BYTES);
    least.max(n)
}

// The least paragraphs of the code group: it has the base page where there is no data group.
fn least_code(data: usize) -> usize
    ensures { result ≡ cond (eqb «data» 0) page_paragraphs 0 }
{
    if data == 0 { PAGE_PARAGRAPHS } else { 0 }
}

// The sizes of groups that reach so far.
pub fn sizes(reach: Groups) -> Groups
    requires { ReachWithin reach }
    ensures { result ≡ sizes_of reach }
{
    Groups {
        code: paragraphs_of(least_code(reach.data), reach.code),
        data: paragraphs_of(PAGE_PARAGRAPHS, reach.data),
        extra: paragraphs_of(0, reach.extra),
        stack: paragraphs_of(0, reach.stack),
    }
}
