// Planning: why a text is refused, or the sizes of its groups.
ghost use Rattle.std.specs.Prelude.{◌≡◌};
ghost use Rattle.gencmd_groups.specs.CodeMeasure.{ReachWithin};
ghost use Rattle.gencmd_file.specs.CodePlan.{plan_for, plan_of, Safe};

use crate::writing::file_length;
use gencmd_groups::Groups;
use gencmd_groups::measuring::measure;
use gencmd_groups::sizing::sizes;
use gencmd_lines::Refusal;

// The sizes of groups that reach so far, where the file has room.
fn plan_for(reach: Groups, room: usize) -> Result<Groups, Refusal>
    requires { ReachWithin reach }
    ensures value { result ≡ plan_for reach room }
    ensures safe { Safe room result }
{
    if reach.code == 0 {
        return Err(Refusal::NoCode);
    }
    let s = sizes(reach);
    if room < file_length(s) {
        return Err(Refusal::Room);
    }
    Ok(s)
}

// The same for a text and a buffer of so many bytes.
pub(crate) fn plan(text: &[u8], room: usize) -> Result<Groups, Refusal>
    ensures value { result ≡ plan_of text.now room }
    ensures safe { Safe room result }
{
    let reach = measure(text)?;
    plan_for(reach, room)
}
