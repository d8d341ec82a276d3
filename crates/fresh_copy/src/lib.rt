// A fresh disk from a worn one: the copy in good order, written to a second lent volume of the same geometry.
#![tactic(auto)]

ghost use Rattle.std.specs.Prelude.{◌≡◌};
ghost use Rattle.fresh_copy.specs.FreshCopy.{copied, fresh_copy};

use call_answers::{Answer, Refusal};
use disk_geometry::Geometry;
use filecalls::Drive;

// Copies the first volume to the second, in good order: the free blocks, or the refusal of log-in for the first, or 33 for the second.
pub fn fresh_copy(g: Geometry, first: &[u8], second: &mut [u8]) -> Answer
    ensures { copied result first.now second.new ≡ fresh_copy g first.now second.old }
{
    let answer = Drive::log_in(g, first).answer;
    if !call_answers::succeeded(answer) {
        return answer;
    }
    if second.len() != g.bytes() {
        return Answer::Refused(Refusal::VolumeLength);
    }
    fresh_laying::lay_out(g, first, second);
    answer
}
