// Log-in (13 and 37): inspects the volume and opens the drive.
ghost use Rattle.std.specs.Prelude.{◌≡◌};
ghost use Rattle.filecalls.specs.declared.Reply.{Reply};
ghost use Rattle.filecalls.specs.State.{closed, logged_in};
ghost use Rattle.filecalls.specs.LogIn.{log_in};

use crate::{Drive, Reply};
use call_answers::{Answer, Refusal};
use disk_geometry::Geometry;
use disk_held::WORDS;

// The state after log-in: user 0, not protected and no search open, as in the closed state.
fn logged_in(geometry: Geometry, held: [u64; WORDS]) -> Drive
    ensures { result ≡ logged_in geometry held }
{
    let mut drive = Drive::closed();
    drive.geometry = geometry;
    drive.held = held;
    drive
}

// A refused log-in: the closed state.
fn closed_reply(answer: Answer) -> Reply
    ensures { result ≡ record { answer = answer; drive = closed } }
{
    let drive = Drive::closed();
    Reply { answer, drive }
}

impl Drive {
    // Functions 13 and 37: the free blocks and the state that calls take, or the lowest bad slot and the closed state.
    pub fn log_in(g: Geometry, volume: &[u8]) -> Reply
        ensures { result ≡ log_in g volume.now }
    {
        if !g.is_lawful() {
            return closed_reply(Answer::Refused(Refusal::Closed));
        }
        let whole = volume.len() == g.bytes();
        if !whole {
            return closed_reply(Answer::Refused(Refusal::VolumeLength));
        }
        let mut held = [0u64; WORDS];
        let found = disk_inspection::inspect(g, volume, &mut held);
        if found.slot < g.slots() {
            return closed_reply(Answer::BadSlot(found.slot));
        }
        let drive = logged_in(g, held);
        Reply {
            answer: Answer::Ready(found.free),
            drive,
        }
    }
}
