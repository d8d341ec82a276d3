// Open (15), close (16) and size (35).
ghost use Rattle.std.specs.Prelude.{◌≡◌, List, [], ℕ};
ghost use Rattle.filecalls.specs.Outcome.{left};
ghost use Rattle.filecalls.specs.Leaves.{open_leaves, close_leaves, size_leaves};
ghost use Rattle.filecalls.specs.CodeFront.{joined, joined_reply};

use crate::{Front, FrontReply};
use disk_geometry::Geometry;

impl Front {
    // Function 15: shows the entry that the control block means.
    pub fn open_file(self, volume: &[u8], fcb: &mut [u8]) -> FrontReply
        ensures { (held : List ℕ)
            → left (joined_reply result held) volume.now fcb.new []
            ≡ open_leaves (joined self held) volume.now fcb.old }
    {
        let why = self.named_why(volume, fcb, Geometry::RECORD_BYTES, true);
        if !call_answers::is_none(why) {
            return self.refused(why);
        }
        let found = call_open::open_file(self.geometry, volume, fcb, self.user);
        self.answered(found.why, (found.slot % Geometry::RECORD_SLOTS) as u8)
    }

    // Function 16: the group has an entry; nothing is changed.
    pub fn close_file(self, volume: &[u8], fcb: &[u8]) -> FrontReply
        ensures { (held : List ℕ)
            → left (joined_reply result held) volume.now fcb.now []
            ≡ close_leaves (joined self held) volume.now fcb.now }
    {
        let why = self.named_why(volume, fcb, Geometry::RECORD_BYTES, false);
        if !call_answers::is_none(why) {
            return self.refused(why);
        }
        let found = call_open::close_file(self.geometry, volume, fcb, self.user);
        self.answered(found.why, (found.slot % Geometry::RECORD_SLOTS) as u8)
    }

    // Function 35: the file's size in r0 r1 r2.
    pub fn file_size(self, volume: &[u8], fcb: &mut [u8]) -> FrontReply
        ensures { (held : List ℕ)
            → left (joined_reply result held) volume.now fcb.new []
            ≡ size_leaves (joined self held) volume.now fcb.old }
    {
        let why = self.named_why(volume, fcb, Geometry::RECORD_BYTES, false);
        if !call_answers::is_none(why) {
            return self.refused(why);
        }
        let why = call_size::measure(self.geometry, volume, fcb, self.user);
        self.answered(why, 0)
    }
}
