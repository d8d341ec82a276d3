// The calls on names: delete (19), make (22), rename (23), attributes (30). Beneath each stands a function that ends when no
// store is left: the call is that function with enough of them.
ghost use Rattle.std.specs.Prelude.{◌≡◌, List, [], ℕ};
ghost use Rattle.filecalls.specs.Names.{delete_act, make_act, rename_act, attributes_act};
ghost use Rattle.filecalls.specs.Stores.{cut_outcome, cut_left};
ghost use Rattle.filecalls.specs.CodeFront.{joined, joined_reply};

use crate::{Front, FrontReply};
use call_answers::Refusal;
use call_fcb::{NEW_NAME, NEW_NAME_END};
use disk_geometry::Geometry;
use disk_held::WORDS;
use disk_volume::fields::{NAME, NAME_END};

impl Front {
    // Function 19 as long as a store is left.
    pub fn delete_most(
        self,
        held: &mut [u64; WORDS],
        volume: &mut [u8],
        fcb: &[u8],
        left: &mut usize,
    ) -> FrontReply
        ensures { cut_left (joined_reply result held.new) volume.new fcb.now [] left.new
            ≡ cut_outcome left.old (joined self held.old) volume.old fcb.now []
            (delete_act (joined self held.old) volume.old fcb.now) }
    {
        let why = self.named_why(volume, fcb, Geometry::RECORD_BYTES, true);
        if !call_answers::is_none(why) {
            return self.refused(why);
        }
        let before = call_answers::refuse(Refusal::Protected, self.protected);
        let why = call_delete::delete_matches(
            self.geometry,
            volume,
            self.user,
            &fcb[NAME..NAME_END],
            held,
            before,
            left,
        );
        self.answered(why, 0)
    }

    // Function 22 as long as a store is left.
    pub fn make_most(self, volume: &mut [u8], fcb: &mut [u8], left: &mut usize) -> FrontReply
        ensures { (held : List ℕ)
            → cut_left (joined_reply result held) volume.new fcb.new [] left.new
            ≡ cut_outcome left.old (joined self held) volume.old fcb.old []
            (make_act (joined self held) volume.old fcb.old) }
    {
        let why = self.named_why(volume, fcb, Geometry::RECORD_BYTES, false);
        if !call_answers::is_none(why) {
            return self.refused(why);
        }
        let file = call_make::new_file_why(fcb);
        let protected = call_answers::refuse(Refusal::Protected, self.protected);
        let before = call_answers::first_of(file, protected);
        let made = call_make::make_file(self.geometry, volume, fcb, self.user, before, left);
        self.answered(made.why, (made.slot % Geometry::RECORD_SLOTS) as u8)
    }

    // Function 23 as long as a store is left.
    pub fn rename_most(self, volume: &mut [u8], fcb: &[u8], left: &mut usize) -> FrontReply
        ensures { (held : List ℕ)
            → cut_left (joined_reply result held) volume.new fcb.now [] left.new
            ≡ cut_outcome left.old (joined self held) volume.old fcb.now []
            (rename_act (joined self held) volume.old fcb.now) }
    {
        let why = self.named_why(volume, fcb, Geometry::RECORD_BYTES, false);
        if !call_answers::is_none(why) {
            return self.refused(why);
        }
        let name = call_rename::rename::new_name_why(fcb);
        let protected = call_answers::refuse(Refusal::Protected, self.protected);
        let before = call_answers::first_of(name, protected);
        let why = call_rename::rename::rename_file(
            self.geometry,
            volume,
            self.user,
            &fcb[NAME..NAME_END],
            &fcb[NEW_NAME..NEW_NAME_END],
            before,
            left,
        );
        self.answered(why, 0)
    }

    // Function 30 as long as a store is left.
    pub fn attributes_most(self, volume: &mut [u8], fcb: &[u8], left: &mut usize) -> FrontReply
        ensures { (held : List ℕ)
            → cut_left (joined_reply result held) volume.new fcb.now [] left.new
            ≡ cut_outcome left.old (joined self held) volume.old fcb.now []
            (attributes_act (joined self held) volume.old fcb.now) }
    {
        let why = self.named_why(volume, fcb, Geometry::RECORD_BYTES, false);
        if !call_answers::is_none(why) {
            return self.refused(why);
        }
        let before = call_answers::refuse(Refusal::Protected, self.protected);
        let why = call_rename::rename::attribute_file(
            self.geometry,
            volume,
            self.user,
            &fcb[NAME..NAME_END],
            before,
            left,
        );
        self.answered(why, 0)
    }
}
