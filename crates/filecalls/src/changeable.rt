// Whether a file may be changed: a question that changes nothing.
ghost use Rattle.std.specs.Prelude.{◌≡◌, List, ℕ};
ghost use Rattle.call_answers.specs.Refusal.{first_met};
ghost use Rattle.filecalls.specs.Change.{change_tests};
ghost use Rattle.filecalls.specs.CodeFront.{joined};

use crate::Front;
use call_answers::Refusal;
use disk_geometry::Geometry;
use disk_volume::fields::{NAME, NAME_END};
use disk_volume::{Wanted, directory};

impl Front {
    // Why the file may not be changed: 32, 33, 34, 42, 39, 37, 3, 38.
    pub fn change_why(self, volume: &[u8], fcb: &[u8]) -> Refusal
        ensures { (held : List ℕ) → result ≡ first_met (change_tests (joined self held) volume.now fcb.now) }
    {
        let why = self.named_why(volume, fcb, Geometry::RECORD_BYTES, false);
        if !call_answers::is_none(why) {
            return why;
        }
        let slots = self.geometry.slots();
        let lowest = directory::find(
            self.geometry,
            volume,
            self.user,
            &fcb[NAME..NAME_END],
            Wanted::File,
        );
        let read_only = directory::find(
            self.geometry,
            volume,
            self.user,
            &fcb[NAME..NAME_END],
            Wanted::ReadOnlyFile,
        );
        let a = call_answers::refuse(Refusal::Protected, self.protected);
        let b = call_answers::refuse(Refusal::NoFile, slots <= lowest);
        let c = call_answers::refuse(Refusal::ReadOnly, read_only < slots);
        call_answers::first_of(a, call_answers::first_of(b, c))
    }
}
