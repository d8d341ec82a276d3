// The tests that look at the state and at what is lent, in the paper's order.
ghost use Rattle.std.specs.Prelude.{◌≡◌, false, List, ℕ};
ghost use Rattle.call_answers.specs.Refusal.{first_met};
ghost use Rattle.filecalls.specs.CodeLadder.{lent_tests, named_tests, sequential_lent, random_lent};
ghost use Rattle.filecalls.specs.CodeFront.{joined};

use crate::Front;
use call_answers::Refusal;
use call_fcb::{CR, DR, FCB_BYTES, FILE_RECORDS, R2};
use disk_geometry::Geometry;
use disk_volume::fields::{EX, NAME, NAME_END, S2};

impl Front {
    // 32, 33, 34, 35 by the lengths that are lent; a length that is not lent is given as the right one.
    pub(crate) fn lent_why(self, volume: usize, fcb: usize, buffer: usize) -> Refusal
        ensures { (held : List ℕ) → result ≡ first_met (lent_tests (joined self held) volume fcb buffer) }
    {
        if !self.is_open() {
            return Refusal::Closed;
        }
        let a = call_answers::refuse(Refusal::VolumeLength, volume != self.geometry.bytes());
        let b = call_answers::refuse(Refusal::FcbLength, fcb != FCB_BYTES);
        let c = call_answers::refuse(Refusal::BufferLength, buffer != Geometry::RECORD_BYTES);
        call_answers::first_of(a, call_answers::first_of(b, c))
    }

    // The same, then 42 and 39.
    pub(crate) fn named_why(
        self,
        volume: &[u8],
        fcb: &[u8],
        buffer: usize,
        pattern: bool,
    ) -> Refusal
        ensures { (held : List ℕ) → result ≡ first_met (named_tests (joined self held) volume.now fcb.now buffer pattern) }
    {
        let why = self.lent_why(volume.len(), fcb.len(), buffer);
        if !call_answers::is_none(why) {
            return why;
        }
        let a = call_answers::refuse(Refusal::DriveCode, 1 < fcb[DR]);
        let b = call_answers::refuse(
            Refusal::Name,
            !disk_volume::names::good_name(pattern, &fcb[NAME..NAME_END]),
        );
        call_answers::first_of(a, b)
    }

    // The same, then 40 and 6 of a sequential call.
    pub(crate) fn sequential_why(self, volume: &[u8], fcb: &[u8], buffer: usize) -> Refusal
        ensures { (held : List ℕ) → result ≡ first_met (sequential_lent (joined self held) volume.now fcb.now buffer) }
    {
        let why = self.named_why(volume, fcb, buffer, false);
        if !call_answers::is_none(why) {
            return why;
        }
        let fits = (fcb[EX] <= 31) & (fcb[S2] <= 15) & (fcb[CR] <= 128);
        let n = call_fcb::position_of(fcb);
        let a = call_answers::refuse(Refusal::Position, !fits);
        let b = call_answers::refuse(Refusal::Beyond, n == FILE_RECORDS);
        call_answers::first_of(a, b)
    }

    // 32 to 35, 42 and 39, then 6 of a random call.
    pub(crate) fn random_why(self, volume: &[u8], fcb: &[u8], buffer: usize) -> Refusal
        ensures { (held : List ℕ) → result ≡ first_met (random_lent (joined self held) volume.now fcb.now buffer) }
    {
        let why = self.named_why(volume, fcb, buffer, false);
        if !call_answers::is_none(why) {
            return why;
        }
        call_answers::refuse(Refusal::Beyond, fcb[R2] != 0)
    }
}
