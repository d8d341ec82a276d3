// The calls that look at no volume: write protect (28), user (32), set random record (36).
ghost use Rattle.std.specs.Prelude.{◌≡◌, List, [], ℕ};
ghost use Rattle.call_answers.specs.Refusal.{first_met};
ghost use Rattle.filecalls.specs.Outcome.{left};
ghost use Rattle.filecalls.specs.Small.{set_random_tests};
ghost use Rattle.filecalls.specs.Leaves.{protect_leaves, user_leaves, set_random_leaves};
ghost use Rattle.filecalls.specs.CodeFront.{joined, joined_reply};

use crate::{Front, FrontReply};
use call_answers::Refusal;
use call_fcb::{CR, DR, FCB_BYTES};
use disk_volume::fields::{EX, S2};

impl Front {
    // 32, 34, 42 and 40 of function 36, which is lent no volume.
    fn position_why(self, fcb: &[u8]) -> Refusal
        ensures { (held : List ℕ) → result ≡ first_met (set_random_tests (joined self held) fcb.now) }
    {
        if !self.is_open() {
            return Refusal::Closed;
        }
        let whole = fcb.len() == FCB_BYTES;
        if !whole {
            return Refusal::FcbLength;
        }
        let fits = (fcb[EX] <= 31) & (fcb[S2] <= 15) & (fcb[CR] <= 128);
        let a = call_answers::refuse(Refusal::DriveCode, 1 < fcb[DR]);
        let b = call_answers::refuse(Refusal::Position, !fits);
        call_answers::first_of(a, b)
    }

    // Function 28: protects the drive until the next log-in.
    pub fn protect(self) -> FrontReply
        ensures { (held : List ℕ) → left (joined_reply result held) [] [] [] ≡ protect_leaves (joined self held) }
    {
        if !self.is_open() {
            return self.refused(Refusal::Closed);
        }
        let mut front = self;
        front.protected = true;
        front.done(0)
    }

    // Function 32: sets the user, or answers the current one for 255.
    pub fn user_code(self, code: u8) -> FrontReply
        ensures { (held : List ℕ) → left (joined_reply result held) [] [] [] ≡ user_leaves (joined self held) code }
    {
        if !self.is_open() {
            return self.refused(Refusal::Closed);
        }
        if (15 < code) & (code < 255) {
            return self.refused(Refusal::UserCode);
        }
        if code == 255 {
            return self.done(self.user);
        }
        let mut front = self;
        front.user = code;
        front.done(0)
    }

    // Function 36: the sequential position in r0 r1 r2.
    pub fn set_random(self, fcb: &mut [u8]) -> FrontReply
        ensures { (held : List ℕ)
            → left (joined_reply result held) [] fcb.new []
            ≡ set_random_leaves (joined self held) fcb.old }
    {
        let why = self.position_why(fcb);
        if !call_answers::is_none(why) {
            return self.refused(why);
        }
        let n = call_fcb::position_of(fcb);
        call_fcb::set_random(fcb, n);
        self.done(0)
    }
}
