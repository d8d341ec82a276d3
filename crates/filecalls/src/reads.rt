// The reads: sequential (20) and random (33).
ghost use Rattle.std.specs.Prelude.{◌≡◌, false, List, [], ℕ, ◌<◌, length};
ghost use Rattle.call_fcb.specs.Fcb.{file_records};
ghost use Rattle.call_answers.specs.Refusal.{is_none};
ghost use Rattle.filecalls.specs.Outcome.{outcome, left};
ghost use Rattle.filecalls.specs.Leaves.{read_sequential_leaves, read_random_leaves};
ghost use Rattle.filecalls.specs.CodeLadder.{read_record_act};
ghost use Rattle.filecalls.specs.CodeReady.{Lent};
ghost use Rattle.filecalls.specs.CodeFront.{joined, joined_reply};

use crate::{Front, FrontReply};
use call_answers::Refusal;
use disk_geometry::Geometry;

impl Front {
    // Reads record n, where the tests of what is lent have passed.
    fn read_at(
        self,
        volume: &[u8],
        fcb: &mut [u8],
        buffer: &mut [u8],
        n: usize,
        cr: u8,
        missing: Refusal,
    ) -> FrontReply
        requires lent { Lent (joined self []) (length volume.now) (length fcb.old) (length buffer.old) }
        requires n_lt_file_records { (n < file_records) × (is_none missing ≡ false) }
        ensures { (held : List ℕ)
            → left (joined_reply result held) volume.now fcb.new buffer.new
            ≡ outcome (joined self held) volume.now fcb.old buffer.old
            (read_record_act (joined self held) volume.now fcb.old n cr missing) }
    {
        let why = call_read::read::read_record(
            self.geometry,
            volume,
            fcb,
            buffer,
            self.user,
            n,
            cr,
            missing,
        );
        self.answered(why, 0)
    }

    // Function 20: reads at the sequential position, and moves it on.
    pub fn read_sequential(self, volume: &[u8], fcb: &mut [u8], buffer: &mut [u8]) -> FrontReply
        ensures { (held : List ℕ)
            → left (joined_reply result held) volume.now fcb.new buffer.new
            ≡ read_sequential_leaves (joined self held) volume.now fcb.old buffer.old }
    {
        let why = self.sequential_why(volume, fcb, buffer.len());
        if !call_answers::is_none(why) {
            return self.refused(why);
        }
        let n = call_fcb::position_of(fcb);
        self.read_at(
            volume,
            fcb,
            buffer,
            n,
            (n % Geometry::EXTENT_RECORDS + 1) as u8,
            Refusal::Absent,
        )
    }

    // Function 33: reads the record in r0 r1.
    pub fn read_random(self, volume: &[u8], fcb: &mut [u8], buffer: &mut [u8]) -> FrontReply
        ensures { (held : List ℕ)
            → left (joined_reply result held) volume.now fcb.new buffer.new
            ≡ read_random_leaves (joined self held) volume.now fcb.old buffer.old }
    {
        let why = self.random_why(volume, fcb, buffer.len());
        if !call_answers::is_none(why) {
            return self.refused(why);
        }
        let n = call_fcb::random_of(fcb);
        self.read_at(
            volume,
            fcb,
            buffer,
            n,
            (n % Geometry::EXTENT_RECORDS) as u8,
            Refusal::NoGroup,
        )
    }
}
