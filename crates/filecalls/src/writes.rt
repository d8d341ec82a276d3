// The writes: sequential (21), random (34), and random with zero fill (40). Beneath each stands a function that ends when no
// store is left: the call is that function with enough of them.
ghost use Rattle.std.specs.Prelude.{◌≡◌, [], ◌<◌, length};
ghost use Rattle.disk_volume.specs.Name.{name_of};
ghost use Rattle.call_fcb.specs.Fcb.{file_records};
ghost use Rattle.call_write.specs.Rewrite.{bytes_of, source_length};
ghost use Rattle.filecalls.specs.Outcome.{unless};
ghost use Rattle.filecalls.specs.Write.{directory_tests, write_done, write_sequential_act, write_direct_act};
ghost use Rattle.filecalls.specs.Stores.{cut_outcome, cut_left};
ghost use Rattle.filecalls.specs.CodeReady.{Lent};
ghost use Rattle.filecalls.specs.CodeFront.{joined, joined_reply};

use crate::{Front, FrontReply};
use call_answers::Refusal;
use call_write::Source;
use disk_geometry::Geometry;
use disk_held::WORDS;

impl Front {
    // Writes record n, where the tests of what is lent have passed. If it `fills`, a block that it gives is first filled with
    // zeros. Its bytes are the buffer's, or those that a read shows, but for the first two.
    pub(crate) fn write_at(
        self,
        held: &mut [u64; WORDS],
        volume: &mut [u8],
        fcb: &mut [u8],
        source: Source<'_>,
        n: usize,
        cr: u8,
        fills: bool,
        left: &mut usize,
    ) -> FrontReply
        requires lent { Lent (joined self []) (length volume.old) (length fcb.old) (source_length source) }
        requires n_lt_file_records { n < file_records }
        ensures { cut_left (joined_reply result held.new) volume.new fcb.new
            (bytes_of self.geometry volume.old self.user (name_of fcb.old) n source.entry)
            left.new
            ≡ cut_outcome left.old (joined self held.old) volume.old fcb.old
            (bytes_of self.geometry volume.old self.user (name_of fcb.old) n source.entry)
            (unless (directory_tests (joined self held.old) volume.old fcb.old n)
            (write_done (joined self held.old) volume.old fcb.old n cr fills
            (bytes_of self.geometry volume.old self.user (name_of fcb.old) n source.entry))) }
    {
        if self.protected {
            return self.refused(Refusal::Protected);
        }
        let why = call_write::write::write_record(
            self.geometry,
            fills,
            volume,
            fcb,
            source,
            self.user,
            held,
            n,
            cr,
            left,
        );
        self.answered(why, 0)
    }

    // Function 21 as long as a store is left.
    pub fn write_sequential_most(
        self,
        held: &mut [u64; WORDS],
        volume: &mut [u8],
        fcb: &mut [u8],
        buffer: &[u8],
        left: &mut usize,
    ) -> FrontReply
        ensures { cut_left (joined_reply result held.new) volume.new fcb.new buffer.now left.new
            ≡ cut_outcome left.old (joined self held.old) volume.old fcb.old buffer.now
            (write_sequential_act (joined self held.old) volume.old fcb.old buffer.now) }
    {
        let why = self.sequential_why(volume, fcb, buffer.len());
        if !call_answers::is_none(why) {
            return self.refused(why);
        }
        let n = call_fcb::position_of(fcb);
        self.write_at(
            held,
            volume,
            fcb,
            Source::Buffer(buffer),
            n,
            (n % Geometry::EXTENT_RECORDS + 1) as u8,
            false,
            left,
        )
    }

    // Functions 34 and 40 as long as a store is left.
    pub fn write_direct_most(
        self,
        held: &mut [u64; WORDS],
        volume: &mut [u8],
        fcb: &mut [u8],
        buffer: &[u8],
        fills: bool,
        left: &mut usize,
    ) -> FrontReply
        ensures { cut_left (joined_reply result held.new) volume.new fcb.new buffer.now left.new
            ≡ cut_outcome left.old (joined self held.old) volume.old fcb.old buffer.now
            (write_direct_act fills (joined self held.old) volume.old fcb.old buffer.now) }
    {
        let why = self.random_why(volume, fcb, buffer.len());
        if !call_answers::is_none(why) {
            return self.refused(why);
        }
        let n = call_fcb::random_of(fcb);
        self.write_at(
            held,
            volume,
            fcb,
            Source::Buffer(buffer),
            n,
            (n % Geometry::EXTENT_RECORDS) as u8,
            fills,
            left,
        )
    }
}
