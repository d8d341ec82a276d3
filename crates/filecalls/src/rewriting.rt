// A record read and written again with its first two bytes changed, by one search of the directory.
ghost use Rattle.std.specs.Prelude.{◌≡◌, false};
ghost use Rattle.filecalls.specs.Write.{write_direct_act};
ghost use Rattle.filecalls.specs.Stores.{cut_outcome, cut_left};
ghost use Rattle.filecalls.specs.Rewrite.{rewritten_bytes};
ghost use Rattle.filecalls.specs.CodeFront.{joined, joined_reply};

use crate::{Front, FrontReply};
use call_write::Source;
use disk_geometry::Geometry;
use disk_held::WORDS;

impl Front {
    // Writes the record in r0 r1 as it stands, zeros where it can't be read, but with these first two bytes, as long as a store is
    // left.
    pub fn rewrite_random_most(
        self,
        held: &mut [u64; WORDS],
        volume: &mut [u8],
        fcb: &mut [u8],
        low: u8,
        high: u8,
        left: &mut usize,
    ) -> FrontReply
        ensures { cut_left (joined_reply result held.new) volume.new fcb.new
            (rewritten_bytes (joined self held.old) volume.old fcb.old low high) left.new
            ≡ cut_outcome left.old (joined self held.old) volume.old fcb.old
            (rewritten_bytes (joined self held.old) volume.old fcb.old low high)
            (write_direct_act false (joined self held.old) volume.old fcb.old
            (rewritten_bytes (joined self held.old) volume.old fcb.old low high)) }
    {
        let why = self.random_why(volume, fcb, Geometry::RECORD_BYTES);
        if !call_answers::is_none(why) {
            return self.refused(why);
        }
        let n = call_fcb::random_of(fcb);
        let cr = (n % Geometry::EXTENT_RECORDS) as u8;
        let source = Source::Standing { low, high };
        self.write_at(held, volume, fcb, source, n, cr, false, left)
    }
}
