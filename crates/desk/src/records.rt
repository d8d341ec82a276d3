// A record of the file, rewritten by the file calls.
ghost use Rattle.std.specs.Prelude.{◌≡◌, ◌<◌, length};
ghost use Rattle.call_fcb.specs.Fcb.{fcb_bytes, file_records};
ghost use Rattle.filecalls.specs.CodeFront.{joined};
ghost use Rattle.desk.specs.Stores.{rewritten_stores};
ghost use Rattle.desk.specs.CodeDesk.{Stored};

use call_fcb::FCB_BYTES;
use disk_held::WORDS;
use filecalls::Front;

// Rewrites record n with this siglum, as long as a store is left. The held blocks that the write is lent are a copy: a present
// record is written where it stands, and takes none.
pub(crate) fn rewrite_most(
    front: Front,
    held: &[u64; WORDS],
    volume: &mut [u8],
    fcb: &[u8],
    n: usize,
    siglum: u16,
    left: &mut usize,
)
    requires { (length fcb.now ≡ fcb_bytes) × (n < file_records) }
    ensures { Stored front.geometry volume.old left.old
        (rewritten_stores (joined front held.now) fcb.now siglum volume.old n)
        volume.new left.new }
{
    let [low, high] = siglum.to_le_bytes();
    let mut aimed = [0u8; FCB_BYTES];
    record_reads::point(&mut aimed, fcb, n);
    let mut lent = *held;
    front.rewrite_random_most(&mut lent, volume, &mut aimed, low, high, left);
}
