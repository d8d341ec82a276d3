// One record of a file, as the file calls show it: its control block is copied and aimed at the record, which is read into zeros.
#![tactic(auto)]

ghost use Rattle.std.specs.Prelude.{◌≡◌, List, ℕ, ◌<◌, length};
ghost use Rattle.disk_geometry.specs.Geometry.{record_bytes};
ghost use Rattle.call_fcb.specs.Fcb.{fcb_bytes, with_random};
ghost use Rattle.filecalls.specs.CodeFront.{joined};
ghost use Rattle.record_reads.specs.Shown.{unread, record_shown};

use call_answers::Refusal;
use call_fcb::FCB_BYTES;
use filecalls::Front;

// The control block with n as its record, in a copy.
pub fn point(copy: &mut [u8], fcb: &[u8], n: usize)
    requires { (length copy.old ≡ fcb_bytes) × ((length fcb.now ≡ fcb_bytes) × (n < 16777216)) }
    ensures { copy.new ≡ with_random fcb.now n }
{
    copy.copy_from_slice(fcb);
    call_fcb::set_random(copy, n);
}

// Reads record n; no held block is looked at.
pub fn show(front: Front, volume: &[u8], fcb: &[u8], n: usize, buffer: &mut [u8]) -> Refusal
    requires { (length fcb.now ≡ fcb_bytes) × ((n < 16777216) × (length buffer.old ≡ record_bytes)) }
    ensures { (held : List ℕ)
        → (result ≡ unread (joined front held) volume.now fcb.now n)
        × (buffer.new ≡ record_shown (joined front held) volume.now fcb.now n) }
{
    let mut copy = [0u8; FCB_BYTES];
    point(&mut copy, fcb, n);
    buffer.fill(0);
    let reply = front.read_random(volume, &mut copy, buffer);
    call_answers::why_of(reply.answer)
}
