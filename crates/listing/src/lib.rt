// The listing of a volume of V's geometry: the text that the lister prints, laid into a lent buffer.
#![tactic(auto)]

ghost use Rattle.std.specs.Prelude.{◌≡◌, ◌≤◌, ℕ, length};
ghost use Rattle.call_answers.specs.declared.Answer.TheVariants.{Ready};
ghost use Rattle.disk_volume.specs.CodeLent.{IsVolume};
ghost use Rattle.text.specs.Text.{text, puts};
ghost use Rattle.text.specs.Writer.{Appends};
ghost use Rattle.listing.specs.Listing.{geometry_v, refused, listing_for, listing};

use call_answers::Answer;
use disk_geometry::Geometry;
use filecalls::Drive;
use text::Writer;

mod lines;

// A volume of V's geometry has so many bytes.
pub const VOLUME_BYTES: usize = 40960;

// No listing has more bytes than this.
pub const ROOM: usize = 1024;

// V's geometry: B 1,024, T 40, D 1.
pub fn geometry() -> Geometry
    ensures { result ≡ geometry_v }
{
    Geometry {
        block_bytes: 1024,
        blocks: 40,
        directory_blocks: 1,
        placing: Geometry::STRAIGHT,
    }
}

// The word and the number of a refusal.
fn put_refused(w: &mut Writer<'_>, answer: Answer)
    ensures { Appends w.old (refused answer) w.new }
{
    w.bytes(b"REFUSED ");
    w.decimal(usize::from(call_answers::number(answer)));
}

// The listing of a volume that log-in answers like this.
fn put_listing(w: &mut Writer<'_>, g: Geometry, volume: &[u8], answer: Answer)
    requires { (free : ℕ) → answer ≡ Ready free → IsVolume g volume.now }
    ensures { Appends w.old (listing_for answer g volume.now) w.new }
{
    match answer {
        Answer::Ready(free) => lines::put_accepted(w, g, volume, free),
        Answer::BadSlot(slot) => {
            put_refused(w, answer);
            w.byte(b' ');
            w.decimal(slot);
            w.byte(b'\n');
        }
        Answer::Refused(_) => {
            put_refused(w, answer);
            w.byte(b'\n');
        }
        Answer::Done(_) | Answer::Several(_, _) => {}
    }
}

// The listing of the volume, as far as `out` has room, and how many bytes it has taken. In a buffer of ROOM bytes it is
// whole: theorem `fits`.
pub fn list(volume: &[u8], out: &mut [u8]) -> usize
    ensures result_after { text out.new result
        ≡ puts (text out.old 0) (listing volume.now) }
    ensures upper_bound { result ≤ length out.new }
{
    let g = geometry();
    let r = Drive::log_in(g, volume);
    let mut w = Writer::new(out, 0);
    put_listing(&mut w, g, volume, r.answer);
    w.at()
}
