// The edition desk over lent bytes alone: a siglum replaced by another, and which manuscript a siglum means.
#![tactic(auto)]

ghost use Rattle.std.specs.Prelude.{◌≡◌, ◌+◌, ◌*◌, ◌<◌};
ghost use Rattle.drive_bytes.specs.Layout.{decoded};
ghost use Rattle.desk_manuscripts.specs.Manuscript.{line_bytes, name_at};
ghost use Rattle.seam_desk.specs.Sigla.{replaced, replace_at_seam, start_of, in_high, too_long, sealed_where, manuscript_at_seam};

use desk_manuscripts::{LINE_BYTES, NAME_AT, Place, Unexplained};
use disk_held::WORDS;
use filecalls::Drive;
use seam_words::{halves, with_high};

// From where on a place in a list has more than 32 bits.
const PLACES: usize = 4294967296;

// The state in a drive's bytes, the closed one where they are no drive's.
fn state(drive: &[u8]) -> Drive
    ensures { result ≡ decoded drive.now }
{
    if !drive_bytes::is_drive(drive) {
        return Drive::closed();
    }
    let front = drive_bytes::fields(drive);
    let mut held = [0u64; WORDS];
    drive_bytes::load_words(drive, &mut held);
    Drive {
        geometry: front.geometry,
        user: front.user,
        protected: front.protected,
        search: front.search,
        held,
    }
}

// Replaces a siglum by another in one chapter of a collation file. A present record is rewritten in its place, so the drive stays as
// given.
pub fn replace_siglum(
    drive: &[u8],
    volume: &mut [u8],
    fcb: &[u8],
    chapter: u16,
    old: u16,
    new: u16,
) -> u32
    ensures { replaced result volume.new
        ≡ replace_at_seam drive.now volume.old fcb.now chapter old new }
{
    let d = state(drive);
    let reply = desk::replace::replace(d, volume, fcb, chapter, old, new);
    let number = u16::from(desk::number(reply.answer));
    let matching = desk::value(reply.answer) as u16;
    halves(number, matching)
}

// Is the list too long for its places?
fn is_too_long(list: &[u8]) -> bool
    ensures { result ≡ too_long list.now }
{
    PLACES <= list.len()
}

// Where the name begins in line i.
fn start(i: usize) -> u32
    requires { i * line_bytes + name_at < in_high }
    ensures { result ≡ i * line_bytes + name_at }
{
    (i * LINE_BYTES + NAME_AT) as u32
}

// Where a siglum is explained as one number: the answer's number, which list, and where the name begins.
fn told(place: Result<Place, Unexplained>) -> u64
    requires { start_of place < in_high }
    ensures { result ≡ sealed_where place }
{
    match place {
        Ok(Place::Own(i)) => with_high(halves(0, 0), start(i)),
        Ok(Place::House(j)) => with_high(halves(0, 1), start(j)),
        Err(why) => u64::from(u8::from(why)),
    }
}

// Says which manuscript a siglum means: which list has its name, and where in that list the name begins.
pub fn manuscript(siglum: u16, own: &[u8], house: &[u8]) -> u64
    ensures { result ≡ manuscript_at_seam siglum own.now house.now }
{
    if is_too_long(own) | is_too_long(house) {
        return told(Err(Unexplained::Lists));
    }
    told(desk_manuscripts::where_is(siglum, own, house))
}
