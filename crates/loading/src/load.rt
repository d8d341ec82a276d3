// The call: everything is read and tested before anything is granted or laid.
ghost use Rattle.std.specs.Prelude.{◌≡◌, true, List, ℕ, ◌+◌, ◌-◌, ◌*◌, ◌≤◌, ◌<◌, ltb, length, Err};
ghost use Rattle.disk_geometry.specs.Geometry.{record_bytes};
ghost use Rattle.call_fcb.specs.Fcb.{fcb_bytes};
ghost use Rattle.memory_spans.specs.Span.{places, paragraph_bytes};
ghost use Rattle.memory_calls.specs.Table.{within_rules};
ghost use Rattle.load_header.specs.Header.{groups, good_header, image_start};
ghost use Rattle.filecalls.specs.CodeFront.{joined};
ghost use Rattle.load_records.specs.Records.{records, image_records, image};
ghost use Rattle.load_records.specs.CodeReading.{bare};
ghost use Rattle.loading.specs.Load.{after, refusing, grants_of, loaded, placed, load};
ghost use Rattle.loading.specs.CodeLoad.{Tested};
ghost use Rattle.loading.specs.declared.LoadRefusal.TheVariants.{NoRoom};

use crate::page::PAGE_BYTES;
use crate::{LoadRefusal, LoadReply, lay, page};
use disk_geometry::Geometry;
use filecalls::Front;
use memory_calls::Table;
use memory_spans::{PARAGRAPH_BYTES, PLACES};

// Refused, and the table as it was.
fn refuse(why: LoadRefusal, t: Table) -> LoadReply
    ensures { result ≡ record { answer = Err why; table = t } }
{
    LoadReply {
        answer: Err(why),
        table: t,
    }
}

// Grants the groups and, where all have room, lays their images and the base page.
fn grant_and_lay(
    front: Front,
    volume: &[u8],
    fcb: &[u8],
    h: &[u8],
    n: usize,
    t: Table,
    memory: &mut [u8],
) -> LoadReply
    requires { Tested (bare front) volume.now fcb.now h.now n t (length memory.old) }
    ensures { after result memory.new
        ≡ refusing (ltb (length (grants_of h.now t)) (groups h.now)) NoRoom t memory.old
        (loaded h.now (grants_of h.now t) (image (bare front) volume.now fcb.now) t memory.old) }
{
    let before = t.regions();
    let next = load_grants::grant_all(h, n, t.pieces(), before);
    let granted = &next.used()[before.len()..];
    if granted.len() < n {
        return refuse(LoadRefusal::NoRoom, t);
    }
    lay::lay_groups(front, volume, fcb, h, granted, memory);
    let paragraph = page::page_start(h, granted);
    let at = PARAGRAPH_BYTES * paragraph;
    page::put_page(h, granted, &mut memory[at..at + PAGE_BYTES]);
    let pieces = t.pieces;
    let regions = next.list;
    LoadReply {
        answer: Ok(paragraph),
        table: Table {
            pieces,
            used: t.used,
            regions,
            granted: next.count,
        },
    }
}

// 65, 60, 61 and 63, where the file was read: its record 0 is h, and it has so many records.
fn place(
    front: Front,
    volume: &[u8],
    fcb: &[u8],
    h: &[u8],
    size: usize,
    t: Table,
    memory: &mut [u8],
) -> LoadReply
    requires { (length fcb.now ≡ fcb_bytes) × ((size ≡ records (bare front) volume.now fcb.now) × (size < 16777216)) }
    ensures { after result memory.new
        ≡ placed h.now (image_records (bare front) volume.now fcb.now)
        (image (bare front) volume.now fcb.now) t memory.old }
{
    if !memory_calls::is_within_rules(memory.len(), t) {
        return refuse(LoadRefusal::Rules, t);
    }
    if !load_header::is_good(h) {
        return refuse(LoadRefusal::Header, t);
    }
    let n = load_header::groups(h);
    let image = Geometry::RECORD_BYTES * size.saturating_sub(1);
    if image < PARAGRAPH_BYTES * load_header::image_start(h, n) {
        return refuse(LoadRefusal::Image, t);
    }
    if PLACES < t.granted + n {
        return refuse(LoadRefusal::NoPlace, t);
    }
    grant_and_lay(front, volume, fcb, h, n, t, memory)
}

// Function 59: loads the CMD file that the control block names. Drive, volume and control block stay as given; of the drive only
// its front is looked at.
pub fn load(front: Front, volume: &[u8], fcb: &[u8], t: Table, memory: &mut [u8]) -> LoadReply
    ensures { (held : List ℕ)
        → after result memory.new
        ≡ load (joined front held) volume.now fcb.now t memory.old }
{
    let mut header = [0u8; Geometry::RECORD_BYTES];
    let seen = load_records::read_all(front, volume, fcb, &mut header);
    let why = seen.why;
    if !call_answers::is_none(why) {
        return refuse(LoadRefusal::File(why), t);
    }
    place(front, volume, fcb, &header, seen.records, t, memory)
}
