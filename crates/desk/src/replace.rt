// The replacement of one siglum by another in one chapter: everything is tested, and the matches are fixed, before anything
// is changed. Beneath it stands a function that ends when no store is left: the call is that function with enough of them.
ghost use Rattle.std.specs.Prelude.{◌≡◌, true, false, cond, List, ℕ, ◌+◌, ◌≤◌, ◌<◌, length, MatchResult};
ghost use Rattle.lists.specs.Bounded.{count_from};
ghost use Rattle.call_fcb.specs.Fcb.{fcb_bytes, file_records};
ghost use Rattle.call_answers.specs.Refusal.{is_none};
ghost use Rattle.filecalls.specs.CodeFront.{joined};
ghost use Rattle.desk.specs.Replace.{plan_in, plan, left, replacement};
ghost use Rattle.desk.specs.Stores.{stores_if, all_stores, desk_cut, cut_replacement};
ghost use Rattle.desk.specs.CodeDesk.{Stored, marked, Sifted, Planned};

use crate::{ENOUGH, Reply, Why, records};
use call_answers::Refusal;
use call_fcb::FILE_RECORDS;
use disk_geometry::Geometry;
use disk_held::WORDS;
use filecalls::{Drive, Front};

// Can each of the records 1 to k be read? Those with this siglum are marked.
fn sift(front: Front, volume: &[u8], fcb: &[u8], siglum: u16, k: usize, marks: &mut [bool]) -> bool
    requires { (length fcb.now ≡ fcb_bytes) × ((k < file_records) × (length marks.old ≡ file_records)) }
    ensures { (held : List ℕ)
        → Sifted (joined front held) volume.now fcb.now siglum k marks.new result }
{
    let mut buffer = [0u8; Geometry::RECORD_BYTES];
    for n in 1..k + 1 {
        if !call_answers::is_none(record_reads::show(front, volume, fcb, n, &mut buffer)) {
            return false;
        }
        marks[n] = numbers::two_at(&buffer, 0) == usize::from(siglum);
    }
    true
}

// Decides in a file whose record 0 is `s`; the matching records of a body to be replaced are marked.
fn plan_in(
    front: Front,
    volume: &[u8],
    fcb: &[u8],
    s: &[u8],
    chapter: u16,
    old: u16,
    marks: &mut [bool],
) -> Result<(usize, usize), Why>
    requires { (length fcb.now ≡ fcb_bytes) × (length marks.old ≡ file_records) }
    ensures { (held : List ℕ)
        → (result ≡ plan_in (joined front held) volume.now fcb.now s.now chapter)
        × Planned (joined front held) volume.now fcb.now old marks.new result }
{
    if !desk_contents::are_good(s) {
        return Err(Why::Contents);
    }
    let listed = desk_contents::listed(s);
    if FILE_RECORDS <= listed {
        return Err(Why::Contents);
    }
    let Some(place) = desk_contents::place_of(s, usize::from(chapter)) else {
        return Err(Why::Contents);
    };
    if !sift(front, volume, fcb, old, listed, marks) {
        return Err(Why::Contents);
    }
    Ok((
        desk_contents::first_at(s, place),
        desk_contents::count_at(s, place),
    ))
}

// A refusal that is met as an error.
fn passed(why: Refusal) -> Result<(), Refusal>
    ensures { MatchResult result (λ _. is_none why ≡ true) (λ met. (met ≡ why) × (is_none why ≡ false)) }
{
    if call_answers::is_none(why) {
        Ok(())
    } else {
        Err(why)
    }
}

// Decides, by reading alone; the matching records of a body to be replaced are marked.
fn plan(
    front: Front,
    volume: &[u8],
    fcb: &[u8],
    chapter: u16,
    old: u16,
    marks: &mut [bool],
) -> Result<(usize, usize), Why>
    requires { length marks.old ≡ file_records }
    ensures { (held : List ℕ)
        → (result ≡ plan (joined front held) volume.now fcb.now chapter)
        × Planned (joined front held) volume.now fcb.now old marks.new result }
{
    passed(front.change_why(volume, fcb))?;
    let mut s = [0u8; Geometry::RECORD_BYTES];
    passed(record_reads::show(front, volume, fcb, 0, &mut s))?;
    plan_in(front, volume, fcb, &s, chapter, old, marks)
}

// Rewrites record n if it is one to be rewritten, as long as a store is left, and counts it.
fn rewrite_if(
    hit: bool,
    front: Front,
    held: &[u64; WORDS],
    volume: &mut [u8],
    fcb: &[u8],
    siglum: u16,
    n: usize,
    left: &mut usize,
) -> usize
    requires { (length fcb.now ≡ fcb_bytes) × (n < file_records) }
    ensures value { (result ≡ cond hit 1 0) × (result ≤ 1) }
    ensures stored { Stored front.geometry volume.old left.old
        (stores_if hit (joined front held.now) fcb.now siglum volume.old n)
        volume.new left.new }
{
    if hit {
        records::rewrite_most(front, held, volume, fcb, n, siglum, left);
        return 1;
    }
    0
}

// Rewrites the marked ones of k records from the first on, as long as a store is left, and counts them.
fn rewrite_marked(
    front: Front,
    held: &[u64; WORDS],
    volume: &mut [u8],
    fcb: &[u8],
    siglum: u16,
    first: usize,
    k: usize,
    marks: &[bool],
    left: &mut usize,
) -> usize
    requires { (length fcb.now ≡ fcb_bytes) × ((first + k ≤ file_records) × (length marks.now ≡ file_records)) }
    ensures value { result ≡ count_from (marked marks.now) first k }
    ensures stored { Stored front.geometry volume.old left.old
        (all_stores (marked marks.now) (joined front held.now) fcb.now siglum
        volume.old first k)
        volume.new left.new }
{
    let mut count = 0;
    for n in first..first + k {
        count += rewrite_if(marks[n], front, held, volume, fcb, siglum, n, left);
    }
    count
}

// The replacement as long as a store is left.
pub fn replace_most(
    drive: Drive,
    volume: &mut [u8],
    fcb: &[u8],
    chapter: u16,
    old: u16,
    new: u16,
    left: &mut usize,
) -> Result<usize, Why>
    ensures { desk_cut result volume.new left.new
        ≡ cut_replacement left.old drive volume.old fcb.now chapter old new }
{
    let front = drive.front();
    let held = drive.held;
    let mut marks = [false; FILE_RECORDS];
    let (first, count) = plan(front, volume, fcb, chapter, old, &mut marks)?;
    Ok(rewrite_marked(front, &held, volume, fcb, new, first, count, &marks, left))
}

// Replaces the siglum `old` by `new` in the chapter, and hands the state back as given.
pub fn replace(
    drive: Drive,
    volume: &mut [u8],
    fcb: &[u8],
    chapter: u16,
    old: u16,
    new: u16,
) -> Reply
    ensures { left result volume.new ≡ replacement drive volume.old fcb.now chapter old new }
{
    let mut left = ENOUGH;
    let answer = replace_most(drive, volume, fcb, chapter, old, new, &mut left);
    Reply { answer, drive }
}
