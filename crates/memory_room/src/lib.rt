// Where there is room for so many paragraphs, the longest free run, and what a group is granted.
#![tactic(auto)]

ghost use Rattle.std.specs.Prelude.{◌≡◌, cond, ◌&&◌, ◌≤◌, ◌<◌, ltb};
ghost use Rattle.memory_spans.specs.Span.{paragraphs};
ghost use Rattle.memory_spans.specs.Room.{has_room};
ghost use Rattle.memory_room.specs.Starts.{lowest_start, longest, grant_of, grant_at};
ghost use Rattle.memory_room.specs.CodeCandidates.{room_below};

use memory_spans::{PARAGRAPHS, Span};

// The start where it is below `low` and has room for k paragraphs, else `low`.
fn lower(pieces: &[Span], regions: &[Span], k: usize, start: usize, low: usize) -> usize
    ensures { result ≡ cond (ltb start low && has_room pieces.now regions.now k start) start low }
{
    let below = start < low;
    if below & memory_spans::has_room(pieces, regions, k, start) {
        start
    } else {
        low
    }
}

// The lowest start with room for k paragraphs, 65536 where there is none: a piece begins there, or a region ends straight before it.
pub fn lowest_start(pieces: &[Span], regions: &[Span], k: usize) -> usize
    ensures { (result ≡ lowest_start pieces.now regions.now k) × (result ≤ paragraphs) }
{
    let starts = pieces.iter().map(|piece| usize::from(piece.start));
    let ends = regions.iter().map(|region| memory_spans::end_of(*region));
    starts.chain(ends).fold(PARAGRAPHS, |low, start| {
        lower(pieces, regions, k, start, low)
    })
}

// The room at a paragraph, where 16 bits can name it.
#[tactic(auto, unfolding(crate::specs::CodeCandidates::room_below))]
fn room_below(pieces: &[Span], regions: &[Span], start: usize) -> usize
    ensures { (result ≡ room_below pieces.now regions.now start) × (result < paragraphs) }
{
    if start < PARAGRAPHS {
        memory_spans::room_at(pieces, regions, start)
    } else {
        0
    }
}

// The length of the longest free run: it begins where a piece begins, or straight behind a region.
pub fn longest(pieces: &[Span], regions: &[Span]) -> usize
    ensures { (result ≡ longest pieces.now regions.now) × (result < paragraphs) }
{
    let starts = pieces.iter().map(|piece| usize::from(piece.start));
    let ends = regions.iter().map(|region| memory_spans::end_of(*region));
    starts.chain(ends).fold(0, |most: usize, start| {
        most.max(room_below(pieces, regions, start))
    })
}

// What a group that needs so many paragraphs is granted: at its base if that is not 0, else at the lowest start with room.
pub fn grant(
    pieces: &[Span],
    regions: &[Span],
    base: usize,
    need: usize,
    most: usize,
) -> Option<Span>
    ensures { result ≡ grant_of pieces.now regions.now base need most }
{
    let start = if base == 0 {
        lowest_start(pieces, regions, need)
    } else {
        base
    };
    grant_at(pieces, regions, start, need, most)
}

// The same at a start that is settled.
fn grant_at(
    pieces: &[Span],
    regions: &[Span],
    start: usize,
    need: usize,
    most: usize,
) -> Option<Span>
    ensures { result ≡ grant_at pieces.now regions.now start need most }
{
    let room = memory_spans::room_at(pieces, regions, start);
    if (start < PARAGRAPHS) & ((need != 0) & (need <= room)) {
        let length = most.max(need).min(room);
        Some(Span {
            start: start as u16,
            length: length as u16,
        })
    } else {
        None
    }
}
