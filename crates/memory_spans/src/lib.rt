// Memory in paragraphs of 16 bytes: physical pieces and granted regions, the rules of their table, and the room that is left.
#![tactic(auto)]

ghost use Rattle.std.specs.Prelude.{◌≡◌, ◌+◌, ◌*◌, ◌-◌, ◌≤◌, ◌<◌, max, take, drop};
ghost use Rattle.lists.specs.Bounded.{low_from};
ghost use Rattle.memory_spans.specs.Span.{places, paragraphs, end, covers, overlap, lies_in, any_of, all_of};
ghost use Rattle.memory_spans.specs.Rules.{apart, in_memory, in_one_of, lawful};
ghost use Rattle.memory_spans.specs.CodeMeeting.{Met};
ghost use Rattle.memory_spans.specs.Room.{taken, free_in, run, room, has_room};

// A physical piece or a granted region: its first paragraph and how many it has.
#[derive(Clone, Copy)]
pub struct Span {
    pub start: u16,
    pub length: u16,
}

// How many pieces and how many regions a table has room for.
pub const PLACES: usize = 8;

// How many bytes a paragraph has.
pub const PARAGRAPH_BYTES: usize = 16;

// How many paragraphs 16 bits can name.
pub const PARAGRAPHS: usize = 65536;

// The first paragraph behind it.
pub fn end_of(s: Span) -> usize
    ensures { (result ≡ end s) × ((result < 131072) × (result < s.start + paragraphs)) }
{
    usize::from(s.start) + usize::from(s.length)
}

// Does paragraph p lie in it?
#[tactic(auto, unfolding(crate::specs::Span::covers))]
fn covers(s: Span, p: usize) -> bool
    ensures { result ≡ covers s p }
{
    (usize::from(s.start) <= p) & (p < end_of(s))
}

// Do the two overlap?
#[tactic(auto, unfolding(crate::specs::Span::overlap))]
fn overlap(a: Span, b: Span) -> bool
    ensures { result ≡ overlap a b }
{
    usize::from(a.start.max(b.start)) < end_of(a).min(end_of(b))
}

// Does s lie in outer?
#[tactic(auto, unfolding(crate::specs::Span::lies_in))]
pub fn lies_in(s: Span, outer: Span) -> bool
    ensures { result ≡ lies_in s outer }
{
    (outer.start <= s.start) & (end_of(s) <= end_of(outer))
}

// Does s overlap one of them from place `from` on?
fn overlaps_from(list: &[Span], from: usize, s: Span) -> bool
    ensures { result ≡ any_of (overlap s) (drop from list.now) }
{
    list.iter().skip(from).any(|other| overlap(s, *other))
}

// Do no two of them overlap?
fn apart(list: &[Span]) -> bool
    ensures { result ≡ apart list.now }
{
    for (i, s) in list.iter().enumerate() {
        if overlaps_from(list, i + 1, *s) {
            return false;
        }
    }
    true
}

// Does the piece lie in the memory of so many bytes?
fn in_memory(piece: Span, bytes: usize) -> bool
    ensures { result ≡ in_memory bytes piece }
{
    let to = end_of(piece);
    if PARAGRAPHS < to {
        return false;
    }
    if bytes < PARAGRAPH_BYTES * to {
        return false;
    }
    true
}

// Does the region lie in one of the pieces?
fn in_one(pieces: &[Span], region: Span) -> bool
    ensures { result ≡ in_one_of pieces.now region }
{
    pieces.iter().any(|piece| lies_in(region, *piece))
}

// Are pieces and regions within the rules?
pub fn is_lawful(bytes: usize, pieces: &[Span], regions: &[Span]) -> bool
    ensures { result ≡ lawful bytes pieces.now regions.now }
{
    pieces.iter().all(|piece| in_memory(*piece, bytes))
        & apart(pieces)
        & apart(regions)
        & regions.iter().all(|region| in_one(pieces, *region))
}

// Where the region is first met from `start` on, `stop` where it is not met below that.
fn met(region: Span, start: usize, stop: usize) -> usize
    requires { start ≤ stop }
    ensures { (result ≤ stop) × ((start ≤ result) × Met region start stop result) }
{
    let from = usize::from(region.start);
    let to = end_of(region);
    if (from < to) & (start < to) & (from < stop) {
        from.max(start)
    } else {
        stop
    }
}

// The lowest paragraph from `start` on that one of the regions has, `stop` where none below it is.
fn first_taken(regions: &[Span], start: usize, stop: usize) -> usize
    requires { start ≤ stop }
    ensures { (result ≡ low_from (taken regions.now) start (stop - start)) × ((start ≤ result) × (result ≤ stop)) }
{
    let mut to = stop;
    for region in regions {
        to = met(*region, start, to);
    }
    to
}

// How many paragraphs from `start` on are free within the piece.
fn room_in(piece: Span, regions: &[Span], start: usize) -> usize
    ensures { (result ≡ run (free_in piece regions.now) start piece.length) × (result < paragraphs) }
{
    if covers(piece, start) {
        let stop = end_of(piece);
        first_taken(regions, start, stop) - start
    } else {
        0
    }
}

// How many paragraphs from `start` on are free within one piece.
pub fn room_at(pieces: &[Span], regions: &[Span], start: usize) -> usize
    ensures { (result ≡ room pieces.now regions.now start) × (result < paragraphs) }
{
    let mut most: usize = 0;
    for piece in pieces {
        most = most.max(room_in(*piece, regions, start));
    }
    most
}

// Is there room for k paragraphs at `start`?
#[tactic(auto, unfolding(crate::specs::Room::has_room))]
pub fn has_room(pieces: &[Span], regions: &[Span], k: usize, start: usize) -> bool
    ensures { result ≡ has_room pieces.now regions.now k start }
{
    (k != 0) & (k <= room_at(pieces, regions, start))
}
