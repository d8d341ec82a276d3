// Search: the next slot that a search hits, and the directory record that shows it.
ghost use Rattle.std.specs.Prelude.{◌≡◌, ◌≤◌, length};
ghost use Rattle.disk_geometry.specs.Geometry.{slots};
ghost use Rattle.disk_volume.specs.CodeLent.{IsVolume, VolumeAnd, IsName, IsFcb, IsRecord};
ghost use Rattle.disk_volume.specs.Name.{strip};
ghost use Rattle.disk_volume.specs.Directory.{find_from};
ghost use Rattle.call_search.specs.Search.{pattern_bytes, kind_asked, sought, pattern_of, hit_from};
ghost use Rattle.call_search.specs.CodeHit.{hit_buffer};

use crate::{PATTERN_BYTES, SearchKind};
use disk_geometry::Geometry;
use disk_volume::Wanted;
use disk_volume::directory::find_from;
use disk_volume::fields::{NAME, NAME_BYTES, S1};
use disk_volume::names::WILDCARD;

// Answers the kind of search that dr asks for.
pub fn kind_asked(dr: u8) -> SearchKind
    ensures { result ≡ kind_asked dr }
{
    if dr == WILDCARD {
        SearchKind::Everything
    } else {
        SearchKind::Pattern
    }
}

// Answers the pattern that a search keeps: the name's bytes and ex, up to s1.
pub fn pattern_of(fcb: &[u8]) -> [u8; PATTERN_BYTES]
    requires { IsFcb fcb.now }
    ensures { result ≡ pattern_of fcb.now }
{
    let mut pattern = [0u8; PATTERN_BYTES];
    pattern.copy_from_slice(&fcb[NAME..S1]);
    pattern
}

// The lowest slot from `from` on that a search of this kind looks for; ex 3FH is any group. Each kind has a search of its own, so
// that what is wanted is not asked again at every slot.
fn find_sought(
    g: Geometry,
    volume: &[u8],
    from: usize,
    user: u8,
    name: &[u8],
    kind: SearchKind,
    ex: u8,
) -> usize
    requires volume { IsVolume g volume.now }
    requires from_bound { (from ≤ slots g) × IsName name.now }
    ensures { (result ≡ find_from g volume.now user (strip name.now) (sought g kind ex) from) × (result ≤ slots g) }
{
    match kind {
        SearchKind::Nothing | SearchKind::Everything => {
            find_from(g, volume, from, user, name, Wanted::Any)
        }
        SearchKind::Pattern => if ex == WILDCARD {
            find_from(g, volume, from, user, name, Wanted::Match)
        } else {
            let k = g.group(usize::from(ex));
            find_from(g, volume, from, user, name, Wanted::MatchGroup(k))
        },
    }
}

// The slot that a search hits, from slot `from` on.
fn hit_from(
    g: Geometry,
    volume: &[u8],
    kind: SearchKind,
    user: u8,
    pattern: &[u8],
    from: usize,
) -> usize
    requires { VolumeAnd g volume.now ((length pattern.now ≡ pattern_bytes) × (from ≤ slots g)) }
    ensures { (result ≡ hit_from g volume.now kind user pattern.now from) × (result ≤ slots g) }
{
    let ex = pattern[NAME_BYTES];
    find_sought(g, volume, from, user, &pattern[0..NAME_BYTES], kind, ex)
}

// Searches from slot `from` on: the record of the hit goes to the buffer where there is one. Answers the slot that was
// hit, the number of slots where there is none.
pub fn search_from(
    g: Geometry,
    volume: &[u8],
    buffer: &mut [u8],
    kind: SearchKind,
    user: u8,
    pattern: &[u8; PATTERN_BYTES],
    from: usize,
) -> usize
    requires { VolumeAnd g volume.now (IsRecord buffer.old × (from ≤ slots g)) }
    ensures value { (result ≡ hit_from g volume.now kind user pattern.now from) × (result ≤ slots g) }
    ensures buffer_after { buffer.new ≡ hit_buffer g volume.now result buffer.old }
{
    let slot = hit_from(g, volume, kind, user, pattern, from);
    let n = g.slots();
    if slot < n {
        let at = g.slot_record(slot);
        buffer.copy_from_slice(&volume[at..at + Geometry::RECORD_BYTES]);
    }
    slot
}
