// What the groups of a CMD file are granted, each behind those before it.
#![tactic(auto)]

ghost use Rattle.std.specs.Prelude.{◌≡◌, ◌++◌, ◌+◌, ◌≤◌, length};
ghost use Rattle.memory_spans.specs.Span.{places};
ghost use Rattle.memory_regions.specs.Places.{places_of};
ghost use Rattle.load_header.specs.Header.{descriptors};
ghost use Rattle.load_grants.specs.Grants.{granted_to, grants};

use memory_regions::Regions;
use memory_spans::Span;

// What group i is granted beside the regions.
fn grant_one(h: &[u8], i: usize, pieces: &[Span], regions: &[Span]) -> Option<Span>
    requires { i ≤ descriptors }
    ensures { result ≡ granted_to h.now pieces.now regions.now i }
{
    let base = load_header::base_at(h, i);
    let need = load_header::need_at(h, i);
    let most = load_header::most_at(h, i);
    memory_room::grant(pieces, regions, base, need, most)
}

// The regions, and behind them what k groups are granted, up to the first that has no room.
pub fn grant_all(h: &[u8], k: usize, pieces: &[Span], regions: &[Span]) -> Regions
    requires { (k ≤ descriptors) × (length regions.now + k ≤ places) }
    ensures { result ≡ places_of (regions.now ++ grants h.now pieces.now regions.now 0 k) }
{
    let mut granted = Regions::of(regions);
    for i in 0..k {
        let Some(s) = grant_one(h, i, pieces, granted.used()) else {
            return granted;
        };
        granted = memory_regions::add(granted.used(), s);
    }
    granted
}
