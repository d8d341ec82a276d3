// The regions of a table: one added behind the others, and a part of one freed.
#![tactic(auto)]

ghost use Rattle.std.specs.Prelude.{◌≡◌, Option, Some, None, MatchOption, true, cond, [], ◌∷◌, ◌++◌, ◌+◌, ◌≤◌, ◌<◌, length, take, get_or};
ghost use Rattle.memory_spans.specs.Span.{places, paragraphs, none, end, any_of};
ghost use Rattle.memory_regions.specs.Places.{places_of};
ghost use Rattle.memory_regions.specs.Freeing.{edge, left, freed};
ghost use Rattle.memory_regions.specs.CodeFreeing.{first_edge};

use memory_spans::{PLACES, Span};

// Eight region places, of which the first are used.
#[derive(Clone, Copy)]
pub struct Regions {
    pub list: [Span; PLACES],
    pub count: usize,
}

// The places with the regions of the three parts, in their order.
fn joined(front: &[Span], middle: &[Span], back: &[Span]) -> Regions
    requires { length front.now + (length middle.now + length back.now) ≤ places }
    ensures { result ≡ places_of (front.now ++ (middle.now ++ back.now)) }
{
    let mut list = [Span {
        start: 0,
        length: 0,
    }; PLACES];
    let from = front.len();
    let to = from + middle.len();
    let count = to + back.len();
    list[..from].copy_from_slice(front);
    list[from..to].copy_from_slice(middle);
    list[to..count].copy_from_slice(back);
    Regions { list, count }
}

impl Regions {
    // The places with these regions.
    pub fn of(regions: &[Span]) -> Regions
        requires { length regions.now ≤ places }
        ensures { result ≡ places_of regions.now }
    {
        joined(regions, &[], &[])
    }

    // The regions in use.
    pub fn used(&self) -> &[Span]
        ensures { result.now ≡ take self.now.count self.now.list }
    {
        &self.list[..self.count.min(PLACES)]
    }
}

// The regions with s behind them.
pub fn add(regions: &[Span], s: Span) -> Regions
    requires { length regions.now < places }
    ensures { result ≡ places_of (regions.now ++ (s ∷ [])) }
{
    joined(regions, &[s], &[])
}

// No region at all.
pub fn empty() -> Regions
    ensures { result ≡ places_of [] }
{
    Regions {
        list: [Span {
            start: 0,
            length: 0,
        }; PLACES],
        count: 0,
    }
}

// Is the part the start or the end of the region?
#[tactic(auto, unfolding(crate::specs::Freeing::edge))]
fn is_edge(part: Span, region: Span) -> bool
    ensures { result ≡ edge part region }
{
    let to = memory_spans::end_of(part);
    let inside = memory_spans::lies_in(part, region);
    inside & ((to == memory_spans::end_of(region)) | (part.start == region.start))
}

// The place of the first region whose start or end the part is.
pub fn first_edge(regions: &[Span], part: Span) -> Option<usize>
    ensures value { result ≡ cond (any_of (edge part) regions.now) (Some (first_edge part regions.now)) None }
    ensures place { MatchOption result (length regions.now ≤ first_edge part regions.now) (λ at. at < length regions.now) }
{
    regions.iter().position(|region| is_edge(part, *region))
}

// What is left of a region without its start or its end.
fn rest(part: Span, region: Span) -> Span
    requires { (edge part region ≡ true) × ((part.length ≡ region.length → ⊥) × (end region ≤ paragraphs)) }
    ensures { left part region ≡ result ∷ [] }
{
    let length = region.length - part.length;
    if part.start == region.start {
        let to = memory_spans::end_of(part);
        Span {
            start: to as u16,
            length,
        }
    } else {
        Span {
            start: region.start,
            length,
        }
    }
}

// The regions after the free of the part, which is the start or the end of the region at place `at`.
pub fn free_at(regions: &[Span], part: Span, at: usize) -> Regions
    requires { (length regions.now ≤ places) × ((at ≡ first_edge part regions.now) × ((at < length regions.now) × (end (get_or regions.now at none) ≤ paragraphs))) }
    ensures { result ≡ places_of (freed part regions.now) }
{
    let region = regions[at];
    let front = &regions[..at];
    let back = &regions[at + 1..];
    if part.length == region.length {
        return joined(front, &[], back);
    }
    joined(front, &[rest(part, region)], back)
}
