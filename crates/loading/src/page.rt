// The base page: what the groups were granted, in eight fields of six bytes.
ghost use Rattle.std.specs.Prelude.{◌≡◌, ◌<◌, length, get_or};
ghost use Rattle.memory_spans.specs.Span.{none};
ghost use Rattle.load_header.specs.Header.{groups};
ghost use Rattle.loading.specs.Page.{field_bytes, page_bytes, region_of, shown_of, last_of, field_of, base_page, page_start};

use load_header::{CODE, DATA, LAST_AUX};
use memory_spans::{PARAGRAPH_BYTES, Span};

// How many bytes a field has, and all fields.
const FIELD_BYTES: usize = 6;

pub(crate) const PAGE_BYTES: usize = 48;

// What group j was granted.
fn span_at(granted: &[Span], j: usize) -> Span
    ensures { result ≡ get_or granted.now j none }
{
    granted.get(j).copied().unwrap_or(Span {
        start: 0,
        length: 0,
    })
}

// What the group of that type was granted.
fn region_of(h: &[u8], granted: &[Span], kind: usize) -> Span
    ensures { result ≡ region_of h.now granted.now kind }
{
    span_at(granted, load_header::place_of(h, kind))
}

// The region that the field of that type shows.
fn shown_of(h: &[u8], granted: &[Span], kind: usize) -> Span
    requires { length granted.now ≡ groups h.now }
    ensures { result ≡ shown_of h.now granted.now kind }
{
    let n = granted.len();
    if (n == 1) & (kind == DATA) {
        return region_of(h, granted, CODE);
    }
    region_of(h, granted, kind)
}

// The last byte of the field of that type.
fn last_of(h: &[u8], n: usize, kind: usize) -> u8
    requires { n ≡ groups h.now }
    ensures { result ≡ last_of h.now kind }
{
    if (n == 1) & (kind == CODE) { 1 } else { 0 }
}

// Lays a field into six bytes.
fn put_field(out: &mut [u8], s: Span, last: u8)
    requires { length out.old ≡ field_bytes }
    ensures { out.new ≡ field_of s last }
{
    let bytes = PARAGRAPH_BYTES * usize::from(s.length);
    let end = bytes.saturating_sub(1) as u32;
    let [end_low, end_middle, end_high, _] = end.to_le_bytes();
    let [start_low, start_high] = s.start.to_le_bytes();
    out.copy_from_slice(&[end_low, end_middle, end_high, start_low, start_high, last]);
}

// Lays the base page.
pub(crate) fn put_page(h: &[u8], granted: &[Span], out: &mut [u8])
    requires { (length out.old ≡ page_bytes) × (length granted.now ≡ groups h.now) }
    ensures { out.new ≡ base_page h.now granted.now }
{
    for i in 0..LAST_AUX {
        let kind = i + 1;
        let s = shown_of(h, granted, kind);
        let last = last_of(h, granted.len(), kind);
        let at = FIELD_BYTES * i;
        put_field(&mut out[at..at + FIELD_BYTES], s, last);
    }
}

// The paragraph where the base page begins.
pub(crate) fn page_start(h: &[u8], granted: &[Span]) -> usize
    ensures { (result ≡ page_start h.now granted.now) × (result < 65536) }
{
    let s = span_at(granted, load_header::page_place(h));
    usize::from(s.start)
}
