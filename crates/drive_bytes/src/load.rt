// The state read from bytes, and the test that they are laid out as a drive's.
ghost use Rattle.std.specs.Prelude.{◌≡◌, ◌+◌, ◌*◌, ◌≤◌, length};
ghost use Rattle.disk_held.specs.Held.{held_words, none_held};
ghost use Rattle.filecalls.specs.CodeFront.{front_of};
ghost use Rattle.drive_bytes.specs.Layout.{HELD_AT, kind_stored, held_at, fields, laid_out};

use crate::layout::{
    BLOCK_BYTES_AT, BLOCKS_AT, DIRECTORY_BLOCKS_AT, HELD_AT, LAST_AT, PATTERN_AT, PLACING_AT,
    PROTECTED_AT, SEARCH_AT, SEARCH_USER_AT, USER_AT,
};
use call_search::{PATTERN_BYTES, SearchKind};
use disk_geometry::Geometry;
use disk_held::WORDS;
use filecalls::{Front, KeptSearch};
use numbers::{eight_of, two_at};

// The middle of the search's sixteen bytes, which are compared as two words.
const SEARCH_HALF: usize = SEARCH_AT + 8;

// Are bytes of the right number laid out as a drive's? The word from byte 24 on is the placing alone, and where no search is kept
// bytes 8 to 23 are all zero.
pub(crate) fn is_laid(s: &[u8]) -> bool
    requires { HELD_AT ≤ length s.now }
    ensures { result ≡ laid_out s.now }
{
    let last = eight_of(&s[PLACING_AT..HELD_AT]);
    let a = eight_of(&s[SEARCH_AT..SEARCH_HALF]);
    let b = eight_of(&s[SEARCH_HALF..PLACING_AT]);
    let kind = s[SEARCH_AT];
    let placing = u64::from(s[PLACING_AT]);
    (s[PROTECTED_AT] <= 1) & (kind <= 2) & (last == placing) & ((kind != 0) | ((a == 0) & (b == 0)))
}

// The kind of search that byte 8 says.
fn kind_stored(b: u8) -> SearchKind
    ensures { result ≡ kind_stored b }
{
    match b {
        0 => SearchKind::Nothing,
        1 => SearchKind::Pattern,
        _ => SearchKind::Everything,
    }
}

// Bytes 0 to 5 and byte 24: B, T, D and the placing.
fn geometry_at(s: &[u8]) -> Geometry
    requires { HELD_AT ≤ length s.now }
    ensures { result ≡ (fields s.now).geometry }
{
    Geometry {
        block_bytes: two_at(s, BLOCK_BYTES_AT),
        blocks: two_at(s, BLOCKS_AT),
        directory_blocks: two_at(s, DIRECTORY_BLOCKS_AT),
        placing: usize::from(s[PLACING_AT]),
    }
}

// Bytes 8 to 23: the kept search.
fn search_at(s: &[u8]) -> KeptSearch
    requires { HELD_AT ≤ length s.now }
    ensures { result ≡ (fields s.now).search }
{
    let mut pattern = [0u8; PATTERN_BYTES];
    pattern.copy_from_slice(&s[PATTERN_AT..PLACING_AT]);
    KeptSearch {
        kind: kind_stored(s[SEARCH_AT]),
        user: s[SEARCH_USER_AT],
        last: two_at(s, LAST_AT),
        pattern,
    }
}

// From byte 32 on: n held words, laid over the lowest of `held`.
pub(crate) fn words(s: &[u8], held: &mut [u64; WORDS], n: usize)
    requires { (HELD_AT + 8 * n ≤ length s.now) × ((n ≤ held_words) × (held.old ≡ none_held)) }
    ensures { held.new ≡ held_at s.now n }
{
    for k in 0..n {
        let at = HELD_AT + 8 * k;
        held[k] = eight_of(&s[at..at + 8]);
    }
}

// Bytes 0 to 24: the state but for the held words.
pub(crate) fn front(s: &[u8]) -> Front
    requires { HELD_AT ≤ length s.now }
    ensures { result ≡ front_of (fields s.now) }
{
    Front {
        geometry: geometry_at(s),
        user: s[USER_AT],
        protected: s[PROTECTED_AT] == 1,
        search: search_at(s),
    }
}
