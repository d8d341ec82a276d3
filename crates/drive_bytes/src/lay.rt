// The drive's state laid into lent bytes, each group of fields into its part.
ghost use Rattle.std.specs.Prelude.{◌≡◌, cond, ◌++◌, ◌+◌, ◌*◌, ◌≤◌, eqb, length, take};
ghost use Rattle.disk_geometry.specs.Geometry.{blocks};
ghost use Rattle.disk_held.specs.Held.{held_words};
ghost use Rattle.call_search.specs.Search.{pattern_bytes};
ghost use Rattle.drive_bytes.specs.Layout.{HELD_AT, narrow_words, narrow_bytes, drive_bytes, head_bytes, kept_bytes, search_bytes, held_bytes, encoded};
ghost use Rattle.drive_bytes.specs.CodeLaid.{with_front};

use crate::DRIVE_BYTES;
use crate::layout::{
    HELD_AT, LAST_AT, NARROW_WORDS, PATTERN_AT, PLACING_AT, PROTECTED_AT, SEARCH_AT,
    SEARCH_USER_AT, USER_AT,
};
use call_search::SearchKind;
use disk_geometry::Geometry;
use disk_held::WORDS;
use filecalls::{Drive, Front, KeptSearch};
use numbers::put_eight;

// Where the fields of a search stand in its own bytes.
const USER: usize = SEARCH_USER_AT - SEARCH_AT;

const LAST: usize = LAST_AT - SEARCH_AT;

const PATTERN: usize = PATTERN_AT - SEARCH_AT;

// Lays B, T, D, user and protection into bytes 0 to 7.
fn put_head(out: &mut [u8], g: Geometry, user: u8, protected: bool)
    requires { length out.old ≡ 8 }
    ensures { out.new ≡ head_bytes g user protected }
{
    let block_bytes = g.block_bytes.to_le_bytes();
    let blocks = g.blocks.to_le_bytes();
    let directory_blocks = g.directory_blocks.to_le_bytes();
    out.copy_from_slice(&[
        block_bytes[0],
        block_bytes[1],
        blocks[0],
        blocks[1],
        directory_blocks[0],
        directory_blocks[1],
        user,
        u8::from(protected),
    ]);
}

// Lays a search that is kept into bytes 8 to 23.
fn put_kept(out: &mut [u8], kind: u8, user: u8, last: usize, pattern: &[u8])
    requires { (length out.old ≡ 16) × (length pattern.now ≡ pattern_bytes) }
    ensures { out.new ≡ kept_bytes kind user last pattern.now }
{
    out[0] = kind;
    out[USER] = user;
    out[LAST..PATTERN].copy_from_slice(&last.to_le_bytes()[..2]);
    out[PATTERN..].copy_from_slice(pattern);
}

// Lays the search into bytes 8 to 23: zeros where none is kept.
fn put_search(out: &mut [u8], q: KeptSearch)
    requires { length out.old ≡ 16 }
    ensures { out.new ≡ search_bytes q.kind q.user q.last q.pattern }
{
    match q.kind {
        SearchKind::Nothing => out.fill(0),
        SearchKind::Pattern => put_kept(out, 1, q.user, q.last, &q.pattern),
        SearchKind::Everything => put_kept(out, 2, q.user, q.last, &q.pattern),
    }
}

// Lays n held words into the bytes from 32 on.
pub(crate) fn words(out: &mut [u8], held: &[u64; WORDS], n: usize)
    requires { (length out.old ≡ HELD_AT + 8 * n) × (n ≤ held_words) }
    ensures { out.new ≡ take HELD_AT out.old ++ held_bytes held.now 0 n }
{
    for k in 0..n {
        let at = HELD_AT + 8 * k;
        put_eight(&mut out[at..at + 8], held[k]);
    }
}

// Lays user, protection and search into bytes 6 to 23.
pub(crate) fn front(out: &mut [u8], f: Front)
    requires { HELD_AT ≤ length out.old }
    ensures { out.new ≡ with_front out.old f }
{
    out[USER_AT] = f.user;
    out[PROTECTED_AT] = u8::from(f.protected);
    put_search(&mut out[SEARCH_AT..PLACING_AT], f.search);
}

// Lays the state into its bytes.
pub(crate) fn put_drive(out: &mut [u8], d: Drive)
    requires { length out.old ≡ drive_bytes (blocks d.geometry) }
    ensures { out.new ≡ encoded d }
{
    put_head(&mut out[..SEARCH_AT], d.geometry, d.user, d.protected);
    put_search(&mut out[SEARCH_AT..PLACING_AT], d.search);
    put_eight(
        &mut out[PLACING_AT..HELD_AT],
        (d.geometry.placing % 256) as u64,
    );
    let n = words_in(out.len());
    words(out, &d.held, n);
}

// How many held words a drive of so many bytes stores.
pub(crate) fn words_in(bytes: usize) -> usize
    ensures { result ≡ cond (eqb bytes narrow_bytes) narrow_words held_words }
{
    if bytes == DRIVE_BYTES {
        return NARROW_WORDS;
    }
    WORDS
}
