// The contents of a collation file, its record 0: sixteen places, each with a chapter and where its records stand.
#![tactic(auto)]

ghost use Rattle.std.specs.Prelude.{◌≡◌, ◌+◌, ◌*◌, ◌≤◌, ◌<◌, MatchOption};
ghost use Rattle.desk_contents.specs.Contents.{contents_places, first_at, count_at, total, listed, clear, differs, others, place_fits, good_contents, has_chapter, chapter_place};

// The places, and the bytes of each: chapter, first record, count and zero.
pub const PLACES: usize = 16;

const PLACE_BYTES: usize = 8;

const FIRST: usize = 2;

const COUNT: usize = 4;

const ZERO: usize = 6;

// The first record of place i.
pub fn first_at(s: &[u8], i: usize) -> usize
    requires { i < contents_places }
    ensures { (result ≡ first_at s.now i) × (result < 65536) }
{
    numbers::two_at(s, PLACE_BYTES * i + FIRST)
}

// The number of records of place i.
pub fn count_at(s: &[u8], i: usize) -> usize
    requires { i < contents_places }
    ensures { (result ≡ count_at s.now i) × (result < 65536) }
{
    numbers::two_at(s, PLACE_BYTES * i + COUNT)
}

// Is place i all zero?
fn is_clear(s: &[u8], i: usize) -> bool
    requires { i < contents_places }
    ensures { result ≡ clear s.now i }
{
    let at = PLACE_BYTES * i;
    (numbers::two_at(s, at) == 0)
        & (numbers::two_at(s, at + FIRST) == 0)
        & (numbers::two_at(s, at + COUNT) == 0)
        & (numbers::two_at(s, at + ZERO) == 0)
}

// Is place j used, and for another chapter?
fn is_other(s: &[u8], chapter: usize, j: usize) -> bool
    requires { j < contents_places }
    ensures { result ≡ differs s.now chapter j }
{
    let own = numbers::two_at(s, PLACE_BYTES * j);
    (own != 0) & (own != chapter)
}

// Is each place below i used, and for another chapter?
fn are_others(s: &[u8], chapter: usize, i: usize) -> bool
    requires { i < contents_places }
    ensures { result ≡ others s.now chapter i }
{
    for j in 0..i {
        if !is_other(s, chapter, j) {
            return false;
        }
    }
    true
}

// Is place i within the rules, where the places below it list so many records?
fn is_good(s: &[u8], i: usize, below: usize) -> bool
    requires { (i < contents_places) × ((below ≡ total s.now i) × (below ≤ 65536 * i)) }
    ensures { result ≡ place_fits s.now i }
{
    let at = PLACE_BYTES * i;
    let chapter = numbers::two_at(s, at);
    if chapter == 0 {
        return is_clear(s, i);
    }
    (numbers::two_at(s, at + FIRST) == below + 1)
        & (0 < numbers::two_at(s, at + COUNT))
        & (numbers::two_at(s, at + ZERO) == 0)
        & are_others(s, chapter, i)
}

// Are the contents within the rules?
pub fn are_good(s: &[u8]) -> bool
    ensures { result ≡ good_contents s.now }
{
    let mut below = 0;
    for i in 0..PLACES {
        if !is_good(s, i, below) {
            return false;
        }
        below += count_at(s, i);
    }
    true
}

// How many records are listed.
pub fn listed(s: &[u8]) -> usize
    ensures { (result ≡ listed s.now) × (result ≤ 65536 * contents_places) }
{
    let mut sum = 0;
    for i in 0..PLACES {
        sum += count_at(s, i);
    }
    sum
}

// Is place i that of this chapter?
fn is_chapter(s: &[u8], chapter: usize, i: usize) -> bool
    requires { i < contents_places }
    ensures { result ≡ has_chapter s.now chapter i }
{
    (chapter != 0) & (numbers::two_at(s, PLACE_BYTES * i) == chapter)
}

// The chapter's place.
pub fn place_of(s: &[u8], chapter: usize) -> Option<usize>
    ensures { MatchOption result (chapter_place s.now chapter ≡ contents_places) (λ i. (i ≡ chapter_place s.now chapter) × (i < contents_places)) }
{
    for i in 0..PLACES {
        if is_chapter(s, chapter, i) {
            return Some(i);
        }
    }
    None
}
