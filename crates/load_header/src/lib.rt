// The header of a CMD file: its descriptors, and the rules that a header is held to.
#![tactic(auto)]

ghost use Rattle.std.specs.Prelude.{◌≡◌, ◌+◌, ◌*◌, ◌≤◌, ◌<◌, eqb};
ghost use Rattle.lists.specs.Bounded.{any, every};
ghost use Rattle.numbers.specs.Numbers.{two};
ghost use Rattle.load_header.specs.Header.{descriptors, descriptor_bytes, form_at, length_at, base_at, most_at, groups, type_at, need, good_group, place_of, page_place, good_header, image_start};

// How many descriptors a header has room for, how many bytes one has, and where its numbers stand.
const DESCRIPTORS: usize = 8;

const DESCRIPTOR_BYTES: usize = 9;

const G_LENGTH: usize = 1;

const A_BASE: usize = 3;

const G_MIN: usize = 5;

const G_MAX: usize = 7;

// The types of a group (000, table 3): four with a name, and the last of the auxiliary ones.
pub const CODE: usize = 1;

pub const DATA: usize = 2;

pub const EXTRA: usize = 3;

pub const STACK: usize = 4;

pub const LAST_AUX: usize = 8;

const SHARED_CODE: usize = 9;

// How many paragraphs a base page has.
pub const PAGE_PARAGRAPHS: usize = 16;

// The form byte of descriptor i.
fn form_at(h: &[u8], i: usize) -> usize
    requires { i ≤ descriptors }
    ensures { (result ≡ form_at h.now i) × (result < 256) }
{
    usize::from(numbers::byte_at(h, DESCRIPTOR_BYTES * i))
}

// The number of descriptor i that stands so many bytes behind its form.
fn number_at(h: &[u8], i: usize, field: usize) -> usize
    requires { (i ≤ descriptors) × (field < 9) }
    ensures { (result ≡ two h.now (descriptor_bytes * i + field)) × (result < 65536) }
{
    numbers::two_at(h, DESCRIPTOR_BYTES * i + field)
}

// The length of group i, in paragraphs.
pub fn length_at(h: &[u8], i: usize) -> usize
    requires { i ≤ descriptors }
    ensures { (result ≡ length_at h.now i) × (result < 65536) }
{
    number_at(h, i, G_LENGTH)
}

// Where group i is to stand, 0 for anywhere.
pub fn base_at(h: &[u8], i: usize) -> usize
    requires { i ≤ descriptors }
    ensures { (result ≡ base_at h.now i) × (result < 65536) }
{
    number_at(h, i, A_BASE)
}

// How many paragraphs group i takes at most.
pub fn most_at(h: &[u8], i: usize) -> usize
    requires { i ≤ descriptors }
    ensures { (result ≡ most_at h.now i) × (result < 65536) }
{
    number_at(h, i, G_MAX)
}

// How many paragraphs group i needs.
pub fn need_at(h: &[u8], i: usize) -> usize
    requires { i ≤ descriptors }
    ensures { (result ≡ need h.now i) × (result < 65536) }
{
    let length = number_at(h, i, G_LENGTH);
    let least = number_at(h, i, G_MIN);
    length.max(least)
}

// The type of group i.
fn type_at(h: &[u8], i: usize) -> usize
    requires { i ≤ descriptors }
    ensures { (result ≡ type_at h.now i) × (result < 16) }
{
    let low = form_at(h, i) % 16;
    if low == SHARED_CODE { CODE } else { low }
}

// How many groups there are.
pub fn groups(h: &[u8]) -> usize
    ensures { (result ≡ groups h.now) × (result ≤ descriptors) }
{
    for i in 0..DESCRIPTORS {
        if form_at(h, i) == 0 {
            return i;
        }
    }
    DESCRIPTORS
}

// Does one of the groups before group i have this type?
fn is_given(h: &[u8], i: usize, kind: usize) -> bool
    requires { i ≤ descriptors }
    ensures { result ≡ any i (λ j. eqb (type_at h.now j) kind) }
{
    for j in 0..i {
        if type_at(h, j) == kind {
            return true;
        }
    }
    false
}

// Is the type of group i one of 1 to 9, and given for the first time?
fn is_good_group(h: &[u8], i: usize) -> bool
    requires { i ≤ descriptors }
    ensures { result ≡ good_group h.now i }
{
    let kind = type_at(h, i);
    let given = is_given(h, i, kind);
    (CODE <= kind) & (kind <= LAST_AUX) & !given
}

// Are the first n groups good?
fn are_good(h: &[u8], n: usize) -> bool
    requires { n ≤ descriptors }
    ensures { result ≡ every n (good_group h.now) }
{
    for i in 0..n {
        if !is_good_group(h, i) {
            return false;
        }
    }
    true
}

// The place of the group of this type, the number of groups where there is none: no Option, since the definition `place_of` says this
// number too.
pub fn place_of(h: &[u8], kind: usize) -> usize
    ensures { (result ≡ place_of h.now kind) × (result ≤ descriptors) }
{
    let n = groups(h);
    for i in 0..n {
        if type_at(h, i) == kind {
            return i;
        }
    }
    n
}

// The place of the group that has the base page.
pub fn page_place(h: &[u8]) -> usize
    ensures { (result ≡ page_place h.now) × (result ≤ descriptors) }
{
    let data = place_of(h, DATA);
    if data < groups(h) {
        return data;
    }
    place_of(h, CODE)
}

// Is the header within the rules?
pub fn is_good(h: &[u8]) -> bool
    ensures { result ≡ good_header h.now }
{
    let n = groups(h);
    let good = are_good(h, n);
    let code = place_of(h, CODE) < n;
    good & code & (PAGE_PARAGRAPHS <= need_at(h, page_place(h)))
}

// How many paragraphs of the image stand before those of group n.
pub fn image_start(h: &[u8], n: usize) -> usize
    requires { n ≤ descriptors }
    ensures { (result ≡ image_start h.now n) × (result ≤ 65536 * n) }
{
    let mut sum = 0;
    for i in 0..n {
        sum += length_at(h, i);
    }
    sum
}
