// The held blocks: bits in words, the lowest free block, and the count of free ones by the ones operation. The words are lent,
// however many there are; a state has `WORDS` of them.
#![tactic(auto)]

ghost use Rattle.std.specs.Prelude.{◌≡◌, ◌+◌, ◌*◌, ◌/◌, ◌%◌, ◌^◌, ◌≤◌, ◌<◌, min, length};
ghost use Rattle.std.specs.Int.Count.{ones};
ghost use Rattle.lists.specs.Bounded.{count_from};
ghost use Rattle.disk_held.specs.Held.{word_bits, room, holds, hold, release, lowest_free, free_count};

// Bits of a word, and words of a state.
const BITS: usize = 64;

pub const WORDS: usize = 64;

// Does the state hold block b?
#[tactic(auto, unfolding(crate::specs::Held::holds, crate::specs::Held::digit))]
pub fn is_held(held: &[u64], b: usize) -> bool
    requires { b < room held.now }
    ensures { result ≡ holds held.now b }
{
    let word = held[b / BITS];
    (word >> (b % BITS)) % 2 == 1
}

// Block b is held from now on.
#[tactic(auto, using(crate::proofs::Bits::one_shifted), unfolding(crate::specs::Held::hold))]
pub fn hold(held: &mut [u64], b: usize)
    requires { b < room held.old }
    ensures { held.new ≡ hold held.old b }
{
    held[b / BITS] |= 1 << (b % BITS);
}

// Block b is no longer held.
#[tactic(auto, using(crate::proofs::Bits::clear_bit), unfolding(crate::specs::Held::release))]
pub fn release(held: &mut [u64], b: usize)
    requires { b < room held.old }
    ensures { held.new ≡ release held.old b }
{
    held[b / BITS] &= !(1 << (b % BITS));
}

// The lowest free block from d to t - 1, t where none is; a full word is passed over whole, so the loop is no count.
pub fn lowest_free(held: &[u64], d: usize, t: usize) -> usize
    requires { (d ≤ t) × (t ≤ room held.now) }
    ensures { (result ≡ lowest_free held.now d t) × (result ≤ t) }
{
    let mut b = d;
    while b < t {
        if held[b / BITS] == u64::MAX {
            b = word_end(b, t);
        } else {
            if !is_held(held, b) {
                return b;
            }
            b += 1;
        }
    }
    b
}

// The first block behind b's word, t at most. A function of its own in the machine's code too, so that a search which passes over no full
// word does not wait for it.
#[inline(never)]
fn word_end(b: usize, t: usize) -> usize
    requires { b < t }
    ensures { result ≡ min (b / word_bits * word_bits + word_bits) t }
{
    b + (BITS - b % BITS).min(t - b)
}

// How many of the blocks from d to t - 1 are free.
pub fn free_count(held: &[u64], d: usize, t: usize) -> usize
    requires { (d ≤ t) × (t ≤ room held.now) }
    ensures { (result ≡ free_count held.now d t) × (result ≤ t) }
{
    let below_t = held_below(held, t);
    let below_d = held_below(held, d);
    (t - d) - (below_t - below_d)
}

// How many of the blocks below n are held.
fn held_below(held: &[u64], n: usize) -> usize
    requires { n ≤ room held.now }
    ensures { result ≡ count_from (holds held.now) 0 n }
{
    let whole = n / BITS;
    let rest = n % BITS;
    let mut sum = 0;
    for i in 0..whole {
        sum += ones_below(held[i], BITS);
    }
    if rest == 0 {
        return sum;
    }
    sum + ones_below(held[whole], rest)
}

// How many of the k lowest bits of a word are set; a word has 64.
fn ones_below(word: u64, k: usize) -> usize
    ensures { (result ≡ ones (word % 2 ^ min k word_bits)) × (result ≤ min k word_bits) }
{
    if k < BITS {
        (word % (1 << k)).count_ones() as usize
    } else {
        word.count_ones() as usize
    }
}
