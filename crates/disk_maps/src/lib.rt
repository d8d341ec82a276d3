// The map of an entry at inspection: each block in it is good, and is then held.
#![tactic(auto)]

ghost use Rattle.std.specs.Prelude.{◌≡◌, true, not, cond, ◌&&◌, ◌<◌, length};
ghost use Rattle.lists.specs.Bounded.{every};
ghost use Rattle.disk_geometry.specs.Geometry.{lawful, slots, places, inside};
ghost use Rattle.disk_volume.specs.CodeLent.{IsVolume};
ghost use Rattle.disk_held.specs.Held.{held_words, holds, hold, words_of};
ghost use Rattle.disk_rules.specs.GoodSlot.{good_place};
ghost use Rattle.disk_maps.specs.CodeHeldBelow.{held_below, held_up_to};

use disk_geometry::Geometry;
use disk_volume::entry;

// Is b a block from D to T-1 that is not held yet? Then it is held from now on.
fn take_block(g: Geometry, held: &mut [u64], b: usize) -> bool
    requires { (lawful g ≡ true) × (length held.old ≡ held_words) }
    ensures value { result ≡ (inside g b && not (holds held.old b)) }
    ensures held_after { held.new ≡ cond result (hold held.old b) held.old }
{
    if !g.is_inside(b) {
        return false;
    }
    if disk_held::is_held(held, b) {
        return false;
    }
    disk_held::hold(held, b);
    true
}

// Is each place of slot i 0, or a block from D to T-1 that is not held yet, and held from then on?
pub fn take_map(g: Geometry, volume: &[u8], i: usize, held: &mut [u64]) -> bool
    requires volume { IsVolume g volume.now }
    requires i_bound { (i < slots g) × (held.old ≡ words_of (held_below g volume.now i)) }
    ensures value { result ≡ every (places g) (good_place g volume.now i) }
    ensures held_after { result ≡ true → held.new ≡ words_of (held_up_to g volume.now i (places g)) }
{
    let at = g.slot_start(i);
    for p in 0..g.places() {
        let b = entry::block_in(g, &volume[at..at + Geometry::ENTRY_BYTES], p);
        if b != 0 {
            if !take_block(g, held, b) {
                return false;
            }
        }
    }
    true
}
