// Search first (17) and next (18).
ghost use Rattle.std.specs.Prelude.{◌≡◌, true, List, [], ℕ, ◌≤◌};
ghost use Rattle.disk_geometry.specs.Geometry.{lawful, slots};
ghost use Rattle.disk_volume.specs.CodeLent.{VolumeAnd, IsRecord};
ghost use Rattle.call_search.specs.CodeHit.{hit_buffer};
ghost use Rattle.call_answers.specs.Refusal.{first_met};
ghost use Rattle.filecalls.specs.CodeLadder.{first_lent, search_on_act};
ghost use Rattle.filecalls.specs.Outcome.{outcome, left};
ghost use Rattle.filecalls.specs.Search.{kept_at, is_kept, hit};
ghost use Rattle.filecalls.specs.Leaves.{search_first_leaves, search_next_leaves};
ghost use Rattle.filecalls.specs.CodeFront.{joined, joined_reply};

use crate::{Front, FrontReply, KeptSearch};
use call_answers::Refusal;
use call_fcb::{DR, FCB_BYTES};
use call_search::SearchKind;
use disk_geometry::Geometry;
use disk_volume::fields::{EX, NAME, NAME_END};
use disk_volume::names::WILDCARD;

// Is a search open?
pub(crate) fn is_open_search(kind: SearchKind) -> bool
    ensures { result ≡ is_kept kind }
{
    match kind {
        SearchKind::Nothing => false,
        SearchKind::Pattern | SearchKind::Everything => true,
    }
}

// The search with its last hit in this slot.
fn kept_at(search: KeptSearch, slot: usize) -> KeptSearch
    ensures { result ≡ kept_at search slot }
{
    KeptSearch {
        last: slot,
        ..search
    }
}

// The slot that the search hits, from slot `from` on; the number of slots where it hits none. The record of the hit goes to the
// buffer.
fn hit(g: Geometry, volume: &[u8], buffer: &mut [u8], search: KeptSearch, from: usize) -> usize
    requires { VolumeAnd g volume.now (IsRecord buffer.old × (from ≤ slots g)) }
    ensures value { result ≡ hit g volume.now search from }
    ensures buffer_after { buffer.new ≡ hit_buffer g volume.now result buffer.old }
{
    let pattern = search.pattern;
    call_search::search::search_from(g, volume, buffer, search.kind, search.user, &pattern, from)
}

impl Front {
    // 32 to 35, then 42, 39 and 40 of a search.
    fn first_why(self, volume: &[u8], fcb: &[u8], buffer: &[u8]) -> Refusal
        ensures { (held : List ℕ)
            → result ≡ first_met (first_lent (joined self held) volume.now fcb.now buffer.now) }
    {
        let why = self.lent_why(volume.len(), fcb.len(), buffer.len());
        if !call_answers::is_none(why) {
            return why;
        }
        let examined = fcb[DR] != WILDCARD;
        let good = disk_volume::names::good_name(true, &fcb[NAME..NAME_END]);
        let a = call_answers::refuse(Refusal::DriveCode, (1 < fcb[DR]) & examined);
        let b = call_answers::refuse(Refusal::Name, examined & !good);
        let c = call_answers::refuse(
            Refusal::Position,
            examined & (31 < fcb[EX]) & (fcb[EX] != WILDCARD),
        );
        call_answers::first_of(a, call_answers::first_of(b, c))
    }

    // The reply to a search that came to this slot: a hit is kept; the number of slots is none.
    fn hit_reply(self, search: KeptSearch, slot: usize) -> FrontReply
        requires { lawful self.geometry ≡ true }
        ensures { (held v fcb b after : List ℕ) (from : ℕ) → slot ≡ hit self.geometry v search from
            → after ≡ hit_buffer self.geometry v slot b
            → left (joined_reply result held) v fcb after
            ≡ outcome (joined self held) v fcb b (search_on_act (joined self held) v fcb search from) }
    {
        if slot < self.geometry.slots() {
            let mut front = self;
            front.search = kept_at(search, slot);
            return front.done((slot % Geometry::RECORD_SLOTS) as u8);
        }
        self.refused(Refusal::NoMatch)
    }

    // Function 17: starts at slot 0, and keeps pattern and user.
    pub fn search_first(self, volume: &[u8], fcb: &[u8], buffer: &mut [u8]) -> FrontReply
        ensures { (held : List ℕ)
            → left (joined_reply result held) volume.now fcb.now buffer.new
            ≡ search_first_leaves (joined self held) volume.now fcb.now buffer.old }
    {
        let why = self.first_why(volume, fcb, buffer);
        if !call_answers::is_none(why) {
            return self.refused(why);
        }
        let search = KeptSearch {
            kind: call_search::search::kind_asked(fcb[DR]),
            user: self.user,
            last: 0,
            pattern: call_search::search::pattern_of(fcb),
        };
        let slot = hit(self.geometry, volume, buffer, search, 0);
        self.hit_reply(search, slot)
    }

    // Function 18: goes on after the last hit.
    pub fn search_next(self, volume: &[u8], buffer: &mut [u8]) -> FrontReply
        ensures { (held : List ℕ)
            → left (joined_reply result held) volume.now [] buffer.new
            ≡ search_next_leaves (joined self held) volume.now buffer.old }
    {
        let why = self.lent_why(volume.len(), FCB_BYTES, buffer.len());
        if !call_answers::is_none(why) {
            return self.refused(why);
        }
        let search = self.search;
        if !is_open_search(search.kind) {
            return self.refused(Refusal::NoMatch);
        }
        let slot = hit(self.geometry, volume, buffer, search, search.last + 1);
        self.hit_reply(search, slot)
    }
}
