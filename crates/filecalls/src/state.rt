// The front of a state: whether the state counts as closed, and the replies that leave it as it is. What is said of a state is
// said of its front with any held words.
ghost use Rattle.std.specs.Prelude.{◌≡◌, true, cond, List, ℕ, length};
ghost use Rattle.call_answers.specs.Refusal.{is_none};
ghost use Rattle.call_answers.specs.declared.Answer.TheVariants.{Done, Refused};
ghost use Rattle.filecalls.specs.declared.Reply.{Reply};
ghost use Rattle.call_search.specs.Search.{pattern_bytes};
ghost use Rattle.filecalls.specs.State.{good_pattern, good_kept, is_open};
ghost use Rattle.filecalls.specs.Search.{is_kept};
ghost use Rattle.filecalls.specs.CodeFront.{joined, joined_reply};

use crate::searching::is_open_search;
use crate::{Front, FrontReply};
use call_answers::{Answer, Refusal};
use call_search::{PATTERN_BYTES, SearchKind};
use disk_volume::fields::NAME_BYTES;
use disk_volume::names::WILDCARD;

// Did the pattern pass 39 and 40?
fn is_pattern(pattern: &[u8]) -> bool
    requires { length pattern.now ≡ pattern_bytes }
    ensures { result ≡ good_pattern pattern.now }
{
    let ex = pattern[NAME_BYTES];
    disk_volume::names::good_name(true, &pattern[0..NAME_BYTES]) & ((ex <= 31) | (ex == WILDCARD))
}

// Is a search that is kept within the rules, n being the number of slots? The pattern is looked at last.
fn is_kept(kind: SearchKind, user: u8, last: usize, pattern: &[u8], n: usize) -> bool
    requires { (is_kept kind ≡ true) × (length pattern.now ≡ pattern_bytes) }
    ensures { result ≡ good_kept kind user last pattern.now n }
{
    if !((user <= 15) & (last < n)) {
        return false;
    }
    match kind {
        SearchKind::Nothing => true,
        SearchKind::Pattern => is_pattern(pattern),
        SearchKind::Everything => true,
    }
}

impl Front {
    // Is the state one that counts as open?
    pub fn is_open(self) -> bool
        ensures { (held : List ℕ) → result ≡ is_open (joined self held) }
    {
        if !(self.geometry.is_lawful() & (self.user <= 15)) {
            return false;
        }
        let search = self.search;
        if !is_open_search(search.kind) {
            return true;
        }
        is_kept(
            search.kind,
            search.user,
            search.last,
            &search.pattern,
            self.geometry.slots(),
        )
    }

    // Refused: the state as given.
    pub fn refused(self, why: Refusal) -> FrontReply
        ensures { (held : List ℕ) → joined_reply result held ≡ record { answer = Refused why; drive = joined self held } }
    {
        FrontReply {
            answer: Answer::Refused(why),
            front: self,
        }
    }

    // Done with this code: the state as given.
    pub(crate) fn done(self, code: u8) -> FrontReply
        ensures { (held : List ℕ) → joined_reply result held ≡ record { answer = Done code; drive = joined self held } }
    {
        FrontReply {
            answer: Answer::Done(code),
            front: self,
        }
    }

    // Refused, or done with this code: the state as given.
    pub(crate) fn answered(self, why: Refusal, code: u8) -> FrontReply
        ensures { (held : List ℕ)
            → joined_reply result held
            ≡ record { answer = cond (is_none why) (Done code) (Refused why); drive = joined self held } }
    {
        if call_answers::is_none(why) {
            return self.done(code);
        }
        self.refused(why)
    }
}
