// The edition desk: one siglum replaced by another in one chapter of a collation file. It stands above the file calls and
// relies on nothing below but their promises.
#![tactic(auto)]

ghost use Rattle.std.specs.Prelude.{◌≡◌};
ghost use Rattle.desk.specs.Answer.{why_number, number_of, value_of};
ghost use Rattle.desk.specs.declared.Why.TheVariants.{Call};

use call_answers::Refusal;
use filecalls::Drive;

mod records;
pub mod replace;

// More stores than any replacement makes: one write of the file calls for each record of a file.
pub const ENOUGH: usize = 65536 * filecalls::ENOUGH;

// Why a replacement is refused: the file's own refusal at record 0 (37 and 38 too), or 50.
#[derive(Clone, Copy)]
pub enum Why {
    Call(Refusal),
    Contents,
}

impl From<Refusal> for Why {
    ghost from_gives = { λ refusal why. why ≡ Call refusal };

    fn from(refusal: Refusal) -> Why {
        Why::Call(refusal)
    }
}

// The paper's number of a refusal.
impl From<Why> for u8 {
    ghost from_gives = { λ why n. n ≡ why_number why };

    fn from(why: Why) -> u8 {
        match why {
            Why::Call(refusal) => call_answers::refusal_number(refusal),
            Why::Contents => CONTENTS,
        }
    }
}

// What a replacement answers, how many records match or a refusal, and the state that it hands back.
#[derive(Clone, Copy)]
pub struct Reply {
    pub answer: Result<usize, Why>,
    pub drive: Drive,
}

// 50: contents against the rules, a listed record that cannot be read, or chapter not there.
const CONTENTS: u8 = 50;

// The paper's number of an answer.
pub fn number(a: Result<usize, Why>) -> u8
    ensures { result ≡ number_of a }
{
    match a {
        Ok(_) => 0,
        Err(why) => u8::from(why),
    }
}

// The matching records; 0 for a refusal.
pub fn value(a: Result<usize, Why>) -> usize
    ensures { result ≡ value_of a }
{
    a.unwrap_or(0)
}
