// Hex lines: the bytes that a line's digits spell, why a line is refused, and where the lines of a text stand. A line is lent
// from behind its colon to the end of the text.
#![tactic(auto)]

ghost use Rattle.std.specs.Prelude.{◌≡◌};
ghost use Rattle.gencmd_lines.specs.Refusal.{told};

mod digits;
pub mod line;
pub mod walk;

// Why a text is refused, in the order of the tests.
#[derive(Clone, Copy, PartialEq, Eq, Debug)]
pub enum Refusal {
    Digits,
    Sum,
    OtherType,
    Beyond,
    NoEnd,
    NoCode,
    Room,
}

// The paper's number of a refusal, 0 where there is none.
pub fn number_of(why: Option<Refusal>) -> u8
    ensures { result ≡ told why }
{
    match why {
        None => 0,
        Some(Refusal::Digits) => 70,
        Some(Refusal::Sum) => 71,
        Some(Refusal::OtherType) => 72,
        Some(Refusal::Beyond) => 73,
        Some(Refusal::NoEnd) => 74,
        Some(Refusal::NoCode) => 75,
        Some(Refusal::Room) => 76,
    }
}
