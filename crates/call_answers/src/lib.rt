// What a call answers: the numbers of refusal, and the answers.
#![tactic(auto)]

ghost use Rattle.std.specs.Prelude.{◌≡◌, true, false, ◌<◌};
ghost use Rattle.call_answers.specs.Refusal.{refusal_number, is_none, refusing, first};
ghost use Rattle.call_answers.specs.Answer.{number_of, value_of, succeeded, why_of};

// Why a call is refused, in the order of the paper's table; None is no refusal.
#[derive(Clone, Copy)]
pub enum Refusal {
    None,
    NotServed,
    Closed,
    VolumeLength,
    FcbLength,
    BadCount,
    BufferLength,
    DriveCode,
    UserCode,
    Name,
    Untypeable,
    Position,
    Beyond,
    BadSlot,
    Protected,
    NoMatch,
    NoFile,
    ReadOnly,
    Exists,
    NoGroup,
    Absent,
    Outside,
    NoSlot,
    NoRoom,
    NoBlock,
}

// What a call answers: done with a code, logged in with so many free blocks, refused, or so many records done and why no
// more. A refusal for a bad slot says which.
#[derive(Clone, Copy)]
pub enum Answer {
    Done(u8),
    Ready(usize),
    BadSlot(usize),
    Refused(Refusal),
    Several(usize, Refusal),
}

// Answers whether it is no refusal.
pub fn is_none(why: Refusal) -> bool
    ensures { result ≡ is_none why }
{
    matches!(why, Refusal::None)
}

// One test of a ladder: answers the refusal where the test is met, None where it is not.
pub fn refuse(why: Refusal, met: bool) -> Refusal
    ensures { result ≡ refusing why met }
{
    if met { why } else { Refusal::None }
}

// Answers the first of two refusals, None where both are.
pub fn first_of(a: Refusal, b: Refusal) -> Refusal
    ensures { result ≡ first a b }
{
    if is_none(a) { b } else { a }
}

// Answers the paper's number of a refusal, 0 for None.
pub fn refusal_number(why: Refusal) -> u8
    ensures { result ≡ refusal_number why }
{
    match why {
        Refusal::None => 0,
        Refusal::NotServed => 31,
        Refusal::Closed => 32,
        Refusal::VolumeLength => 33,
        Refusal::FcbLength => 34,
        Refusal::BadCount => 46,
        Refusal::BufferLength => 35,
        Refusal::DriveCode => 42,
        Refusal::UserCode => 44,
        Refusal::Name => 39,
        Refusal::Untypeable => 45,
        Refusal::Position => 40,
        Refusal::Beyond => 6,
        Refusal::BadSlot => 36,
        Refusal::Protected => 37,
        Refusal::NoMatch => 255,
        Refusal::NoFile => 3,
        Refusal::ReadOnly => 38,
        Refusal::Exists => 43,
        Refusal::NoGroup => 4,
        Refusal::Absent => 1,
        Refusal::Outside => 41,
        Refusal::NoSlot => 5,
        Refusal::NoRoom => 255,
        Refusal::NoBlock => 2,
    }
}

// Answers the paper's number of an answer.
pub fn number(a: Answer) -> u8
    ensures { result ≡ number_of a }
{
    match a {
        Answer::Done(code) => code,
        Answer::Ready(_) => 0,
        Answer::BadSlot(_) => refusal_number(Refusal::BadSlot),
        Answer::Refused(why) | Answer::Several(_, why) => refusal_number(why),
    }
}

// Answers the value beside the number: log-in's count of free blocks, or the bad slot in its place; the count of records
// done; else 0.
pub fn value(a: Answer) -> usize
    ensures { result ≡ value_of a }
{
    match a {
        Answer::Done(_) | Answer::Refused(_) => 0,
        Answer::Ready(free) => free,
        Answer::BadSlot(slot) => slot,
        Answer::Several(done, _) => done,
    }
}

// Answers whether the call succeeded.
pub fn succeeded(a: Answer) -> bool
    ensures { result ≡ succeeded a }
{
    match a {
        Answer::Done(_) | Answer::Ready(_) => true,
        Answer::BadSlot(_) | Answer::Refused(_) => false,
        Answer::Several(done, _) => 0 < done,
    }
}

// Answers why the call was refused, or stopped.
pub fn why_of(a: Answer) -> Refusal
    ensures { result ≡ why_of a }
{
    match a {
        Answer::Done(_) | Answer::Ready(_) => Refusal::None,
        Answer::BadSlot(_) => Refusal::BadSlot,
        Answer::Refused(why) | Answer::Several(_, why) => why,
    }
}
