// The calls that are served, and their numbers.
#![tactic(auto)]

ghost use Rattle.std.specs.Prelude.{◌≡◌};
ghost use Rattle.call_served.specs.Calls.{call_of};

// The calls that move records: one by the position or by r0 r1, or several.
#[derive(Clone, Copy)]
pub enum Transfer {
    ReadSequential,
    WriteSequential,
    ReadRandom,
    WriteRandom,
    WriteZeroFill,
    ReadSeveral,
    WriteSeveral,
}

// The calls that are served, and one for every number that is not.
#[derive(Clone, Copy)]
pub enum Call {
    LogIn,
    Open,
    Close,
    SearchFirst,
    SearchNext,
    Delete,
    Make,
    Rename,
    Protect,
    Attributes,
    User,
    Size,
    SetRandom,
    Moves(Transfer),
    Unserved,
}

// Answers the call of a function's number, Unserved where there is none.
#[tactic(auto, unfolding(crate::specs::Calls::call_of))]
pub fn call_of(function: u8) -> Call
    ensures { result ≡ call_of function }
{
    match function {
        13 | 37 => Call::LogIn,
        15 => Call::Open,
        16 => Call::Close,
        17 => Call::SearchFirst,
        18 => Call::SearchNext,
        19 => Call::Delete,
        20 => Call::Moves(Transfer::ReadSequential),
        21 => Call::Moves(Transfer::WriteSequential),
        22 => Call::Make,
        23 => Call::Rename,
        28 => Call::Protect,
        30 => Call::Attributes,
        32 => Call::User,
        33 => Call::Moves(Transfer::ReadRandom),
        34 => Call::Moves(Transfer::WriteRandom),
        35 => Call::Size,
        36 => Call::SetRandom,
        40 => Call::Moves(Transfer::WriteZeroFill),
        220 => Call::Moves(Transfer::ReadSeveral),
        221 => Call::Moves(Transfer::WriteSeveral),
        _ => Call::Unserved,
    }
}
