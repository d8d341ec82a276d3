// The numbers of load's answers.
ghost use Rattle.std.specs.Prelude.{◌≡◌};
ghost use Rattle.loading.specs.Load.{refusal_number, number_of, value_of};

use crate::LoadRefusal;

// The paper's number of a refusal.
pub fn load_refusal_number(why: LoadRefusal) -> u8
    ensures { result ≡ refusal_number why }
{
    match why {
        LoadRefusal::File(refusal) => call_answers::refusal_number(refusal),
        LoadRefusal::Rules => 65,
        LoadRefusal::Header => 60,
        LoadRefusal::Image => 61,
        LoadRefusal::NoPlace => 63,
        LoadRefusal::NoRoom => 62,
    }
}

// The paper's number of an answer.
pub fn number(a: Result<usize, LoadRefusal>) -> u8
    ensures { result ≡ number_of a }
{
    match a {
        Ok(_) => 0,
        Err(why) => load_refusal_number(why),
    }
}

// The paragraph of the base page, 0 for a refusal.
pub fn value(a: Result<usize, LoadRefusal>) -> usize
    ensures { result ≡ value_of a }
{
    a.unwrap_or(0)
}
