// Good slots: the definitions of what inspection accepts, their laws, and the tests of what an entry alone shows.
#![tactic(auto)]

ghost use Rattle.std.specs.Prelude.{◌≡◌};
ghost use Rattle.disk_volume.specs.CodeLent.{IsEntry};
ghost use Rattle.disk_rules.specs.GoodSlot.{good_fields, good_top_bits, good_entry};

use disk_volume::{fields, names};

// Are the bytes other than name and map good?
fn good_fields(e: &[u8]) -> bool
    requires { IsEntry e.now }
    ensures { result ≡ good_fields e.now }
{
    (e[fields::USER] <= 15)
        & (e[fields::EX] <= 31)
        & (e[fields::S1] == 0)
        & (e[fields::S2] <= 15)
        & (e[fields::RC] <= 128)
}

// Do bytes 9 and 10 alone carry a top bit, if any?
pub fn good_top_bits(e: &[u8]) -> bool
    requires { IsEntry e.now }
    ensures { result ≡ good_top_bits e.now }
{
    for k in 0..fields::NAME_BYTES {
        if !((e[fields::NAME + k] < names::TOP_BIT)
            | (k == fields::NAME_T1)
            | (k == fields::NAME_T2))
        {
            return false;
        }
    }
    true
}

// Is everything good that the entry alone shows, but its map?
pub fn good_entry(e: &[u8]) -> bool
    requires { IsEntry e.now }
    ensures { result ≡ good_entry e.now }
{
    good_fields(e)
        && names::good_name(false, &e[fields::NAME..fields::NAME_END])
        && good_top_bits(e)
}
