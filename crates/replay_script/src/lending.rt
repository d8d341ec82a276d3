// Which numbers are served, and what their calls are lent.
ghost use Rattle.std.specs.Prelude.{◌≡◌};
ghost use Rattle.call_served.specs.Calls.{call_of};
ghost use Rattle.replay_script.specs.Lends.{is_served, lends_fcb, lends_buffer};

// Is the call of this number lent a control block?
pub fn lends_fcb(n: u8) -> bool
    ensures { result ≡ lends_fcb (call_of n) }
{
    ((15 <= n) & (n <= 17))
        | ((19 <= n) & (n <= 23))
        | (n == 30)
        | ((33 <= n) & (n <= 36))
        | (n == 40)
        | (n == 220)
        | (n == 221)
}

// Is it lent a transfer buffer?
pub fn lends_buffer(n: u8) -> bool
    ensures { result ≡ lends_buffer (call_of n) }
{
    (n == 17)
        | (n == 18)
        | (n == 20)
        | (n == 21)
        | (n == 33)
        | (n == 34)
        | (n == 40)
        | (n == 220)
        | (n == 221)
}

// Is the number served?
pub fn is_served(n: u8) -> bool
    ensures { result ≡ is_served (call_of n) }
{
    lends_fcb(n) | (n == 13) | (n == 18) | (n == 28) | (n == 32) | (n == 37)
}
