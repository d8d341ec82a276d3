// A window on a script that is read in pieces: what is not read yet moves to its front before more is read behind it.
ghost use Rattle.std.specs.Prelude.{◌≡◌};
ghost use Rattle.replay_script.specs.CodeWindow.{shifted};

// Moves the n bytes from `from` on to the front; where there are not so many, nothing moves.
pub fn shift(window: &mut [u8], from: usize, n: usize)
    ensures { window.new ≡ shifted window.old from n }
{
    if window.len() < from {
        return;
    }
    if window.len() - from < n {
        return;
    }
    window.copy_within(from..from + n, 0);
}
