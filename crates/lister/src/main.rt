// Prints the listing of the volume that it reads from standard input.
#![tactic(auto)]

ghost use Rattle.std.specs.Prelude.{◌≡◌, ◌≤◌, length, take, OnOk};
ghost use Rattle.std.specs.Io.KnownBytes.{Appends};
ghost use Rattle.listing.specs.Listing.{listing};
ghost use Rattle.listing.specs.Room.{room};

use std::io;
use std::io::Write;

// The listing, whole, in the first bytes of `out`, and how many they are.
fn lay(volume: &[u8], out: &mut [u8]) -> usize
    requires { room ≤ length out.old }
    ensures { (take result out.new ≡ listing volume.now)
        × (result ≤ length out.new) }
{
    listing::list(volume, out)
}

// To a writer whose contents are known the listing is appended; where the writer fails, it may be cut off.
fn print<W: Write>(volume: &[u8], out: &mut [u8], to: &mut W) -> io::Result<()>
    requires { room ≤ length out.old }
    ensures { OnOk result (Appends (W.contents to.old) (W.contents to.new) (listing volume.now)) }
{
    let n = lay(volume, out);
    to.write_all(&out[0..n])
}

// One byte more than a volume has is room enough to notice a longer input.
const INPUT_BYTES: usize = listing::VOLUME_BYTES + 1;

fn main(rt: HostRuntime) {
    let mut volume = [0u8; INPUT_BYTES];
    let n = streams::read_full(&mut rt.stdin(), &mut volume);
    let mut out = [0u8; listing::ROOM];
    let _ = print(&volume[..n], &mut out, &mut rt.stdout());
}
