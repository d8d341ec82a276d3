// A hex text made a CMD file, for the seam: the answer is one number of 64 bits, since a file's length has more than 16.
#![tactic(auto)]

ghost use Rattle.std.specs.Prelude.{◌≡◌};
ghost use Rattle.seam_gencmd.specs.Gencmd.{made, gencmd_at_seam};

use seam_words::with_high;

// Writes the CMD file of a hex text into the first bytes of `out`. The refusal's number stands in the low 16 bits, 0 for none,
// and the length of the file in the high 32.
pub fn gencmd(text: &[u8], out: &mut [u8]) -> u64
    ensures { made result out.new
        ≡ gencmd_at_seam text.now out.old }
{
    let answer = gencmd_file::gencmd(text, out);
    let number = u32::from(gencmd_file::number(answer));
    let length = gencmd_file::length_of(answer) as u32;
    with_high(number, length)
}
