// From hex text to CMD file: the lines are walked once to test and measure them, and once for each group that is there, to lay
// its bytes at their place in the output buffer. No other memory is needed.
#![tactic(auto)]

ghost use Rattle.std.specs.Prelude.{◌≡◌};
ghost use Rattle.gencmd_file.specs.Gencmd.{number_of, length_of, after, gencmd};

use gencmd_lines::Refusal;

mod header;
mod planning;
mod writing;

// No CMD file that is written is longer: 128 bytes of header, and 65,536 of each of four groups.
pub const LONGEST: usize = 262272;

// The paper's number of an answer.
pub fn number(answer: Result<usize, Refusal>) -> u8
    ensures { result ≡ number_of answer }
{
    match answer {
        Ok(_) => 0,
        Err(why) => gencmd_lines::number_of(Some(why)),
    }
}

// The length of the file, 0 where none was written.
pub fn length_of(answer: Result<usize, Refusal>) -> usize
    ensures { result ≡ length_of answer }
{
    answer.unwrap_or(0)
}

// Writes the CMD file of a hex text into the first bytes of `out`, and tells how long it is. A refusal alters no byte of `out`.
pub fn gencmd(text: &[u8], out: &mut [u8]) -> Result<usize, Refusal>
    ensures { after result out.new ≡ gencmd text.now out.old }
{
    let sizes = planning::plan(text, out.len())?;
    writing::write(out, text, sizes);
    Ok(writing::file_length(sizes))
}
