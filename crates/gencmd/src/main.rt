// Reads a hex text from standard input and writes its CMD file to standard output. A text that is refused, or that has more
// bytes than the program has room for, is a line on standard error, and nothing is written. A file that standard output does not take
// whole is a line there too.
#![tactic(auto)]

ghost use Rattle.std.specs.Prelude.{◌≡◌, ◌≤◌, length, take};
ghost use Rattle.gencmd_file.specs.Longest.{longest};
ghost use Rattle.gencmd.specs.Said.{line_bytes, refused, too_long};

use gencmd_file::LONGEST;
use gencmd_lines::Refusal;
use std::io::Write;
use text::Writer;

// A text may have so many bytes: a line for each byte of four full groups, and blanks. One more is room to notice a longer one.
const TEXT_BYTES: usize = 4194304;

const INPUT_BYTES: usize = TEXT_BYTES + 1;

const LINE_BYTES: usize = 64;

// The line of a refusal, whole, in the first bytes of `line`, and how many they are.
fn lay_refusal(line: &mut [u8], why: Refusal) -> usize
    requires { line_bytes ≤ length line.old }
    ensures { (take result line.new ≡ refused why)
        × (result ≤ length line.new) }
{
    let mut w = Writer::new(line, 0);
    w.bytes(b"REFUSED ");
    w.decimal(usize::from(gencmd_lines::number_of(Some(why))));
    w.byte(b'\n');
    w.at()
}

// The line of a text that is too long, in the same way.
fn lay_too_long(line: &mut [u8]) -> usize
    requires { line_bytes ≤ length line.old }
    ensures { (take result line.new ≡ too_long)
        × (result ≤ length line.new) }
{
    let mut w = Writer::new(line, 0);
    w.bytes(b"REFUSED: the text has more than ");
    w.decimal(TEXT_BYTES);
    w.bytes(b" bytes\n");
    w.at()
}

// The first n bytes of a line, on standard error.
fn complain<E: Write>(errors: &mut E, line: &[u8], n: usize)
    requires { n ≤ length line.now }
{
    let _ = errors.write_all(&line[..n]);
}

fn refuse<E: Write>(errors: &mut E, why: Refusal) {
    let mut line = [0u8; LINE_BYTES];
    let n = lay_refusal(&mut line, why);
    complain(errors, &line, n);
}

fn refuse_length<E: Write>(errors: &mut E) {
    let mut line = [0u8; LINE_BYTES];
    let n = lay_too_long(&mut line);
    complain(errors, &line, n);
}

// The file, on standard output, or a line that tells that not all of it was taken.
fn deliver<W: Write, E: Write>(to: &mut W, errors: &mut E, file: &[u8]) {
    if to.write_all(file).is_err() {
        let _ = errors.write_all(b"NOT WRITTEN: standard output did not take the whole file\n");
    }
}

// The file of a text, or why there is none. There is room for every file.
fn convert<W: Write, E: Write>(text: &[u8], out: &mut [u8], to: &mut W, errors: &mut E)
    requires { longest ≤ length out.old }
{
    match gencmd_file::gencmd(text, out) {
        Ok(n) => deliver(to, errors, &out[..n]),
        Err(why) => refuse(errors, why),
    }
}

fn run(rt: &HostRuntime, input: &mut [u8], out: &mut [u8])
    requires { longest ≤ length out.old }
{
    let n = streams::read_full(&mut rt.stdin(), input);
    if TEXT_BYTES < n {
        refuse_length(&mut rt.stderr());
        return;
    }
    convert(&input[..n], out, &mut rt.stdout(), &mut rt.stderr());
}

// The arrays as slices: a reference to an array tells its length, and nobody has to count a million zeros.
fn with_arrays(rt: &HostRuntime, input: &mut [u8; INPUT_BYTES], out: &mut [u8; LONGEST]) {
    run(rt, input, out);
}

fn main(rt: HostRuntime) {
    let mut input = [0u8; INPUT_BYTES];
    let mut out = [0u8; LONGEST];
    with_arrays(&rt, &mut input, &mut out);
}
