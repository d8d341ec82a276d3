// The lines of a transcript, appended to a lent buffer.
ghost use Rattle.std.specs.Prelude.{◌++◌};
ghost use Rattle.text.specs.Decimal.{decimal};
ghost use Rattle.text.specs.Letters.{line_end};
ghost use Rattle.text.specs.Writer.{Appends};
ghost use Rattle.replay_transcript.specs.Lines.{shown, numbers_of, call_line, bad_line, end_line};

use crate::hex;
use call_answers::Answer;
use replay_script::lending;
use text::Writer;

// What was lent, as it is afterwards.
fn put_shown(w: &mut Writer<'_>, lent: bool, s: &[u8])
    ensures { Appends w.old (shown lent s.now) w.new }
{
    if !lent {
        w.byte(b'-');
        return;
    }
    w.byte(b'=');
    hex::put_hex(w, s);
}

// The three numbers of a call.
fn put_numbers(w: &mut Writer<'_>, function: u8, answer: Answer)
    ensures { Appends w.old (numbers_of function answer) w.new }
{
    w.decimal(usize::from(function));
    w.byte(b' ');
    w.decimal(usize::from(call_answers::number(answer)));
    w.byte(b' ');
    w.decimal(call_answers::value(answer));
}

// The line of a call.
pub fn put_call(w: &mut Writer<'_>, function: u8, answer: Answer, fcb: &[u8], buffer: &[u8])
    ensures { Appends w.old (call_line function answer fcb.now buffer.now) w.new }
{
    put_numbers(w, function, answer);
    w.byte(b' ');
    put_shown(w, lending::lends_fcb(function), fcb);
    w.byte(b' ');
    put_shown(w, lending::lends_buffer(function), buffer);
    w.byte(b'\n');
}

// A line of a word and a number.
fn put_counted(w: &mut Writer<'_>, word: &[u8], n: usize)
    ensures { Appends w.old (word.now ++ decimal n ++ line_end) w.new }
{
    w.bytes(word);
    w.decimal(n);
    w.byte(b'\n');
}

// A script that can't be read on after n calls.
pub fn put_bad(w: &mut Writer<'_>, n: usize)
    ensures { Appends w.old (bad_line n) w.new }
{
    put_counted(w, b"BAD SCRIPT ", n);
}

// The end, with the number of calls.
pub fn put_end(w: &mut Writer<'_>, n: usize)
    ensures { Appends w.old (end_line n) w.new }
{
    put_counted(w, b"END ", n);
}
