// The calls of a script are done one after the other, each with its line in the transcript.
#![tactic(auto)]

ghost use Rattle.std.specs.Prelude.{◌≡◌, ◌≤◌, length};
ghost use Rattle.filecalls.specs.Outcome.{left};
ghost use Rattle.call_served.specs.Asked.{asked};
ghost use Rattle.text.specs.Writer.{written, buffer_of};
ghost use Rattle.replay_script.specs.declared.Next.TheVariants.{Call};
ghost use Rattle.replay_script.specs.Layout.{call_bytes};
ghost use Rattle.replay_script.specs.Script.{next_of, asked_by};
ghost use Rattle.replay_script.specs.CodeNext.{used_by, Within};
ghost use Rattle.replay_turn.specs.Play.{laid, played, leaves, called, afterwards, after};
ghost use Rattle.replay_turn.specs.CodeCall.{after_call};

use call_answers::Answer;
use disk_geometry::Geometry;
use filecalls::{Drive, Reply};
use replay_script::layout::{FCB_AT, HEAD_BYTES, K_BYTES, LONGEST_FCB, OFFSET_BYTES, TOUCH};
use replay_script::{Head, Next};
use replay_transcript::lines;
use text::Writer;

// What a turn did: what stood next and how many bytes it took, and the state after it.
#[derive(Clone, Copy)]
pub struct Turn {
    pub next: Next,
    pub used: usize,
    pub drive: Drive,
}

// Lays bytes into the volume: fcb has the offset, then the bytes.
fn lay(volume: &mut [u8], fcb: &[u8])
    ensures { volume.new ≡ laid volume.old fcb.now }
{
    if OFFSET_BYTES <= fcb.len() {
        let mut w = Writer::new(volume, replay_script::offset_of(fcb));
        w.bytes(&fcb[OFFSET_BYTES..]);
    }
}

// Does the call; g is the header's geometry.
fn play(
    g: Geometry,
    function: u8,
    parameter: u8,
    drive: Drive,
    volume: &mut [u8],
    fcb: &mut [u8],
    buffer: &mut [u8],
) -> Reply
    ensures { left result volume.new fcb.new buffer.new
        ≡ played g (asked function parameter fcb.old buffer.old) drive volume.old }
{
    if function == TOUCH {
        lay(volume, fcb);
        return Reply {
            answer: Answer::Done(0),
            drive,
        };
    }
    bdos::enter(g, function, parameter, drive, volume, fcb, buffer)
}

// Does the call and appends its line; returns the state after it.
fn serve(
    g: Geometry,
    head: Head,
    drive: Drive,
    volume: &mut [u8],
    fcb: &mut [u8],
    buffer: &mut [u8],
    w: &mut Writer<'_>,
) -> Drive
    ensures same_buffer { buffer_of w.new ≡ buffer_of w.old }
    ensures after { leaves result volume.new fcb.new buffer.new (written w.new)
        ≡ called g (asked_by head fcb.old buffer.old) drive volume.old (written w.old) }
{
    let r = play(g, head.function, head.parameter, drive, volume, fcb, buffer);
    lines::put_call(w, head.function, r.answer, fcb, buffer);
    r.drive
}

// Does the call at the start of s, whose head is given; fcb is as long as its control block.
fn call_here(
    g: Geometry,
    head: Head,
    drive: Drive,
    s: &mut [u8],
    fcb: &mut [u8],
    volume: &mut [u8],
    w: &mut Writer<'_>,
) -> Drive
    requires { (length fcb.old ≡ head.fcb) × (call_bytes head.fcb head.buffer ≤ length s.old) }
    ensures same_buffer { buffer_of w.new ≡ buffer_of w.old }
    ensures after { afterwards result volume.new s.new (written w.new)
        ≡ after_call g head s.old drive volume.old (written w.old) }
{
    let k_at = FCB_AT + head.fcb;
    let buffer_at = k_at + K_BYTES;
    let end = buffer_at + head.buffer;
    fcb.copy_from_slice(&s[FCB_AT..k_at]);
    serve(g, head, drive, volume, fcb, &mut s[buffer_at..end], w)
}

// The same with room for the control block.
fn call_next(
    g: Geometry,
    head: Head,
    drive: Drive,
    s: &mut [u8],
    volume: &mut [u8],
    w: &mut Writer<'_>,
) -> Turn
    requires { Within (length s.old) (Call head) }
    ensures next_value { (result.next ≡ Call head) × (result.used ≡ call_bytes head.fcb head.buffer) }
    ensures same_buffer { buffer_of w.new ≡ buffer_of w.old }
    ensures after { afterwards result.drive volume.new s.new (written w.new)
        ≡ after_call g head s.old drive volume.old (written w.old) }
{
    let mut space = [0u8; LONGEST_FCB];
    let after = call_here(g, head, drive, s, &mut space[0..head.fcb], volume, w);
    Turn {
        next: Next::Call(head),
        used: HEAD_BYTES + head.fcb + head.buffer,
        drive: after,
    }
}

// Nothing is done.
fn stopped(next: Next, drive: Drive) -> Turn
    ensures { result ≡ record { next = next; used = 0; drive = drive } }
{
    Turn {
        next,
        used: 0,
        drive,
    }
}

// Looks at what stands next in the script and, where it is a call, does it and appends its line.
pub fn take_turn(
    g: Geometry,
    drive: Drive,
    s: &mut [u8],
    volume: &mut [u8],
    w: &mut Writer<'_>,
) -> Turn
    ensures next_value { (result.next ≡ next_of s.old)
        × ((result.used ≡ used_by (next_of s.old)) × (result.used ≤ length s.old)) }
    ensures same_buffer { buffer_of w.new ≡ buffer_of w.old }
    ensures after { afterwards result.drive volume.new s.new (written w.new)
        ≡ after g s.old drive volume.old (written w.old) }
{
    let next = replay_script::next_of(s);
    match next {
        Next::End | Next::Bad => stopped(next, drive),
        Next::Call(head) => call_next(g, head, drive, s, volume, w),
    }
}
