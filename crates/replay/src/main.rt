// Replays a script of calls that stands on standard input and prints its transcript: a line for each call, the records that
// the run has changed, and the number of calls.
#![tactic(auto)]

ghost use Rattle.std.specs.Prelude.{◌≡◌, ◌-◌, ◌≤◌, length};
ghost use Rattle.lists.specs.Bytes.{part};
ghost use Rattle.replay_script.specs.Layout.{longest_volume};

use disk_geometry::Geometry;
use filecalls::Drive;
use replay_script::layout::{HEADER_BYTES, LONGEST_CALL, LONGEST_VOLUME};
use replay_script::{Header, Next, window};
use replay_transcript::{lines, records};
use std::io::{Read, Write};
use text::Writer;

// The window on the script has room for three of the longest calls.
const WINDOW_BYTES: usize = 262144;

// The transcript is written to standard output where FULL bytes of it stand in its buffer, before more is appended. What is
// appended in one go, the longest line of a call (131,597 bytes) or STRETCH records (68,864 bytes), then has room there, the
// last two lines too.
const OUT_BYTES: usize = 262144;

const FULL: usize = 130000;

const STRETCH: usize = 256;

// The part of the window that is not read yet, and whether standard input has ended.
#[derive(Clone, Copy)]
struct Unread {
    from: usize,
    to: usize,
    ended: bool,
}

// What stands between two calls.
#[derive(Clone, Copy)]
struct Run {
    drive: Drive,
    unread: Unread,
}

// A script that can't be read on after so many calls.
#[derive(Clone, Copy)]
struct BadScript {
    calls: usize,
}

// Writes what has been appended, and makes room for more.
fn flush<W: Write>(to: &mut W, w: &mut Writer<'_>) {
    let _ = to.write_all(w.as_slice());
    w.clear();
}

// Makes room where much has been appended.
fn make_room<W: Write>(to: &mut W, w: &mut Writer<'_>) {
    if FULL <= w.at() {
        flush(to, w);
    }
}

// Reads on behind the bytes that are not read yet; they stay what they were.
fn fill<R: Read>(input: &mut R, window: &mut [u8], from: usize, to: usize) -> Unread
    requires { (from ≤ to) × (to ≤ length window.old) }
    ensures from_le_to { (result.from ≤ result.to) × (result.to ≤ length window.new) }
    ensures from_after { part window.new result.from (to - from)
        ≡ part window.old from (to - from) }
{
    let kept = to - from;
    window::shift(window, from, kept);
    let got = streams::read_full(input, &mut window[kept..]);
    Unread {
        from: 0,
        to: kept + got,
        ended: got == 0,
    }
}

// A whole call stands in the window, or all that is left; what was not read yet stays what it was.
fn refill<R: Read>(input: &mut R, window: &mut [u8], unread: Unread) -> Unread
    requires { (unread.from ≤ unread.to) × (unread.to ≤ length window.old) }
    ensures from_le_to { (result.from ≤ result.to) × (result.to ≤ length window.new) }
    ensures from_after { part window.new result.from (unread.to - unread.from)
        ≡ part window.old unread.from (unread.to - unread.from) }
{
    let enough = LONGEST_CALL <= unread.to - unread.from;
    if enough | unread.ended {
        return unread;
    }
    fill(input, window, unread.from, unread.to)
}

// Does the call that stands next, or finds that there is none.
fn turn(
    rt: &HostRuntime,
    g: Geometry,
    run: Run,
    window: &mut [u8],
    volume: &mut [u8],
    w: &mut Writer<'_>,
) -> (Run, Next)
    requires { (run.unread.from ≤ run.unread.to) × (run.unread.to ≤ length window.old) }
    ensures { (result.0.unread.from ≤ result.0.unread.to) × (result.0.unread.to ≤ length window.new) }
{
    let u = refill(&mut rt.stdin(), window, run.unread);
    make_room(&mut rt.stdout(), w);
    let t = replay_turn::take_turn(g, run.drive, &mut window[u.from..u.to], volume, w);
    let unread = Unread {
        from: u.from + t.used,
        to: u.to,
        ended: u.ended,
    };
    (
        Run {
            drive: t.drive,
            unread,
        },
        t.next,
    )
}

// Nothing read, no log-in.
fn start() -> Run
    ensures { (result.unread.from ≡ 0) × (result.unread.to ≡ 0) }
{
    let unread = Unread {
        from: 0,
        to: 0,
        ended: false,
    };
    Run {
        drive: Drive::closed(),
        unread,
    }
}

// All calls, one after the other, and how many they were.
fn run_all(
    rt: &HostRuntime,
    g: Geometry,
    window: &mut [u8],
    volume: &mut [u8],
    w: &mut Writer<'_>,
) -> Result<usize, BadScript> {
    let mut run = start();
    for calls in 0..usize::MAX {
        let (then, next) = turn(rt, g, run, window, volume, w);
        match next {
            Next::End => return Ok(calls),
            Next::Bad => return Err(BadScript { calls }),
            Next::Call(_) => run = then,
        }
    }
    Ok(usize::MAX)
}

// The records that have changed, STRETCH at a time.
fn put_changes<W: Write>(to: &mut W, given: &[u8], volume: &[u8], w: &mut Writer<'_>) {
    let n = records::records_of(volume.len());
    for q in (0..n).step_by(STRETCH) {
        make_room(to, w);
        records::put_records(w, given, volume, q, n.min(q.saturating_add(STRETCH)));
    }
}

// The lines behind those of the calls.
fn finish<W: Write>(
    to: &mut W,
    given: &[u8],
    volume: &[u8],
    w: &mut Writer<'_>,
    ran: Result<usize, BadScript>,
) {
    let calls = match ran {
        Ok(calls) => calls,
        Err(bad) => {
            lines::put_bad(w, bad.calls);
            bad.calls
        }
    };
    put_changes(to, given, volume, w);
    lines::put_end(w, calls);
    flush(to, w);
}

// The run over a volume that was read whole.
fn replay(
    rt: &HostRuntime,
    g: Geometry,
    window: &mut [u8],
    given: &[u8],
    volume: &mut [u8],
    w: &mut Writer<'_>,
)
    requires { length volume.old ≡ length given.now }
{
    volume.copy_from_slice(given);
    let ran = run_all(rt, g, window, volume, w);
    finish(&mut rt.stdout(), given, volume, w, ran);
}

// No header or no volume: no call is done, and there is no record to show.
fn refuse<W: Write>(to: &mut W, w: &mut Writer<'_>) {
    lines::put_bad(w, 0);
    lines::put_end(w, 0);
    flush(to, w);
}

// Reads the volume.
fn with_header(
    rt: &HostRuntime,
    header: Header,
    window: &mut [u8],
    given: &mut [u8],
    volume: &mut [u8],
    w: &mut Writer<'_>,
)
    requires { (header.volume_bytes ≤ length given.old) × (length volume.old ≡ length given.old) }
{
    let n = header.volume_bytes;
    let got = streams::read_full(&mut rt.stdin(), &mut given[0..n]);
    if got < n {
        refuse(&mut rt.stdout(), w);
        return;
    }
    replay(
        rt,
        header.geometry,
        window,
        &given[0..n],
        &mut volume[0..n],
        w,
    );
}

// Reads the header.
fn with_script(
    rt: &HostRuntime,
    window: &mut [u8],
    given: &mut [u8],
    volume: &mut [u8],
    w: &mut Writer<'_>,
)
    requires { (longest_volume ≤ length given.old) × (length volume.old ≡ length given.old) }
{
    let mut head = [0u8; HEADER_BYTES];
    let got = streams::read_full(&mut rt.stdin(), &mut head);
    match replay_script::header_of(&head[..got]) {
        Some(header) => with_header(rt, header, window, given, volume, w),
        None => refuse(&mut rt.stdout(), w),
    }
}

// The arrays as slices: a reference to an array tells its length, and nobody has to count millions of zeros.
fn with_arrays(
    rt: &HostRuntime,
    window: &mut [u8; WINDOW_BYTES],
    given: &mut [u8; LONGEST_VOLUME],
    volume: &mut [u8; LONGEST_VOLUME],
    out: &mut [u8; OUT_BYTES],
) {
    with_script(rt, window, given, volume, &mut Writer::new(out, 0));
}

fn main(rt: HostRuntime) {
    let mut window = [0u8; WINDOW_BYTES];
    let mut given = [0u8; LONGEST_VOLUME];
    let mut volume = [0u8; LONGEST_VOLUME];
    let mut out = [0u8; OUT_BYTES];
    with_arrays(&rt, &mut window, &mut given, &mut volume, &mut out);
}
