// Several records a call: a sequential read (220) and write (221) of 1 to 16 records. Each single call is lent its own piece of
// the buffer.
#![tactic(auto)]

ghost use Rattle.std.specs.Prelude.{◌≡◌, List, ℕ, ◌+◌, ◌*◌, ◌≤◌, length};
ghost use Rattle.disk_geometry.specs.Geometry.{record_bytes};
ghost use Rattle.call_answers.specs.Refusal.{first_met};
ghost use Rattle.call_answers.specs.declared.Answer.TheVariants.{Several};
ghost use Rattle.filecalls.specs.Outcome.{left};
ghost use Rattle.filecalls.specs.Leaves.{read_sequential_leaves};
ghost use Rattle.several.specs.Several.{several_tests, piece_at, on_piece, singles, several};
ghost use Rattle.filecalls.specs.Write.{write_sequential_act};
ghost use Rattle.filecalls.specs.Stores.{cut_outcome, cut_left};
ghost use Rattle.several.specs.Stores.{SeveralCut};
ghost use Rattle.several.specs.CodeCut.{SinglesCut};
ghost use Rattle.filecalls.specs.CodeFront.{joined, joined_reply};

use call_answers::{Answer, Refusal};
use call_fcb::FCB_BYTES;
use disk_geometry::Geometry;
use disk_held::WORDS;
use filecalls::{Front, FrontReply};

pub mod drive;

// 32, 33, 34, then 46 for k outside 1..16, then 35 for a buffer that is not k records long.
fn several_why(front: Front, volume: &[u8], fcb: &[u8], buffer: &[u8], k: u8) -> Refusal
    ensures { (held : List ℕ)
        → result ≡ first_met (several_tests (joined front held) volume.now fcb.now buffer.now k) }
{
    if !front.is_open() {
        return Refusal::Closed;
    }
    let n = usize::from(k);
    let a = call_answers::refuse(
        Refusal::VolumeLength,
        volume.len() != front.geometry.bytes(),
    );
    let b = call_answers::refuse(Refusal::FcbLength, fcb.len() != FCB_BYTES);
    let c = call_answers::refuse(Refusal::BadCount, !((1 <= n) & (n <= 16)));
    let d = call_answers::refuse(
        Refusal::BufferLength,
        buffer.len() != Geometry::RECORD_BYTES * n,
    );
    call_answers::first_of(a, call_answers::first_of(b, call_answers::first_of(c, d)))
}

// n records are done, and why no more.
fn ended(front: Front, n: usize, why: Refusal) -> FrontReply
    ensures { (held : List ℕ) → joined_reply result held ≡ record { answer = Several n why; drive = joined front held } }
{
    FrontReply {
        answer: Answer::Several(n, why),
        front,
    }
}

// The single read into piece i: the part of the buffer is lent on to it.
fn read_piece(
    front: Front,
    volume: &[u8],
    fcb: &mut [u8],
    buffer: &mut [u8],
    i: usize,
) -> FrontReply
    requires { record_bytes * i + record_bytes ≤ length buffer.old }
    ensures { (held : List ℕ)
        → left (joined_reply result held) volume.now fcb.new buffer.new
        ≡ on_piece read_sequential_leaves i (joined front held) volume.now fcb.old buffer.old }
{
    let from = Geometry::RECORD_BYTES * i;
    front.read_sequential(
        volume,
        fcb,
        &mut buffer[from..from + Geometry::RECORD_BYTES],
    )
}

// k single reads in order, up to the first that is refused.
fn read_pieces(
    front: Front,
    volume: &[u8],
    fcb: &mut [u8],
    buffer: &mut [u8],
    k: usize,
) -> FrontReply
    requires { length buffer.old ≡ record_bytes * k }
    ensures { (held : List ℕ)
        → left (joined_reply result held) volume.now fcb.new buffer.new
        ≡ singles read_sequential_leaves 0 k (joined front held) volume.now fcb.old buffer.old }
{
    let mut d = front;
    for i in 0..k {
        let reply = read_piece(d, volume, fcb, buffer, i);
        if !call_answers::succeeded(reply.answer) {
            return ended(reply.front, i, call_answers::why_of(reply.answer));
        }
        d = reply.front;
    }
    ended(d, k, Refusal::None)
}

// The single write of piece i, as long as a store is left.
fn write_piece(
    front: Front,
    held: &mut [u64; WORDS],
    volume: &mut [u8],
    fcb: &mut [u8],
    buffer: &[u8],
    i: usize,
    left: &mut usize,
) -> FrontReply
    requires { record_bytes * i + record_bytes ≤ length buffer.now }
    ensures { cut_left (joined_reply result held.new) volume.new fcb.new (piece_at buffer.now i) left.new
        ≡ cut_outcome left.old (joined front held.old) volume.old fcb.old (piece_at buffer.now i)
        (write_sequential_act (joined front held.old) volume.old fcb.old (piece_at buffer.now i)) }
{
    let from = Geometry::RECORD_BYTES * i;
    front.write_sequential_most(
        held,
        volume,
        fcb,
        &buffer[from..from + Geometry::RECORD_BYTES],
        left,
    )
}

// k single writes in order, up to the first that is refused, as long as a store is left.
fn write_pieces(
    front: Front,
    held: &mut [u64; WORDS],
    volume: &mut [u8],
    fcb: &mut [u8],
    buffer: &[u8],
    k: usize,
    left: &mut usize,
) -> FrontReply
    requires { length buffer.now ≡ record_bytes * k }
    ensures { SinglesCut left.old (joined front held.old) volume.old fcb.old buffer.now k
        (cut_left (joined_reply result held.new) volume.new fcb.new buffer.now left.new) }
{
    let mut d = front;
    for i in 0..k {
        let written = write_piece(d, held, volume, fcb, buffer, i, left);
        if !call_answers::succeeded(written.answer) {
            return ended(written.front, i, call_answers::why_of(written.answer));
        }
        d = written.front;
    }
    ended(d, k, Refusal::None)
}

// Function 220: reads k records at the sequential position, and moves it on.
pub fn read(front: Front, volume: &[u8], fcb: &mut [u8], buffer: &mut [u8], k: u8) -> FrontReply
    ensures { (held : List ℕ)
        → left (joined_reply result held) volume.now fcb.new buffer.new
        ≡ several read_sequential_leaves (joined front held) volume.now fcb.old buffer.old k }
{
    let why = several_why(front, volume, fcb, buffer, k);
    if !call_answers::is_none(why) {
        return ended(front, 0, why);
    }
    read_pieces(front, volume, fcb, buffer, usize::from(k))
}

// Function 221 as long as a store is left.
pub fn write_most(
    front: Front,
    held: &mut [u64; WORDS],
    volume: &mut [u8],
    fcb: &mut [u8],
    buffer: &[u8],
    k: u8,
    left: &mut usize,
) -> FrontReply
    ensures { SeveralCut left.old (joined front held.old) volume.old fcb.old buffer.now k
        (cut_left (joined_reply result held.new) volume.new fcb.new buffer.now left.new) }
{
    let why = several_why(front, volume, fcb, buffer, k);
    if !call_answers::is_none(why) {
        return ended(front, 0, why);
    }
    write_pieces(front, held, volume, fcb, buffer, usize::from(k), left)
}
