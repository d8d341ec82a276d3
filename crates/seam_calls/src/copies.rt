// A call that is cut off: done over copies of control block and buffer, since the machine that would see them is gone.
ghost use Rattle.std.specs.Prelude.{◌≡◌, true, ◌+◌, ◌*◌, ◌≤◌, min, length};
ghost use Rattle.call_fcb.specs.Fcb.{fcb_bytes};
ghost use Rattle.call_served.specs.Asked.{asked};
ghost use Rattle.filecalls.specs.State.{is_open};
ghost use Rattle.filecalls.specs.Stores.{refused_by};
ghost use Rattle.bdos.specs.Step.{step};
ghost use Rattle.bdos.specs.Stores.{stores_of, cut_volume};
ghost use Rattle.seam_calls.specs.CodeLent.{buffer_bytes, fcb_lent, buffer_lent};
ghost use Rattle.drive_bytes.specs.Layout.{decoded};
ghost use Rattle.seam_calls.specs.CodeSeam.{refusal_told, CutOpen};

use crate::{Told, call_most};
use call_fcb::FCB_BYTES;
use disk_geometry::Geometry;
use seam_words::halves;

// The bytes of the longest buffer that a call is lent: sixteen records.
const BUFFER_BYTES: usize = 16 * Geometry::RECORD_BYTES;

// How many bytes of a control block are lent on, and of a buffer: all, or none where the call refuses it by its length.
fn fcb_lent(n: usize) -> usize
    ensures { (result ≡ fcb_lent n) × ((result ≤ n) × (result ≤ fcb_bytes)) }
{
    if n == FCB_BYTES {
        return n;
    }
    0
}

fn buffer_lent(n: usize) -> usize
    ensures { (result ≡ buffer_lent n) × ((result ≤ n) × (result ≤ buffer_bytes)) }
{
    if n <= BUFFER_BYTES {
        return n;
    }
    0
}

// The number of the refusal, 0 where the call is not refused.
fn refusal_told(told: Told) -> u16
    ensures { result ≡ refusal_told told }
{
    if told.done {
        return 0;
    }
    (told.answer % 65536) as u16
}

// The call as long as a store is left, with copies that are lent to it. Answers the number of its refusal, 0 where it is not
// refused.
fn cut_with(
    function: u8,
    parameter: u8,
    drive: &mut [u8],
    volume: &mut [u8],
    fcb: &[u8],
    fcb_copy: &mut [u8],
    buffer: &[u8],
    buffer_copy: &mut [u8],
    left: &mut usize,
) -> u16
    requires drive_value { is_open (decoded drive.old) ≡ true }
    requires fcb_copy_len { length fcb_copy.old ≡ length fcb.now }
    requires buffer_copy_len { length buffer_copy.old ≡ length buffer.now }
    ensures { CutOpen left.old (asked function parameter fcb.now buffer.now)
        (decoded drive.old) volume.old volume.new left.new result }
{
    fcb_copy.copy_from_slice(fcb);
    buffer_copy.copy_from_slice(buffer);
    let told = call_most(
        function,
        parameter,
        drive,
        volume,
        fcb_copy,
        buffer_copy,
        left,
    );
    refusal_told(told)
}

// The call with at most so many stores: its refusal's number, and how many stores it made.
pub(crate) fn cut_open(
    most: usize,
    function: u8,
    parameter: u8,
    drive: &mut [u8],
    volume: &mut [u8],
    fcb: &[u8],
    buffer: &[u8],
) -> u32
    requires { is_open (decoded drive.old) ≡ true }
    ensures volume_after { volume.new
        ≡ cut_volume (decoded drive.old).geometry
        (asked function parameter fcb.now buffer.now) (decoded drive.old)
        volume.old most }
    ensures value { result
        ≡ refused_by
        (step (decoded drive.old).geometry
        (asked function parameter fcb.now buffer.now) (decoded drive.old)
        volume.old).answer
        + 65536
        * min most
        (length
        (stores_of (asked function parameter fcb.now buffer.now) (decoded drive.old)
        volume.old)) }
{
    let mut fcb_copy = [0u8; FCB_BYTES];
    let mut buffer_copy = [0u8; BUFFER_BYTES];
    let n = fcb_lent(fcb.len());
    let m = buffer_lent(buffer.len());
    let mut left = most;
    let refusal = cut_with(
        function,
        parameter,
        drive,
        volume,
        &fcb[0..n],
        &mut fcb_copy[0..n],
        &buffer[0..m],
        &mut buffer_copy[0..m],
        &mut left,
    );
    let made = (most - left) as u16;
    halves(refusal, made)
}
