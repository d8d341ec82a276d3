// Why a log-in is refused for a bad slot, laid into 32 lent bytes.
ghost use Rattle.std.specs.Prelude.{◌≡◌, ◌<◌, length, IfSome};
ghost use Rattle.numbers.specs.Numbers.{bytes_of};
ghost use Rattle.disk_geometry.specs.Geometry.{slots};
ghost use Rattle.disk_volume.specs.CodeLent.{IsVolume};
ghost use Rattle.filecalls.specs.LogIn.{log_in};
ghost use Rattle.seam_looks.specs.Fault.{fault_length, rule_bytes, slot_bytes, owner_length, owner_bytes, other_bytes, fault_bytes, fault_for};

use call_answers::Answer;
use disk_faults::Fault;
use disk_geometry::Geometry;
use disk_volume::fields::NAME_END;

// Where the parts of a fault stand, and how many bytes it has.
const SLOTS_AT: usize = 4;

const OWNER_AT: usize = SLOTS_AT + 4;

const OTHER_AT: usize = OWNER_AT + NAME_END;

pub(crate) const FAULT_BYTES: usize = 32;

// The two low bytes of a number, low byte first.
fn two_bytes(x: usize) -> [u8; 2]
    ensures { result ≡ bytes_of 2 x }
{
    ((x % 65536) as u16).to_le_bytes()
}

// Lays the rule's number, the place and the block, zeros where no rule is broken.
fn put_rule(out: &mut [u8], broken: Option<Fault>)
    requires { length out.old ≡ 4 }
    ensures { out.new ≡ rule_bytes broken }
{
    match broken {
        Some(f) => {
            let number = disk_faults::rule_number(Some(f.rule));
            let place = (f.place % 256) as u8;
            let block = two_bytes(f.block);
            out.copy_from_slice(&[number, place, block[0], block[1]]);
        }
        None => out.fill(0),
    }
}

// Lays the bad slot and the other slot.
fn put_slots(out: &mut [u8], i: usize, broken: Option<Fault>)
    requires { length out.old ≡ 4 }
    ensures { out.new ≡ slot_bytes i broken }
{
    let other = match broken {
        Some(f) => f.other,
        None => 0,
    };
    out[0..2].copy_from_slice(&two_bytes(i));
    out[2..4].copy_from_slice(&two_bytes(other));
}

// Lays user and name of slot i.
fn put_owner(out: &mut [u8], g: Geometry, volume: &[u8], i: usize)
    requires { IsVolume g volume.now × ((length out.old ≡ owner_length) × (i < slots g)) }
    ensures { out.new ≡ owner_bytes g volume.now i }
{
    let at = g.slot_start(i);
    out.copy_from_slice(&volume[at..at + NAME_END]);
}

// Lays user and name of the other slot, zeros where the rule speaks of none.
fn put_other(out: &mut [u8], g: Geometry, volume: &[u8], broken: Option<Fault>)
    requires { IsVolume g volume.now
        × ((length out.old ≡ owner_length) × IfSome broken (λ f. f.other < slots g)) }
    ensures { out.new ≡ other_bytes g volume.now broken }
{
    match broken {
        Some(f) if disk_faults::has_other(Some(f.rule)) => put_owner(out, g, volume, f.other),
        _ => out.fill(0),
    }
}

// Lays the fault of slot i.
fn put_fault(out: &mut [u8], g: Geometry, volume: &[u8], i: usize)
    requires { IsVolume g volume.now × ((length out.old ≡ fault_length) × (i < slots g)) }
    ensures { out.new ≡ fault_bytes g volume.now i }
{
    let broken = disk_faults::first_broken(g, volume, i);
    put_rule(&mut out[0..SLOTS_AT], broken);
    put_slots(&mut out[SLOTS_AT..OWNER_AT], i, broken);
    put_owner(&mut out[OWNER_AT..OTHER_AT], g, volume, i);
    put_other(&mut out[OTHER_AT..FAULT_BYTES], g, volume, broken);
}

// Lays the fault of the bad slot of which log-in's answer tells, zeros where it tells of none.
pub(crate) fn put_fault_for(out: &mut [u8], g: Geometry, volume: &[u8], answer: Answer)
    requires { (length out.old ≡ fault_length) × (answer ≡ (log_in g volume.now).answer) }
    ensures { out.new ≡ fault_for g volume.now answer }
{
    match answer {
        Answer::BadSlot(slot) => put_fault(out, g, volume, slot),
        Answer::Done(_) => out.fill(0),
        Answer::Ready(_) => out.fill(0),
        Answer::Refused(_) => out.fill(0),
        Answer::Several(_, _) => out.fill(0),
    }
}
