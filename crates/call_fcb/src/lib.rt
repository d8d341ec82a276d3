// The control block: its position, and what calls set in it.
#![tactic(auto)]

ghost use Rattle.std.specs.Prelude.{◌≡◌, ◌<◌};
ghost use Rattle.disk_volume.specs.CodeLent.{IsFcb, IsEntry, IsName};
ghost use Rattle.call_fcb.specs.Fcb.{file_records, position, random, set_to, opened, made, with_random};

use disk_geometry::Geometry;
use disk_volume::fields::{EX, MAP, MAP_END, NAME, NAME_END, RC, S1, S2};

// The fields that an entry does not have; the others stand where an entry has them.
pub const DR: usize = 0;

pub const CR: usize = 32;

pub const R0: usize = 33;

pub const R1: usize = 34;

pub const R2: usize = 35;

// Rename's new name, and the first byte behind it.
pub const NEW_NAME: usize = 17;

pub const NEW_NAME_END: usize = 28;

// How long a control block is, and how many records a file can have.
pub const FCB_BYTES: usize = 36;

pub const FILE_RECORDS: usize = 65536;

// Answers the sequential position of the control block.
#[tactic(auto, unfolding(crate::specs::Fcb::position))]
pub fn position_of(fcb: &[u8]) -> usize
    requires { IsFcb fcb.now }
    ensures { (result ≡ position fcb.now) × (result < 1100000) }
{
    Geometry::EXTENT_RECORDS * disk_volume::entry::extent_of(fcb) + usize::from(fcb[CR])
}

// Answers the record that a random call means.
#[tactic(auto, unfolding(crate::specs::Fcb::random))]
pub fn random_of(fcb: &[u8]) -> usize
    requires { IsFcb fcb.now }
    ensures { (result ≡ random fcb.now) × (result < file_records) }
{
    usize::from(u16::from_le_bytes([fcb[R0], fcb[R1]]))
}

// Sets the control block to record n of the entry e, with this cr.
#[tactic(auto, unfolding(crate::specs::Fcb::set_to, lists::specs::Bytes::part, lists::specs::Bytes::put))]
pub fn set_to(fcb: &mut [u8], e: &[u8], n: usize, cr: u8)
    requires { IsFcb fcb.old × (IsEntry e.now × (n < file_records)) }
    ensures { fcb.new ≡ set_to fcb.old e.now n cr }
{
    let extent = n / Geometry::EXTENT_RECORDS;
    let count = disk_volume::entry::count_of(e, extent);
    fcb[EX] = (extent % 32) as u8;
    fcb[S2] = (extent / 32) as u8;
    fcb[RC] = count;
    fcb[CR] = cr;
    fcb[MAP..MAP_END].copy_from_slice(&e[MAP..MAP_END]);
}

// Shows the entry e in the control block, as open does.
#[tactic(auto, unfolding(crate::specs::Fcb::opened, lists::specs::Bytes::part, lists::specs::Bytes::put))]
pub fn set_open(fcb: &mut [u8], e: &[u8])
    requires { IsFcb fcb.old × IsEntry e.now }
    ensures { fcb.new ≡ opened fcb.old e.now }
{
    let count = disk_volume::entry::count_of(e, usize::from(fcb[EX]));
    fcb[S1] = 0;
    fcb[S2] = 0;
    fcb[RC] = count;
    fcb[NAME..NAME_END].copy_from_slice(&e[NAME..NAME_END]);
    fcb[MAP..MAP_END].copy_from_slice(&e[MAP..MAP_END]);
}

// Lays a made file's name into the control block, and clears what follows it up to the map's end.
pub fn set_made(fcb: &mut [u8], name: &[u8])
    requires { IsFcb fcb.old × IsName name.now }
    ensures { fcb.new ≡ made fcb.old name.now }
{
    fcb[NAME..NAME_END].copy_from_slice(name);
    fcb[EX..MAP_END].fill(0);
}

// Lays a number into r0 r1 r2, low byte first.
#[tactic(auto, unfolding(crate::specs::Fcb::with_random))]
pub fn set_random(fcb: &mut [u8], n: usize)
    requires { IsFcb fcb.old × (n < 16777216) }
    ensures { fcb.new ≡ with_random fcb.old n }
{
    let [low, middle, high, ..] = n.to_le_bytes();
    fcb[R0] = low;
    fcb[R1] = middle;
    fcb[R2] = high;
}
