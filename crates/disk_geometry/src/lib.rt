// The geometry of a volume: its sizes, and where its records and slots lie.
#![tactic(auto)]

ghost use Rattle.std.specs.Prelude.{◌≡◌, true, ◌+◌, ◌*◌, ◌/◌, ◌%◌, ◌≤◌, ◌<◌};
ghost use Rattle.disk_geometry.specs.Geometry.{record_bytes, entry_bytes, map_bytes, record_slots, is_floppy, lawful, bytes, number_bytes, records, extents, start, slots, slot_start, record_of, record_start, group_of, places, place_of, inside, blocks};
ghost use Rattle.disk_geometry.specs.Shift.{bsh, blm};
ghost use Rattle.disk_geometry.specs.CodeMost.{most_of};

mod eight_inch;

// How the volume is cut up: B, T and D of the paper; and how its records are placed, which is one of the two numbers below.
// The placing is a number and no enum: C passes one, and what `is_lawful` promises is said of a third number too.
#[derive(Clone, Copy, PartialEq, Eq)]
pub struct Geometry {
    pub block_bytes: usize,
    pub blocks: usize,
    pub directory_blocks: usize,
    pub placing: usize,
}

impl Geometry {
    // Bytes of a record, of an entry and of its map, records of an extent, slots of a directory record, bytes of a block for
    // each extent of its entry and each byte of a block number.
    pub const RECORD_BYTES: usize = 128;

    pub const ENTRY_BYTES: usize = 32;

    pub const MAP_BYTES: usize = 16;

    pub const EXTENT_RECORDS: usize = 128;

    pub const RECORD_SLOTS: usize = 4;

    pub const EXTENT_BLOCK_BYTES: usize = 1024;

    // Records one behind the other, and as on eight-inch disks.
    pub const STRAIGHT: usize = 0;

    pub const EIGHT_INCH: usize = 1;

    // That of an eight-inch disk.
    pub const FLOPPY: Geometry = Geometry {
        block_bytes: 1024,
        blocks: 243,
        directory_blocks: 2,
        placing: Geometry::EIGHT_INCH,
    };

    // The most blocks whose numbers take one byte, and the most bytes of a volume with more.
    pub const NARROW_BLOCKS: usize = 256;

    pub const MOST_BYTES: usize = 8 * 1024 * 1024;

    // More extents than an entry has.
    const EXTENTS_BELOW: usize = 8;

    // Is it that of an eight-inch disk?
    fn is_floppy(self) -> bool
        ensures { result ≡ is_floppy self }
    {
        self == Geometry::FLOPPY
    }

    // Is the geometry within the rules? T is 2 at least, being above D.
    pub fn is_lawful(self) -> bool
        ensures { result ≡ lawful self }
    {
        if self.placing != Geometry::STRAIGHT {
            return self.is_floppy();
        }
        let most = self.most_blocks();
        (self.blocks <= most)
            & (1 <= self.directory_blocks)
            & (self.directory_blocks <= 16)
            & (self.directory_blocks < self.blocks)
    }

    // The most blocks that the block size allows, 0 for a size that is none.
    fn most_blocks(self) -> usize
        ensures { result ≡ most_of self }
    {
        match self.block_bytes {
            1024 => Geometry::NARROW_BLOCKS,
            2048 => Geometry::MOST_BYTES / 2048,
            4096 => Geometry::MOST_BYTES / 4096,
            _ => 0,
        }
    }

    // The volume's length: T times B, or that of an eight-inch disk.
    #[tactic(auto, using(crate::proofs::GeometryLaws::placed_floppy, crate::proofs::GeometryLaws::bytes_straight, crate::proofs::GeometryLaws::bytes_floppy))]
    pub fn bytes(self) -> usize
        requires { lawful self ≡ true }
        ensures { result ≡ bytes self }
    {
        if self.placing == Geometry::STRAIGHT {
            self.blocks * self.block_bytes
        } else {
            eight_inch::IMAGE_BYTES
        }
    }

    // R: records a block.
    pub fn records(self) -> usize
        ensures { result ≡ records self }
    {
        self.block_bytes / Geometry::RECORD_BYTES
    }

    // BSH, the block shift of Digital Research's table (000, Tabelle 13): R is 1 << BSH.
    #[tactic(auto, unfolding(crate::specs::Shift::bsh))]
    pub fn bsh(self) -> usize
        ensures { (result ≡ bsh self) × (result ≤ 5) }
    {
        match self.block_bytes {
            1024 => 3,
            2048 => 4,
            4096 => 5,
            _ => 0,
        }
    }

    // BLM, the block mask of the same table: R - 1.
    #[tactic(auto, unfolding(crate::specs::Shift::blm))]
    pub fn blm(self) -> usize
        ensures { result ≡ blm self }
    {
        match self.block_bytes {
            1024 => 7,
            2048 => 15,
            4096 => 31,
            _ => 0,
        }
    }

    // How many bytes a block number takes in an entry.
    pub fn number_bytes(self) -> usize
        ensures { (result ≡ number_bytes self) × ((1 ≤ result) × (result ≤ 2)) }
    {
        if self.blocks <= Geometry::NARROW_BLOCKS {
            1
        } else {
            2
        }
    }

    // X: extents an entry.
    pub fn extents(self) -> usize
        ensures { result ≡ extents self }
    {
        self.block_bytes / (Geometry::EXTENT_BLOCK_BYTES * self.number_bytes())
    }

    // How many slots the directory has.
    pub fn slots(self) -> usize
        requires { lawful self ≡ true }
        ensures { (result ≡ slots self) × (result ≤ 2048) }
    {
        self.directory_blocks * (self.block_bytes / Geometry::ENTRY_BYTES)
    }

    // Where logical record q begins.
    pub fn start(self, q: usize) -> usize
        requires { (lawful self ≡ true) × (q < blocks self * records self) }
        ensures { (result ≡ start self q) × (result + record_bytes ≤ bytes self) }
    {
        if self.placing == Geometry::STRAIGHT {
            q * Geometry::RECORD_BYTES
        } else {
            eight_inch::image_start(q)
        }
    }

    // Where the directory record begins that holds slot i.
    #[tactic(auto, using(crate::proofs::GeometryLaws::slot_record_below))]
    pub fn slot_record(self, i: usize) -> usize
        requires { (lawful self ≡ true) × (i < slots self) }
        ensures { (result ≡ start self (i / record_slots)) × (result + record_bytes ≤ bytes self) }
    {
        self.start(i / Geometry::RECORD_SLOTS)
    }

    // Where slot i begins.
    #[tactic(auto, using(crate::proofs::GeometryLaws::bounds), unfolding(crate::specs::Geometry::slot_start))]
    pub fn slot_start(self, i: usize) -> usize
        requires { (lawful self ≡ true) × (i < slots self) }
        ensures { (result ≡ slot_start self i) × (result + entry_bytes ≤ bytes self) }
    {
        if self.placing == Geometry::STRAIGHT {
            return i * Geometry::ENTRY_BYTES;
        }
        self.slot_record(i) + i % Geometry::RECORD_SLOTS * Geometry::ENTRY_BYTES
    }

    // The logical record of record n in block b.
    pub fn record_of(self, b: usize, n: usize) -> usize
        requires { (lawful self ≡ true) × (b < blocks self) }
        ensures { (result ≡ record_of self b n) × (result < blocks self * records self) }
    {
        (b << self.bsh()) + (n & self.blm())
    }

    // Where record n begins that lies in block b.
    #[tactic(auto, unfolding(crate::specs::Geometry::record_start))]
    pub fn record_start(self, b: usize, n: usize) -> usize
        requires { (lawful self ≡ true) × (b < blocks self) }
        ensures { (result ≡ record_start self b n) × (result + record_bytes ≤ bytes self) }
    {
        self.start(self.record_of(b, n))
    }

    // The group of extent x. That an entry has few extents is said here, since a division by a small number is shorter.
    pub fn group(self, x: usize) -> usize
        requires { lawful self ≡ true }
        ensures { result ≡ group_of self x }
    {
        x / (self.extents() % Geometry::EXTENTS_BELOW)
    }

    // How many places an entry's map has.
    #[tactic(auto, unfolding(crate::specs::Geometry::places))]
    pub fn places(self) -> usize
        ensures { (result ≡ places self) × (result ≤ map_bytes) }
    {
        Geometry::MAP_BYTES / self.number_bytes()
    }

    // The map place of record n.
    pub fn place(self, n: usize) -> usize
        requires { lawful self ≡ true }
        ensures { (result ≡ place_of self n) × (result < places self) }
    {
        (n % (Geometry::EXTENT_RECORDS * self.extents())) >> self.bsh()
    }

    // Is the block one from D to T-1?
    #[tactic(auto, unfolding(crate::specs::Geometry::inside))]
    pub fn is_inside(self, b: usize) -> bool
        ensures { result ≡ inside self b }
    {
        (self.directory_blocks <= b) & (b < self.blocks)
    }
}
