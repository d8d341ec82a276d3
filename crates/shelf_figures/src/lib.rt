// The shelf: what up to 65,535 volumes hold together.
#![tactic(auto)]

ghost use Rattle.std.specs.Prelude.{◌≡◌, true};
ghost use Rattle.call_answers.specs.Answer.{number_of};
ghost use Rattle.filecalls.specs.LogIn.{log_in};
ghost use Rattle.shelf_figures.specs.Shelf.{bare, plus, refused_one, accepted_one, one, is_kept, shelved_number, shelved_value, put};

use disk_geometry::Geometry;
use filecalls::Drive;
use shelf_holdings::Holdings;

// The volumes refused at log-in; over the others the files, entries, records present, blocks held, blocks free and
// waste; the volumes seen.
#[derive(Clone, Copy)]
pub struct Shelf {
    pub refused: usize,
    pub files: usize,
    pub entries: usize,
    pub records: usize,
    pub held: usize,
    pub free: usize,
    pub waste: usize,
    pub seen: usize,
}

// Why a volume is not counted: the shelf is full; its figures are outside the rules.
#[derive(Clone, Copy, PartialEq, Eq, Debug)]
pub enum ShelfRefusal {
    Full,
    Outside,
}

// The number that log-in answered to a volume that was counted, or why it was not; and the shelf afterwards.
#[derive(Clone, Copy)]
pub struct Added {
    pub answer: Result<u8, ShelfRefusal>,
    pub shelf: Shelf,
}

// What log-in answered to a volume, and the shelf that has it alone.
#[derive(Clone, Copy)]
struct Looked {
    said: u8,
    alone: Shelf,
}

// The paper's number of an answer.
pub fn shelved_number(a: Result<u8, ShelfRefusal>) -> u8
    ensures { result ≡ shelved_number a }
{
    match a {
        Ok(_) => 0,
        Err(ShelfRefusal::Full) => 47,
        Err(ShelfRefusal::Outside) => 32,
    }
}

// The value beside it.
pub fn shelved_value(a: Result<u8, ShelfRefusal>) -> u8
    ensures { result ≡ shelved_value a }
{
    a.unwrap_or(0)
}

fn refused_one() -> Shelf
    ensures { result ≡ refused_one }
{
    Shelf {
        refused: 1,
        files: 0,
        entries: 0,
        records: 0,
        held: 0,
        free: 0,
        waste: 0,
        seen: 1,
    }
}

fn accepted_one(h: Holdings) -> Shelf
    ensures { result ≡ accepted_one h }
{
    Shelf {
        refused: 0,
        files: h.files,
        entries: h.entries,
        records: h.records,
        held: h.held,
        free: h.free,
        waste: h.waste,
        seen: 1,
    }
}

// Logs the volume in and, where it is accepted, takes stock of it.
fn look(g: Geometry, volume: &[u8]) -> Looked
    ensures said_value { result.said ≡ number_of (log_in g volume.now).answer }
    ensures alone_value { result.alone ≡ one g volume.now }
{
    let answer = Drive::log_in(g, volume).answer;
    let said = call_answers::number(answer);
    if !call_answers::succeeded(answer) {
        return Looked {
            said,
            alone: refused_one(),
        };
    }
    let stock = shelf_holdings::take_stock(g, volume, call_answers::value(answer));
    Looked {
        said,
        alone: accepted_one(stock),
    }
}

impl Shelf {
    // No figure may be as large as this; none ever is on a shelf that began bare.
    const FIGURE: usize = 1 << 48;

    pub const VOLUMES: usize = 65535;

    // A shelf that has seen no volume.
    pub fn bare() -> Shelf
        ensures { result ≡ bare }
    {
        Shelf {
            refused: 0,
            files: 0,
            entries: 0,
            records: 0,
            held: 0,
            free: 0,
            waste: 0,
            seen: 0,
        }
    }

    // Are all figures within the rules?
    fn is_kept(self) -> bool
        ensures { result ≡ is_kept self }
    {
        (self.refused < Shelf::FIGURE)
            & (self.files < Shelf::FIGURE)
            & (self.entries < Shelf::FIGURE)
            & (self.records < Shelf::FIGURE)
            & (self.held < Shelf::FIGURE)
            & (self.free < Shelf::FIGURE)
            & (self.waste < Shelf::FIGURE)
            & (self.seen < Shelf::FIGURE)
    }

    // Two shelves as one.
    fn plus(self, other: Shelf) -> Shelf
        requires { (is_kept self ≡ true) × (is_kept other ≡ true) }
        ensures { result ≡ plus self other }
    {
        Shelf {
            refused: self.refused + other.refused,
            files: self.files + other.files,
            entries: self.entries + other.entries,
            records: self.records + other.records,
            held: self.held + other.held,
            free: self.free + other.free,
            waste: self.waste + other.waste,
            seen: self.seen + other.seen,
        }
    }

    // Puts a volume on the shelf.
    pub fn put(self, g: Geometry, volume: &[u8]) -> Added
        ensures { result ≡ put self g volume.now }
    {
        if !self.is_kept() {
            return Added {
                answer: Err(ShelfRefusal::Outside),
                shelf: self,
            };
        }
        if Shelf::VOLUMES <= self.seen {
            return Added {
                answer: Err(ShelfRefusal::Full),
                shelf: self,
            };
        }
        let looked = look(g, volume);
        Added {
            answer: Ok(looked.said),
            shelf: self.plus(looked.alone),
        }
    }
}
