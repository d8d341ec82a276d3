// Which manuscript a siglum means: the name is handed back as the very part of the edition's own list or of the house list.
#![tactic(auto)]

ghost use Rattle.std.specs.Prelude.{◌≡◌, ◌+◌, ◌*◌, ◌/◌, ◌≤◌, ◌<◌, length, MatchOption};
ghost use Rattle.desk_manuscripts.specs.Manuscript.{line_bytes, name_at, name_bytes, lines, line_is, line_of, where_of, InLists, seen, part_of, part_for, unexplained_number, number_of};

// A line's bytes, and where its name begins.
pub const LINE_BYTES: usize = 32;

pub const NAME_AT: usize = 2;

// 51: siglum in neither list; 52: a list's length no multiple of 32.
pub const NEITHER: u8 = 51;

pub const LISTS: u8 = 52;

// Where a siglum is explained: in a line of the edition's own list or of the house list.
#[derive(Clone, Copy, Debug, PartialEq, Eq)]
pub enum Place {
    Own(usize),
    House(usize),
}

// Why a siglum is not explained: it is in neither list, or a list has a wrong length.
#[derive(Clone, Copy, Debug, PartialEq, Eq)]
pub enum Unexplained {
    Neither,
    Lists,
}

impl From<Unexplained> for u8 {
    ghost from_gives = { λ why n. n ≡ unexplained_number why };

    fn from(why: Unexplained) -> u8 {
        match why {
            Unexplained::Neither => NEITHER,
            Unexplained::Lists => LISTS,
        }
    }
}

// Does line i of the list have this siglum?
fn line_is(list: &[u8], i: usize, siglum: u16) -> bool
    requires { i * line_bytes + line_bytes ≤ length list.now }
    ensures { result ≡ line_is list.now siglum i }
{
    let at = i * LINE_BYTES;
    u16::from_le_bytes([list[at], list[at + 1]]) == siglum
}

// The first line of the list that has this siglum.
fn line_of(list: &[u8], siglum: u16) -> Option<usize>
    ensures { MatchOption result (lines list.now ≤ line_of list.now siglum) (λ i. (i ≡ line_of list.now siglum) × (i < lines list.now)) }
{
    for i in 0..list.len() / LINE_BYTES {
        if line_is(list, i, siglum) {
            return Some(i);
        }
    }
    None
}

// Where a siglum is explained; 52 of either list comes first.
pub fn where_is(siglum: u16, own: &[u8], house: &[u8]) -> Result<Place, Unexplained>
    ensures value { result ≡ where_of siglum own.now house.now }
    ensures in_lists { InLists (length own.now) (length house.now) result }
{
    if (own.len() % LINE_BYTES != 0) | (house.len() % LINE_BYTES != 0) {
        return Err(Unexplained::Lists);
    }
    if let Some(i) = line_of(own, siglum) {
        return Ok(Place::Own(i));
    }
    if let Some(j) = line_of(house, siglum) {
        return Ok(Place::House(j));
    }
    Err(Unexplained::Neither)
}

// The number of the answer: 0, 51 for a siglum in neither list, 52 for a list whose length is no multiple of 32.
pub fn number(place: Result<Place, Unexplained>) -> u8
    ensures { result ≡ number_of place }
{
    match place {
        Ok(_) => 0,
        Err(why) => u8::from(why),
    }
}

// The thirty bytes of name in line i.
fn name_in<'a>(list: &'a [u8], i: usize) -> &'a [u8]
    requires { i * line_bytes + line_bytes ≤ length list.now }
    ensures { seen result ≡ part_of list.entry (i * line_bytes + name_at) name_bytes }
{
    let at = i * LINE_BYTES;
    &list[at + NAME_AT..at + LINE_BYTES]
}

// The name of the manuscript that the siglum means; for 51 and 52 an empty part.
pub fn manuscript<'a>(siglum: u16, own: &'a [u8], house: &'a [u8]) -> &'a [u8]
    ensures { seen result ≡ part_for (where_of siglum own.now house.now) own.entry house.entry }
{
    match where_is(siglum, own, house) {
        Ok(Place::Own(i)) => name_in(own, i),
        Ok(Place::House(j)) => name_in(house, j),
        Err(_) => &own[0..0],
    }
}
