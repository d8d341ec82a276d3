// Why a slot is bad: the first of inspection's rules that it breaks, in the paper's order.
#![tactic(auto)]

ghost use Rattle.std.specs.Prelude.{◌≡◌, ◌≤◌, ◌<◌};
ghost use Rattle.disk_geometry.specs.Geometry.{slots, places};
ghost use Rattle.disk_volume.specs.CodeLent.{IsVolume, IsEntry};
ghost use Rattle.disk_rules.specs.GoodSlot.{in_places, names_block};
ghost use Rattle.disk_faults.specs.Faults.{map_rule_number, number_told, map_rule_has_other, other_told, alone, breaks_at, place_of, slot_of, other_slot, first_broken};
ghost use Rattle.disk_faults.specs.CodeLadder.{entry_rule, map_fault, twin_fault, found};
ghost use Rattle.disk_faults.specs.CodeEntryAt.{EntryAt};

use disk_geometry::Geometry;
use disk_volume::{Wanted, directory, entry, fields, names};

// The highest user, and the records of a full extent: the most that an entry has in its bytes for them.
const LAST_USER: u8 = 15;

const FULL_EXTENT: u8 = 128;

// The rules of a map's places: a block outside D to T-1, a block twice in the entry, a block in a lower slot.
#[derive(Clone, Copy)]
pub enum MapRule {
    Outside,
    Twice,
    Lower,
}

// The rules of a slot in the paper's order.
#[derive(Clone, Copy)]
pub enum Rule {
    UserByte,
    NameByte,
    TopBit,
    ExByte,
    S1Byte,
    S2Byte,
    RcByte,
    Map(MapRule),
    Twin,
}

// The rule broken, with the place of the map, the block and the other slot where the rule has one, 0 where it has not.
#[derive(Clone, Copy)]
pub struct Fault {
    pub rule: Rule,
    pub place: usize,
    pub block: usize,
    pub other: usize,
}

// Answers the number of a map's rule.
fn map_rule_number(rule: MapRule) -> u8
    ensures { result ≡ map_rule_number rule }
{
    match rule {
        MapRule::Outside => 8,
        MapRule::Twice => 9,
        MapRule::Lower => 10,
    }
}

// Answers the number of a rule, 0 for None.
pub fn rule_number(rule: Option<Rule>) -> u8
    ensures { result ≡ number_told rule }
{
    match rule {
        None => 0,
        Some(Rule::UserByte) => 1,
        Some(Rule::NameByte) => 2,
        Some(Rule::TopBit) => 3,
        Some(Rule::ExByte) => 4,
        Some(Rule::S1Byte) => 5,
        Some(Rule::S2Byte) => 6,
        Some(Rule::RcByte) => 7,
        Some(Rule::Map(broken)) => map_rule_number(broken),
        Some(Rule::Twin) => 11,
    }
}

// Does the map's rule speak of another slot?
fn map_rule_has_other(rule: MapRule) -> bool
    ensures { result ≡ map_rule_has_other rule }
{
    match rule {
        MapRule::Outside | MapRule::Twice => false,
        MapRule::Lower => true,
    }
}

// Does the rule speak of another slot? None does not.
pub fn has_other(rule: Option<Rule>) -> bool
    ensures { result ≡ other_told rule }
{
    match rule {
        None
        | Some(
            Rule::UserByte
            | Rule::NameByte
            | Rule::TopBit
            | Rule::ExByte
            | Rule::S1Byte
            | Rule::S2Byte
            | Rule::RcByte,
        ) => false,
        Some(Rule::Map(broken)) => map_rule_has_other(broken),
        Some(Rule::Twin) => true,
    }
}

// The first rule that the entry breaks by itself, but for its map.
fn entry_rule(e: &[u8]) -> Option<Rule>
    requires { IsEntry e.now }
    ensures { result ≡ entry_rule e.now }
{
    if e[fields::USER] > LAST_USER {
        return Some(Rule::UserByte);
    }
    if !names::good_name(false, &e[fields::NAME..fields::NAME_END]) {
        return Some(Rule::NameByte);
    }
    if !disk_rules::good_top_bits(e) {
        return Some(Rule::TopBit);
    }
    if e[fields::EX] > 31 {
        return Some(Rule::ExByte);
    }
    if e[fields::S1] != 0 {
        return Some(Rule::S1Byte);
    }
    if e[fields::S2] > 15 {
        return Some(Rule::S2Byte);
    }
    if e[fields::RC] > FULL_EXTENT {
        return Some(Rule::RcByte);
    }
    None
}

// Does one of the first k places of the entry's map have block b?
fn in_places(g: Geometry, e: &[u8], k: usize, b: usize) -> bool
    requires { (k ≤ places g) × IsEntry e.now }
    ensures { result ≡ in_places g e.now k b }
{
    for p in 0..k {
        if entry::block_in(g, e, p) == b {
            return true;
        }
    }
    false
}

// Does the entry have block b?
fn names_block(g: Geometry, e: &[u8], b: usize) -> bool
    requires { IsEntry e.now }
    ensures { result ≡ names_block g e.now b }
{
    if e[fields::USER] == fields::EMPTY {
        return false;
    }
    in_places(g, e, g.places(), b)
}

// A rule that has neither place nor block nor other slot.
pub fn alone(rule: Rule) -> Fault
    ensures { result ≡ alone rule }
{
    Fault {
        rule,
        place: 0,
        block: 0,
        other: 0,
    }
}

// The lowest slot below i that has block b, i where none has.
fn slot_of(g: Geometry, volume: &[u8], i: usize, b: usize) -> usize
    requires { IsVolume g volume.now × (i ≤ slots g) }
    ensures { result ≡ slot_of g volume.now i b }
{
    for j in 0..i {
        let at = g.slot_start(j);
        if names_block(g, &volume[at..at + Geometry::ENTRY_BYTES], b) {
            return j;
        }
    }
    i
}

// The other slot where the map's rule has one.
fn other_slot(g: Geometry, volume: &[u8], i: usize, rule: MapRule, b: usize) -> usize
    requires { IsVolume g volume.now × (i ≤ slots g) }
    ensures { result ≡ other_slot g volume.now i rule b }
{
    match rule {
        MapRule::Outside | MapRule::Twice => 0,
        MapRule::Lower => slot_of(g, volume, i, b),
    }
}

// The entry in a slot of a volume, beside the volume.
#[derive(Clone, Copy)]
struct Slot<'a> {
    g: Geometry,
    volume: &'a [u8],
    i: usize,
    entry: &'a [u8],
    ghost stands: { EntryAt g volume.now i entry.now },
}

impl Slot<'_> {
    // Does place p break the rule?
    fn is_broken(&self, rule: MapRule, p: usize) -> bool
        requires { p < places self.now.g }
        ensures { result ≡ breaks_at self.now.g self.now.volume.now self.now.i rule p }
    {
        let b = entry::block_in(self.g, self.entry, p);
        if b == 0 {
            return false;
        }
        match rule {
            MapRule::Outside => !self.g.is_inside(b),
            MapRule::Twice => in_places(self.g, self.entry, p, b),
            MapRule::Lower => slot_of(self.g, self.volume, self.i, b) < self.i,
        }
    }

    // The lowest place that breaks the rule, the number of places where none does.
    fn place_of(&self, rule: MapRule) -> usize
        ensures { result ≡ place_of self.now.g self.now.volume.now self.now.i rule }
    {
        let n = self.g.places();
        for p in 0..n {
            if self.is_broken(rule, p) {
                return p;
            }
        }
        n
    }

    // The fault of a map's rule in the lowest place that breaks it.
    fn map_fault(&self, rule: MapRule) -> Option<Fault>
        ensures { result ≡ map_fault self.now.g self.now.volume.now self.now.i rule }
    {
        let p = self.place_of(rule);
        if self.g.places() <= p {
            return None;
        }
        let b = entry::block_in(self.g, self.entry, p);
        Some(Fault {
            rule: Rule::Map(rule),
            place: p,
            block: b,
            other: other_slot(self.g, self.volume, self.i, rule, b),
        })
    }

    // The fault where a lower slot has the entry's user, name and group.
    fn twin_fault(&self) -> Option<Fault>
        ensures { result ≡ twin_fault self.now.g self.now.volume.now self.now.i }
    {
        let slot = directory::find(
            self.g,
            self.volume,
            self.entry[fields::USER],
            &self.entry[fields::NAME..fields::NAME_END],
            Wanted::Group(self.g.group(entry::extent_of(self.entry))),
        );
        if slot < self.i {
            return Some(Fault {
                rule: Rule::Twin,
                place: 0,
                block: 0,
                other: slot,
            });
        }
        None
    }

    // The first rule that the entry breaks.
    fn fault(&self) -> Option<Fault>
        ensures { result ≡ found self.now.g self.now.volume.now self.now.i }
    {
        if self.entry[fields::USER] == fields::EMPTY {
            return None;
        }
        if let Some(rule) = entry_rule(self.entry) {
            return Some(alone(rule));
        }
        if let Some(fault) = self.map_fault(MapRule::Outside) {
            return Some(fault);
        }
        if let Some(fault) = self.map_fault(MapRule::Twice) {
            return Some(fault);
        }
        if let Some(fault) = self.map_fault(MapRule::Lower) {
            return Some(fault);
        }
        self.twin_fault()
    }
}

// The first rule that slot i breaks, None where it breaks none.
pub fn first_broken(g: Geometry, volume: &[u8], i: usize) -> Option<Fault>
    requires { IsVolume g volume.now × (i < slots g) }
    ensures { result ≡ first_broken g volume.now i }
{
    let at = g.slot_start(i);
    let slot = Slot {
        g,
        volume,
        i,
        entry: &volume[at..at + Geometry::ENTRY_BYTES],
    };
    slot.fault()
}
