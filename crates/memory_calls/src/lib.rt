// The memory calls 53 to 58 over a table of pieces and regions, by value.
#![tactic(auto)]

ghost use Rattle.std.specs.Prelude.{◌≡◌, ◌<◌};
ghost use Rattle.memory_spans.specs.Span.{places};
ghost use Rattle.memory_spans.specs.Room.{has_room};
ghost use Rattle.memory_calls.specs.Table.{pieces_of, regions_of, with_places, within_rules};
ghost use Rattle.memory_calls.specs.CodeReady.{Ready};
ghost use Rattle.memory_calls.specs.Answer.{refusal_number, number_of};
ghost use Rattle.memory_calls.specs.Calls.{refused, done, granting, longest_run_of, tested, granted, granted_at, freeing, freeing_part, free_all, serve, memory_call};

use memory_regions::Regions;
use memory_spans::{PARAGRAPHS, PLACES, Span};

// Physical pieces and granted regions, eight places each, of which the first are used.
#[derive(Clone, Copy)]
pub struct Table {
    pub pieces: [Span; PLACES],
    pub used: usize,
    pub regions: [Span; PLACES],
    pub granted: usize,
}

impl Table {
    // The pieces in use.
    pub fn pieces(&self) -> &[Span]
        ensures { result.now ≡ pieces_of self.now }
    {
        &self.pieces[..self.used.min(PLACES)]
    }

    // The regions in use.
    pub fn regions(&self) -> &[Span]
        ensures { result.now ≡ regions_of self.now }
    {
        &self.regions[..self.granted.min(PLACES)]
    }
}

// The memory control block: M-Base, M-Length, M-Ext.
#[derive(Clone, Copy)]
pub struct Mcb {
    pub base: u16,
    pub length: u16,
    pub ext: u8,
}

// Why a memory call is refused.
#[derive(Clone, Copy, PartialEq, Eq, Debug)]
pub enum Refusal {
    NotServed,
    Rules,
    NoPlace,
    NoRoom,
    BadFree,
}

// All that a memory call leaves: done or why it is refused, the table and the block.
#[derive(Clone, Copy)]
pub struct Reply {
    pub answer: Result<(), Refusal>,
    pub table: Table,
    pub mcb: Mcb,
}

// The M-Ext that frees every region.
const EVERY: u8 = 255;

// The numbers of the memory calls, by their names in the manual.
pub const GET_MAX_MEM: u8 = 53;

pub const GET_ABS_MAX: u8 = 54;

pub const ALLOC_MEM: u8 = 55;

pub const ALLOC_ABS_MEM: u8 = 56;

pub const FREE_MEM: u8 = 57;

pub const FREE_ALL_MEM: u8 = 58;

// The paper's number of a refusal.
pub fn memory_refusal_number(why: Refusal) -> u8
    ensures { result ≡ refusal_number why }
{
    match why {
        Refusal::NotServed => 31,
        Refusal::Rules => 65,
        Refusal::NoPlace => 63,
        Refusal::NoRoom => 62,
        Refusal::BadFree => 64,
    }
}

// The paper's number of an answer.
pub fn number(a: Result<(), Refusal>) -> u8
    ensures { result ≡ number_of a }
{
    match a {
        Ok(()) => 0,
        Err(why) => memory_refusal_number(why),
    }
}

// Is the table within the rules in a memory of so many bytes?
#[tactic(auto, unfolding(crate::specs::Table::within_rules))]
pub fn is_within_rules(bytes: usize, t: Table) -> bool
    ensures { result ≡ within_rules bytes t }
{
    t.used <= PLACES
        && t.granted <= PLACES
        && memory_spans::is_lawful(bytes, t.pieces(), t.regions())
}

// Refused, and all as it was.
fn refuse(why: Refusal, t: Table, mcb: Mcb) -> Reply
    ensures { result ≡ refused why t mcb }
{
    Reply {
        answer: Err(why),
        table: t,
        mcb,
    }
}

// Done, with that table and that base and length; M-Ext becomes 0.
fn done(t: Table, base: u16, length: u16) -> Reply
    ensures { result ≡ done t base length }
{
    let mcb = Mcb {
        base,
        length,
        ext: 0,
    };
    Reply {
        answer: Ok(()),
        table: t,
        mcb,
    }
}

// The table with other region places.
fn with_places(t: Table, r: Regions) -> Table
    ensures { result ≡ with_places t r }
{
    let pieces = t.pieces;
    let regions = r.list;
    Table {
        pieces,
        used: t.used,
        regions,
        granted: r.count,
    }
}

// A region more, behind the others.
fn grant_region(t: Table, start: u16, length: u16) -> Reply
    requires { t.granted < places }
    ensures { result ≡ granting t start length }
{
    let next = memory_regions::add(t.regions(), Span { start, length });
    let table = with_places(t, next);
    done(table, start, length)
}

// 53: the longest free run, at most the length asked.
fn longest_run(t: Table, mcb: Mcb) -> Reply
    requires { Ready t }
    ensures { result ≡ longest_run_of t mcb }
{
    let asked = usize::from(mcb.length);
    let k = memory_room::longest(t.pieces(), t.regions());
    if (asked == 0) | (k == 0) {
        return refuse(Refusal::NoRoom, t, mcb);
    }
    let start = memory_room::lowest_start(t.pieces(), t.regions(), k);
    let length = k.min(asked);
    done(t, start as u16, length as u16)
}

// Is there room for the region that the block names?
fn has_room(t: Table, mcb: Mcb) -> bool
    requires { Ready t }
    ensures { result ≡ has_room (pieces_of t) (regions_of t) mcb.length mcb.base }
{
    memory_spans::has_room(
        t.pieces(),
        t.regions(),
        usize::from(mcb.length),
        usize::from(mcb.base),
    )
}

// 54: is the region asked free?
fn test_region(t: Table, mcb: Mcb) -> Reply
    requires { Ready t }
    ensures { result ≡ tested t mcb }
{
    if has_room(t, mcb) {
        return done(t, mcb.base, mcb.length);
    }
    refuse(Refusal::NoRoom, t, mcb)
}

// 55: the region asked, at the lowest start with room.
fn grant(t: Table, mcb: Mcb) -> Reply
    requires { Ready t }
    ensures { result ≡ granted t mcb }
{
    if PLACES <= t.granted {
        return refuse(Refusal::NoPlace, t, mcb);
    }
    let start = memory_room::lowest_start(t.pieces(), t.regions(), usize::from(mcb.length));
    if PARAGRAPHS <= start {
        return refuse(Refusal::NoRoom, t, mcb);
    }
    grant_region(t, start as u16, mcb.length)
}

// 56: the region asked, where it is asked.
fn grant_at(t: Table, mcb: Mcb) -> Reply
    requires { Ready t }
    ensures { result ≡ granted_at t mcb }
{
    if PLACES <= t.granted {
        return refuse(Refusal::NoPlace, t, mcb);
    }
    if has_room(t, mcb) {
        return grant_region(t, mcb.base, mcb.length);
    }
    refuse(Refusal::NoRoom, t, mcb)
}

// 57: all regions where M-Ext says so, else a region or its start or end.
fn free(t: Table, mcb: Mcb) -> Reply
    requires { Ready t }
    ensures { result ≡ freeing t mcb }
{
    if mcb.ext == EVERY {
        let table = with_places(t, memory_regions::empty());
        return done(table, mcb.base, mcb.length);
    }
    free_part(t, mcb)
}

// A region or its start or end.
fn free_part(t: Table, mcb: Mcb) -> Reply
    requires { Ready t }
    ensures { result ≡ freeing_part t mcb }
{
    let part = Span {
        start: mcb.base,
        length: mcb.length,
    };
    if mcb.length == 0 {
        return refuse(Refusal::BadFree, t, mcb);
    }
    let Some(at) = memory_regions::first_edge(t.regions(), part) else {
        return refuse(Refusal::BadFree, t, mcb);
    };
    let table = with_places(t, memory_regions::free_at(t.regions(), part, at));
    done(table, mcb.base, mcb.length)
}

// 58: all regions.
fn free_all(t: Table, mcb: Mcb) -> Reply
    ensures { result ≡ free_all t mcb }
{
    let table = with_places(t, memory_regions::empty());
    Reply {
        answer: Ok(()),
        table,
        mcb,
    }
}

// The call of that number on a table within the rules.
#[tactic(auto, unfolding(crate::specs::Calls::serve))]
fn serve(function: u8, t: Table, mcb: Mcb) -> Reply
    requires { Ready t }
    ensures { result ≡ serve function t mcb }
{
    match function {
        GET_MAX_MEM => longest_run(t, mcb),
        GET_ABS_MAX => test_region(t, mcb),
        ALLOC_MEM => grant(t, mcb),
        ALLOC_ABS_MEM => grant_at(t, mcb),
        FREE_MEM => free(t, mcb),
        _ => free_all(t, mcb),
    }
}

// A memory call in a memory of so many bytes.
pub fn memory_call(function: u8, bytes: usize, t: Table, mcb: Mcb) -> Reply
    ensures { result ≡ memory_call function bytes t mcb }
{
    if (GET_MAX_MEM <= function) & (function <= FREE_ALL_MEM) {
        if is_within_rules(bytes, t) {
            return serve(function, t, mcb);
        }
        return refuse(Refusal::Rules, t, mcb);
    }
    refuse(Refusal::NotServed, t, mcb)
}
