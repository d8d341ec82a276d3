// The memory table in 66 lent bytes and the memory control block in five: read from them, laid into them, and a memory call over both.
#![tactic(auto)]

ghost use Rattle.std.specs.Prelude.{◌≡◌, true, cond, ◌&&◌, ◌+◌, ◌*◌, ◌≤◌, ◌<◌, leb, ltb, length, take, get_or};
ghost use Rattle.memory_spans.specs.Span.{places, none};
ghost use Rattle.memory_calls.specs.Calls.{ALLOC_MEM, FREE_ALL_MEM};
ghost use Rattle.memory_bytes.specs.TableBytes.{table_bytes, mcb_bytes, span_bytes, span_at, spans_at, used_in, table_of, mcb_of, span_laid, spans_laid, table_laid, mcb_laid};
ghost use Rattle.memory_bytes.specs.Over.{over, mcb_refused, memory_over};

use memory_calls::{ALLOC_MEM, FREE_ALL_MEM, GET_MAX_MEM, Mcb, Table};
use memory_spans::{PLACES, Span};

// How many bytes a table, a control block and a span have, and where pieces and regions begin.
const TABLE_BYTES: usize = 66;

const MCB_BYTES: usize = 5;

const SPAN_BYTES: usize = 4;

const PIECES: usize = 2;

const REGIONS: usize = 34;

// The answer to a control block of another length.
const MCB_LENGTH: u8 = 34;

// The span at byte a.
fn span_at(b: &[u8], a: usize) -> Span
    requires { a < 1000 }
    ensures { result ≡ span_at b.now a }
{
    let start = numbers::two_at(b, a);
    let length = numbers::two_at(b, a + 2);
    Span {
        start: start as u16,
        length: length as u16,
    }
}

// The eight spans from byte a on.
fn spans_at(b: &[u8], a: usize) -> [Span; PLACES]
    requires { a < 100 }
    ensures { result ≡ spans_at b.now a places }
{
    let mut out = [Span {
        start: 0,
        length: 0,
    }; PLACES];
    for i in 0..PLACES {
        out[i] = span_at(b, a + SPAN_BYTES * i);
    }
    out
}

// How many pieces the bytes name; more than there are places where they are no table.
fn used_in(b: &[u8]) -> usize
    ensures { result ≡ used_in b.now }
{
    if b.len() != TABLE_BYTES {
        return PLACES + 1;
    }
    usize::from(numbers::byte_at(b, 0))
}

// The table in the bytes.
pub fn table_of(b: &[u8]) -> Table
    ensures { result ≡ table_of b.now }
{
    let pieces = spans_at(b, PIECES);
    let regions = spans_at(b, REGIONS);
    Table {
        pieces,
        used: used_in(b),
        regions,
        granted: usize::from(numbers::byte_at(b, 1)),
    }
}

// The control block in the bytes.
fn mcb_of(b: &[u8]) -> Mcb
    ensures { result ≡ mcb_of b.now }
{
    let base = numbers::two_at(b, 0);
    let length = numbers::two_at(b, 2);
    Mcb {
        base: base as u16,
        length: length as u16,
        ext: numbers::byte_at(b, 4),
    }
}

// Lays a span.
fn put_span(out: &mut [u8], s: Span)
    requires { length out.old ≡ span_bytes }
    ensures { out.new ≡ span_laid s }
{
    let [start_low, start_high] = s.start.to_le_bytes();
    let [length_low, length_high] = s.length.to_le_bytes();
    out.copy_from_slice(&[start_low, start_high, length_low, length_high]);
}

// Lays eight places: the spans, and behind them zeros.
fn put_spans(out: &mut [u8], list: &[Span])
    requires { length out.old ≡ span_bytes * places }
    ensures { out.new ≡ spans_laid list.now }
{
    for i in 0..PLACES {
        let s = list.get(i).copied().unwrap_or(Span {
            start: 0,
            length: 0,
        });
        let at = SPAN_BYTES * i;
        put_span(&mut out[at..at + SPAN_BYTES], s);
    }
}

// Lays a table within the rules.
pub fn put_table(out: &mut [u8], t: Table)
    requires { (length out.old ≡ table_bytes) × ((t.used ≤ places) × (t.granted ≤ places)) }
    ensures { out.new ≡ table_laid t }
{
    let numbers = [t.used as u8, t.granted as u8];
    out[..PIECES].copy_from_slice(&numbers);
    put_spans(&mut out[PIECES..REGIONS], t.pieces());
    put_spans(&mut out[REGIONS..TABLE_BYTES], t.regions());
}

// Lays a control block.
fn put_mcb(out: &mut [u8], m: Mcb)
    requires { length out.old ≡ mcb_bytes }
    ensures { out.new ≡ mcb_laid m }
{
    let [base_low, base_high] = m.base.to_le_bytes();
    let [length_low, length_high] = m.length.to_le_bytes();
    out.copy_from_slice(&[base_low, base_high, length_low, length_high, m.ext]);
}

// Is the control block refused by its length? 53 to 57 are lent one.
fn is_mcb_refused(function: u8, mcb: &[u8]) -> bool
    ensures { result ≡ mcb_refused function mcb.now }
{
    (GET_MAX_MEM <= function) & (function < FREE_ALL_MEM) & (mcb.len() != MCB_BYTES)
}

// Lays the control block where a call other than 58 succeeded.
fn lay_mcb(done: bool, function: u8, m: Mcb, mcb: &mut [u8])
    requires { (done && ltb function FREE_ALL_MEM) ≡ true → length mcb.old ≡ mcb_bytes }
    ensures { mcb.new ≡ cond (done && ltb function FREE_ALL_MEM) (mcb_laid m) mcb.old }
{
    if done & (function < FREE_ALL_MEM) {
        put_mcb(mcb, m);
    }
}

// Lays the table where a call that may change it succeeded.
fn lay_table(done: bool, function: u8, t: Table, table: &mut [u8])
    requires { (done && leb ALLOC_MEM function) ≡ true → (length table.old ≡ table_bytes) × ((t.used ≤ places) × (t.granted ≤ places)) }
    ensures { table.new ≡ cond (done && leb ALLOC_MEM function) (table_laid t) table.old }
{
    if done & (ALLOC_MEM <= function) {
        put_table(table, t);
    }
}

// A memory call over bytes, in a memory of so many bytes: its number.
pub fn memory_call(function: u8, mcb: &mut [u8], table: &mut [u8], bytes: usize) -> u8
    ensures { over result mcb.new table.new ≡ memory_over function mcb.old table.old bytes }
{
    if is_mcb_refused(function, mcb) {
        return MCB_LENGTH;
    }
    let t = table_of(table);
    let m = mcb_of(mcb);
    let reply = memory_calls::memory_call(function, bytes, t, m);
    let answer = reply.answer;
    let done = answer.is_ok();
    let next = reply.table;
    let block = reply.mcb;
    lay_mcb(done, function, block, mcb);
    lay_table(done, function, next, table);
    memory_calls::number(answer)
}
