// The records that a run has changed, appended to a lent buffer.
ghost use Rattle.std.specs.Prelude.{◌≡◌, ◌-◌};
ghost use Rattle.text.specs.Writer.{Appends};
ghost use Rattle.replay_transcript.specs.Records.{record_of, records_of, changed_line, record_line, record_lines};

use crate::hex;
use disk_geometry::Geometry;
use text::Writer;

// How many records a volume of n bytes has; a shorter last piece counts as one.
pub fn records_of(n: usize) -> usize
    ensures { result ≡ records_of n }
{
    n.div_ceil(Geometry::RECORD_BYTES)
}

// Record q of a volume: the last one may be shorter, and there is nothing behind it.
fn record(s: &[u8], q: usize) -> &[u8]
    ensures { result.now ≡ record_of s.now q }
{
    if s.len() / Geometry::RECORD_BYTES < q {
        return &s[s.len()..];
    }
    let rest = &s[Geometry::RECORD_BYTES * q..];
    &rest[..rest.len().min(Geometry::RECORD_BYTES)]
}

// A changed record.
fn put_changed(w: &mut Writer<'_>, q: usize, s: &[u8])
    ensures { Appends w.old (changed_line q s.now) w.new }
{
    w.bytes(b"RECORD ");
    w.decimal(q);
    w.byte(b' ');
    hex::put_hex(w, s);
    w.byte(b'\n');
}

// Record q, where it has changed.
fn put_record(w: &mut Writer<'_>, given: &[u8], volume: &[u8], q: usize)
    ensures { Appends w.old (record_line given.now volume.now q) w.new }
{
    let was = record(given, q);
    let is = record(volume, q);
    if was != is {
        put_changed(w, q, is);
    }
}

// The records from `from` to before `to`.
pub fn put_records(w: &mut Writer<'_>, given: &[u8], volume: &[u8], from: usize, to: usize)
    ensures { Appends w.old (record_lines given.now volume.now from (to - from)) w.new }
{
    for q in from..to {
        put_record(w, given, volume, q);
    }
}
