// A file's records and its size, as the file calls show them: whether all of it can be read, and its image.
#![tactic(auto)]

ghost use Rattle.std.specs.Prelude.{◌≡◌, ◌+◌, ◌-◌, ◌*◌, ◌≤◌, ◌<◌, min, length, replicate};
ghost use Rattle.lists.specs.Bytes.{part};
ghost use Rattle.disk_geometry.specs.Geometry.{record_bytes};
ghost use Rattle.numbers.specs.Numbers.{three};
ghost use Rattle.call_fcb.specs.Fcb.{R0, fcb_bytes};
ghost use Rattle.load_records.specs.Records.{unread, record_of, unsized, records, first_from, image_records, image};
ghost use Rattle.load_records.specs.CodeReading.{bare, short_why, AllRead, RestRead};

use call_answers::Refusal;
use call_fcb::{FCB_BYTES, R0, R2};
use disk_geometry::Geometry;
use filecalls::Front;

// What reading a file to its end found: why it was refused, and how many records the file has.
#[derive(Clone, Copy)]
pub struct Seen {
    pub why: Refusal,
    pub records: usize,
}

// Reads with a control block of a wrong length, which is refused whatever its bytes are.
fn show_short(front: Front, volume: &[u8], buffer: &mut [u8]) -> Refusal
    requires { length buffer.old ≡ record_bytes }
    ensures { (result ≡ short_why (bare front) volume.now) × (buffer.new ≡ replicate record_bytes 0) }
{
    let mut short = [0u8; 1];
    buffer.fill(0);
    let r = front.read_random(volume, &mut short, buffer);
    call_answers::why_of(r.answer)
}

// The number in r0 r1 r2.
fn random_of(fcb: &[u8]) -> usize
    ensures { (result ≡ three fcb.now R0) × (result < 16777216) }
{
    numbers::two_at(fcb, R0) + 65536 * usize::from(numbers::byte_at(fcb, R2))
}

// A file: what each of its reads is lent. Its control block is whole.
#[derive(Clone, Copy)]
struct File<'a> {
    front: Front,
    volume: &'a [u8],
    fcb: &'a [u8],
    ghost whole: { length fcb.now ≡ fcb_bytes },
}

impl<'a> File<'a> {
    // The file's size in records.
    fn measure(&self) -> Seen
        ensures { (result.why ≡ unsized (bare self.now.front) self.now.volume.now self.now.fcb.now)
            × ((result.records ≡ records (bare self.now.front) self.now.volume.now self.now.fcb.now)
            × (result.records < 16777216)) }
    {
        let mut copy = [0u8; FCB_BYTES];
        copy.copy_from_slice(self.fcb);
        let r = self.front.file_size(self.volume, &mut copy);
        let why = call_answers::why_of(r.answer);
        Seen {
            why,
            records: random_of(&copy),
        }
    }

    // Why one of the records from record 1 on, below so many, can't be read.
    fn why_unread(&self, records: usize) -> Refusal
        requires { records < 16777216 }
        ensures { result
            ≡ first_from (unread (bare self.now.front) self.now.volume.now self.now.fcb.now) 1 (records - 1) }
    {
        let mut buffer = [0u8; Geometry::RECORD_BYTES];
        for n in 1..records {
            let why = record_reads::show(self.front, self.volume, self.fcb, n, &mut buffer);
            if !call_answers::is_none(why) {
                return why;
            }
        }
        Refusal::None
    }

    // The size, and each record below it but record 0.
    fn read_rest(&self) -> Seen
        ensures { RestRead (bare self.now.front) self.now.volume.now self.now.fcb.now result }
    {
        let sized = self.measure();
        if !call_answers::is_none(sized.why) {
            return sized;
        }
        Seen {
            why: self.why_unread(sized.records),
            records: sized.records,
        }
    }

    // Lays the bytes of record n from `from` on into out.
    fn lay_record(&self, n: usize, from: usize, out: &mut [u8])
        requires { (n < 16777216) × (from + length out.old ≤ record_bytes) }
        ensures { out.new
            ≡ part (record_of (bare self.now.front) self.now.volume.now self.now.fcb.now n) from (length out.old) }
    {
        let mut buffer = [0u8; Geometry::RECORD_BYTES];
        record_reads::show(self.front, self.volume, self.fcb, n, &mut buffer);
        let to = from + out.len();
        out.copy_from_slice(&buffer[from..to]);
    }
}

// Reads the file to its end: record 0 into the header, the size, and each record below it.
pub fn read_all(front: Front, volume: &[u8], fcb: &[u8], header: &mut [u8]) -> Seen
    requires { length header.old ≡ record_bytes }
    ensures { AllRead (bare front) volume.now fcb.now header.new result }
{
    if fcb.len() != FCB_BYTES {
        let why = show_short(front, volume, header);
        return Seen { why, records: 0 };
    }
    let file = File { front, volume, fcb };
    let first = record_reads::show(front, volume, fcb, 0, header);
    if !call_answers::is_none(first) {
        return Seen {
            why: first,
            records: 0,
        };
    }
    file.read_rest()
}

// Lays the bytes of the image from `from` on into out, a record, or what is wanted of it, at a time.
pub fn lay_image(front: Front, volume: &[u8], fcb: &[u8], from: usize, out: &mut [u8])
    requires fcb_len { length fcb.now ≡ fcb_bytes }
    requires out_bound { (from + length out.old ≤ record_bytes * image_records (bare front) volume.now fcb.now) × (from + length out.old < 2147483520) }
    ensures { out.new ≡ part (image (bare front) volume.now fcb.now) from (length out.old) }
{
    let file = File { front, volume, fcb };
    let mut at = 0;
    // No for: the steps differ, as the first and the last record may be asked for in part.
    while at < out.len() {
        let place = from + at;
        let within = place % Geometry::RECORD_BYTES;
        let k = (Geometry::RECORD_BYTES - within).min(out.len() - at);
        let to = at + k;
        file.lay_record(place / Geometry::RECORD_BYTES + 1, within, &mut out[at..to]);
        at = to;
    }
}
