// The image of each group, laid at the start of its region.
ghost use Rattle.std.specs.Prelude.{◌≡◌, ◌+◌, ◌*◌, ◌≤◌, ◌<◌, length};
ghost use Rattle.lists.specs.Bounded.{fold};
ghost use Rattle.disk_geometry.specs.Geometry.{record_bytes};
ghost use Rattle.call_fcb.specs.Fcb.{fcb_bytes};
ghost use Rattle.memory_spans.specs.Span.{paragraph_bytes};
ghost use Rattle.lists.specs.Bytes.{put};
ghost use Rattle.load_header.specs.Header.{descriptors, length_at, image_start};
ghost use Rattle.load_records.specs.Records.{image_records, image};
ghost use Rattle.load_records.specs.CodeReading.{bare};
ghost use Rattle.loading.specs.Laid.{group_image, group_laid};
ghost use Rattle.loading.specs.CodeLoad.{Held};

use filecalls::Front;
use memory_spans::{PARAGRAPH_BYTES, Span};

// Lays the image of group i at the start of its region s.
fn lay_group(
    front: Front,
    volume: &[u8],
    fcb: &[u8],
    h: &[u8],
    i: usize,
    s: Span,
    memory: &mut [u8],
)
    requires fcb_len { (length fcb.now ≡ fcb_bytes) × (i < descriptors) }
    requires i_in_bounds { (paragraph_bytes * s.start + paragraph_bytes * length_at h.now i ≤ length memory.old)
        × (paragraph_bytes * image_start h.now i + paragraph_bytes * length_at h.now i ≤ record_bytes * image_records (bare front) volume.now fcb.now) }
    ensures { memory.new
        ≡ put memory.old (paragraph_bytes * s.start) (paragraph_bytes * length_at h.now i)
        (group_image h.now (image (bare front) volume.now fcb.now) i) }
{
    let from = PARAGRAPH_BYTES * load_header::image_start(h, i);
    let at = PARAGRAPH_BYTES * usize::from(s.start);
    let to = at + PARAGRAPH_BYTES * load_header::length_at(h, i);
    load_records::lay_image(front, volume, fcb, from, &mut memory[at..to]);
}

// Lays the images of the groups into the regions that they were granted.
pub(crate) fn lay_groups(
    front: Front,
    volume: &[u8],
    fcb: &[u8],
    h: &[u8],
    granted: &[Span],
    memory: &mut [u8],
)
    requires fcb_len { (length fcb.now ≡ fcb_bytes) × (length granted.now ≤ descriptors) }
    requires held { Held h.now granted.now (length memory.old) (length granted.now)
        × (paragraph_bytes * image_start h.now (length granted.now) ≤ record_bytes * image_records (bare front) volume.now fcb.now) }
    ensures { memory.new
        ≡ fold (group_laid h.now granted.now (image (bare front) volume.now fcb.now))
        memory.old 0 (length granted.now) }
{
    for (i, s) in granted.iter().enumerate() {
        lay_group(front, volume, fcb, h, i, *s, memory);
    }
}
