// Where logical records lie on an eight-inch disk of request (i).
ghost use Rattle.std.specs.Prelude.{◌≡◌, ◌<◌};
ghost use Rattle.disk_geometry.specs.EightInch.{track_records, image_start};

use crate::Geometry;

// 77 tracks of 26 sectors of 128 bytes, the first two reserved.
const TRACKS: usize = 77;

const TRACK_SECTORS: usize = 26;

const RESERVED_TRACKS: usize = 2;

// The length of the image.
pub(crate) const IMAGE_BYTES: usize = TRACKS * TRACK_SECTORS * Geometry::RECORD_BYTES;

// The sector of each place of a track.
const SECTORS: [u8; 26] = [
    1, 7, 13, 19, 25, 5, 11, 17, 23, 3, 9, 15, 21, 2, 8, 14, 20, 26, 6, 12, 18, 24, 4, 10, 16, 22,
];

// Where logical record q begins.
#[tactic(auto, unfolding(crate::specs::EightInch::image_start))]
pub(crate) fn image_start(q: usize) -> usize
    requires { q < track_records }
    ensures { result ≡ image_start q }
{
    let sector = usize::from(SECTORS[q % TRACK_SECTORS]);
    (TRACK_SECTORS * (RESERVED_TRACKS + q / TRACK_SECTORS) + sector - 1) * Geometry::RECORD_BYTES
}
