// The drive's state by value: the closed one, its front, and a reply with the held blocks beside it.
ghost use Rattle.std.specs.Prelude.{◌≡◌};
ghost use Rattle.filecalls.specs.State.{closed};
ghost use Rattle.filecalls.specs.CodeFront.{front_of, joined_reply};

use crate::{Drive, Front, FrontReply, KeptSearch, Reply};
use call_search::{PATTERN_BYTES, SearchKind};
use disk_geometry::Geometry;
use disk_held::WORDS;

impl Drive {
    // The closed state.
    pub fn closed() -> Drive
        ensures { result ≡ closed }
    {
        Drive {
            geometry: Geometry {
                block_bytes: 0,
                blocks: 0,
                directory_blocks: 0,
                placing: Geometry::STRAIGHT,
            },
            user: 0,
            protected: false,
            search: KeptSearch {
                kind: SearchKind::Nothing,
                user: 0,
                last: 0,
                pattern: [0u8; PATTERN_BYTES],
            },
            held: [0u64; WORDS],
        }
    }

    // All but the held blocks.
    pub fn front(self) -> Front
        ensures { result ≡ front_of self }
    {
        Front {
            geometry: self.geometry,
            user: self.user,
            protected: self.protected,
            search: self.search,
        }
    }
}

impl FrontReply {
    // The reply with the held blocks beside it.
    pub fn joined(self, held: [u64; WORDS]) -> Reply
        ensures { result ≡ joined_reply self held }
    {
        Reply {
            answer: self.answer,
            drive: Drive {
                geometry: self.front.geometry,
                user: self.front.user,
                protected: self.front.protected,
                search: self.front.search,
                held,
            },
        }
    }
}
