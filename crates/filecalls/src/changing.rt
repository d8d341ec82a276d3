// The drive's calls that change a volume: each takes the state and hands it back. The call is done by the state's front with stores
// enough, and the held blocks are lent to it where it takes or frees one.
ghost use Rattle.std.specs.Prelude.{◌≡◌, []};
ghost use Rattle.filecalls.specs.Outcome.{left};
ghost use Rattle.filecalls.specs.Leaves.{delete_leaves, make_leaves, rename_leaves, attributes_leave, write_sequential_leaves, write_random_leaves, write_zero_fill_leaves};

use crate::{Drive, ENOUGH, Reply};

impl Drive {
    // Function 19: every matching entry is gone, and its blocks are free.
    pub fn delete(self, volume: &mut [u8], fcb: &[u8]) -> Reply
        ensures { left result volume.new fcb.now []
            ≡ delete_leaves self volume.old fcb.now }
    {
        let mut held = self.held;
        let mut left = ENOUGH;
        let reply = self.front().delete_most(&mut held, volume, fcb, &mut left);
        reply.joined(held)
    }

    // Function 22: the lowest empty slot gets the file's first entry.
    pub fn make(self, volume: &mut [u8], fcb: &mut [u8]) -> Reply
        ensures { left result volume.new fcb.new []
            ≡ make_leaves self volume.old fcb.old }
    {
        let mut left = ENOUGH;
        self.front()
            .make_most(volume, fcb, &mut left)
            .joined(self.held)
    }

    // Function 23: all entries of the file take the new name.
    pub fn rename(self, volume: &mut [u8], fcb: &[u8]) -> Reply
        ensures { left result volume.new fcb.now []
            ≡ rename_leaves self volume.old fcb.now }
    {
        let mut left = ENOUGH;
        self.front()
            .rename_most(volume, fcb, &mut left)
            .joined(self.held)
    }

    // Function 30: all entries of the file take the control block's attribute bits.
    pub fn set_attributes(self, volume: &mut [u8], fcb: &[u8]) -> Reply
        ensures { left result volume.new fcb.now []
            ≡ attributes_leave self volume.old fcb.now }
    {
        let mut left = ENOUGH;
        self.front()
            .attributes_most(volume, fcb, &mut left)
            .joined(self.held)
    }

    // Function 21: writes at the sequential position, and moves it on.
    pub fn write_sequential(self, volume: &mut [u8], fcb: &mut [u8], buffer: &[u8]) -> Reply
        ensures { left result volume.new fcb.new buffer.now
            ≡ write_sequential_leaves self volume.old fcb.old buffer.now }
    {
        let mut held = self.held;
        let mut left = ENOUGH;
        let reply = self
            .front()
            .write_sequential_most(&mut held, volume, fcb, buffer, &mut left);
        reply.joined(held)
    }

    // Function 34: writes the record in r0 r1.
    pub fn write_random(self, volume: &mut [u8], fcb: &mut [u8], buffer: &[u8]) -> Reply
        ensures { left result volume.new fcb.new buffer.now
            ≡ write_random_leaves self volume.old fcb.old buffer.now }
    {
        let mut held = self.held;
        let mut left = ENOUGH;
        let reply = self
            .front()
            .write_direct_most(&mut held, volume, fcb, buffer, false, &mut left);
        reply.joined(held)
    }

    // Function 40: the same, and a block that the record's place is given is first filled with zeros.
    pub fn write_zero_fill(self, volume: &mut [u8], fcb: &mut [u8], buffer: &[u8]) -> Reply
        ensures { left result volume.new fcb.new buffer.now
            ≡ write_zero_fill_leaves self volume.old fcb.old buffer.now }
    {
        let mut held = self.held;
        let mut left = ENOUGH;
        let reply = self
            .front()
            .write_direct_most(&mut held, volume, fcb, buffer, true, &mut left);
        reply.joined(held)
    }
}
