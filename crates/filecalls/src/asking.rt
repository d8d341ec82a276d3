// The drive's calls that change no volume: each takes the state and hands it back. The call is done by the state's front, with the
// held blocks beside it.
ghost use Rattle.std.specs.Prelude.{◌≡◌, []};
ghost use Rattle.filecalls.specs.Outcome.{left};
ghost use Rattle.filecalls.specs.Leaves.{open_leaves, close_leaves, size_leaves, search_first_leaves, search_next_leaves, read_sequential_leaves, read_random_leaves, protect_leaves, user_leaves, set_random_leaves};

use crate::{Drive, Reply};

impl Drive {
    // Function 15: shows the entry that the control block means.
    pub fn open_file(self, volume: &[u8], fcb: &mut [u8]) -> Reply
        ensures { left result volume.now fcb.new []
            ≡ open_leaves self volume.now fcb.old }
    {
        self.front().open_file(volume, fcb).joined(self.held)
    }

    // Function 16: the group has an entry; nothing is changed.
    pub fn close_file(self, volume: &[u8], fcb: &[u8]) -> Reply
        ensures { left result volume.now fcb.now []
            ≡ close_leaves self volume.now fcb.now }
    {
        self.front().close_file(volume, fcb).joined(self.held)
    }

    // Function 35: the file's size in r0 r1 r2.
    pub fn file_size(self, volume: &[u8], fcb: &mut [u8]) -> Reply
        ensures { left result volume.now fcb.new []
            ≡ size_leaves self volume.now fcb.old }
    {
        self.front().file_size(volume, fcb).joined(self.held)
    }

    // Function 17: starts at slot 0, and keeps pattern and user.
    pub fn search_first(self, volume: &[u8], fcb: &[u8], buffer: &mut [u8]) -> Reply
        ensures { left result volume.now fcb.now buffer.new
            ≡ search_first_leaves self volume.now fcb.now buffer.old }
    {
        self.front()
            .search_first(volume, fcb, buffer)
            .joined(self.held)
    }

    // Function 18: goes on after the last hit.
    pub fn search_next(self, volume: &[u8], buffer: &mut [u8]) -> Reply
        ensures { left result volume.now [] buffer.new
            ≡ search_next_leaves self volume.now buffer.old }
    {
        self.front().search_next(volume, buffer).joined(self.held)
    }

    // Function 20: reads at the sequential position, and moves it on.
    pub fn read_sequential(self, volume: &[u8], fcb: &mut [u8], buffer: &mut [u8]) -> Reply
        ensures { left result volume.now fcb.new buffer.new
            ≡ read_sequential_leaves self volume.now fcb.old buffer.old }
    {
        self.front()
            .read_sequential(volume, fcb, buffer)
            .joined(self.held)
    }

    // Function 33: reads the record in r0 r1.
    pub fn read_random(self, volume: &[u8], fcb: &mut [u8], buffer: &mut [u8]) -> Reply
        ensures { left result volume.now fcb.new buffer.new
            ≡ read_random_leaves self volume.now fcb.old buffer.old }
    {
        self.front()
            .read_random(volume, fcb, buffer)
            .joined(self.held)
    }

    // Function 28: protects the drive until the next log-in.
    pub fn protect(self) -> Reply
        ensures { left result [] [] [] ≡ protect_leaves self }
    {
        self.front().protect().joined(self.held)
    }

    // Function 32: sets the user, or answers the current one for 255.
    pub fn user_code(self, code: u8) -> Reply
        ensures { left result [] [] [] ≡ user_leaves self code }
    {
        self.front().user_code(code).joined(self.held)
    }

    // Function 36: the sequential position in r0 r1 r2.
    pub fn set_random(self, fcb: &mut [u8]) -> Reply
        ensures { left result [] fcb.new [] ≡ set_random_leaves self fcb.old }
    {
        self.front().set_random(fcb).joined(self.held)
    }
}
