// What a program reads, as far as a buffer has room: up to the input's end, or to the first read that fails.
#![tactic(auto)]

ghost use Rattle.std.specs.Prelude.{take};
ghost use Rattle.std.specs.Io.KnownBytes.{Consumes};
ghost use Rattle.streams.specs.Counts.{IsPrefixLen};

use std::io::Read;

// Reads until buf is full, the input ends or a read fails, and returns how many bytes it put at the start of buf: those, in
// their order, that the reader had left, where these are known. On an empty buf it makes no call.
pub fn read_full<R: Read>(from: &mut R, buf: &mut [u8]) -> usize
    ensures count { IsPrefixLen result buf.new }
    ensures bytes { Consumes (R.remaining from.old) (R.remaining from.new) (take result buf.new) }
{
    let mut done = 0;
    // A `while`: it is no count, each turn goes on behind what a read gave, and ends the loop where that is nothing.
    while done < buf.len() {
        let n = read_some(from, &mut buf[done..]);
        if n == 0 {
            break;
        }
        done += n;
    }
    done
}

// One read; a read that fails gives nothing.
fn read_some<R: Read>(from: &mut R, buf: &mut [u8]) -> usize
    ensures count { IsPrefixLen result buf.new }
    ensures bytes { Consumes (R.remaining from.old) (R.remaining from.new) (take result buf.new) }
{
    match from.read(buf) {
        Ok(n) => n,
        Err(_) => 0,
    }
}

#[cfg(test)]
mod tests;
