// What no clause says: that reads go on until the buffer is full, and what a read that fails leaves.
use crate::read_full;
use std::io;
use std::io::{ErrorKind, Read};

// Gives two bytes a read, and fails at the third.
#[derive(Drop)]
struct Failing {
    reads: u8,
}

impl Read for Failing {
    fn read(&mut self, buf: &mut [u8]) -> io::Result<usize> {
        if self.reads >= 2 {
            return Err(io::Error::from(ErrorKind::PermissionDenied));
        }
        self.reads += 1;
        if buf.len() < 2 {
            return Ok(0);
        }
        buf[0] = b'a';
        buf[1] = b'b';
        Ok(2)
    }
}

#[test]
fn fills_the_buffer_and_leaves_the_rest(rt: HostRuntime) {
    let mut from: &[u8] = b"abcde";
    let mut buf = [0u8; 3];
    assert_eq!(rt; read_full(&mut from, &mut buf), 3);
    assert!(rt; buf == *b"abc");
    assert_eq!(rt; read_full(&mut from, &mut buf), 2);
    assert!(rt; buf == *b"dec");
    assert_eq!(rt; read_full(&mut from, &mut buf), 0);
}

#[test]
fn a_read_that_fails_ends_the_reading(rt: HostRuntime) {
    let mut from = Failing { reads: 0 };
    let mut buf = [0u8; 8];
    assert_eq!(rt; read_full(&mut from, &mut buf), 4);
    assert!(rt; buf == *b"abab\0\0\0\0");
    assert_eq!(rt; read_full(&mut from, &mut buf), 0);
}
