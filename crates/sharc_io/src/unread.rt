//! Bytes in memory that are read from the front.

ghost use Rattle.std.specs.Prelude.{◌≡◌, length, min, take, drop};

use std::marker::Model;

/// Bytes of which a front part has been read. A contract sees those that are left.
#[derive(Debug, Drop)]
pub(crate) struct Unread {
    bytes: Vec<u8>,
    read: usize,
}

impl Model for Unread {
    ghost use Rattle.std.specs.Prelude.{ℕ, List, drop, vec_len, ◌≤◌};

    ghost Value = { List ℕ };

    ghost view = { λ u. drop u.read u.bytes.items };

    ghost invariant = { λ u. u.read ≤ vec_len u.bytes };
}

impl Unread {
    /// All of these bytes are left.
    pub(crate) fn new(bytes: Vec<u8>) -> Self
        ensures { result ≡ bytes.items }
    {
        Unread { bytes, read: 0 }
    }

    /// Moves as many bytes as there are, and as the buffer has room for, to the front of the buffer.
    pub(crate) fn give(&mut self, buf: &mut [u8]) -> usize
        ensures count { result ≡ min (length buf.old) (length self.old) }
        ensures given { take result buf.new ≡ take result self.old }
        ensures left { self.new ≡ drop result self.old }
    {
        let count = copy_front(&self.bytes[self.read..], buf);
        self.read += count;
        count
    }
}

// Copies as many bytes as there are, and as the buffer has room for, to the front of the buffer.
fn copy_front(bytes: &[u8], buf: &mut [u8]) -> usize
    ensures count { result ≡ min (length buf.old) (length bytes.now) }
    ensures copied { take result buf.new ≡ take result bytes.now }
{
    let count = buf.len().min(bytes.len());
    buf[..count].copy_from_slice(&bytes[..count]);
    count
}
