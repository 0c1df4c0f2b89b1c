// Records as bytes: a kind byte, then a body of a fixed length, its numbers highest byte first.
ghost use Rattle.std.specs.Prelude.{◌≡◌, ℕ, ◌≤◌, List, [], ◌++◌, length, is_ok, if◌then◌else◌, MatchOption, ◌≢◌};
ghost use Rattle.records.specs.Bytes.{two, four, film_body, channel_body, row_body, leaf_body, inner_body, closure_body};
ghost use Rattle.std.proofs.Common.{rules};

use records::kinds::*;
use std::alloc::AllocError;

// Kept so: two functions, since `to_be_bytes` is no method of a trait, and without them the check does not see that the format's n / 256 is its n / 256 % 256.
fn bytes_of_u16(n: u16) -> [u8; 2]
    ensures highest_byte_first { result ≡ two n }
{
    n.to_be_bytes()
}

fn bytes_of_u32(n: u32) -> [u8; 4]
    ensures highest_byte_first { result ≡ four n }
{
    n.to_be_bytes()
}

// One kind of record.
pub trait Record: Sized {
    // the kind byte
    const KIND: u8;

    ghost KIND: { ℕ };

    // the length of a body
    const LENGTH: usize;

    ghost LENGTH: { ℕ };

    // the bytes of a record's body
    ghost body: { Self → List ℕ };

    // The record with this body, where the body has the right length.
    fn from_body(bytes: &[u8]) -> Option<Self>
        ensures has_body { MatchOption result (length bytes.now ≢ LENGTH) (λ x. body x ≡ bytes.now) };

    // Appends the body, or nothing where there is no memory for it.
    fn append_body(&self, out: &mut Vec<u8>) -> Result<(), AllocError>
        ensures appends_all_or_nothing { out.new.items ≡ (if is_ok result then out.old.items ++ body self.now else out.old.items) };

    ghost small: { LENGTH ≤ 255 };

    ghost sized: { (x : Self) → length (body x) ≡ LENGTH };

    ghost apart: { (x y : Self) → body x ≡ body y → x ≡ y };
}

impl Record for Film {
    const KIND: u8 = 1;

    const LENGTH: usize = 5;

    ghost KIND = { 1 };

    ghost LENGTH = { 5 };

    ghost body = { film_body };

    ghost small = { Prim.search rules };

    ghost sized = { Prim.search rules };

    ghost apart = { Prim.search rules };

    fn from_body(bytes: &[u8]) -> Option<Film> {
        let &[m0, m1, n0, n1, channels] = bytes else {
            return None;
        };
        let delay = u16::from_be_bytes([m0, m1]);
        let pages = u16::from_be_bytes([n0, n1]);
        Some(Film {
            delay,
            pages,
            channels,
        })
    }

    fn append_body(&self, out: &mut Vec<u8>) -> Result<(), AllocError> {
        let [m0, m1] = bytes_of_u16(self.delay);
        let [n0, n1] = bytes_of_u16(self.pages);
        out.extend_from_slice(&[m0, m1, n0, n1, self.channels])
    }
}

impl Record for Channel {
    const KIND: u8 = 2;

    const LENGTH: usize = 1;

    ghost KIND = { 2 };

    ghost LENGTH = { 1 };

    ghost body = { channel_body };

    ghost small = { Prim.search rules };

    ghost sized = { Prim.search rules };

    ghost apart = { Prim.search rules };

    fn from_body(bytes: &[u8]) -> Option<Channel> {
        let &[subchannels] = bytes else {
            return None;
        };
        Some(Channel { subchannels })
    }

    fn append_body(&self, out: &mut Vec<u8>) -> Result<(), AllocError> {
        out.extend_from_slice(&[self.subchannels])
    }
}

impl Record for Row {
    const KIND: u8 = 3;

    const LENGTH: usize = 11;

    ghost KIND = { 3 };

    ghost LENGTH = { 11 };

    ghost body = { row_body };

    ghost small = { Prim.search rules };

    ghost sized = { Prim.search rules };

    ghost apart = { Prim.search rules };

    fn from_body(bytes: &[u8]) -> Option<Row> {
        let &[p0, p1, channel, s0, s1, s2, s3, q0, q1, q2, q3] = bytes else {
            return None;
        };
        let page = u16::from_be_bytes([p0, p1]);
        let start = u32::from_be_bytes([s0, s1, s2, s3]);
        let period = u32::from_be_bytes([q0, q1, q2, q3]);
        Some(Row {
            page,
            channel,
            start,
            period,
        })
    }

    fn append_body(&self, out: &mut Vec<u8>) -> Result<(), AllocError> {
        let [p0, p1] = bytes_of_u16(self.page);
        let [s0, s1, s2, s3] = bytes_of_u32(self.start);
        let [q0, q1, q2, q3] = bytes_of_u32(self.period);
        out.extend_from_slice(&[p0, p1, self.channel, s0, s1, s2, s3, q0, q1, q2, q3])
    }
}

impl Record for Leaf {
    const KIND: u8 = 4;

    const LENGTH: usize = 2;

    ghost KIND = { 4 };

    ghost LENGTH = { 2 };

    ghost body = { leaf_body };

    ghost small = { Prim.search rules };

    ghost sized = { Prim.search rules };

    ghost apart = { Prim.search rules };

    fn from_body(bytes: &[u8]) -> Option<Leaf> {
        let &[p0, p1] = bytes else {
            return None;
        };
        let page = u16::from_be_bytes([p0, p1]);
        Some(Leaf { page })
    }

    fn append_body(&self, out: &mut Vec<u8>) -> Result<(), AllocError> {
        out.extend_from_slice(&bytes_of_u16(self.page))
    }
}

impl Record for Inner {
    const KIND: u8 = 5;

    const LENGTH: usize = 4;

    ghost KIND = { 5 };

    ghost LENGTH = { 4 };

    ghost body = { inner_body };

    ghost small = { Prim.search rules };

    ghost sized = { Prim.search rules };

    ghost apart = { Prim.search rules };

    fn from_body(bytes: &[u8]) -> Option<Inner> {
        let &[a0, a1, d0, d1] = bytes else {
            return None;
        };
        let first_child = u16::from_be_bytes([a0, a1]);
        let degree = u16::from_be_bytes([d0, d1]);
        Some(Inner {
            first_child,
            degree,
        })
    }

    fn append_body(&self, out: &mut Vec<u8>) -> Result<(), AllocError> {
        let [a0, a1] = bytes_of_u16(self.first_child);
        let [d0, d1] = bytes_of_u16(self.degree);
        out.extend_from_slice(&[a0, a1, d0, d1])
    }
}

impl Record for Closure {
    const KIND: u8 = 6;

    const LENGTH: usize = 5;

    ghost KIND = { 6 };

    ghost LENGTH = { 5 };

    ghost body = { closure_body };

    ghost small = { Prim.search rules };

    ghost sized = { Prim.search rules };

    ghost apart = { Prim.search rules };

    fn from_body(bytes: &[u8]) -> Option<Closure> {
        let &[channel, s0, s1, s2, s3] = bytes else {
            return None;
        };
        let slot = u32::from_be_bytes([s0, s1, s2, s3]);
        Some(Closure { channel, slot })
    }

    fn append_body(&self, out: &mut Vec<u8>) -> Result<(), AllocError> {
        let [s0, s1, s2, s3] = bytes_of_u32(self.slot);
        out.extend_from_slice(&[self.channel, s0, s1, s2, s3])
    }
}

impl Record for End {
    const KIND: u8 = 0;

    const LENGTH: usize = 0;

    ghost KIND = { 0 };

    ghost LENGTH = { 0 };

    ghost body = { λ _. [] };

    ghost small = { Prim.search rules };

    ghost sized = { Prim.search rules };

    ghost apart = { Prim.search rules };

    fn from_body(bytes: &[u8]) -> Option<End> {
        let &[] = bytes else {
            return None;
        };
        Some(End {})
    }

    fn append_body(&self, _out: &mut Vec<u8>) -> Result<(), AllocError> {
        Ok(())
    }
}
