// The records that a plan file lists: pagoda channels, rows, nodes and closures.
ghost use Rattle.std.specs.Prelude.{refl, ◌≡◌, ◌++◌, is_ok, if◌then◌else◌};
ghost use Rattle.format.specs.Items.{Item, kind, size, body, part, channel, row, node, closure, bytes as written, Stood};

use codec::record::*;
use codec::scan::{append_record, read_record};
use records::fault::*;
use records::kinds::*;
use std::alloc::AllocError;

// What stands in a list of a plan file: a record of one kind, or a node, which has a record of one of two kinds.
pub trait Listed: Sized {
    // which record it is
    ghost item: { Self → Item };

    // The one that begins at `at`, with the place where the next record begins, or `None` where none begins there.
    fn read_at(bytes: &[u8], at: usize) -> Result<Option<(Self, usize)>, Fault>
        ensures finds { Stood item bytes.now at result };

    // Appends its bytes, or nothing where there is no memory for them.
    fn append_to(&self, out: &mut Vec<u8>) -> Result<(), AllocError>
        ensures appends_all_or_nothing { out.new.items ≡ (if is_ok result then out.old.items ++ written (item self.now) else out.old.items) };
}

// A record that stands in a list by itself: a pagoda channel, a row or a closure.
pub trait Lone: Record {
    // which record it is
    ghost lone: { Self → Item };

    // one of its kind
    ghost some: { Self };

    ghost is_coded: { (x : Self) → (kind (lone x) ≡ Self.KIND) × (size (lone x) ≡ Self.LENGTH) × (body (lone x) ≡ Self.body x) };
}

impl Lone for Channel {
    ghost lone = { λ x. part (channel x) };

    ghost some = { record { subchannels = 0 } };

    ghost is_coded = { λ x. (refl, refl, refl) };
}

impl Lone for Row {
    ghost lone = { λ x. part (row x) };

    ghost some = { record { page = 0; channel = 0; start = 0; period = 0 } };

    ghost is_coded = { λ x. (refl, refl, refl) };
}

impl Lone for Closure {
    ghost lone = { λ x. closure x };

    ghost some = { record { channel = 0; slot = 0 } };

    ghost is_coded = { λ x. (refl, refl, refl) };
}

impl<R: Lone> Listed for R {
    ghost item = { R.lone };

    fn read_at(bytes: &[u8], at: usize) -> Result<Option<(R, usize)>, Fault> {
        read_record(bytes, at)
    }

    fn append_to(&self, out: &mut Vec<u8>) -> Result<(), AllocError> {
        append_record(self, out)
    }
}

impl Listed for Node {
    ghost item = { λ x. part (node x) };

    fn read_at(bytes: &[u8], at: usize) -> Result<Option<(Node, usize)>, Fault> {
        if let Some((leaf, next)) = read_record(bytes, at)? {
            return Ok(Some((Node::Leaf(leaf), next)));
        }
        Ok(read_record(bytes, at)?.map(|(inner, next)| (Node::Inner(inner), next)))
    }

    fn append_to(&self, out: &mut Vec<u8>) -> Result<(), AllocError> {
        match self {
            Node::Leaf(leaf) => append_record(leaf, out),
            Node::Inner(inner) => append_record(inner, out),
        }
    }
}
