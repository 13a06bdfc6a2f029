// SPDX-License-Identifier: Apache-2.0
// Lines, backings and handles as plain data, and how a call changes a line: every method equals a definition.
// Works over the fields of `BufferMut` (src/buffer_mut.rs) and `Buffer` (src/buffer.rs) of vortex-buffer 0.90.0.
ghost use Rattle.std.specs.Prelude.{◌≡◌, Some, nat_le};
ghost use Rattle.model.specs.Book.{agrees, blank, block_of, one_backing};
ghost use Rattle.model.specs.Effects.{with_len, with_state, with_serial, with_backing, with_claim, regrouped, frozen, made_as, empty_line, unbacked_line, block_left, backing_in, relocated, shortened, shared_with};

use allocation::alignment::DEFAULT_ALIGNMENT;
use allocation::block::Block;

// An element kind, as a store sees it: the bytes of an element, and what its address is a multiple of.
#[derive(Clone, Copy, PartialEq, Eq)]
pub struct Kind {
    pub width: usize,
    pub align: usize,
}

// What a handle stands on: nothing; a backing without a block, with its number; a block.
// The number is the serial of the first handle that came to share the backing; there is none while it has had one handle.
#[derive(Clone, Copy)]
pub enum Backing {
    Unbacked,
    Empty(Option<u32>),
    Owned(Block),
}

impl Backing {
    // The backing of a new handle, on the block that was got.
    pub fn new(got: Option<Block>) -> Backing
        ensures { result ≡ backing_in got }
    {
        match got {
            Some(block) => Backing::Owned(block),
            None => Backing::Empty(None),
        }
    }

    // The block, if there is one.
    #[tactic(auto, unfolding(crate::specs::Book::block_of))]
    pub fn block(self) -> Option<Block>
        ensures { result ≡ block_of self }
    {
        match self {
            Backing::Owned(block) => Some(block),
            _ => None,
        }
    }

    // Whether handles with this backing and the other are on one backing.
    pub fn is_one_with(self, other: Backing) -> bool
        ensures { result ≡ one_backing self other }
    {
        match (self, other) {
            (Backing::Empty(m), Backing::Empty(n)) => m.is_some() && m == n,
            (Backing::Owned(b), Backing::Owned(c)) => b.is(c),
            _ => false,
        }
    }

    // The backing as the handle of a serial comes to share it: an empty one without a number takes the serial.
    pub fn shared_with(self, serial: u32) -> Backing
        ensures { result ≡ shared_with serial self }
    {
        match self {
            Backing::Empty(number) => Backing::Empty(number.or(Some(serial))),
            backing => backing,
        }
    }
}

// What the book holds of a live handle. The start is an address; length and capacity count elements.
// A shared line has capacity 0, and no `Option`: its state is compared with a handle's in every call, and its capacity is added and multiplied.
#[derive(Clone, Copy)]
pub struct Line {
    pub serial: u32,
    pub mutable: bool,
    pub kind: Kind,
    pub backing: Backing,
    pub start: usize,
    pub len: usize,
    pub capacity: usize,
    pub claim: usize,
}

impl Default for Line {
    // A line that is no handle's. A derived one would have a kind of no bytes and a claim of 0.
    #[tactic(auto, unfolding(crate::specs::Book::blank))]
    fn default() -> Line
        ensures { result ≡ blank }
    {
        Line {
            serial: 1,
            mutable: false,
            kind: Kind { width: 1, align: 1 },
            backing: Backing::Unbacked,
            start: 0,
            len: 0,
            capacity: 0,
            claim: 1,
        }
    }
}

impl Line {
    // A mutable line without a block.
    pub fn empty(serial: u32, kind: Kind, claim: usize) -> Line
        ensures { result ≡ empty_line serial kind claim }
    {
        Line {
            serial,
            mutable: true,
            kind,
            backing: Backing::Empty(None),
            start: claim.max(DEFAULT_ALIGNMENT),
            len: 0,
            capacity: 0,
            claim,
        }
    }

    // A shared line without a backing.
    pub fn unbacked(serial: u32, kind: Kind, claim: usize) -> Line
        ensures { result ≡ unbacked_line serial kind claim }
    {
        Line {
            serial,
            mutable: false,
            kind,
            backing: Backing::Unbacked,
            start: 1 << 63,
            len: 0,
            capacity: 0,
            claim,
        }
    }

    pub fn with_len(self, len: usize) -> Line
        ensures { result ≡ with_len self len }
    {
        Line { len, ..self }
    }

    pub fn with_serial(self, serial: u32) -> Line
        ensures { result ≡ with_serial self serial }
    {
        Line { serial, ..self }
    }

    pub fn with_backing(self, backing: Backing) -> Line
        ensures { result ≡ with_backing self backing }
    {
        Line { backing, ..self }
    }

    pub fn with_claim(self, claim: usize) -> Line
        ensures { result ≡ with_claim self claim }
    {
        Line { claim, ..self }
    }

    pub fn with_state(self, mutable: bool, capacity: usize) -> Line
        ensures { result ≡ with_state self mutable capacity }
    {
        Line {
            mutable,
            capacity,
            ..self
        }
    }

    // Shortened to n elements; to a greater length it stays as it is.
    pub fn shortened(self, n: usize) -> Line
        ensures { result ≡ shortened (nat_le n self.len) n self }
    {
        if n <= self.len {
            self.with_len(n)
        } else {
            self
        }
    }

    // The line of a shared handle: it has no capacity.
    pub fn frozen(self) -> Line
        ensures { result ≡ frozen self }
    {
        self.with_state(false, 0)
    }

    // A new line as it was made, or frozen at once.
    pub fn made_as(self, mutable: bool) -> Line
        ensures { result ≡ made_as mutable self }
    {
        let capacity = if mutable { self.capacity } else { 0 };
        self.with_state(mutable, capacity)
    }

    // The same bytes as elements of another kind.
    pub fn regrouped(self, kind: Kind, len: usize, capacity: usize, claim: usize) -> Line
        ensures { result ≡ regrouped self kind len capacity claim }
    {
        Line {
            kind,
            len,
            capacity,
            claim,
            ..self
        }
    }

    // The line over another block.
    pub fn relocated(self, block: Block, start: usize, capacity: usize) -> Line
        ensures { result ≡ relocated self block start capacity }
    {
        Line {
            backing: Backing::Owned(block),
            start,
            capacity,
            ..self
        }
    }

    // The block that goes back when the line leaves its backing: none while another handle is on it.
    pub fn block_left(self, shared: bool) -> Option<Block>
        ensures { result ≡ block_left shared self }
    {
        if shared { None } else { self.backing.block() }
    }
}

// What a handle bears: its store's number, its serial, its state and its element kind.
#[derive(Clone, Copy)]
pub struct Handle {
    pub store: u32,
    pub serial: u32,
    pub mutable: bool,
    pub kind: Kind,
}

impl Handle {
    // Whether the line is the handle's, by state, width and the kind's alignment.
    pub fn agrees(self, line: Line) -> bool
        ensures { result ≡ agrees self (Some line) }
    {
        line.mutable == self.mutable && line.kind == self.kind
    }
}
