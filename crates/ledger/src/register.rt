// SPDX-License-Identifier: Apache-2.0
// The live handles of a store, and what the next one will be.
// Stands for what the fields of `BufferMut` and `Buffer` and their `Arc` counts hold in vortex-buffer 0.90.0.
ghost use Rattle.std.specs.Prelude.{◌≡◌, ◌<◌, [], length, Some, None, MatchResult, nat_le};
ghost use Rattle.book.specs.Held.{lines_of};
ghost use Rattle.ledger.specs.Entry.{Free, handle_check};
ghost use Rattle.ledger.specs.Registered.{Added};
ghost use Rattle.model.specs.Keyed.{any_other};
ghost use Rattle.model.specs.Book.{one_backing, serial_of, line_limit, serial_limit};
ghost use Rattle.model.specs.Checks.{refusal};

use allocation::fault::{Fault, Refusal};
use book::book::Book;
use model::line::Line;

// Whether all serials are spent.
pub fn is_spent(next: u64) -> bool
    ensures { result ≡ nat_le serial_limit next }
{
    next >= 1 << 32
}

// The serial of the next handle, and the book of the live ones.
#[derive(Drop)]
pub struct Register {
    pub(crate) next: u64,
    pub(crate) book: Book,
}

impl Register {
    // A register without handles.
    pub fn new() -> Register
        ensures { (result.next ≡ 1) × (lines_of result.book ≡ []) }
    {
        Register {
            next: 1,
            book: Book::new(),
        }
    }

    // There is room for a handle: the book is not full, and not all serials are spent; then its serial.
    pub fn next_serial(&self) -> Result<u32, Fault>
        ensures { MatchResult result
            (λ n. (refusal (handle_check self.now.next (lines_of self.now.book)) ≡ None) × Free self.now.next (lines_of self.now.book) n)
            (λ f. refusal (handle_check self.now.next (lines_of self.now.book)) ≡ Some f) }
    {
        if self.book.is_full() || is_spent(self.next) {
            return Err(Fault::Alone(Refusal::NoHandleLeft));
        }
        Ok(self.next as u32)
    }

    // Whether another handle is on the backing of the line.
    pub fn shares(&self, line: Line) -> bool
        ensures { result ≡ any_other serial_of (λ m. one_backing line.backing m.backing) line.serial (lines_of self.now.book) }
    {
        self.book.shares(line.backing, line.serial)
    }

    // Adds the line of a new handle, whose serial is spent.
    pub fn add(&mut self, line: Line)
        requires few { length (lines_of self.old.book) < line_limit }
        requires low { self.old.next < serial_limit }
        ensures { Added self.old.next (lines_of self.old.book) line self.new.next (lines_of self.new.book) }
    {
        self.book.add(line);
        self.next += 1;
    }
}
