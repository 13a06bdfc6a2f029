// SPDX-License-Identifier: Apache-2.0
// The store on plain data.
// Stands for what buffers of vortex-buffer 0.90.0 share: the allocator and the counts of their blocks.
ghost use Rattle.book.specs.Held.{lines_of};
ghost use Rattle.ledger.specs.Limits.{Limits};
ghost use Rattle.model.specs.Invariant.{Sure, plain_of};

use crate::register::Register;
use allocation::allocation::Allocator;

// An allocator, the store's number, and the register of the live handles.
pub struct Ledger<B: Allocator> {
    pub(crate) allocator: B,
    pub(crate) number: u32,
    pub(crate) register: Register,
    ghost sure: { ∥ Sure register.next (lines_of register.book) (plain_of (B.Allocator.meaning allocator)) ∥₁ },
    ghost limits: { Limits (plain_of (B.Allocator.meaning allocator)) },
}
