// SPDX-License-Identifier: Apache-2.0
// Opening a store over an allocator, and taking the allocator out again.
ghost use Rattle.std.specs.Prelude.{◌≡◌, ℕ, true, false, List, [], length, IfOk, MatchResult, ◌==◌, ◌≢◌};
ghost use Rattle.allocation.specs.declared.fault.Fault.TheVariants.{Alone};
ghost use Rattle.allocation.specs.declared.fault.Refusal.TheVariants.{RegionDiffers};
ghost use Rattle.book.specs.Held.{lines_of};
ghost use Rattle.ledger.specs.Limits.{in_limits, serves};
ghost use Rattle.ledger.specs.View.{state};
ghost use Rattle.model.specs.Runs.{New};

use crate::ledger::Ledger;
use crate::refused::Refused;
use crate::register::Register;
use allocation::allocation::Allocator;
use allocation::fault::{Fault, Refusal};
use model::line::Line;

// Whether an address and a length are those of a region that a store serves.
pub fn in_limits(base: usize, extent: usize) -> bool
    ensures { result ≡ in_limits base extent }
{
    base >= 1 && base <= 1 << 47 && extent >= 1024 && extent <= 1 << 32
}

// Whether a store may be opened over the allocator.
pub fn serves<B: Allocator>(allocator: &B) -> bool
    ensures { result ≡ serves (B.Allocator.meaning allocator.now) }
{
    in_limits(allocator.base(), allocator.extent()) && !allocator.any_live()
}

impl<B: Allocator> Ledger<B> {
    // A store without handles. An allocator with a live block, or with a region beyond the limits, comes back.
    pub fn new(allocator: B, number: u32) -> Result<Ledger<B>, Refused<B>>
        ensures outcome { MatchResult result
            (λ s. (serves (B.Allocator.meaning allocator) ≡ true)
            × ((bytes : List ℕ) → state B.Allocator.meaning s bytes ≡ record { number = number; next = 1; lines = []; meaning = B.Allocator.meaning allocator; bytes = bytes }))
            (λ e. (serves (B.Allocator.meaning allocator) ≡ false) × (e.fault ≡ Alone RegionDiffers) × (e.returned ≡ allocator)) }
        ensures starts { IfOk result (λ s. (bytes : List ℕ) → length bytes ≡ (B.Allocator.meaning allocator).extent
            → New (record { state = state B.Allocator.meaning s bytes; table = [] })) }
    {
        if !serves(&allocator) {
            return Err(Refused {
                fault: Fault::Alone(Refusal::RegionDiffers),
                returned: allocator,
            });
        }
        Ok(Ledger {
            allocator,
            number,
            register: Register::new(),
        })
    }

    // The store's number.
    pub fn number(&self) -> u32
        ensures { result ≡ self.now.number }
    {
        self.number
    }

    // The lines of the live handles, oldest first.
    pub fn lines(&self) -> &[Line]
        ensures { result.now ≡ lines_of self.now.register.book }
    {
        self.register.book.as_slice()
    }

    // The allocator, lent for questions.
    pub fn allocator(&self) -> &B
        ensures { result.now ≡ self.now.allocator }
    {
        &self.allocator
    }

    // Whether no handle is live.
    pub fn is_idle(&self) -> bool
        ensures { result ≡ (length (lines_of self.now.register.book) == 0) }
    {
        self.register.book.as_slice().is_empty()
    }

    // The allocator, where no handle is live; else the store comes back.
    pub fn into_allocator(self) -> Result<B, Ledger<B>>
        ensures { MatchResult result
            (λ b. (lines_of self.register.book ≡ []) × (b ≡ self.allocator))
            (λ s. (lines_of self.register.book ≢ []) × (s ≡ self)) }
    {
        if !self.is_idle() {
            return Err(self);
        }
        let Ledger {
            allocator,
            number: _,
            register,
        } = self;
        drop(register);
        Ok(allocator)
    }
}
