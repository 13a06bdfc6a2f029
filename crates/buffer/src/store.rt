// SPDX-License-Identifier: Apache-2.0
// A store: one allocator, a number and the book of the live handles.
// Stands for the allocator that buffers of vortex-buffer 0.90.0 share, and for the counts of their backings.
ghost use Rattle.std.specs.Prelude.{◌≡◌, ℕ, true, false, List, [], length, MatchResult, ◌==◌, ◌≢◌};
ghost use Rattle.allocation.specs.declared.fault.Fault.TheVariants.{Alone};
ghost use Rattle.allocation.specs.declared.fault.Refusal.TheVariants.{RegionDiffers};
ghost use Rattle.book.specs.Held.{lines_of};
ghost use Rattle.buffer.specs.View.{state};
ghost use Rattle.ledger.specs.Limits.{serves};
ghost use Rattle.ledger.specs.View.{opened};
ghost use Rattle.model.specs.Runs.{New};

use crate::refused::Refused;
use allocation::allocation::Allocator;
use ledger::ledger::Ledger;
use model::line::Line;

pub struct Store<B: Allocator> {
    pub(crate) ledger: Ledger<B>,
}

impl<B: Allocator> Store<B> {
    // A store without handles. An allocator with a live block, or with a region beyond the limits, comes back with refusal 1.
    pub fn new(allocator: B, number: u32) -> Result<Store<B>, Refused<B>>
        ensures { let m = B.meaning allocator in
            MatchResult result
            (λ s. (serves m ≡ true)
            × ((bytes : List ℕ) → state B.Allocator s bytes ≡ opened number m bytes)
            × ((bytes : List ℕ) → length bytes ≡ m.extent → New (record { state = state B.Allocator s bytes; table = [] })))
            (λ e. (serves m ≡ false) × (e.fault ≡ Alone RegionDiffers) × (e.returned ≡ allocator)) }
    {
        let ledger = Ledger::new(allocator, number)?;
        Ok(Store { ledger })
    }

    // The store's number.
    pub fn number(&self) -> u32
        ensures { result ≡ self.now.ledger.number }
    {
        self.ledger.number()
    }

    // The lines of the live handles, oldest first.
    pub fn lines(&self) -> &[Line]
        ensures { result.now ≡ lines_of self.now.ledger.register.book }
    {
        self.ledger.lines()
    }

    // The allocator, lent for questions.
    pub fn allocator(&self) -> &B
        ensures { result.now ≡ self.now.ledger.allocator }
    {
        self.ledger.allocator()
    }

    // Whether no handle is live.
    pub fn is_idle(&self) -> bool
        ensures { result ≡ (length (lines_of self.now.ledger.register.book) == 0) }
    {
        self.ledger.is_idle()
    }

    // The allocator, where no handle is live; else the store comes back.
    pub fn into_allocator(self) -> Result<B, Store<B>>
        ensures { MatchResult result
            (λ b. (lines_of self.ledger.register.book ≡ []) × (b ≡ self.ledger.allocator))
            (λ s. (lines_of self.ledger.register.book ≢ []) × (s ≡ self)) }
    {
        let Store { ledger } = self;
        ledger.into_allocator().map_err(|ledger| Store { ledger })
    }
}
