// SPDX-License-Identifier: Apache-2.0
// The checks that all calls have: the region, the handle, and room for a new handle.
ghost use Rattle.std.specs.Prelude.{◌≡◌, false, length, if◌then◌else◌, Some, None, MatchResult, nat_eq};
ghost use Rattle.ledger.specs.Entry.{region_check, entry, handle_check, opening, Ready, Admitted, Free, Opened};
ghost use Rattle.ledger.specs.View.{state};
ghost use Rattle.model.specs.Book.{agrees};
ghost use Rattle.model.specs.Checks.{refusal};

use crate::ledger::Ledger;
use crate::spot::Spot;
use allocation::allocation::Allocator;
use allocation::fault::{Fault, Refusal};
use model::line::{Handle, Line};

// Whether the line is the handle's, in the store of that number.
pub fn knows(number: u32, h: Handle, line: Line) -> bool
    ensures { result ≡ (if nat_eq h.store number then agrees h (Some line) else false) }
{
    h.store == number && h.agrees(line)
}

impl<B: Allocator> Ledger<B> {
    // The region has the allocator's length.
    pub fn knows_region(&self, region: &[u8]) -> Result<(), Fault>
        ensures { MatchResult result
            (λ _. (refusal (region_check (state B.Allocator.meaning self.now region.now)) ≡ None)
            × Ready (state B.Allocator.meaning self.now region.now))
            (λ f. refusal (region_check (state B.Allocator.meaning self.now region.now)) ≡ Some f) }
    {
        if region.len() != self.allocator.extent() {
            return Err(Refusal::RegionDiffers.into());
        }
        Ok(())
    }

    // The region has the allocator's length and the handle is known; then where its line stands.
    pub fn admits(&self, region: &[u8], h: Handle) -> Result<Spot, Fault>
        ensures { MatchResult result
            (λ spot. Admitted (state B.Allocator.meaning self.now region.now) h spot)
            (λ f. refusal (entry (state B.Allocator.meaning self.now region.now) h) ≡ Some f) }
    {
        self.knows_region(region)?;
        let place = self
            .register
            .book
            .position(h.serial)
            .ok_or(Refusal::UnknownHandle)?;
        let line = self.register.book.line(place);
        if !knows(self.number, h, line) {
            return Err(Refusal::UnknownHandle.into());
        }
        Ok(Spot { place, line })
    }

    // There is room for a handle; then its serial.
    pub fn next_serial(&self, region: &[u8]) -> Result<u32, Fault>
        ensures { let st = state B.Allocator.meaning self.now region.now in
            MatchResult result
            (λ n. (refusal (handle_check st.next st.lines) ≡ None) × Free st.next st.lines n)
            (λ f. refusal (handle_check st.next st.lines) ≡ Some f) }
    {
        self.register.next_serial()
    }

    // The region has the allocator's length and there is room for a handle; then its serial.
    pub fn opens(&self, region: &[u8]) -> Result<u32, Fault>
        ensures { MatchResult result
            (λ n. Opened (state B.Allocator.meaning self.now region.now) n)
            (λ f. refusal (opening (state B.Allocator.meaning self.now region.now)) ≡ Some f) }
    {
        self.knows_region(region)?;
        self.next_serial(region)
    }
}
