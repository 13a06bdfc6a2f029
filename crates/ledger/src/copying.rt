// SPDX-License-Identifier: Apache-2.0
// Calls that may copy a line's elements into a block of their own.
// Works over `aligned` of src/buffer_mut.rs and `aligned` and `into_mut` of src/buffer.rs of vortex-buffer 0.90.0.
ghost use Rattle.std.specs.Prelude.{◌≡◌, length, Some, None, MatchResult};
ghost use Rattle.allocation.specs.Asked.{asked, bytes_of};
ghost use Rattle.checks.specs.Groups.{size_checks};
ghost use Rattle.ledger.specs.Copying.{PlannedCopy, Copying, Copied, aligning, copy_size};
ghost use Rattle.ledger.specs.Making.{asking};
ghost use Rattle.ledger.specs.Results.{Done};
ghost use Rattle.ledger.specs.View.{state};
ghost use Rattle.model.specs.Book.{block_of};
ghost use Rattle.model.specs.Calls.{AlignedMut, Aligned, IntoMut};
ghost use Rattle.model.specs.Checks.{refusal};
ghost use Rattle.model.specs.Effects.{copied_into};

use crate::copy_plan::CopyPlan;
use crate::getting::obtain;
use crate::giving::give_back;
use crate::handles::{MutableHandle, SharedHandle};
use crate::ledger::Ledger;
use crate::moving::copy_in;
use allocation::alignment::{Alignment, DEFAULT_ALIGNMENT};
use allocation::allocation::Allocator;
use allocation::fault::Fault;
use checks::{block_layout, fits_kind};
use model::line::{Handle, Line};
use sizes::placed::Placed;
use sizes::seat::Seat;
use sizes::{copied_into, is_aligned};

// Gets the block of the plan, for so many elements, copies what the line shows into it, and gives back the block that the plan leaves.
// Then the line as it stands in its own block, at the claim.
pub fn copy_out<B: Allocator>(
    allocator: &mut B,
    region: &mut [u8],
    line: Line,
    count: usize,
    claim: usize,
    plan: CopyPlan,
) -> Result<Line, Fault>
    requires copying { Copying (B.Allocator.meaning allocator.old) (length region.old) line count plan }
    ensures { MatchResult result
        (λ new. (refusal (asking (B.Allocator.meaning allocator.old) count (asked plan.layout)) ≡ None)
        × Copied (B.Allocator.meaning allocator.old) region.old line count plan (block_of new.backing) (B.Allocator.meaning allocator.new) region.new
        × (new ≡ copied_into plan.base line line.mutable claim plan.m line.capacity (block_of new.backing)))
        (λ f. (refusal (asking (B.Allocator.meaning allocator.old) count (asked plan.layout)) ≡ Some f)
        × (B.Allocator.meaning allocator.new ≡ B.Allocator.meaning allocator.old) × (region.new ≡ region.old)) }
{
    let got = obtain(allocator, region, count, plan.layout)?;
    let seat = Seat {
        base: plan.base,
        m: plan.m,
        got,
    };
    copy_in(region, line, seat);
    give_back(allocator, region, plan.left)?;
    Ok(copied_into(line, line.mutable, claim, line.capacity, seat))
}

impl<B: Allocator> Ledger<B> {
    // What a copy of the line asks for, with room for so many elements and a claim; no block goes back while another handle is on the line's backing.
    pub fn plans_copy(
        &self,
        region: &[u8],
        line: Line,
        count: usize,
        claim: usize,
    ) -> Result<CopyPlan, Fault>
        ensures { MatchResult result
            (λ plan. PlannedCopy (state B.Allocator.meaning self.now region.now) line count claim plan)
            (λ f. refusal (size_checks (copy_size line count claim)) ≡ Some f) }
    {
        let m = claim.max(DEFAULT_ALIGNMENT);
        let layout = block_layout(line.kind.width, count, m)?;
        let base = self.allocator.base();
        let left = line.block_left(self.register.shares(line));
        Ok(CopyPlan {
            m,
            base,
            layout,
            left,
        })
    }

    // Gives a handle another claim; it is copied where its start does not allow it, with the room that it has.
    pub fn realign(&mut self, region: &mut [u8], h: Handle, claim: Alignment) -> Result<(), Fault>
        ensures { Done (state B.Allocator.meaning self.old region.old) (aligning h (bytes_of claim)) result (state B.Allocator.meaning self.new region.new) }
    {
        let claim = claim.as_usize();
        let spot = self.admits(region, h)?;
        fits_kind(spot.line.kind, claim)?;
        if is_aligned(spot.line, claim) {
            self.register
                .book
                .put(spot.place, spot.line.with_claim(claim));
            return Ok(());
        }
        // A shared handle has no capacity, and room for its elements alone.
        let count = spot.line.len.max(spot.line.capacity);
        let plan = self.plans_copy(region, spot.line, count, claim)?;
        let line = copy_out(&mut self.allocator, region, spot.line, count, claim, plan)?;
        self.register.book.put(spot.place, line);
        Ok(())
    }

    // The same for a mutable handle.
    pub fn aligned_mut(
        &mut self,
        region: &mut [u8],
        h: MutableHandle,
        claim: Alignment,
    ) -> Result<(), Fault>
        ensures { Done (state B.Allocator.meaning self.old region.old) (AlignedMut h.handle (bytes_of claim)) result (state B.Allocator.meaning self.new region.new) }
    {
        self.realign(region, h.handle, claim)
    }

    // The same for a shared handle.
    pub fn aligned(
        &mut self,
        region: &mut [u8],
        h: SharedHandle,
        claim: Alignment,
    ) -> Result<(), Fault>
        ensures { Done (state B.Allocator.meaning self.old region.old) (Aligned h.handle (bytes_of claim)) result (state B.Allocator.meaning self.new region.new) }
    {
        self.realign(region, h.handle, claim)
    }

    // Makes a shared handle a mutable one; it is copied where another handle is on its backing.
    pub fn into_mut(&mut self, region: &mut [u8], h: SharedHandle) -> Result<(), Fault>
        ensures { Done (state B.Allocator.meaning self.old region.old) (IntoMut h.handle) result (state B.Allocator.meaning self.new region.new) }
    {
        let spot = self.admits(region, h.handle)?;
        let base = self.allocator.base();
        let shared = self.register.shares(spot.line);
        if !shared {
            let placed = Placed {
                base,
                line: spot.line,
            };
            self.register.book.put(spot.place, placed.unfrozen());
            return Ok(());
        }
        let len = spot.line.len;
        let claim = spot.line.claim;
        let plan = self.plans_copy(region, spot.line, len, claim)?;
        let line = copy_out(&mut self.allocator, region, spot.line, len, claim, plan)?;
        let placed = Placed { base, line };
        self.register.book.put(spot.place, placed.unfrozen());
        Ok(())
    }
}
