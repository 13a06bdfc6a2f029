// SPDX-License-Identifier: Apache-2.0
// Slices of a shared handle.
// Works over `slice`, `slice_unaligned` and `slice_with_alignment` of src/buffer.rs of vortex-buffer 0.90.0.
ghost use Rattle.allocation.specs.Asked.{bytes_of};
ghost use Rattle.ledger.specs.Claims.{claim_of};
ghost use Rattle.ledger.specs.Results.{Opens};
ghost use Rattle.ledger.specs.View.{state};
ghost use Rattle.model.specs.Calls.{Slice, Given, Inherited, OfKind};

use crate::claim::Claim;
use crate::handles::SharedHandle;
use crate::ledger::Ledger;
use allocation::alignment::Alignment;
use allocation::allocation::Allocator;
use allocation::fault::Fault;
use checks::slices;
use sizes::slice_line;
use std::ops::Bound;

impl<B: Allocator> Ledger<B> {
    // A new handle on a range of the elements, with a claim of its own.
    pub fn slice_claiming(
        &mut self,
        region: &[u8],
        h: SharedHandle,
        first: Bound<usize>,
        last: Bound<usize>,
        claim: Claim,
    ) -> Result<u32, Fault>
        ensures { Opens (state B.Allocator.meaning self.old region.now) (Slice h.handle first last (claim_of claim)) result (state B.Allocator.meaning self.new region.now) }
    {
        let spot = self.admits(region, h.handle)?;
        let serial = self.next_serial(region)?;
        let claim = claim.of(spot.line);
        let range = slices(spot.line, first, last, claim)?;
        self.register.add(slice_line(serial, spot.line, range.begin..range.end, claim));
        Ok(serial)
    }

    // A new handle on a range of the elements, with the claim of the handle.
    pub fn slice(
        &mut self,
        region: &[u8],
        h: SharedHandle,
        first: Bound<usize>,
        last: Bound<usize>,
    ) -> Result<u32, Fault>
        ensures { Opens (state B.Allocator.meaning self.old region.now) (Slice h.handle first last Inherited) result (state B.Allocator.meaning self.new region.now) }
    {
        self.slice_claiming(region, h, first, last, Claim::Inherited)
    }

    // The same, with the alignment of the kind as its claim.
    pub fn slice_unaligned(
        &mut self,
        region: &[u8],
        h: SharedHandle,
        first: Bound<usize>,
        last: Bound<usize>,
    ) -> Result<u32, Fault>
        ensures { Opens (state B.Allocator.meaning self.old region.now) (Slice h.handle first last OfKind) result (state B.Allocator.meaning self.new region.now) }
    {
        self.slice_claiming(region, h, first, last, Claim::OfKind)
    }

    // The same, with another claim.
    pub fn slice_with_alignment(
        &mut self,
        region: &[u8],
        h: SharedHandle,
        first: Bound<usize>,
        last: Bound<usize>,
        claim: Alignment,
    ) -> Result<u32, Fault>
        ensures { Opens (state B.Allocator.meaning self.old region.now) (Slice h.handle first last (Given (bytes_of claim))) result (state B.Allocator.meaning self.new region.now) }
    {
        self.slice_claiming(region, h, first, last, Claim::Given(claim))
    }
}
