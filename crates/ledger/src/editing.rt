// SPDX-License-Identifier: Apache-2.0
// Calls that change one line, or one element, and nothing else.
// Works over `truncate`, `clear`, `freeze` and `as_mut_slice` of src/buffer_mut.rs and `clear`, `into_byte_buffer`, `from_byte_buffer_aligned`,
// `try_into_mut` and `ensure_aligned` of src/buffer.rs of vortex-buffer 0.90.0.
ghost use Rattle.std.specs.Prelude.{◌≡◌, true, not, ◌&&◌};
ghost use Rattle.allocation.specs.Alignments.{IsAlignment};
ghost use Rattle.allocation.specs.Asked.{bytes_of};
ghost use Rattle.ledger.specs.Changes.{Asks, Changed, Keeps};
ghost use Rattle.ledger.specs.Results.{Done};
ghost use Rattle.ledger.specs.View.{state};
ghost use Rattle.model.specs.Calls.{Truncate, Clear, Freeze, IntoBytes, FromBytes, TryIntoMut, EnsureAligned, Set};
ghost use Rattle.model.specs.Kinds.{SoundKind, is_byte};

use crate::handles::{MutableHandle, SharedHandle};
use crate::ledger::Ledger;
use allocation::alignment::Alignment;
use allocation::allocation::Allocator;
use allocation::fault::Fault;
use checks::{index_within, regroups, stays_aligned, unshared};
use element::Element;
use element::writing::write_one;
use model::line::{Handle, Kind, Line};
use sizes::placed::Placed;
use sizes::{element_place, from_bytes, into_bytes};

impl<B: Allocator> Ledger<B> {
    // Changes the line of a handle, where neither the handle's checks nor the change refuse.
    #[tactic(auto, unfolding(crate::specs::Changes::Changed))]
    fn edit<F: FnOnce(Line) -> Result<Line, Fault>>(
        &mut self,
        region: &[u8],
        h: Handle,
        change: F,
    ) -> Result<(), Fault>
        requires asks { Asks (state B.Allocator.meaning self.old region.now) h (F.pre change) }
        requires keeps { Keeps (state B.Allocator.meaning self.old region.now) h (F.post change) }
        ensures { Changed (state B.Allocator.meaning self.old region.now) h (F.post change) result (state B.Allocator.meaning self.new region.now) }
    {
        let spot = self.admits(region, h)?;
        let new = change(spot.line)?;
        self.register.book.put(spot.place, new);
        Ok(())
    }

    // Shortens the handle to n elements; to a greater length it does nothing.
    pub fn truncate(&mut self, region: &[u8], h: MutableHandle, n: usize) -> Result<(), Fault>
        ensures { Done (state B.Allocator.meaning self.old region.now) (Truncate h.handle n) result (state B.Allocator.meaning self.new region.now) }
    {
        self.edit(region, h.handle, |line| Ok(line.shortened(n)))
    }

    // Takes all elements away; the room stays.
    pub fn clear(&mut self, region: &[u8], h: Handle) -> Result<(), Fault>
        ensures { Done (state B.Allocator.meaning self.old region.now) (Clear h) result (state B.Allocator.meaning self.new region.now) }
    {
        self.edit(region, h, |line| Ok(line.with_len(0)))
    }

    // Makes a mutable handle a shared one.
    pub fn freeze(&mut self, region: &[u8], h: MutableHandle) -> Result<(), Fault>
        ensures { Done (state B.Allocator.meaning self.old region.now) (Freeze h.handle) result (state B.Allocator.meaning self.new region.now) }
    {
        self.edit(region, h.handle, |line| Ok(line.frozen()))
    }

    // Makes the elements bytes.
    pub fn into_byte_buffer(&mut self, region: &[u8], h: Handle) -> Result<(), Fault>
        ensures { Done (state B.Allocator.meaning self.old region.now) (IntoBytes h) result (state B.Allocator.meaning self.new region.now) }
    {
        self.edit(region, h, |line| Ok(into_bytes(line)))
    }

    // Makes the bytes of a shared handle elements of a kind. The claim is a number of bytes, since it may be the alignment of the kind.
    pub fn from_byte_buffer_aligned(
        &mut self,
        region: &[u8],
        h: Handle,
        kind: Kind,
        claim: usize,
    ) -> Result<(), Fault>
        requires bytes { (not h.mutable && is_byte h.kind) ≡ true }
        requires fair { SoundKind kind × IsAlignment claim }
        ensures { Done (state B.Allocator.meaning self.old region.now) (FromBytes h kind claim) result (state B.Allocator.meaning self.new region.now) }
    {
        self.edit(region, h, |line| {
            regroups(line, kind, claim)?;
            Ok(from_bytes(line, kind, claim))
        })
    }

    // Makes a shared handle that is alone on its backing a mutable one.
    // Whether it is alone only the book tells, so the change is not one of the line alone.
    pub fn try_into_mut(&mut self, region: &[u8], h: SharedHandle) -> Result<(), Fault>
        ensures { Done (state B.Allocator.meaning self.old region.now) (TryIntoMut h.handle) result (state B.Allocator.meaning self.new region.now) }
    {
        let spot = self.admits(region, h.handle)?;
        unshared(self.register.shares(spot.line))?;
        let placed = Placed {
            base: self.allocator.base(),
            line: spot.line,
        };
        self.register.book.put(spot.place, placed.unfrozen());
        Ok(())
    }

    // Gives a shared handle another claim, where its start allows it.
    pub fn ensure_aligned(
        &mut self,
        region: &[u8],
        h: SharedHandle,
        claim: Alignment,
    ) -> Result<(), Fault>
        ensures { Done (state B.Allocator.meaning self.old region.now) (EnsureAligned h.handle (bytes_of claim)) result (state B.Allocator.meaning self.new region.now) }
    {
        let claim = claim.as_usize();
        self.edit(region, h.handle, |line| {
            stays_aligned(line.kind, line, claim)?;
            Ok(line.with_claim(claim))
        })
    }

    // Writes a value in place of an element.
    pub fn set<K: Element>(
        &self,
        region: &mut [u8],
        h: MutableHandle,
        i: usize,
        value: &K,
    ) -> Result<(), Fault>
        requires wide { h.handle.kind.width ≡ K.Element.width }
        ensures { Done (state B.Allocator.meaning self.now region.old) (Set h.handle i (K.Element.pattern value.now)) result (state B.Allocator.meaning self.now region.new) }
    {
        let spot = self.admits(region, h.handle)?;
        index_within(spot.line, i)?;
        let place = element_place(self.allocator.base(), spot.line, i);
        write_one(region, place, value);
        Ok(())
    }
}
