// SPDX-License-Identifier: Apache-2.0
// An allocator that keeps its live blocks in a table, whatever the way to choose places.
ghost use Rattle.std.specs.Prelude.{◌≡◌, ◌<◌, true, false, [], length, IfOk, Some, None, MatchOption, MatchResult};
ghost use Rattle.region.specs.Bytes.{part, overwrite};
ghost use Rattle.allocation.specs.Asked.{asked};
ghost use Rattle.allocation.specs.declared.fault.Refusal.TheVariants.{RegionDiffers};
ghost use Rattle.allocation.specs.Faults.{block_at, allocate_fault, grow_fault};
ghost use Rattle.allocation.specs.Outcomes.{Allocated, AllocatedZeroed, Grown};
ghost use Rattle.allocators.specs.Models.{meant, Placed, Replaced};
ghost use Rattle.allocators.specs.Placings.{Limits, may_grow, meaning_by};
ghost use Rattle.allocators.specs.Laws.{lawful_by};

use crate::arena::Arena;
use crate::arena::ops::{carry, exchange, take_out};
use crate::placement::Placement;
use allocation::allocation::Allocator;
use allocation::block::{Block, Request};
use allocation::fault::{Fault, Refusal};
use allocation::layout::Layout;
use region::zero_within;
use std::marker::PhantomData;

// An allocator of a region's blocks that keeps at most 64 of them; P chooses their places.
#[derive(Drop)]
pub struct TableAllocator<P: Placement> {
    pub(crate) arena: Arena,
    placement: PhantomData<P>,
}

impl<P: Placement> TableAllocator<P> {
    // An allocator of a region of that base and length, without a block, unless a limit is broken.
    pub fn new(base: usize, extent: usize) -> Result<TableAllocator<P>, Refusal>
        ensures { MatchResult result
            (λ made. Limits base extent × (meant P.placing made.arena ≡ meaning_by P.placing base extent []))
            (λ e. (Limits base extent → ⊥) × (e ≡ RegionDiffers)) }
    {
        let arena = Arena::new(base, extent)?;
        Ok(TableAllocator {
            arena,
            placement: PhantomData,
        })
    }

    // The place that a block of the layout would get.
    fn place_for(&self, layout: Layout) -> Option<usize>
        ensures { MatchOption result
            ((meant P.placing self.now.arena).grants (asked layout) ≡ false)
            (λ p. ((meant P.placing self.now.arena).grants (asked layout) ≡ true)
            × (length self.now.arena.live.items < 64)
            × Placed P.placing self.now.arena (asked layout) p) }
    {
        if self.arena.live.is_full() {
            return None;
        }
        let start = P::start(&self.arena);
        self.arena.lowest_place(start, Request::from(layout))
    }

    // The checks of `allocate`, and the place of the new block.
    fn new_place(&self, region: &[u8], layout: Layout) -> Result<usize, Fault>
        ensures { MatchResult result
            (λ p. (allocate_fault (meant P.placing self.now.arena) (length region.now) (asked layout) ≡ None)
            × (length self.now.arena.live.items < 64)
            × Placed P.placing self.now.arena (asked layout) p)
            (λ f. allocate_fault (meant P.placing self.now.arena) (length region.now) (asked layout) ≡ Some f) }
    {
        let asked = Request::from(layout);
        if !self.arena.serves(region) {
            return Err(Fault::by_allocator(Refusal::RegionDiffers, asked));
        }
        if asked.size == 0 {
            return Err(Fault::by_allocator(Refusal::NoSuchBlock, asked));
        }
        self.place_for(layout)
            .ok_or(Fault::by_allocator(Refusal::NotGranted, asked))
    }

    // The checks of `grow`, and the place of the grown block. The old block is still there.
    fn grown_place(&self, region: &[u8], block: Block, layout: Layout) -> Result<usize, Fault>
        ensures { MatchResult result
            (λ p. (grow_fault (meant P.placing self.now.arena) (length region.now) block (asked layout) ≡ None)
            × (length region.now ≡ self.now.arena.extent)
            × (may_grow self.now.arena.live.items block (asked layout) ≡ true)
            × Replaced P.placing self.now.arena block (asked layout) p)
            (λ f. grow_fault (meant P.placing self.now.arena) (length region.now) block (asked layout) ≡ Some f) }
    {
        let new = Request::from(layout);
        if !self.arena.serves(region) {
            return Err(Fault::by_allocator(Refusal::RegionDiffers, new));
        }
        if !self.arena.may_grow(block, new) {
            return Err(Fault::by_allocator(Refusal::NoSuchBlock, new));
        }
        if P::stays(&self.arena, block, layout) {
            return Ok(block.place);
        }
        self.place_for(layout)
            .ok_or(Fault::by_allocator(Refusal::NotGranted, new))
    }
}

impl<P: Placement> Allocator for TableAllocator<P> {
    ghost meaning = { λ a. meant P.placing a.arena };

    ghost lawful = { λ a. lawful_by a.arena.base a.arena.extent a.arena.live.items a.arena.kept P.placing P.fair a.arena.long };

    fn base(&self) -> usize {
        self.arena.base
    }

    fn extent(&self) -> usize {
        self.arena.extent
    }

    fn room(&self) -> usize {
        self.extent()
    }

    fn copies(&self) -> bool {
        P::copies()
    }

    fn any_live(&self) -> bool {
        !self.arena.live.is_empty()
    }

    fn is_live(&self, block: Block) -> bool {
        self.arena.holds(block)
    }

    fn would_grant(&self, layout: Layout) -> bool {
        self.place_for(layout).is_some()
    }

    fn would_grow(&self, block: Block, layout: Layout) -> bool {
        self.arena.may_grow(block, Request::from(layout))
            && (P::stays(&self.arena, block, layout) || self.would_grant(layout))
    }

    fn allocate(&mut self, region: &[u8], layout: Layout) -> Result<usize, Fault>
        ensures outcome { let r = asked layout in Allocated (λ p. block_at p r) (meant P.placing self.old.arena) (length region.now) r result (meant P.placing self.new.arena) }
        ensures lowest { IfOk result (λ p. Placed P.placing self.old.arena (asked layout) p) }
    {
        let place = self.new_place(region, layout)?;
        self.arena.live.push(Block::at(place, layout));
        Ok(place)
    }

    // Written here as in the trait, since it says where the block is placed, and clauses of its own want a body of its own.
    fn allocate_zeroed(&mut self, region: &mut [u8], layout: Layout) -> Result<usize, Fault>
        ensures outcome { let r = asked layout in AllocatedZeroed (λ p. block_at p r) (meant P.placing self.old.arena) region.old r result (meant P.placing self.new.arena) region.new }
        ensures lowest { IfOk result (λ p. Placed P.placing self.old.arena (asked layout) p) }
    {
        let place = self.allocate(region, layout)?;
        zero_within(region, place, layout.size());
        Ok(place)
    }

    fn deallocate(&mut self, region: &[u8], block: Block) -> Result<(), Fault> {
        let given = Request::from(block);
        if !self.arena.serves(region) {
            return Err(Fault::by_allocator(Refusal::RegionDiffers, given));
        }
        if !take_out(&mut self.arena.live, block) {
            return Err(Fault::by_allocator(Refusal::NoSuchBlock, given));
        }
        Ok(())
    }

    fn grow(&mut self, region: &mut [u8], block: Block, layout: Layout) -> Result<usize, Fault>
        ensures outcome { let r = asked layout in Grown (λ p. block_at p r) (meant P.placing self.old.arena) region.old block r result (meant P.placing self.new.arena) region.new }
        ensures regrown { IfOk result (λ p. Replaced P.placing self.old.arena block (asked layout) p) }
        ensures carried { IfOk result (λ p. region.new ≡ overwrite p (part block.place block.size region.old) region.old) }
    {
        let place = self.grown_place(region, block, layout)?;
        carry(region, block, place);
        exchange(&mut self.arena.live, block, Block::at(place, layout));
        Ok(place)
    }
}
