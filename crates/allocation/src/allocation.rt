// SPDX-License-Identifier: Apache-2.0
// Works over src/allocation.rs of vortex-buffer 0.90.0, after the published page on `core::alloc::Allocator`.
ghost use Rattle.std.specs.Prelude.{◌≡◌, length, Some, None, MatchResult};
ghost use Rattle.allocation.specs.Asked.{asked};
ghost use Rattle.allocation.specs.Faults.{block_at, is_among, any_block, grow_fault};
ghost use Rattle.allocation.specs.Meaning.{Meaning, Lawful, Grows};
ghost use Rattle.allocation.specs.Outcomes.{Allocated, AllocatedZeroed, Freed, Grown};

use crate::block::Block;
use crate::fault::Fault;
use crate::layout::Layout;
use region::zero_within;

// What gives out blocks of a region that the caller brings to every call.
pub trait Allocator {
    ghost meaning: { Self → Meaning };

    // The address of the region's first byte.
    fn base(&self) -> usize
        ensures { result ≡ (meaning self.now).base };

    // How many bytes the region has.
    fn extent(&self) -> usize
        ensures { result ≡ (meaning self.now).extent };

    // How many bytes it grants when it holds no block, alignment counted.
    fn room(&self) -> usize
        ensures { result ≡ (meaning self.now).room };

    // Its copying mark: whether a buffer takes a new block and copies, and does not call `grow`.
    fn copies(&self) -> bool
        ensures { result ≡ (meaning self.now).copies };

    // Whether any block is live.
    fn any_live(&self) -> bool
        ensures { result ≡ any_block (meaning self.now).live };

    // Whether this block is live.
    fn is_live(&self, block: Block) -> bool
        ensures { result ≡ is_among block (meaning self.now).live };

    // Whether the layout would be granted now.
    fn would_grant(&self, layout: Layout) -> bool
        ensures { result ≡ (meaning self.now).grants (asked layout) };

    // Whether the growth would be granted now.
    fn would_grow(&self, block: Block, layout: Layout) -> bool
        ensures { result ≡ (meaning self.now).grows block (asked layout) };

    // Adds a block of exactly the layout, and answers its place.
    fn allocate(&mut self, region: &[u8], layout: Layout) -> Result<usize, Fault>
        ensures outcome { let r = asked layout in Allocated (λ p. block_at p r) (meaning self.old) (length region.now) r result (meaning self.new) };

    // The same, and sets just the block to zero.
    fn allocate_zeroed(&mut self, region: &mut [u8], layout: Layout) -> Result<usize, Fault>
        ensures outcome { let r = asked layout in AllocatedZeroed (λ p. block_at p r) (meaning self.old) region.old r result (meaning self.new) region.new }
    {
        let place = self.allocate(region, layout)?;
        zero_within(region, place, layout.size());
        Ok(place)
    }

    // Removes a live block.
    fn deallocate(&mut self, region: &[u8], block: Block) -> Result<(), Fault>
        ensures outcome { Freed (meaning self.old) (length region.now) block result (meaning self.new) };

    // Replaces a live block by one of exactly the layout, its first bytes the old block's, and answers its place.
    fn grow(&mut self, region: &mut [u8], block: Block, layout: Layout) -> Result<usize, Fault>
        ensures outcome { let r = asked layout in Grown (λ p. block_at p r) (meaning self.old) region.old block r result (meaning self.new) region.new };

    ghost lawful: { (a : Self) → Lawful (meaning a) };
}

// A live block as a buffer holds it: its functions hand the allocator's fault on as it came.
#[derive(Clone, Copy)]
pub struct Allocation {
    pub block: Block,
}

impl Allocation {
    // Takes a block of exactly the layout.
    pub fn allocate<B: Allocator>(
        allocator: &mut B,
        region: &[u8],
        layout: Layout,
    ) -> Result<Allocation, Fault>
        ensures outcome { Allocated (λ a. a.block) (B.meaning allocator.old) (length region.now) (asked layout) result (B.meaning allocator.new) }
    {
        let place = allocator.allocate(region, layout)?;
        Ok(Allocation {
            block: Block::at(place, layout),
        })
    }

    // The same, and sets just the block to zero: a call of its own, since it writes the region, which `allocate` only reads.
    pub fn allocate_zeroed<B: Allocator>(
        allocator: &mut B,
        region: &mut [u8],
        layout: Layout,
    ) -> Result<Allocation, Fault>
        ensures outcome { AllocatedZeroed (λ a. a.block) (B.meaning allocator.old) region.old (asked layout) result (B.meaning allocator.new) region.new }
    {
        let place = allocator.allocate_zeroed(region, layout)?;
        Ok(Allocation {
            block: Block::at(place, layout),
        })
    }

    // Where the block starts, counted from the region's start.
    pub fn place(self) -> usize
        ensures { result ≡ self.block.place }
    {
        self.block.place
    }

    // How many bytes the block has.
    pub fn size(self) -> usize
        ensures { result ≡ self.block.size }
    {
        self.block.size
    }

    // What the block's address is a multiple of.
    pub fn alignment(self) -> usize
        ensures { result ≡ self.block.align }
    {
        self.block.align
    }

    // Grows the block to exactly the layout; refused, it stays as it is.
    pub fn grow<B: Allocator>(
        &mut self,
        allocator: &mut B,
        region: &mut [u8],
        layout: Layout,
    ) -> Result<(), Fault>
        ensures outcome { MatchResult result
            (λ _. (grow_fault (B.meaning allocator.old) (length region.old) self.old.block (asked layout) ≡ None)
            × Grows (B.meaning allocator.old) self.old.block (asked layout) self.new.block (B.meaning allocator.new) region.old region.new)
            (λ f. (grow_fault (B.meaning allocator.old) (length region.old) self.old.block (asked layout) ≡ Some f)
            × (self.new ≡ self.old)
            × (B.meaning allocator.new ≡ B.meaning allocator.old)
            × (region.new ≡ region.old)) }
    {
        let place = allocator.grow(region, self.block, layout)?;
        self.block = Block::at(place, layout);
        Ok(())
    }

    // Gives the block back.
    pub fn release<B: Allocator>(self, allocator: &mut B, region: &[u8]) -> Result<(), Fault>
        ensures outcome { Freed (B.meaning allocator.old) (length region.now) self.block result (B.meaning allocator.new) }
    {
        allocator.deallocate(region, self.block)
    }
}
