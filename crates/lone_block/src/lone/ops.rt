// SPDX-License-Identifier: Apache-2.0
// The lone block's answers and calls, by the contract of every allocator.
ghost use Rattle.std.specs.Prelude.{◌≡◌, ◌^◌, ◌<◌, ◌≤◌, None, MatchResult};
ghost use Rattle.allocation.specs.Asked.{asked};
ghost use Rattle.allocation.specs.declared.fault.Refusal.TheVariants.{RegionDiffers};
ghost use Rattle.allocation.specs.Faults.{block_at};
ghost use Rattle.lone_block.specs.Blocks.{inside, first_place};
ghost use Rattle.lone_block.specs.Lone.{lone};
ghost use Rattle.lone_block.specs.Laws.{lawful_alone};

use crate::lone::LoneBlock;
use allocation::allocation::Allocator;
use allocation::block::Block;
use allocation::fault::{Fault, Refusal};
use allocation::layout::Layout;

impl LoneBlock {
    // An allocator without a block, unless the base or the length is too large or the length too small.
    pub fn new(base: usize, extent: usize) -> Result<LoneBlock, Refusal>
        ensures { MatchResult result
            (λ a. (a.base ≡ base) × (a.extent ≡ extent) × (a.live ≡ None))
            (λ e. (base ≤ 2 ^ 47 → 1024 ≤ extent → extent ≤ 2 ^ 32 → ⊥) × (e ≡ RegionDiffers)) }
    {
        if base > 1 << 47 || extent < 1024 || extent > 1 << 32 {
            return Err(Refusal::RegionDiffers);
        }
        Ok(LoneBlock {
            base,
            extent,
            live: None,
        })
    }

    // Where a first block of the layout stands.
    fn candidate(&self, layout: Layout) -> Block
        ensures { result ≡ block_at (first_place self.now.base (asked layout).align) (asked layout) }
    {
        let align = layout.align().as_usize();
        Block::at(self.base.next_multiple_of(align) - self.base, layout)
    }

    // Whether a block lies in the region and is aligned.
    fn has_room(&self, block: Block) -> bool
        requires { 0 < block.align }
        ensures { result ≡ inside self.now.base self.now.extent block }
    {
        block.size > 0
            && block.size <= self.extent
            && block.place <= self.extent - block.size
            && (self.base + block.place).is_multiple_of(block.align)
    }
}

impl Allocator for LoneBlock {
    ghost meaning = { lone };

    ghost lawful = { λ a. lawful_alone a.base a.extent a.long a.live a.kept };

    fn base(&self) -> usize {
        self.base
    }

    fn extent(&self) -> usize {
        self.extent
    }

    fn room(&self) -> usize {
        self.extent
    }

    fn copies(&self) -> bool {
        false
    }

    fn any_live(&self) -> bool {
        self.live.is_some()
    }

    fn is_live(&self, block: Block) -> bool {
        self.live == Some(block)
    }

    fn would_grant(&self, layout: Layout) -> bool {
        self.live.is_none() && self.has_room(self.candidate(layout))
    }

    fn would_grow(&self, block: Block, layout: Layout) -> bool {
        self.is_live(block)
            && block.size <= layout.size()
            && self.has_room(Block::at(block.place, layout))
    }

    fn allocate(&mut self, region: &[u8], layout: Layout) -> Result<usize, Fault> {
        let block = self.candidate(layout);
        if region.len() != self.extent {
            return Err(Fault::by_allocator(Refusal::RegionDiffers, block.into()));
        }
        if block.size == 0 {
            return Err(Fault::by_allocator(Refusal::NoSuchBlock, block.into()));
        }
        if !self.would_grant(layout) {
            return Err(Fault::by_allocator(Refusal::NotGranted, block.into()));
        }
        self.live = Some(block);
        Ok(block.place)
    }

    fn deallocate(&mut self, region: &[u8], block: Block) -> Result<(), Fault> {
        if region.len() != self.extent {
            return Err(Fault::by_allocator(Refusal::RegionDiffers, block.into()));
        }
        if !self.is_live(block) {
            return Err(Fault::by_allocator(Refusal::NoSuchBlock, block.into()));
        }
        self.live = None;
        Ok(())
    }

    fn grow(&mut self, region: &mut [u8], block: Block, layout: Layout) -> Result<usize, Fault> {
        let grown = Block::at(block.place, layout);
        if region.len() != self.extent {
            return Err(Fault::by_allocator(Refusal::RegionDiffers, grown.into()));
        }
        if !self.is_live(block) || grown.size < block.size {
            return Err(Fault::by_allocator(Refusal::NoSuchBlock, grown.into()));
        }
        if !self.has_room(grown) {
            return Err(Fault::by_allocator(Refusal::NotGranted, grown.into()));
        }
        self.live = Some(grown);
        Ok(grown.place)
    }
}

#[cfg(test)]
mod tests {
    use crate::lone::LoneBlock;
    use allocation::alignment::Alignment;
    use allocation::allocation::Allocator;
    use allocation::block::Block;
    use allocation::layout::Layout;
    use std::test::Fail;

    // Base 3: the first address that is a multiple of 16 is at place 13.
    #[test]
    fn one_at_a_time(rt: HostRuntime) -> Result<(), Fail> {
        let mut region = [9u8; 1024];
        let mut lone = LoneBlock::new(3, 1024)?;
        let align = Alignment::try_from_untrusted_exponent(4)?;
        let small = Layout::from_size_align(16, align)?;
        let large = Layout::from_size_align(1011, align)?;
        assert_eq!(rt; lone.allocate_zeroed(&mut region, small)?, 13);
        assert!(rt; region[12] == 9 && region[13] == 0 && region[28] == 0 && region[29] == 9);
        assert!(rt; !lone.would_grant(small));
        let first = Block {
            place: 13,
            size: 16,
            align: 16,
        };
        assert_eq!(rt; lone.grow(&mut region, first, large)?, 13);
        assert!(rt; !lone.is_live(first) && lone.any_live());
        let grown = Block {
            place: 13,
            size: 1011,
            align: 16,
        };
        lone.deallocate(&region, grown)?;
        assert!(rt; lone.would_grant(large) && !lone.any_live());
        Ok(())
    }
}
