// SPDX-License-Identifier: Apache-2.0
// What is asked of an arena, and the changes of its blocks.
ghost use Rattle.std.specs.Prelude.{◌≡◌, ℕ, ◌+◌, ◌^◌, ◌<◌, ◌≤◌, true, false, [], ◌∷◌, ◌++◌, length, position, MatchOption, MatchResult, ◌==◌};
ghost use Rattle.region.specs.Bytes.{part, overwrite};
ghost use Rattle.allocation.specs.Alignments.{greatest_exponent};
ghost use Rattle.allocation.specs.declared.fault.Refusal.TheVariants.{RegionDiffers};
ghost use Rattle.allocation.specs.Faults.{same_block, is_among};
ghost use Rattle.allocators.specs.Fitting.{fits, highest_end};
ghost use Rattle.allocators.specs.Placings.{Limits, may_grow};
ghost use Rattle.allocators.specs.Tables.{without};

use crate::arena::{Arena, LINES};
use crate::places::{highest, lowest_place};
use allocation::block::{Block, Request};
use allocation::fault::Refusal;
use arrayvec::ArrayVec;
use region::move_within;

// Brings a block's bytes to the place that it was given.
pub(crate) fn carry(region: &mut [u8], block: Block, place: usize)
    requires source { block.place + block.size ≤ length region.old }
    requires target { place + block.size ≤ length region.old }
    ensures { region.new ≡ overwrite place (part block.place block.size region.old) region.old }
{
    if place != block.place {
        move_within(region, block.place, place, block.size);
    }
}

// Where a block stands among the live ones.
fn index_of(live: &[Block], block: Block) -> Option<usize>
    ensures { result ≡ position (λ b. same_block b block) live.now }
{
    live.iter().position(|b| *b == block)
}

// Takes a block out of the live ones; answers whether it was there.
pub(crate) fn take_out(live: &mut ArrayVec<Block, LINES>, block: Block) -> bool
    ensures found { result ≡ is_among block live.old.items }
    ensures taken { live.new.items ≡ without live.old.items block }
    ensures few { length live.old.items ≤ 64 }
{
    let Some(i) = index_of(live.as_slice(), block) else {
        return false;
    };
    live.remove(i);
    true
}

// Puts a block behind the live ones in the place of one of them.
pub(crate) fn exchange(live: &mut ArrayVec<Block, LINES>, block: Block, new: Block)
    requires { is_among block live.old.items ≡ true }
    ensures { live.new.items ≡ without live.old.items block ++ new ∷ [] }
{
    take_out(live, block);
    live.push(new);
}

impl Arena {
    // An arena without a block, unless a limit is broken.
    pub(crate) fn new(base: usize, extent: usize) -> Result<Arena, Refusal>
        ensures { MatchResult result
            (λ a. Limits base extent × (a.base ≡ base) × (a.extent ≡ extent) × (a.live.items ≡ []))
            (λ e. (Limits base extent → ⊥) × (e ≡ RegionDiffers)) }
    {
        if base < 1 || base > 1 << 47 || extent < 1024 || extent > 1 << 32 {
            return Err(Refusal::RegionDiffers);
        }
        Ok(Arena {
            base,
            extent,
            live: ArrayVec::new(),
        })
    }

    // Whether the region has the length that was agreed on.
    pub(crate) fn serves(&self, region: &[u8]) -> bool
        ensures { result ≡ (length region.now == self.now.extent) }
    {
        region.len() == self.extent
    }

    // Whether this block is live.
    pub(crate) fn holds(&self, block: Block) -> bool
        ensures { result ≡ is_among block self.now.live.items }
    {
        self.live.as_slice().contains(&block)
    }

    // Whether the block is live and the request no smaller.
    pub(crate) fn may_grow(&self, block: Block, request: Request) -> bool
        ensures { result ≡ may_grow self.now.live.items block request }
    {
        self.holds(block) && block.size <= request.size
    }

    // The end of the highest block, or 0.
    pub(crate) fn highest_end(&self) -> usize
        ensures end { result ≡ highest_end self.now.live.items }
        ensures within { result ≤ self.now.extent }
    {
        highest(self.live.as_slice())
    }

    // The lowest place at or above `start` where a block of the request fits between the live ones.
    pub(crate) fn lowest_place(&self, start: usize, request: Request) -> Option<usize>
        requires start { start ≤ self.now.extent }
        requires align { 0 < request.align }
        requires small { request.align ≤ 2 ^ greatest_exponent }
        ensures { MatchOption result
            ((q : ℕ) → start ≤ q → fits self.now.base self.now.extent self.now.live.items request q ≡ false)
            (λ p. (start ≤ p) × (fits self.now.base self.now.extent self.now.live.items request p ≡ true)
            × ((q : ℕ) → start ≤ q → q < p → fits self.now.base self.now.extent self.now.live.items request q ≡ false)) }
    {
        lowest_place(self.base, self.extent, self.live.as_slice(), start, request)
    }
}
