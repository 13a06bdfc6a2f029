// SPDX-License-Identifier: Apache-2.0
// After the published page on `core::alloc::Layout`.
ghost use Rattle.std.specs.Prelude.{◌≡◌, ◌^◌, ◌<◌, ◌≤◌, MatchResult, nat_le};
ghost use Rattle.allocation.specs.Alignments.{round_up, greatest_size};
ghost use Rattle.allocation.specs.declared.fault.Refusal.TheVariants.{LayoutTooLarge};

use crate::alignment::Alignment;
use crate::fault::Refusal;

// The greatest size that a layout may come to, rounded up to its alignment: 2^63 - 1.
const GREATEST_SIZE: usize = (1 << 63) - 1;

// A size and an alignment that some block could have.
#[derive(Clone, Copy)]
pub struct Layout {
    size: usize,
    align: Alignment,
    ghost valid: { round_up size (2 ^ align.exponent) ≤ greatest_size },
}

// Whether the size, rounded up to the alignment, stays within the greatest size.
fn is_valid(size: usize, align: Alignment) -> bool
    ensures { result ≡ nat_le (round_up size (2 ^ align.exponent)) greatest_size }
{
    size <= GREATEST_SIZE - (align.as_usize() - 1)
}

impl Layout {
    // A layout, unless the size rounded up to the alignment passes the greatest size.
    pub fn from_size_align(size: usize, align: Alignment) -> Result<Layout, Refusal>
        ensures { MatchResult result
            (λ l. (round_up size (2 ^ align.exponent) ≤ greatest_size) × (l.size ≡ size) × (l.align ≡ align))
            (λ e. (greatest_size < round_up size (2 ^ align.exponent)) × (e ≡ LayoutTooLarge)) }
    {
        if !is_valid(size, align) {
            return Err(Refusal::LayoutTooLarge);
        }
        Ok(Layout { size, align })
    }

    pub fn size(self) -> usize
        ensures { result ≡ self.size }
    {
        self.size
    }

    pub fn align(self) -> Alignment
        ensures { result ≡ self.align }
    {
        self.align
    }
}
