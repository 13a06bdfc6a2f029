// SPDX-License-Identifier: Apache-2.0
// Works over src/alignment.rs of vortex-buffer 0.90.0.
ghost use Rattle.std.specs.Prelude.{◌≡◌, ◌%◌, ◌^◌, ◌<◌, ◌≤◌, ◌⊎◌, MatchResult, ◌==◌};
ghost use Rattle.allocation.specs.Alignments.{greatest_exponent};
ghost use Rattle.allocation.specs.declared.fault.Refusal.TheVariants.{ExponentTooLarge, AlignmentTooLarge};

use crate::fault::Refusal;

// The greatest exponent of an alignment: the one place of the code where the limit stands.
const GREATEST_EXPONENT: u8 = 16;

// The greatest alignment in bytes.
pub const MAX_UNTRUSTED: usize = 1 << GREATEST_EXPONENT;

// The alignment in bytes that a buffer prefers where its maker names none.
pub const DEFAULT_ALIGNMENT: usize = 256;

// A power of two, by its exponent.
#[derive(Clone, Copy, PartialEq, Eq)]
pub struct Alignment {
    exponent: u8,
    ghost small: { exponent ≤ greatest_exponent },
}

// Its conversions have the names of the Rust crate.
impl Alignment {
    // The alignment of an exponent that was read from outside.
    pub fn try_from_untrusted_exponent(exponent: u8) -> Result<Alignment, Refusal>
        ensures { MatchResult result
            (λ a. (exponent ≤ greatest_exponent) × (a.exponent ≡ exponent))
            (λ e. ((64 ≤ exponent) × (e ≡ ExponentTooLarge)) ⊎ ((greatest_exponent < exponent) × (exponent < 64) × (e ≡ AlignmentTooLarge))) }
    {
        if exponent >= 64 {
            return Err(Refusal::ExponentTooLarge);
        }
        if exponent > GREATEST_EXPONENT {
            return Err(Refusal::AlignmentTooLarge);
        }
        Ok(Alignment { exponent })
    }

    // The alignment of one byte.
    pub fn none() -> Alignment
        ensures { result.exponent ≡ 0 }
    {
        Alignment { exponent: 0 }
    }

    // The alignment that a buffer prefers where its maker names none: `DEFAULT_ALIGNMENT` bytes.
    pub fn default_alignment() -> Alignment
        ensures { 2 ^ result.exponent ≡ 256 }
    {
        Alignment { exponent: 8 }
    }

    pub fn exponent(self) -> u8
        ensures { result ≡ self.exponent }
    {
        self.exponent
    }

    // The alignment in bytes.
    pub fn as_usize(self) -> usize
        ensures { result ≡ 2 ^ self.exponent }
    {
        1 << self.exponent
    }

    // Whether what is aligned to this is aligned to the other too.
    pub fn is_aligned_to(self, other: Alignment) -> bool
        ensures { result ≡ ((2 ^ self.exponent) % (2 ^ other.exponent) == 0) }
    {
        other.exponent <= self.exponent
    }

    // Whether an offset is a multiple of the alignment.
    pub fn is_offset_aligned(self, offset: usize) -> bool
        ensures { result ≡ (offset % (2 ^ self.exponent) == 0) }
    {
        offset.is_multiple_of(self.as_usize())
    }
}
