// SPDX-License-Identifier: Apache-2.0
// Why a call was refused, and what travels with it to the caller.
ghost use Rattle.std.specs.Prelude.{◌≡◌};
ghost use Rattle.allocation.specs.declared.fault.Fault.TheVariants.{Alone, Asked};
ghost use Rattle.allocation.specs.declared.fault.Layer.TheVariants.{Allocator};
ghost use Rattle.allocation.specs.Refusals.{number, refusal_of};

use crate::block::Request;
use std::fmt;

// Why a call was refused, by the number that stands for it.
#[derive(Clone, Copy, PartialEq, Eq, Debug)]
pub enum Refusal {
    RegionDiffers = 1,
    UnknownHandle = 2,
    NoHandleLeft = 3,
    ExponentTooLarge = 4,
    AlignmentTooLarge = 5,
    BelowKindAlignment = 6,
    Overflow = 7,
    LayoutTooLarge = 8,
    NotGranted = 9,
    BoundOverflow = 10,
    RangeReversed = 11,
    RangeBeyondLength = 12,
    OffsetUnaligned = 13,
    StartUnaligned = 14,
    PartialElement = 15,
    IndexBeyondLength = 16,
    BackingShared = 17,
    NoSuchBlock = 18,
}

impl Refusal {
    // The number that stands for the refusal.
    pub fn number(self) -> u8
        ensures { result ≡ number self }
    {
        self as u8
    }

    // The number comes from the variant, so the words stand apart from it: a derived `Display` would repeat each number in its text.
    fn words(self) -> &'static str {
        match self {
            Refusal::RegionDiffers => "the region is not the one that was agreed on",
            Refusal::UnknownHandle => "the store has no such handle",
            Refusal::NoHandleLeft => "the store has no handle left",
            Refusal::ExponentTooLarge => "the exponent is 64 or more",
            Refusal::AlignmentTooLarge => "the alignment is above the greatest",
            Refusal::BelowKindAlignment => "the alignment is below that of the kind",
            Refusal::Overflow => "a count of bytes passes 64 bits",
            Refusal::LayoutTooLarge => "the layout is too large",
            Refusal::NotGranted => "the allocator does not grant it",
            Refusal::BoundOverflow => "a bound passes 64 bits",
            Refusal::RangeReversed => "the range ends before it begins",
            Refusal::RangeBeyondLength => "the range ends beyond the length",
            Refusal::OffsetUnaligned => "the offset is not a multiple of the alignment",
            Refusal::StartUnaligned => "the start is not a multiple of the alignment",
            Refusal::PartialElement => "the bytes are no whole number of elements",
            Refusal::IndexBeyondLength => "the index is not below the length",
            Refusal::BackingShared => "another handle is on the backing",
            Refusal::NoSuchBlock => "no such block is live, or none could be",
        }
    }
}

// The layer that refused.
#[derive(Clone, Copy, PartialEq, Eq, Debug)]
pub enum Layer {
    Allocator,
}

// A refusal on its way to the caller. An allocator's own carries its layer and what was asked for; every other comes alone.
#[derive(Clone, Copy, PartialEq, Eq, Debug)]
pub enum Fault {
    Alone(Refusal),
    Asked(Refusal, Layer, Request),
}

impl Fault {
    // An allocator's own refusal, with what was asked for.
    pub fn by_allocator(refusal: Refusal, request: Request) -> Fault
        ensures { result ≡ Asked refusal Allocator request }
    {
        Fault::Asked(refusal, Layer::Allocator, request)
    }

    // Why the call was refused.
    pub fn refusal(self) -> Refusal
        ensures { result ≡ refusal_of self }
    {
        match self {
            Fault::Alone(why) => why,
            Fault::Asked(why, _, _) => why,
        }
    }
}

impl From<Refusal> for Fault {
    ghost from_gives = { λ r f. f ≡ Alone r };

    fn from(refusal: Refusal) -> Fault {
        Fault::Alone(refusal)
    }
}

impl fmt::Display for Refusal {
    fn fmt<W: fmt::Write>(&self, f: &mut fmt::Formatter<W>) -> fmt::Result {
        let number = self.number();
        let words = self.words();
        write!(f, "refusal {number}: {words}")
    }
}

impl fmt::Display for Fault {
    fn fmt<W: fmt::Write>(&self, f: &mut fmt::Formatter<W>) -> fmt::Result {
        match self {
            Fault::Alone(why) => write!(f, "{why}"),
            Fault::Asked(why, Layer::Allocator, request) => {
                let size = request.size;
                let align = request.align;
                write!(f, "{why} (allocator, {size} bytes at alignment {align})")
            }
        }
    }
}
