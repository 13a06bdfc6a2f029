// SPDX-License-Identifier: Apache-2.0
// Steps of a case: a call, and what it must answer.
use allocation::alignment::Alignment;
use allocation::allocation::Allocator;
use allocation::block::Block;
use allocation::fault::{Fault, Refusal};
use allocation::layout::Layout;
use std::fmt::Debug;
use std::test::Fail;

// A call by its numbers and then its answer: each layout is a size and an exponent, each block its place and layout.
#[derive(Clone, Copy)]
pub enum Step {
    Allocate((usize, u8), Result<usize, Refusal>),
    Deallocate((usize, usize, u8), Result<(), Refusal>),
    Grow((usize, usize, u8), (usize, u8), Result<usize, Refusal>),
}

pub fn layout(size: usize, exponent: u8) -> Result<Layout, Refusal> {
    let align = Alignment::try_from_untrusted_exponent(exponent)?;
    Layout::from_size_align(size, align)
}

pub fn block(place: usize, size: usize, exponent: u8) -> Result<Block, Refusal> {
    let align = Alignment::try_from_untrusted_exponent(exponent)?.as_usize();
    Ok(Block { place, size, align })
}

// Holds a call's answer to the one that is written.
fn check<T: PartialEq + Debug + Drop>(
    i: usize,
    answer: Result<T, Fault>,
    written: Result<T, Refusal>,
) -> Result<(), Fail> {
    let answer = answer.map_err(Fault::refusal);
    if answer != written {
        return Err(Fail::new(format_args!("step {i}: {answer:?}, and not {written:?}")));
    }
    Ok(())
}

// Makes the calls one after another, and holds each answer to the one that is written.
pub fn replay<B: Allocator>(
    allocator: &mut B,
    region: &mut [u8],
    steps: &[Step],
) -> Result<(), Fail> {
    for (i, step) in steps.iter().enumerate() {
        match *step {
            Step::Allocate((size, exponent), written) => {
                let layout = layout(size, exponent)?;
                check(i, allocator.allocate(region, layout), written)?;
            }
            Step::Deallocate((place, size, exponent), written) => {
                let block = block(place, size, exponent)?;
                check(i, allocator.deallocate(region, block), written)?;
            }
            Step::Grow((place, size, exponent), (new_size, new_exponent), written) => {
                let block = block(place, size, exponent)?;
                let layout = layout(new_size, new_exponent)?;
                check(i, allocator.grow(region, block, layout), written)?;
            }
        }
    }
    Ok(())
}

// Takes all 64 lines of a table, by blocks of 8 bytes that stand one behind another.
pub fn fill<B: Allocator>(allocator: &mut B, region: &[u8]) -> Result<(), Fail> {
    for i in 0..64usize {
        check(i, allocator.allocate(region, layout(8, 0)?), Ok(8 * i))?;
    }
    Ok(())
}

#[cfg(test)]
mod tests {
    use super::*;

    // The numbers that stand for the refusals of the cases.
    #[test]
    fn numbers(rt: HostRuntime) {
        assert_eq!(rt; Refusal::RegionDiffers.number(), 1);
        assert_eq!(rt; Refusal::NotGranted.number(), 9);
        assert_eq!(rt; Refusal::NoSuchBlock.number(), 18);
    }
}
