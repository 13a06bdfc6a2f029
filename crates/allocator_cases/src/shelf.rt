// SPDX-License-Identifier: Apache-2.0
// Shelf: the lowest place at or above the highest block, which grows where it is.
#[cfg(test)]
mod tests {
    use crate::replay::Step::{Allocate, Deallocate, Grow};
    use crate::replay::{Step, fill, replay};
    use allocation::fault::Refusal::{NoSuchBlock, NotGranted};
    use allocators::shelf::Shelf;
    use std::test::Fail;

    // base 65,536, 2,048 bytes: gaps below the highest block stay, and it alone grows in place
    static STACKED: &[Step] = &[
        Allocate((10, 0), Ok(0)),
        Allocate((4, 3), Ok(16)),
        Allocate((1, 0), Ok(20)),
        Deallocate((16, 4, 3), Ok(())),
        Allocate((4, 3), Ok(24)),
        Grow((24, 4, 3), (8, 3), Ok(24)),
        Grow((24, 8, 3), (8, 5), Ok(32)),
        Grow((0, 10, 0), (12, 0), Ok(40)),
        Allocate((1, 0), Ok(52)),
        Grow((20, 1, 0), (0, 0), Err(NoSuchBlock)),
        Grow((52, 1, 0), (1996, 0), Ok(52)),
        Allocate((1, 0), Err(NotGranted)),
        Grow((52, 1996, 0), (1997, 0), Err(NotGranted)),
        Grow((20, 1, 0), (1, 0), Err(NotGranted)),
        Deallocate((52, 1996, 0), Ok(())),
        Allocate((1, 0), Ok(52)),
        Deallocate((52, 1, 0), Ok(())),
        Deallocate((40, 12, 0), Ok(())),
        Deallocate((32, 8, 5), Ok(())),
        Deallocate((20, 1, 0), Ok(())),
        Allocate((2048, 11), Ok(0)),
        Allocate((1, 0), Err(NotGranted)),
    ];

    // 64 blocks of 8 bytes in 1,024: the highest still grows, and no other
    static FULL: &[Step] = &[
        Allocate((8, 0), Err(NotGranted)),
        Grow((0, 8, 0), (8, 0), Err(NotGranted)),
        Grow((504, 8, 0), (16, 0), Ok(504)),
        Grow((496, 8, 0), (8, 0), Err(NotGranted)),
        Deallocate((0, 8, 0), Ok(())),
        Allocate((8, 0), Ok(520)),
        Allocate((8, 0), Err(NotGranted)),
    ];

    #[test]
    fn stacked() -> Result<(), Fail> {
        let mut region = [0u8; 2048];
        let mut shelf = Shelf::new(65536, 2048)?;
        replay(&mut shelf, &mut region, STACKED)
    }

    #[test]
    fn full_table() -> Result<(), Fail> {
        let mut region = [0u8; 1024];
        let mut shelf = Shelf::new(65536, 1024)?;
        fill(&mut shelf, &region)?;
        replay(&mut shelf, &mut region, FULL)
    }
}
