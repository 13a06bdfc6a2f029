// SPDX-License-Identifier: Apache-2.0
// General: the lowest place that fits; every growth moves.
#[cfg(test)]
mod tests {
    use crate::replay::Step::{Allocate, Deallocate, Grow};
    use crate::replay::{Step, block, fill, layout, replay};
    use allocation::allocation::Allocator;
    use allocation::fault::Refusal::{self, NoSuchBlock, NotGranted, RegionDiffers};
    use allocators::general::General;
    use std::test::Fail;

    // base 65,536, 2,048 bytes: gaps are filled from below, and growth needs a place beside the old block
    static FITS: &[Step] = &[
        Allocate((1, 0), Ok(0)),
        Allocate((1, 3), Ok(8)),
        Allocate((7, 0), Ok(1)),
        Allocate((8, 0), Ok(9)),
        Allocate((0, 0), Err(NoSuchBlock)),
        Allocate((2049, 0), Err(NotGranted)),
        Allocate((2032, 0), Err(NotGranted)),
        Allocate((2031, 0), Ok(17)),
        Allocate((1, 0), Err(NotGranted)),
        Deallocate((17, 2031, 1), Err(NoSuchBlock)),
        Deallocate((17, 2030, 0), Err(NoSuchBlock)),
        Deallocate((16, 2031, 0), Err(NoSuchBlock)),
        Deallocate((17, 2031, 0), Ok(())),
        Deallocate((17, 2031, 0), Err(NoSuchBlock)),
        Allocate((16, 4), Ok(32)),
        Allocate((15, 0), Ok(17)),
        Grow((1, 7, 0), (7, 0), Ok(48)),
        Grow((1, 7, 0), (8, 0), Err(NoSuchBlock)),
        Allocate((7, 0), Ok(1)),
        Grow((48, 7, 0), (6, 0), Err(NoSuchBlock)),
        Grow((48, 7, 0), (0, 0), Err(NoSuchBlock)),
        Grow((48, 7, 0), (1994, 0), Err(NotGranted)),
        Grow((48, 7, 0), (1993, 0), Ok(55)),
        Allocate((1, 16), Err(NotGranted)),
    ];

    // base 63,488, 4,096 bytes: alignments up to 65,536 count from address 0
    static ALIGNED: &[Step] = &[
        Allocate((2048, 16), Ok(2048)),
        Allocate((1, 16), Err(NotGranted)),
        Allocate((1024, 10), Ok(0)),
        Allocate((1024, 11), Err(NotGranted)),
        Allocate((1024, 10), Ok(1024)),
        Allocate((1, 0), Err(NotGranted)),
    ];

    // base 1, 1,024 bytes: no place is its own address
    static ODD: &[Step] = &[
        Allocate((1, 1), Ok(1)),
        Allocate((1, 2), Ok(3)),
        Allocate((1, 0), Ok(0)),
        Allocate((1, 0), Ok(2)),
        Allocate((1, 8), Ok(255)),
        Allocate((769, 0), Err(NotGranted)),
        Allocate((768, 0), Ok(256)),
        Allocate((251, 0), Ok(4)),
        Allocate((1, 0), Err(NotGranted)),
    ];

    // a region of another length is refused before anything else is looked at
    static WRONG: &[Step] = &[
        Allocate((0, 0), Err(RegionDiffers)),
        Allocate((8, 0), Err(RegionDiffers)),
        Deallocate((0, 8, 0), Err(RegionDiffers)),
        Grow((0, 8, 0), (4, 0), Err(RegionDiffers)),
    ];

    // 64 blocks of 8 bytes in 1,024: growth needs a free line, whatever room there is
    static FULL: &[Step] = &[
        Allocate((8, 0), Err(NotGranted)),
        Grow((0, 8, 0), (8, 0), Err(NotGranted)),
        Deallocate((504, 8, 0), Ok(())),
        Grow((0, 8, 0), (8, 0), Ok(504)),
        Allocate((8, 0), Ok(0)),
    ];

    fn case(base: usize, region: &mut [u8], steps: &[Step]) -> Result<(), Fail> {
        let mut general = General::new(base, region.len())?;
        replay(&mut general, region, steps)
    }

    #[test]
    fn places() -> Result<(), Fail> {
        let mut small = [0u8; 1024];
        let mut middle = [0u8; 2048];
        let mut large = [0u8; 4096];
        case(65536, &mut middle, FITS)?;
        case(63488, &mut large, ALIGNED)?;
        case(1, &mut small, ODD)
    }

    #[test]
    fn tables() -> Result<(), Fail> {
        let mut region = [0u8; 1024];
        let mut general = General::new(65536, 1024)?;
        fill(&mut general, &region)?;
        replay(&mut general, &mut region, FULL)?;
        replay(&mut general, &mut region[0..1023], WRONG)
    }

    // Growth brings the bytes along and writes no other; a block is zeroed and nothing beside it.
    #[test]
    fn bytes(rt: HostRuntime) -> Result<(), Fail> {
        let mut region = [7u8; 1024];
        let mut general = General::new(65536, 1024)?;
        assert_eq!(rt; general.allocate(&region, layout(3, 0)?)?, 0);
        region[0] = 1;
        region[2] = 3;
        assert_eq!(rt;
            general.grow(&mut region, block(0, 3, 0)?, layout(5, 2)?)?,
            4
        );
        assert!(rt; region[4] == 1 && region[5] == 7 && region[6] == 3 && region[7] == 7);
        assert_eq!(rt; general.allocate_zeroed(&mut region, layout(2, 0)?)?, 0);
        assert!(rt; region[0] == 0 && region[1] == 0 && region[2] == 3 && region[9] == 7);
        Ok(())
    }

    // Why there is no allocator of that region; none where there is one.
    fn refused(base: usize, extent: usize) -> Option<Refusal> {
        General::new(base, extent).err()
    }

    #[test]
    fn limits(rt: HostRuntime) {
        assert_eq!(rt; refused(0, 1024), Some(RegionDiffers));
        assert_eq!(rt; refused(1, 1023), Some(RegionDiffers));
        assert_eq!(rt; refused(1, 1024), None);
        assert_eq!(rt; refused(1 << 47, 1 << 32), None);
        assert_eq!(rt; refused((1 << 47) + 1, 1 << 32), Some(RegionDiffers));
        assert_eq!(rt; refused(1, (1 << 32) + 1), Some(RegionDiffers));
    }
}
