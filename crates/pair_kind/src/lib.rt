// SPDX-License-Identifier: Apache-2.0
// A kind that a host adds: two bytes, aligned to one. The library knows nothing of it.
#![tactic(auto)]

ghost use Rattle.std.specs.Prelude.{[], ◌∷◌, refl};
ghost use Rattle.std.proofs.Common.{lit≤};
ghost use Rattle.element.specs.Patterns.{digits};
ghost use Rattle.element.specs.Digits.{unsigned};
ghost use Rattle.element.specs.Rows.{side_by_side};
ghost use Rattle.pair_kind.specs.PairElementLemmas.{pair};

use element::Element;
use element::fields::{get_two, put_two};

#[derive(Clone, Copy, PartialEq, Eq, Debug)]
pub struct Pair {
    pub first: u8,
    pub second: u8,
}

impl Element for Pair {
    ghost width = { 2 };

    ghost align = { 1 };

    ghost pattern = { λ p. p.first ∷ p.second ∷ [] };

    ghost shaped = { record { wide = (1, lit≤ tt, refl); grain = (0, lit≤ tt, refl); within = lit≤ tt } };

    ghost faithful = { unfold pair in side_by_side 1 1 (digits 1) (digits 1) (unsigned 0) (unsigned 0) (λ p. p.first) (λ p. p.second) pair (λ p. refl) (λ x y. refl) (λ x y. refl) };

    fn width() -> usize {
        2
    }

    fn align() -> usize {
        1
    }

    fn put(&self, out: &mut [u8]) {
        put_two(out, &self.first, &self.second);
    }

    fn get(bytes: &[u8]) -> Pair {
        let (first, second) = get_two::<u8, u8>(bytes);
        Pair { first, second }
    }
}

#[cfg(test)]
mod tests {
    use super::*;
    use element::glass_line::GlassLine;
    use element::values::{Repeated, Values};
    use element::writing::{read_at, write_one};

    // Three pairs behind the first byte of a region: the bytes around them stay, and each is read back.
    #[test]
    fn pairs_stand_in_a_region(rt: HostRuntime) {
        let mut region = [9u8; 8];
        let pairs = [
            Pair {
                first: 1,
                second: 2,
            },
            Pair {
                first: 3,
                second: 4,
            },
            Pair {
                first: 5,
                second: 6,
            },
        ];
        pairs.as_slice().write(&mut region, 1);
        assert_eq!(rt; region, [9, 1, 2, 3, 4, 5, 6, 9]);
        assert_eq!(rt; read_at::<Pair>(&region[1..7], 1), Some(pairs[1]));
        assert_eq!(rt; read_at::<Pair>(&region[1..7], 3), None);
    }

    #[test]
    fn one_pair_repeats(rt: HostRuntime) {
        let mut region = [0u8; 5];
        let pair = Pair {
            first: 7,
            second: 8,
        };
        let pairs = Repeated {
            value: &pair,
            times: 2,
        };
        pairs.write(&mut region, 1);
        assert_eq!(rt; region, [0, 7, 8, 7, 8]);
    }

    // The library's own kinds: little-endian, two's complement, fields in their order.
    #[test]
    fn other_kinds_stand_beside_them(rt: HostRuntime) {
        let mut region = [7u8; 12];
        write_one(&mut region, 1, &0x0102u16);
        write_one(&mut region, 3, &-2i64);
        assert_eq!(rt;
            region,
            [7, 2, 1, 254, 255, 255, 255, 255, 255, 255, 255, 7]
        );
        assert_eq!(rt; read_at::<u16>(&region[1..3], 0), Some(0x0102));
        assert_eq!(rt; read_at::<i64>(&region[3..11], 0), Some(-2));
        assert_eq!(rt; read_at::<i64>(&region[3..11], 1), None);
    }

    #[test]
    fn a_glass_line_is_its_fields(rt: HostRuntime) {
        let mut region = [0u8; 16];
        let line = GlassLine {
            catalogue: 1,
            glass: 0x0a0b,
            thickness: -1,
        };
        write_one(&mut region, 0, &line);
        assert_eq!(rt;
            region,
            [
                1, 0, 0, 0, 11, 10, 0, 0, 255, 255, 255, 255, 255, 255, 255, 255,
            ]
        );
    }
}
