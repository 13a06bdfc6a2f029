// SPDX-License-Identifier: Apache-2.0
// The glass line: one line of an order for blanks.
ghost use Rattle.element.specs.Glass.{glass_pattern};
ghost use Rattle.std.proofs.Common.{lit≤};
ghost use Rattle.std.specs.Prelude.{refl};
ghost use Rattle.element.specs.Patterns.{digits, complement};
ghost use Rattle.element.specs.Digits.{unsigned, signed};
ghost use Rattle.element.specs.Rows.{side_by_side};
ghost use Rattle.element.specs.GlassLineElementLemmas.{behind, line};

use crate::Element;
use crate::fields::{get_three, put_three};

#[derive(Clone, Copy)]
pub struct GlassLine {
    pub catalogue: u32,
    pub glass: u32,
    pub thickness: i64,
}

impl Element for GlassLine {
    ghost width = { 16 };

    ghost align = { 8 };

    ghost pattern = { glass_pattern };

    ghost shaped = { record { wide = (4, lit≤ tt, refl); grain = (3, lit≤ tt, refl); within = lit≤ tt } };

    ghost faithful = { unfold line in
        side_by_side 4 12 (digits 4) behind (unsigned 3) (side_by_side 4 8 (digits 4) (λ z. digits 8 (complement z)) (unsigned 3) signed (λ p. p.0) (λ p. p.1) (λ x y. (x, y)) (λ p. refl) (λ x y. refl) (λ x y. refl))
        (λ g. g.catalogue) (λ g. (g.glass, g.thickness)) line (λ g. refl) (λ x y. refl) (λ x y. refl) };

    fn width() -> usize {
        16
    }

    fn align() -> usize {
        8
    }

    // All fields are read before the first is written: the compiler then joins their stores.
    fn put(&self, out: &mut [u8]) {
        let GlassLine {
            catalogue,
            glass,
            thickness,
        } = *self;
        put_three(out, &catalogue, &glass, &thickness);
    }

    fn get(bytes: &[u8]) -> GlassLine {
        let (catalogue, glass, thickness) = get_three::<u32, u32, i64>(bytes);
        GlassLine {
            catalogue,
            glass,
            thickness,
        }
    }
}
