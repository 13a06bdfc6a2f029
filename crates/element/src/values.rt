// SPDX-License-Identifier: Apache-2.0
// Values that are to be written into a region, wherever they come from.
// Stands for the pointer writes of `T` in src/buffer_mut.rs of vortex-buffer 0.90.0.
ghost use Rattle.std.specs.Prelude.{◌≡◌, ℕ, ◌+◌, ◌*◌, ◌≤◌, List, map, length, replicate};
ghost use Rattle.std.specs.List.{flat_map, AllByRecursion};
ghost use Rattle.region.specs.Bytes.{overwrite};
ghost use Rattle.element.specs.Joined.{wide_map, joins_map, wide_replicate, joins_replicate};

use crate::Element;
use crate::writing::write_one;

// Values of one kind, to be written one behind another.
pub trait Values {
    // How many bytes each value takes.
    ghost width: { ℕ };

    // The values' patterns, in their order.
    ghost patterns: { Self → List (List ℕ) };

    // The bytes of the patterns, one behind another.
    ghost bytes: { Self → List ℕ };

    // How many values there are.
    fn count(&self) -> usize
        ensures { result ≡ length (patterns self.now) };

    // Writes the values' patterns one behind another, from a place on.
    fn write(&self, region: &mut [u8], place: usize)
        requires { place + length (patterns self.now) * width ≤ length region.old }
        ensures { region.new ≡ overwrite place (bytes self.now) region.old };

    // Each pattern has the width.
    ghost wide: { (xs : Self) → AllByRecursion (λ p. length p ≡ width) (patterns xs) };

    // The bytes are the patterns, joined.
    ghost joins: { (xs : Self) → flat_map (λ p. p) (patterns xs) ≡ bytes xs };
}

// The values of a slice.
impl<K: Element> Values for &[K] {
    ghost width = { K.width };

    ghost patterns = { λ xs. map K.pattern xs.now };

    ghost bytes = { λ xs. flat_map K.pattern xs.now };

    ghost wide = { λ xs. wide_map K.width K.pattern K.faithful.long xs.now };

    ghost joins = { λ xs. joins_map K.pattern xs.now };

    fn count(&self) -> usize {
        self.len()
    }

    fn write(&self, region: &mut [u8], place: usize) {
        let width = K::width();
        // A proof knows nothing of what `chunks_exact_mut` leaves in the region, so each part is cut out by its place.
        for (i, value) in self.iter().enumerate() {
            let from = place + i * width;
            value.put(&mut region[from..from + width]);
        }
    }
}

// One value, several times.
#[derive(Clone, Copy)]
pub struct Repeated<'a, K> {
    pub value: &'a K,
    pub times: usize,
}

impl<'a, K: Element> Values for Repeated<'a, K> {
    ghost width = { K.width };

    ghost patterns = { λ xs. replicate xs.times (K.pattern xs.value.now) };

    ghost bytes = { λ xs. flat_map K.pattern (replicate xs.times xs.value.now) };

    ghost wide = { λ xs. wide_replicate K.width K.pattern K.faithful.long xs.times xs.value.now };

    ghost joins = { λ xs. joins_replicate K.pattern xs.times xs.value.now };

    fn count(&self) -> usize {
        self.times
    }

    fn write(&self, region: &mut [u8], place: usize) {
        let width = K::width();
        for i in 0..self.times {
            write_one(region, place + i * width, self.value);
        }
    }
}
