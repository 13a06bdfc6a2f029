// SPDX-License-Identifier: Apache-2.0
// Element kinds, and values written to and read from a region's bytes.
// Stands for the element type `T` of src/buffer.rs and src/buffer_mut.rs of vortex-buffer 0.90.0.
#![tactic(auto)]

ghost use Rattle.std.specs.Prelude.{◌≡◌, ℕ, List, length};
ghost use Rattle.element.specs.Patterns.{OneToOne, Shaped};

pub mod fields;
pub mod glass_line;
pub mod integers;
pub mod theorems;
pub mod values;
pub mod writing;

// A kind of element: all its values have one width in bytes, and each value is one byte pattern of that width.
pub trait Element: Sized {
    // How many bytes a value takes.
    ghost width: { ℕ };

    // What the address of a value is a multiple of.
    ghost align: { ℕ };

    // A value's bytes.
    ghost pattern: { Self → List ℕ };

    // The width in bytes.
    fn width() -> usize
        ensures { result ≡ width };

    // The alignment in bytes.
    fn align() -> usize
        ensures { result ≡ align };

    // Writes the value's pattern.
    fn put(&self, out: &mut [u8])
        requires { length out.old ≡ width }
        ensures { out.new ≡ pattern self.now };

    // Reads the value whose pattern the bytes are.
    fn get(bytes: &[u8]) -> Self
        requires { length bytes.now ≡ width }
        ensures { pattern result ≡ bytes.now };

    // The width is 1, 2, 4, 8 or 16, and the alignment is one of these and not above the width.
    ghost shaped: { Shaped width align };

    // Each value has one pattern of that width, and every list of so many bytes is the pattern of one value.
    ghost faithful: { OneToOne width pattern };
}
