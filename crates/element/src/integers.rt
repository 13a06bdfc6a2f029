// SPDX-License-Identifier: Apache-2.0
// The integer kinds: little-endian, two's complement, aligned to their width.
// Each is an impl of its own: no trait of the library says that a number and its bytes determine each other.
ghost use Rattle.std.proofs.Common.{lit≤};
ghost use Rattle.element.specs.Patterns.{digits, complement};
ghost use Rattle.element.specs.Digits.{aligned_to_width, unsigned, signed};

use crate::Element;

impl Element for u8 {
    ghost width = { 1 };

    ghost align = { 1 };

    ghost pattern = { digits 1 };

    ghost shaped = { aligned_to_width 0 (lit≤ tt) };

    ghost faithful = { unsigned 0 };

    fn width() -> usize {
        1
    }

    fn align() -> usize {
        1
    }

    fn put(&self, out: &mut [u8]) {
        out.copy_from_slice(&u8::to_le_bytes(*self));
    }

    fn get(bytes: &[u8]) -> u8 {
        u8::from_le_bytes(*bytes.as_array().unwrap())
    }
}

impl Element for u16 {
    ghost width = { 2 };

    ghost align = { 2 };

    ghost pattern = { digits 2 };

    ghost shaped = { aligned_to_width 1 (lit≤ tt) };

    ghost faithful = { unsigned 1 };

    fn width() -> usize {
        2
    }

    fn align() -> usize {
        2
    }

    fn put(&self, out: &mut [u8]) {
        out.copy_from_slice(&u16::to_le_bytes(*self));
    }

    fn get(bytes: &[u8]) -> u16 {
        u16::from_le_bytes(*bytes.as_array().unwrap())
    }
}

impl Element for u32 {
    ghost width = { 4 };

    ghost align = { 4 };

    ghost pattern = { digits 4 };

    ghost shaped = { aligned_to_width 2 (lit≤ tt) };

    ghost faithful = { unsigned 3 };

    fn width() -> usize {
        4
    }

    fn align() -> usize {
        4
    }

    fn put(&self, out: &mut [u8]) {
        out.copy_from_slice(&u32::to_le_bytes(*self));
    }

    fn get(bytes: &[u8]) -> u32 {
        u32::from_le_bytes(*bytes.as_array().unwrap())
    }
}

impl Element for u64 {
    ghost width = { 8 };

    ghost align = { 8 };

    ghost pattern = { digits 8 };

    ghost shaped = { aligned_to_width 3 (lit≤ tt) };

    ghost faithful = { unsigned 7 };

    fn width() -> usize {
        8
    }

    fn align() -> usize {
        8
    }

    fn put(&self, out: &mut [u8]) {
        out.copy_from_slice(&u64::to_le_bytes(*self));
    }

    fn get(bytes: &[u8]) -> u64 {
        u64::from_le_bytes(*bytes.as_array().unwrap())
    }
}

impl Element for i64 {
    ghost width = { 8 };

    ghost align = { 8 };

    ghost pattern = { λ z. digits 8 (complement z) };

    ghost shaped = { aligned_to_width 3 (lit≤ tt) };

    ghost faithful = { signed };

    fn width() -> usize {
        8
    }

    fn align() -> usize {
        8
    }

    fn put(&self, out: &mut [u8]) {
        self.cast_unsigned().put(out);
    }

    fn get(bytes: &[u8]) -> i64 {
        u64::get(bytes).cast_signed()
    }
}
