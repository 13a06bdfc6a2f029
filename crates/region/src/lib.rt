// SPDX-License-Identifier: Apache-2.0
// The byte work below everything: parts of a lent region are zeroed, moved and compared.
// Each function is one method of the library, under a contract in the words of a region.
// Stands for the raw pointer writes of vortex-buffer 0.90.0 (src/buffer_mut.rs).
#![tactic(auto)]

ghost use Rattle.std.specs.Prelude.{◌≡◌, ◌+◌, ◌≤◌, length, replicate};
ghost use Rattle.region.specs.Bytes.{part, overwrite, equal};

// Sets every byte of a part to zero.
pub fn zero(bytes: &mut [u8])
    ensures { bytes.new ≡ replicate (length bytes.old) 0 }
{
    bytes.fill(0);
}

// Sets n bytes of the region, from a place on, to zero.
pub fn zero_within(region: &mut [u8], place: usize, n: usize)
    requires { place + n ≤ length region.old }
    ensures { region.new ≡ overwrite place (replicate n 0) region.old }
{
    zero(&mut region[place..place + n]);
}

// Moves n bytes within the region; the two parts may overlap.
pub fn move_within(region: &mut [u8], from: usize, to: usize, n: usize)
    requires source { from + n ≤ length region.old }
    requires target { to + n ≤ length region.old }
    ensures { region.new ≡ overwrite to (part from n region.old) region.old }
{
    region.copy_within(from..from + n, to);
}

// Whether two parts hold the same bytes.
pub fn equal(a: &[u8], b: &[u8]) -> bool
    ensures { result ≡ equal a.now b.now }
{
    a == b
}
