// SPDX-License-Identifier: Apache-2.0
// One value of any kind written into a region, and one read from a part of it.
// Stands for the pointer writes and reads of `T` in src/buffer_mut.rs and src/buffer.rs of vortex-buffer 0.90.0.
ghost use Rattle.std.specs.Prelude.{◌≡◌, ◌+◌, ◌*◌, ◌<◌, ◌≤◌, length, MatchOption};
ghost use Rattle.region.specs.Bytes.{part, overwrite};

use crate::Element;

// Writes one value's pattern at a place.
pub fn write_one<K: Element>(region: &mut [u8], place: usize, value: &K)
    requires { place + K.Element.width ≤ length region.old }
    ensures { region.new ≡ overwrite place (K.Element.pattern value.now) region.old }
{
    value.put(&mut region[place..place + K::width()]);
}

// The value at an index of a part that holds values one behind another; none where the part ends before the value does.
pub fn read_at<K: Element>(bytes: &[u8], index: usize) -> Option<K>
    ensures { MatchOption result
        (length bytes.now < index * K.Element.width + K.Element.width)
        (λ x. (index * K.Element.width + K.Element.width ≤ length bytes.now)
        × (K.Element.pattern x ≡ part (index * K.Element.width) K.Element.width bytes.now)) }
{
    let width = K::width();
    if index >= bytes.len() / width {
        return None;
    }
    let from = index * width;
    Some(K::get(&bytes[from..from + width]))
}
