// SPDX-License-Identifier: Apache-2.0
// What the law of a kind says of whole columns, for any kind.
ghost use Rattle.std.specs.Prelude.{◌≡◌, length};
ghost use Rattle.element.specs.Columns.{Columns};
ghost use Rattle.element.specs.Patterns.{Bytes};

use crate::Element;

// A list of values of any kind and its bytes determine each other.
pub fn columns_stand<K: Element>()
    ensures { Columns K.Element.width K.Element.pattern }
{}

// The pattern of a value that code holds is made of bytes.
pub fn patterns_are_bytes<K: Element>(value: &K)
    ensures { Bytes (K.Element.pattern value.now) }
{
    let mut out = [0u8; 16];
    put_bytes(value, &mut out[..K::width()]);
}

// What was written into bytes is made of bytes.
fn put_bytes<K: Element>(value: &K, out: &mut [u8])
    requires { length out.old ≡ K.Element.width }
    ensures { Bytes (K.Element.pattern value.now) }
{
    value.put(out);
}
