// SPDX-License-Identifier: Apache-2.0
// Kinds that are made of fields: the fields' patterns stand one behind another.
// Each number of fields has its functions: a trait over tuples would write fields only by value, and a kind need not be `Copy`.
ghost use Rattle.std.specs.Prelude.{◌≡◌, ◌+◌, ◌++◌, length};

use crate::Element;

// Writes two fields.
pub fn put_two<P: Element, Q: Element>(out: &mut [u8], first: &P, second: &Q)
    requires { length out.old ≡ P.Element.width + Q.Element.width }
    ensures { out.new ≡ P.Element.pattern first.now ++ Q.Element.pattern second.now }
{
    let (front, back) = out.split_at_mut(P::width());
    first.put(front);
    second.put(back);
}

// Reads two fields.
pub fn get_two<P: Element, Q: Element>(bytes: &[u8]) -> (P, Q)
    requires { length bytes.now ≡ P.Element.width + Q.Element.width }
    ensures { P.Element.pattern result.0 ++ Q.Element.pattern result.1 ≡ bytes.now }
{
    let (front, back) = bytes.split_at(P::width());
    (P::get(front), Q::get(back))
}

// Writes three fields.
pub fn put_three<P: Element, Q: Element, R: Element>(
    out: &mut [u8],
    first: &P,
    second: &Q,
    third: &R,
)
    requires { length out.old ≡ P.Element.width + (Q.Element.width + R.Element.width) }
    ensures { out.new ≡ P.Element.pattern first.now ++ (Q.Element.pattern second.now ++ R.Element.pattern third.now) }
{
    let (front, back) = out.split_at_mut(P::width());
    first.put(front);
    put_two(back, second, third);
}

// Reads three fields.
pub fn get_three<P: Element, Q: Element, R: Element>(bytes: &[u8]) -> (P, Q, R)
    requires { length bytes.now ≡ P.Element.width + (Q.Element.width + R.Element.width) }
    ensures { P.Element.pattern result.0 ++ (Q.Element.pattern result.1 ++ R.Element.pattern result.2) ≡ bytes.now }
{
    let (front, back) = bytes.split_at(P::width());
    let (second, third) = get_two::<Q, R>(back);
    (P::get(front), second, third)
}
