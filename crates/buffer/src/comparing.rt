// SPDX-License-Identifier: Apache-2.0
// Whether two shown parts hold the same elements, and what that means over every run.
// Works over `PartialEq` of src/buffer.rs of vortex-buffer 0.90.0.
ghost use Rattle.std.specs.Prelude.{◌≡◌, ◌%◌, length, ◌==◌};
ghost use Rattle.buffer.specs.Handles.{kind};
ghost use Rattle.buffer.specs.Typed.{TypedLaw};
ghost use Rattle.buffer.specs.Verdicts.{verdict};
ghost use Rattle.model.specs.Laws.{StoreLaw};
ghost use Rattle.model.specs.Reads.{same as same_parts};
ghost use Rattle.model.specs.Values.{PartsAgree};

use allocation::fault::{Fault, Refusal};
use element::Element;
use model::theorems::store_law_holds;
use region::equal;

// Whether bytes are a whole number of elements of a kind.
fn is_whole<K: Element>(bytes: &[u8]) -> bool
    ensures { result ≡ (length bytes.now % K.width == 0) }
{
    bytes.len().is_multiple_of(K::width())
}

// What the types of a kind give every call, as a run has it.
fn typed_law<K: Element>()
    ensures { TypedLaw K.Element }
{}

// Parts that are shown of two lists of values of a kind are equal exactly when the lists are.
fn values_law<K: Element>()
    ensures { PartsAgree K.width K.pattern }
{}

// Whether two shown parts of one kind have equal bytes: refusal 15 where one is no whole number of elements.
// The law over runs stands here too: in every run of calls on any stores, parts that are shown are equal exactly when the pedigrees of their handles
// spell equal lists, of patterns and so of values, and all else that a run keeps. What the types give every public call of the kind is what a run asks.
pub fn same<K: Element>(xs: &[u8], ys: &[u8]) -> Result<bool, Fault>
    ensures answer { verdict result ≡ same_parts (kind K.Element) xs.now ys.now }
    ensures law { StoreLaw }
    ensures values { PartsAgree K.width K.pattern }
    ensures typed { TypedLaw K.Element }
{
    store_law_holds();
    values_law::<K>();
    typed_law::<K>();
    if !is_whole::<K>(xs) || !is_whole::<K>(ys) {
        return Err(Fault::Alone(Refusal::PartialElement));
    }
    Ok(equal(xs, ys))
}
