// SPDX-License-Identifier: Apache-2.0
// Nine worked examples of the store's definitions, over what General and Shelf mean, proved together.
#![tactic(auto)]

ghost use Rattle.worked_examples.specs.Worked.{NineExamples};

// The nine examples, whatever bytes the region holds and whatever values are put.
pub fn nine_examples_hold()
    ensures { NineExamples }
{}
