// SPDX-License-Identifier: Apache-2.0
// A refusal that gives back what the call would have used up.
use allocation::fault::Fault;

// Why, and what comes back.
#[derive(Drop)]
pub struct Refused<T> {
    pub fault: Fault,
    pub returned: T,
}
