// SPDX-License-Identifier: Apache-2.0
// Where the line of a handle stands in the book.
use model::line::Line;

// A place of the book, and the line that stands there.
#[derive(Clone, Copy)]
pub struct Spot {
    pub place: usize,
    pub line: Line,
}
