// SPDX-License-Identifier: Apache-2.0
// What is said of a call and of a whole day.
use crate::day::{Closing, Held, Outcome, Tally};
use allocation::block::Block;
use std::fmt;

impl fmt::Display for Held {
    fn fmt<W: fmt::Write>(&self, f: &mut fmt::Formatter<W>) -> fmt::Result {
        let Block { place, size, align } = self.block;
        write!(
            f,
            "block {}: {size} bytes at alignment {align} from place {place}, address {}",
            self.number, self.address
        )
    }
}

impl fmt::Display for Outcome {
    fn fmt<W: fmt::Write>(&self, f: &mut fmt::Formatter<W>) -> fmt::Result {
        match *self {
            Outcome::Taken { held } => write!(f, "{held}, marked with its number"),
            Outcome::Zeroed { held, all_zero } => {
                let bytes = if all_zero { "all zero" } else { "NOT ALL ZERO" };
                write!(f, "{held}, {bytes}")
            }
            Outcome::Grown {
                held,
                moved,
                came_along,
            } => {
                let fate = if moved { "and moved" } else { "where it was" };
                let bytes = if came_along {
                    "came along"
                } else {
                    "WERE LOST"
                };
                write!(f, "{held}, grown {fate}; its old bytes {bytes}")
            }
            Outcome::Given { held, untouched } => {
                let others = if untouched {
                    "touched by nobody else"
                } else {
                    "OVERWRITTEN BY OTHERS"
                };
                write!(f, "{held}, is back; its bytes were {others}")
            }
        }
    }
}

impl fmt::Display for Closing {
    fn fmt<W: fmt::Write>(&self, f: &mut fmt::Formatter<W>) -> fmt::Result {
        let Tally {
            taken,
            grown,
            given,
            refused,
            fullest,
        } = self.tally;
        let Closing {
            extent,
            blocks_left,
            bytes_left,
            ..
        } = *self;
        writeln!(
            f,
            "The day: {taken} blocks taken, {grown} growths, {given} blocks given back, {refused} calls refused."
        )?;
        writeln!(
            f,
            "At its fullest the region held {fullest} of {extent} bytes."
        )?;
        if blocks_left == 0 {
            write!(f, "Every block came back.")
        } else {
            write!(
                f,
                "Blocks that did not come back: {blocks_left}, with {bytes_left} bytes."
            )
        }
    }
}
