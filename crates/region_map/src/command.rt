// SPDX-License-Identifier: Apache-2.0
// A line of a host's day, read from text.
use crate::day::Call;
use allocation::block::Request;
use std::fmt;
use std::num::ParseIntError;
use std::str::{FromStr, SplitWhitespace};
use thiserror::Error;

// Which allocator a day has.
#[derive(Clone, Copy)]
pub enum Kind {
    General,
    Shelf,
}

impl FromStr for Kind {
    type Err = Complaint;

    fn from_str(word: &str) -> Result<Kind, Complaint> {
        match word {
            "general" => Ok(Kind::General),
            "shelf" => Ok(Kind::Shelf),
            _ => Err(Complaint::UnknownAllocator),
        }
    }
}

impl fmt::Display for Kind {
    fn fmt<W: fmt::Write>(&self, f: &mut fmt::Formatter<W>) -> fmt::Result {
        f.write_str(match self {
            Kind::General => "general",
            Kind::Shelf => "shelf",
        })
    }
}

// What a line says.
#[derive(Clone, Copy)]
pub enum Command {
    Allocator {
        kind: Kind,
        extent: usize,
        base: usize,
    },
    Call(Call),
    Map,
}

// What is wrong with a line.
#[derive(Debug, Drop, Error)]
pub enum Complaint {
    #[error("a line begins with allocator, take, zero, grow, give or map")]
    UnknownWord,
    #[error("an allocator is general or shelf")]
    UnknownAllocator,
    #[error("the line ends too early")]
    MissingWord,
    #[error("here a number is wanted, from 0 to 18446744073709551615")]
    NotANumber(#[from] ParseIntError),
    #[error("the line goes on too long")]
    TooManyWords,
}

// The command of a line; none where the line is empty or a comment.
pub fn parse(line: &str) -> Result<Option<Command>, Complaint> {
    let mut words = line.split_whitespace();
    let Some(verb) = words.next().filter(|verb| !verb.starts_with('#')) else {
        return Ok(None);
    };
    let command = read_command(verb, &mut words)?;
    match words.next() {
        Some(_) => Err(Complaint::TooManyWords),
        None => Ok(Some(command)),
    }
}

// The command of a line that begins with this word.
fn read_command(verb: &str, words: &mut SplitWhitespace) -> Result<Command, Complaint> {
    match verb {
        "allocator" => Ok(Command::Allocator {
            kind: argument(words)?,
            extent: argument(words)?,
            base: argument(words)?,
        }),
        "take" => Ok(Command::Call(Call::Take(request(words)?))),
        "zero" => Ok(Command::Call(Call::Zero(request(words)?))),
        "grow" => Ok(Command::Call(Call::Grow {
            number: argument(words)?,
            size: argument(words)?,
        })),
        "give" => Ok(Command::Call(Call::Give {
            number: argument(words)?,
        })),
        "map" => Ok(Command::Map),
        _ => Err(Complaint::UnknownWord),
    }
}

fn request(words: &mut SplitWhitespace) -> Result<Request, Complaint> {
    Ok(Request {
        size: argument(words)?,
        align: argument(words)?,
    })
}

// The next word, read as what is wanted there.
fn argument<T: FromStr>(words: &mut SplitWhitespace) -> Result<T, Complaint>
where
    Complaint: From<T::Err>,
{
    let word = words.next().ok_or(Complaint::MissingWord)?;
    Ok(word.parse::<T>()?)
}
