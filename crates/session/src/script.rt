//! One line of a script.
use crate::text::number;
use hex::FromHexError;
use network::row::Assignment;
use std::alloc::{AllocError, Global};
use thiserror::Error;
use window::scope::Scope;

/// The longest buffer that a script may ask for.
const MAX_ROOM: u64 = 1_000_000;

/// The longest name of a board.
const MAX_NAME: usize = 32;

/// A call, with the name of its board.
#[derive(Drop)]
pub(crate) enum Call<'a> {
    Open(&'a str, Vec<u8>),
    Context(&'a str, usize, Scope),
    Run(&'a str, Assignment),
    Write(&'a str, usize),
}

/// Why a line is no call.
#[derive(Debug, Drop, Error)]
pub(crate) enum Wrong {
    #[error("a name has at most {max} bytes", max = MAX_NAME)]
    Name,
    #[error("bytes are pairs of hexadecimal digits, or -")]
    Bytes,
    #[error("a number is decimal digits")]
    Number,
    #[error("a buffer has at most {max} places", max = MAX_ROOM)]
    Room,
    #[error("no such call")]
    Call,
    #[error("no memory")]
    NoMemory,
}

impl From<AllocError> for Wrong {
    fn from(_: AllocError) -> Wrong {
        Wrong::NoMemory
    }
}

impl From<FromHexError> for Wrong {
    fn from(e: FromHexError) -> Wrong {
        match e {
            FromHexError::OutOfMemory => Wrong::NoMemory,
            _ => Wrong::Bytes,
        }
    }
}

fn name(word: &str) -> Result<&str, Wrong> {
    if word.len() > MAX_NAME {
        return Err(Wrong::Name);
    }
    Ok(word)
}

/// Bytes in pairs of hexadecimal digits, `-` for none.
fn data(heap: Global, word: &str) -> Result<Vec<u8>, Wrong> {
    if word == "-" {
        return Ok(Vec::new(heap));
    }
    Ok(hex::decode(heap, word)?)
}

fn decimal(word: &str) -> Result<u64, Wrong> {
    number(word).ok_or(Wrong::Number)
}

fn room(word: &str) -> Result<usize, Wrong> {
    let value = decimal(word)?;
    if value > MAX_ROOM {
        return Err(Wrong::Room);
    }
    Ok(value as usize)
}

/// A number that is a level, or above every level.
fn level(word: &str) -> Result<u8, Wrong> {
    Ok(u8::try_from(decimal(word)?).unwrap_or(u8::MAX))
}

impl<'a> Call<'a> {
    /// The call that some words make.
    pub(crate) fn parse(heap: Global, words: &[&'a str]) -> Result<Call<'a>, Wrong> {
        match words {
            ["open", board, file] => Ok(Call::Open(name(board)?, data(heap, file)?)),
            ["context", board, node, "whole"] => Ok(Call::Context(
                name(board)?,
                decimal(node)? as usize,
                Scope::Whole,
            )),
            ["context", board, node, inward, outward] => {
                let scope = Scope::Window {
                    inward: level(inward)?,
                    outward: level(outward)?,
                };
                Ok(Call::Context(name(board)?, decimal(node)? as usize, scope))
            }
            ["run", board, assignment] => {
                Ok(Call::Run(name(board)?, Assignment(decimal(assignment)?)))
            }
            ["write", board, length] => Ok(Call::Write(name(board)?, room(length)?)),
            _ => Err(Wrong::Call),
        }
    }
}
