//! Times as words of a text: how each kind is written, and read back.
ghost use Rattle.std.specs.Prelude.{◌≡◌, Some};
ghost use Rattle.kinds.specs.Words.{seconds_word, changes_word, changes_error_text, ReadsSeconds, ReadsChanges};

use crate::{Changes, Seconds};
use std::error::Error;
use std::fmt;
use std::num::ParseIntError;
use std::str::FromStr;

impl fmt::Display for Seconds {
    ghost output = { λ s. Some (seconds_word s) };

    fn fmt<W: fmt::Write>(&self, f: &mut fmt::Formatter<W>) -> fmt::Result {
        write!(f, "{}", self.value)
    }
}

impl FromStr for Seconds {
    type Err = ParseIntError;

    ghost from_str_gives = { ReadsSeconds };

    fn from_str(word: &str) -> Result<Seconds, ParseIntError> {
        let value = word.parse()?;
        Ok(Seconds { value })
    }
}

impl fmt::Display for Changes {
    ghost output = { λ c. Some (changes_word c) };

    fn fmt<W: fmt::Write>(&self, f: &mut fmt::Formatter<W>) -> fmt::Result {
        write!(f, "{}/{}", self.seconds, self.count)
    }
}

impl FromStr for Changes {
    type Err = ChangesError;

    ghost from_str_gives = { ReadsChanges };

    fn from_str(word: &str) -> Result<Changes, ChangesError> {
        let (seconds, count) = word.split_once('/').ok_or(ChangesError::NoSlash)?;
        Ok(Changes {
            seconds: seconds.parse()?,
            count: count.parse()?,
        })
    }
}

/// Why a word is no seconds with a count of changes.
#[derive(Clone, Debug, Drop, PartialEq, Eq)]
pub enum ChangesError {
    NoSlash,
    Number(ParseIntError),
}

impl From<ParseIntError> for ChangesError {
    ghost use Rattle.kinds.specs.declared.words.ChangesError.TheVariants.{Number};

    ghost from_gives = { λ error e. e ≡ Number error };

    fn from(error: ParseIntError) -> ChangesError {
        ChangesError::Number(error)
    }
}

impl fmt::Display for ChangesError {
    ghost output = { λ e. changes_error_text e };

    fn fmt<W: fmt::Write>(&self, f: &mut fmt::Formatter<W>) -> fmt::Result {
        match self {
            ChangesError::NoSlash => write!(f, "no slash parts the seconds from the count"),
            ChangesError::Number(fault) => write!(f, "{fault}"),
        }
    }
}

impl Error for ChangesError {}
