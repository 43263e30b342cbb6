//! The words that the program was given, with those of its setup files.

use live_setups::add_setup;
use pitch_fields::OutOfMemory;
use std::alloc::{AllocError, Global};
use std::io::ErrorKind;
use std::{env, fs, io};

/// Why there are no words.
#[derive(Drop)]
pub enum NoWords {
    OutOfMemory,
    /// The setup file of this name can't be read.
    Setup(String, io::Error),
}

impl From<AllocError> for NoWords {
    fn from(_: AllocError) -> NoWords {
        NoWords::OutOfMemory
    }
}

impl From<OutOfMemory> for NoWords {
    fn from(_: OutOfMemory) -> NoWords {
        NoWords::OutOfMemory
    }
}

// The words after the program's name. A word that isn't UTF-8 asks for nothing, so it stands for no
// words at all.
fn own_words(rt: &HostRuntime) -> Result<Vec<String>, NoWords> {
    match env::args(rt) {
        Ok(args) => Ok(args.skip(1).collect::<Vec<String>>(rt.alloc())?),
        Err(error) => match error.kind() {
            ErrorKind::InvalidData => Ok(Vec::new(rt.alloc())),
            _ => Err(NoWords::OutOfMemory),
        },
    }
}

// Adds a word.
fn add(alloc: Global, word: &str, words: &mut Vec<String>) -> Result<(), AllocError> {
    words.push(String::from_str(alloc, word)?)?;
    Ok(())
}

// Adds the words of a setup file.
fn add_file(rt: &HostRuntime, path: &str, words: &mut Vec<String>) -> Result<(), NoWords> {
    let text = match fs::read_to_string(rt, path) {
        Ok(text) => text,
        Err(error) => return Err(NoWords::Setup(String::from_str(rt.alloc(), path)?, error)),
    };
    add_setup(rt.alloc(), text.as_str(), words)?;
    Ok(())
}

/// The words after the program's name, with those of the file in place of each `--setup FILE`.
pub fn words_of(rt: &HostRuntime) -> Result<Vec<String>, NoWords> {
    let own = own_words(rt)?;
    let mut words = Vec::new(rt.alloc());
    let mut is_file = false;
    for word in own.iter() {
        if is_file {
            add_file(rt, word.as_str(), &mut words)?;
            is_file = false;
        } else if word.as_str() == "--setup" {
            is_file = true;
        } else if let Some(path) = word.strip_prefix("--setup=") {
            add_file(rt, path, &mut words)?;
        } else {
            add(rt.alloc(), word.as_str(), &mut words)?;
        }
    }
    if is_file {
        add(rt.alloc(), "--setup", &mut words)?;
    }
    Ok(words)
}
