//! A case of the list: what `serve` is given.

use crate::spelling::add_lines;
use host_serve::Words;
use std::alloc::{AllocError, Global};
use std::str;

/// A case, as far as its lines were read.
#[derive(Drop)]
pub struct Case<'a> {
    /// Its name; empty before the first case.
    pub name: &'a [u8],
    /// The words of the command line.
    pub words: Words,
    /// The bytes that are read.
    pub input: Vec<u8>,
}

impl<'a> Case<'a> {
    /// The case of this name, with no input yet.
    pub fn new(alloc: Global, name: &'a [u8]) -> Case<'a> {
        let mut words = Words::new();
        words.add("lockstep");
        Case {
            name,
            words,
            input: Vec::new(alloc),
        }
    }

    /// Takes the next line of the case. Comments and empty lines say nothing.
    ///
    /// # Errors
    /// `AllocError` if memory runs out.
    pub fn add(&mut self, line: &[u8]) -> Result<(), AllocError> {
        match line {
            [] | [b'#', ..] => Ok(()),
            [b'$', words @ ..] => {
                self.words = words_of(words);
                Ok(())
            }
            _ => add_lines(&mut self.input, line),
        }
    }
}

// The words of a line, which blanks separate; what stands between two quotes is one word.
fn words_of(line: &[u8]) -> Words {
    let mut words = Words::new();
    let mut quoted = false;
    for part in line.split(|&byte| byte == b'\'') {
        if quoted {
            add_word(&mut words, part);
        } else {
            add_words(&mut words, part);
        }
        quoted = !quoted;
    }
    words
}

fn add_words(words: &mut Words, part: &[u8]) {
    for word in part.split(|&byte| byte == b' ') {
        if !word.is_empty() {
            add_word(words, word);
        }
    }
}

fn add_word(words: &mut Words, word: &[u8]) {
    words.add(str::from_utf8(word).unwrap_or(""));
}
