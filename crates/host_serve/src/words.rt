//! The words of the command line, as far as any form of them needs, and what they ask for.
ghost use Rattle.std.specs.Prelude.{◌≡◌, ℕ, ◌≤◌, List, [], length, take, IsTrue};
ghost use Rattle.tbl_file.specs.Image.{is_table_name};
ghost use Rattle.host_serve.specs.Words.{with_word, decimal_number, task_alone, task_with, task_to_pack, task_of_four, task_of, needs_threads};

use arrayvec::ArrayVec;
use script_words::numbers::number;
use std::marker::Model;
use tbl_file::is_table_name;

// How many words are kept at most: no form of the words has a fifth.
const MAX_WORDS: usize = 5;

// How many bytes of a word are kept at most: no form has a word as long.
const MAX_WORD_BYTES: usize = 64;

/// What the words of a command line ask for.
#[derive(Drop)]
pub enum Task {
    /// `run`: to run the script that is read, each application on a thread of its own, and to write
    /// the report.
    Run,
    /// `lockstep`: to run the script that is read in rotation, and to write its report.
    Lockstep,
    /// `gen N`: to write the generated script of this number.
    Generate(u32),
    /// `soak N`: to run the generated script of this number, and to write the end of its report.
    Soak(u32),
    /// `bridge`: to run both scripts of the plan that is read, each on a bus of its own with a
    /// bridge between them, and to write both reports.
    Bridge,
    /// `check`: to write whether the report that is read is that of a run of the script before it.
    Check,
    /// `image`: to write what the table image is that is read.
    ShowImage,
    /// `pack NAME OFFSET SUB`: to write the table image of the bytes that are read.
    Pack {
        /// The table's name, 1 to 39 visible ASCII characters.
        name: Word,
        /// Where in the table the bytes are loaded, in bytes.
        offset: u32,
        /// What the file is of, 8 for a table in cFE.
        sub: u32,
    },
}

/// The first bytes of a word.
#[derive(Drop)]
pub struct Word {
    // At most 64 of them.
    bytes: ArrayVec<u8, MAX_WORD_BYTES>,
}

impl Default for Word {
    fn default() -> Word {
        Word {
            bytes: ArrayVec::new(),
        }
    }
}

impl Model for Word {
    ghost use Rattle.std.specs.Prelude.{ℕ, List};

    ghost Value = { List ℕ };

    ghost view = { λ w. w.bytes.items };
}

/// At most [`MAX_WORDS`] words of at most [`MAX_WORD_BYTES`] bytes, in the order in which they were
/// added.
#[derive(Drop)]
pub struct Words {
    words: ArrayVec<Word, MAX_WORDS>,
}

impl Model for Words {
    ghost Value = { List (List ℕ) };

    ghost view = { λ w. w.words.items };
}

impl Word {
    // The word with the first bytes of these.
    fn front_of(bytes: &[u8]) -> Word
        ensures { result ≡ take MAX_WORD_BYTES bytes.now }
    {
        let mut kept = ArrayVec::new();
        let _ = kept.try_extend_from_slice(front(bytes));
        Word { bytes: kept }
    }

    /// Its bytes.
    pub fn as_slice(&self) -> &[u8]
        ensures { result.now ≡ self.now }
    {
        self.bytes.as_slice()
    }
}

impl Words {
    /// No words.
    pub fn new() -> Words
        ensures { result ≡ [] }
    {
        Words {
            words: ArrayVec::new(),
        }
    }

    /// Adds a word's first [`MAX_WORD_BYTES`] bytes, if fewer than [`MAX_WORDS`] words are
    /// there.
    pub fn add(&mut self, word: &str)
        ensures { self.new ≡ with_word self.old word.now }
    {
        if self.words.len() < MAX_WORDS {
            self.words.push(Word::front_of(word.as_bytes()));
        }
    }

    /// Whether they ask for threads, as `run` and `bridge` alone do.
    pub fn need_threads(&self) -> bool
        ensures { result ≡ needs_threads (task_of self.now) }
    {
        matches!(self.task(), Some(Task::Run | Task::Bridge))
    }

    /// What they ask for; None if the program doesn't know them.
    pub fn task(&self) -> Option<Task>
        ensures { result ≡ task_of self.now }
    {
        match self.words.as_slice() {
            [word] => task_alone(word.as_slice()),
            [word, number] => task_with(word.as_slice(), number.as_slice()),
            [word, name, offset, sub] => task_of_four(
                word.as_slice(),
                name.as_slice(),
                offset.as_slice(),
                sub.as_slice(),
            ),
            _ => None,
        }
    }
}

// What one word asks for.
fn task_alone(word: &[u8]) -> Option<Task>
    ensures { result ≡ task_alone word.now }
{
    if word == b"run".as_slice() {
        Some(Task::Run)
    } else if word == b"lockstep".as_slice() {
        Some(Task::Lockstep)
    } else if word == b"bridge".as_slice() {
        Some(Task::Bridge)
    } else if word == b"check".as_slice() {
        Some(Task::Check)
    } else if word == b"image".as_slice() {
        Some(Task::ShowImage)
    } else {
        None
    }
}

// What a word asks for with a number behind it.
fn task_with(word: &[u8], number: &[u8]) -> Option<Task>
    ensures { result ≡ task_with word.now number.now }
{
    let number = decimal_number(number)?;
    if word == b"gen".as_slice() {
        Some(Task::Generate(number))
    } else if word == b"soak".as_slice() {
        Some(Task::Soak(number))
    } else {
        None
    }
}

// What a word asks for with three behind it.
fn task_of_four(word: &[u8], name: &[u8], offset: &[u8], sub: &[u8]) -> Option<Task>
    ensures { result ≡ task_of_four word.now name.now offset.now sub.now }
{
    if word == b"pack".as_slice() && is_table_name(name) {
        task_to_pack(name, decimal_number(offset), decimal_number(sub))
    } else {
        None
    }
}

// To pack an image of this name, if both numbers are spelled.
fn task_to_pack(name: &[u8], offset: Option<u32>, sub: Option<u32>) -> Option<Task>
    requires { IsTrue (is_table_name name.now) }
    ensures { result ≡ task_to_pack name.now offset sub }
{
    let Some(offset) = offset else {
        return None;
    };
    let Some(sub) = sub else {
        return None;
    };
    Some(Task::Pack {
        name: whole_name(name),
        offset,
        sub,
    })
}

// A table's name, which a word keeps whole.
fn whole_name(name: &[u8]) -> Word
    requires { IsTrue (is_table_name name.now) }
    ensures { result ≡ name.now }
{
    Word::front_of(name)
}

// The number that a word spells in decimal, with no needless 0 before it.
fn decimal_number(word: &[u8]) -> Option<u32>
    ensures { result ≡ decimal_number word.now }
{
    if word.starts_with(b"0x") {
        return None;
    }
    number(word).ok()
}

// As many of the bytes as a word keeps.
#[tactic(auto, using(std::proofs::lemmas::List::take_min))]
fn front(bytes: &[u8]) -> &[u8]
    ensures value { result.now ≡ take MAX_WORD_BYTES bytes.now }
    ensures fits { length result.now ≤ MAX_WORD_BYTES }
{
    &bytes[..MAX_WORD_BYTES.min(bytes.len())]
}
