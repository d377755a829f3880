//! What a case has asked for so far.
use crate::unfollowed::Unfollowed;
use grind_outside::{List, Memory};
use std::alloc::Global;

/// A piece that is added more often is added in blocks of so many.
const BLOCK: u32 = 4096;

/// A file of the shelf.
#[derive(Drop)]
pub struct Given {
    pub name: String,
    pub bytes: List<u8>,
}

/// How a sink behaves: how many bytes a call takes at most, and which calls fail.
#[derive(Drop)]
pub struct Behavior {
    pub most: usize,
    pub failing: List<u64>,
}

/// What a case has asked for so far.
#[derive(Drop)]
pub struct Case {
    /// The files of the shelf.
    pub files: List<Given>,
    /// The words of the command line.
    pub words: Vec<String>,
    /// The calls of the shelf that fail.
    pub shelf: List<u64>,
    /// How the output behaves.
    pub out: Behavior,
    /// How the notes behave.
    pub notes: Behavior,
    /// The branches of a proof, each as its parent, the line at which it begins and what it assumes.
    pub branches: List<String>,
    /// The lines of a proof, without their numbers.
    pub lines: List<String>,
}

impl Case {
    /// A case that has asked for nothing.
    pub fn new(alloc: Global) -> Case {
        Case {
            files: List::new(alloc),
            words: Vec::new(alloc),
            shelf: List::new(alloc),
            out: Behavior {
                most: 4096,
                failing: List::new(alloc),
            },
            notes: Behavior {
                most: 4096,
                failing: List::new(alloc),
            },
            branches: List::new(alloc),
            lines: List::new(alloc),
        }
    }

    /// Begins a file of that name.
    pub fn begin_file(&mut self, alloc: Global, name: &str) -> Result<(), Memory> {
        self.files.push(Given {
            name: String::from_str(alloc, name)?,
            bytes: List::new(alloc),
        })?;
        Ok(())
    }

    /// Puts the bytes at the end of the last file, so many times.
    ///
    /// # Errors
    ///
    /// `Malformed` where there is no file.
    pub fn add(&mut self, alloc: Global, bytes: &[u8], times: u32) -> Result<(), Unfollowed> {
        let Some(mut file) = self.files.pop() else {
            return Err(Unfollowed::Malformed);
        };
        let mut block = List::new(alloc);
        for _ in 0..times.min(BLOCK) {
            block.extend(bytes)?;
        }
        for _ in 0..times / BLOCK {
            file.bytes.extend(block.as_slice())?;
        }
        block.truncate(bytes.len().saturating_mul((times % BLOCK) as usize));
        file.bytes.extend(block.as_slice())?;
        self.files.push(file)?;
        Ok(())
    }

    /// Takes these words in place of those before.
    pub fn take_words(&mut self, alloc: Global, words: &str) -> Result<(), Memory> {
        let mut list = Vec::new(alloc);
        for word in words.split_whitespace() {
            list.push(String::from_str(alloc, word)?)?;
        }
        self.words = list;
        Ok(())
    }
}
