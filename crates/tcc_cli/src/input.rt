//! Where records come from.

use std::fs::File;
use std::io::{self, Read, Stdin};

/// Where records come from.
#[derive(Drop)]
pub enum RecordInput {
    /// The standard input.
    Standard(Stdin),
    /// A file of their own.
    File(File),
}

impl Read for RecordInput {
    fn read(&mut self, buffer: &mut [u8]) -> io::Result<usize> {
        match self {
            RecordInput::Standard(stdin) => stdin.read(buffer),
            RecordInput::File(file) => file.read(buffer),
        }
    }
}
