//! The input of a command.
use crate::failure::Failure;
use std::fs;
use std::io::{self, Read};
use syntax_diagnostic::source_text;

/// A file, or standard input.
#[derive(Clone, Copy)]
pub struct Input<'a> {
    // `None` is standard input
    path: Option<&'a str>,
}

impl<'a> Input<'a> {
    /// Returns the file of that name; standard input if there is none, or if it is `-`.
    pub fn new(name: Option<&'a str>) -> Input<'a> {
        match name {
            Some("-") | None => Input { path: None },
            Some(path) => Input { path: Some(path) },
        }
    }

    /// Returns the path of the file, or `None` for standard input.
    pub fn path(&self) -> Option<&'a str> {
        self.path
    }

    /// Returns the name in diagnostics.
    pub fn name(&self) -> &'a str {
        self.path.unwrap_or("<stdin>")
    }

    /// Returns all bytes.
    pub fn bytes(&self, rt: &HostRuntime) -> Result<Vec<u8>, Failure> {
        match self.read(rt) {
            Ok(bytes) => Ok(bytes),
            Err(error) => {
                let name = self.name();
                let message = format!(in rt.alloc(); "couldn't read {name}: {error}")?;
                Err(Failure::from_message(rt, message.as_str()))
            }
        }
    }

    // The same, with the error of the system.
    fn read(&self, rt: &HostRuntime) -> io::Result<Vec<u8>> {
        match self.path {
            Some(path) => fs::read(rt, path),
            None => {
                let mut bytes = Vec::new(rt.alloc());
                rt.stdin().read_to_end(&mut bytes)?;
                Ok(bytes)
            }
        }
    }

    /// Returns the text of the bytes, without a byte order mark in front.
    pub fn text<'b>(&self, rt: &HostRuntime, bytes: &'b [u8]) -> Result<&'b str, Failure> {
        match source_text(bytes) {
            Ok(text) => Ok(text),
            Err(at) => {
                let name = self.name();
                let message = format!(in rt.alloc(); "{name} is not UTF-8 at byte {at}")?;
                Err(Failure::from_message(rt, message.as_str()))
            }
        }
    }
}
