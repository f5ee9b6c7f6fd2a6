//! Answers: texts, and why there is none.

use pv_value::Memory;
use std::alloc::{AllocError, AllocFailed, Global};
use std::fmt;

/// What a call answers, in words.
pub type Answer = Result<String, NoAnswer>;

/// Why a line has no answer: it can't be read, or memory ran out.
#[derive(Clone, Copy)]
pub enum NoAnswer {
    Unreadable,
    Memory,
}

impl From<AllocError> for NoAnswer {
    fn from(_e: AllocError) -> NoAnswer {
        NoAnswer::Memory
    }
}

impl<T: Drop> From<AllocFailed<T>> for NoAnswer {
    fn from(_e: AllocFailed<T>) -> NoAnswer {
        NoAnswer::Memory
    }
}

impl From<Memory> for NoAnswer {
    fn from(_e: Memory) -> NoAnswer {
        NoAnswer::Memory
    }
}

/// A text as the answer.
pub fn said(alloc: Global, text: &str) -> Answer {
    Ok(String::from_str(alloc, text)?)
}

/// A value as the answer.
pub fn shown<T: fmt::Debug + Drop>(alloc: Global, value: T) -> Answer {
    Ok(format!(in alloc; "{value:?}")?)
}

/// Texts with `; ` between them.
#[derive(Drop)]
pub struct List {
    text: String,
}

impl List {
    /// No texts.
    pub fn new(alloc: Global) -> List {
        List {
            text: String::new(alloc),
        }
    }

    /// Puts a text after the others.
    pub fn add(&mut self, item: &str) -> Result<(), AllocError> {
        if !self.text.is_empty() {
            self.text.push_str("; ")?;
        }
        self.text.push_str(item)
    }

    /// The whole text, `-` if there are none.
    pub fn into_text(self) -> Answer {
        let List { mut text } = self;
        if text.is_empty() {
            text.push('-')?;
        }
        Ok(text)
    }
}
