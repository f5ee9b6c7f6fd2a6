//! Certificates, and why a text is not one.

use pv_list::Listed;
use pv_steps::{Lemma, Step};
use pv_value::Name;
use thiserror::Error;

/// What is shown of one method, step by step.
#[derive(Debug, Drop)]
pub struct Section {
    pub name: Name,
    pub desc: Name,
    pub steps: Listed<Step>,
}

/// A certificate: the digests of the two class files of which it speaks, lemmas, which are counted from 1, and its
/// sections.
#[derive(Debug, Drop)]
pub struct Cert {
    pub first: [u8; 32],
    pub second: [u8; 32],
    pub lemmas: Listed<Lemma>,
    pub sections: Listed<Section>,
}

/// What comes after the header of a certificate.
#[derive(Debug, Drop)]
pub struct Body {
    pub lemmas: Listed<Lemma>,
    pub sections: Listed<Section>,
}

/// The version of a text. In version 1 there are no lemmas, and no uses of lemmas.
#[derive(Clone, Copy, Debug, PartialEq, Eq)]
pub enum Version {
    One,
    Two,
}

/// Why a text is no certificate.
#[derive(Clone, Copy, Debug, PartialEq, Eq, Error)]
pub enum CertFault {
    /// The last line doesn't end with a line feed, or the last lemma has no `prove` or the last section no `end`.
    #[error("truncated")]
    Truncated,
    /// One of the first three lines is missing or isn't a line of the header.
    #[error("bad header")]
    Header,
    /// The first line that may not stand where it does, counted from 1 over the text.
    #[error("bad line {0}")]
    Step(usize),
    /// There is no memory; this says nothing of the text.
    #[error("out of memory")]
    Memory,
}
