//! Calls of `pv_cert`.
//!
//! | Line | Answer |
//! |---|---|
//! | `cert BYTES` | for each lemma its variables, how many steps it has, the steps, and its two sides; for each section its name and descriptor, how many steps it has, and the steps; and at last `same` where it is written as it was read; or the fault |
//! | `cert-1 BYTES` | the same of a text of version 1, which is written as one of version 2 |

use cases_words::answers::{Answer, List, NoAnswer, shown};
use cases_words::bench::Bench;
use cases_words::values::escaped;
use pv_cert::{Cert, CertFault, Section, read_cert, read_cert_1, write_cert};
use pv_steps::{Lemma, Step};
use std::alloc::Global;

/// `cert BYTES`
pub fn cert(bench: &Bench, rest: &str) -> Answer {
    let alloc = bench.alloc();
    let bytes = bench.bytes(rest)?;
    read_text(alloc, read_cert(alloc, &bytes), &bytes)
}

/// `cert-1 BYTES`
pub fn cert_1(bench: &Bench, rest: &str) -> Answer {
    let alloc = bench.alloc();
    let bytes = bench.bytes(rest)?;
    read_text(alloc, read_cert_1(alloc, &bytes), &bytes)
}

// What was read of these bytes.
fn read_text(alloc: Global, read: Result<Cert, CertFault>, bytes: &[u8]) -> Answer {
    match read {
        Ok(cert) => {
            let written = write_cert(alloc, &cert)?;
            cert_text(alloc, &cert, written.as_slice() == bytes)
        }
        Err(CertFault::Memory) => Err(NoAnswer::Memory),
        Err(fault) => shown(alloc, fault),
    }
}

fn cert_text(alloc: Global, cert: &Cert, same: bool) -> Answer {
    let mut list = List::new(alloc);
    for lemma in cert.lemmas.as_slice() {
        push_lemma(alloc, &mut list, lemma)?;
    }
    for section in cert.sections.as_slice() {
        push_section(alloc, &mut list, section)?;
    }
    list.add(if same { "same" } else { "other" })?;
    list.into_text()
}

fn push_lemma(alloc: Global, list: &mut List, lemma: &Lemma) -> Result<(), NoAnswer> {
    let vars = lemma.vars.as_slice();
    let steps = lemma.steps.as_slice();
    let count = steps.len();
    list.add(format!(in alloc; "{vars:?} {count}")?.as_str())?;
    push_steps(alloc, list, steps)?;
    let (left, right) = (lemma.left, lemma.right);
    list.add(format!(in alloc; "{left} {right}")?.as_str())?;
    Ok(())
}

fn push_section(alloc: Global, list: &mut List, section: &Section) -> Result<(), NoAnswer> {
    let name = escaped(alloc, section.name.bytes())?;
    let desc = escaped(alloc, section.desc.bytes())?;
    let steps = section.steps.as_slice();
    let count = steps.len();
    list.add(format!(in alloc; "{name} {desc} {count}")?.as_str())?;
    push_steps(alloc, list, steps)
}

fn push_steps(alloc: Global, list: &mut List, steps: &[Step]) -> Result<(), NoAnswer> {
    for step in steps {
        list.add(format!(in alloc; "{step:?}")?.as_str())?;
    }
    Ok(())
}
