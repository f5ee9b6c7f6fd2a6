//! Calls of `pv_asm` and `pv_maker`.
//!
//! | Line | Answer |
//! |---|---|
//! | `assemble BYTES` | the bytes of the class of a listing, or the fault |
//! | `generate SEED COUNT plain`, `.. twin` | the bytes of the class of random methods, or of their twins |

use cases_words::answers::{Answer, NoAnswer, shown};
use cases_words::bench::{Bench, number, words};
use pv_asm::{AsmFault, assemble};
use pv_maker::{MOST_MADE, generate};

/// `assemble BYTES`
pub fn assembling(bench: &Bench, rest: &str) -> Answer {
    let alloc = bench.alloc();
    match assemble(alloc, &bench.bytes(rest)?) {
        Ok(class) => Ok(hex::encode_upper(alloc, &class)?),
        Err(AsmFault::Memory) => Err(NoAnswer::Memory),
        Err(fault) => shown(alloc, fault),
    }
}

/// `generate SEED COUNT plain`, `.. twin`
pub fn generating(bench: &Bench, rest: &str) -> Answer {
    let alloc = bench.alloc();
    let words = words(alloc, rest)?;
    let [seed, count, twin] = *words.as_slice() else {
        return Err(NoAnswer::Unreadable);
    };
    let twin = match twin {
        "plain" => false,
        "twin" => true,
        _ => return Err(NoAnswer::Unreadable),
    };
    let count = number::<u32>(count)?;
    if count > MOST_MADE {
        return Err(NoAnswer::Unreadable);
    }
    let class = generate(alloc, number(seed)?, count, twin)?;
    Ok(hex::encode_upper(alloc, &class)?)
}
