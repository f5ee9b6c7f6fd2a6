//! Spelling instructions back into the bytes of a code (JVMS 4.7.3, 6.5).

use pv_insn::{Case, Insn, Placed};
use std::alloc::{AllocError, Global};

const BIPUSH: u8 = 16;

const LDC: u8 = 18;

const IINC: u8 = 132;

const TABLESWITCH: u8 = 170;

const LOOKUPSWITCH: u8 = 171;

const INVOKEINTERFACE: u8 = 185;

const WIDE: u8 = 196;

const GOTO_W: u8 = 200;

/// Why instructions don't spell a code. A number is the address of the instruction.
#[derive(Clone, Copy, Debug)]
pub enum SpellFault {
    /// The bytes of the instructions before it lead to another address.
    Misplaced(u32),
    /// A target is not a place of the list, or out of reach.
    Target(u32),
    /// The numbers of a switch don't fit.
    Switch(u32),
    /// Memory ran out.
    Memory,
}

impl From<AllocError> for SpellFault {
    fn from(_e: AllocError) -> SpellFault {
        SpellFault::Memory
    }
}

/// The bytes that the instructions of a code spell.
///
/// They follow from the instructions and their addresses alone, but for what stands after the
/// opcode of an instruction that isn't accepted, and after the index of an invokeinterface: that is
/// taken from the code. A local is spelled in two bytes where the next address is that of the wide
/// form; the padding of a switch is 0.
pub fn spelled(alloc: Global, code: &[u8], placed: &[Placed]) -> Result<Vec<u8>, SpellFault> {
    let mut speller = Speller {
        code,
        placed,
        out: Vec::new(alloc),
    };
    for (k, one) in placed.iter().enumerate() {
        if speller.out.len() != one.at as usize {
            return Err(SpellFault::Misplaced(one.at));
        }
        speller.spell(one.at, k, &one.insn)?;
    }
    Ok(speller.out)
}

#[derive(Drop)]
struct Speller<'a> {
    code: &'a [u8],
    placed: &'a [Placed],
    out: Vec<u8>,
}

impl Speller<'_> {
    // The instruction at an address and a place.
    fn spell(&mut self, at: u32, place: usize, insn: &Insn) -> Result<(), SpellFault> {
        match insn {
            Insn::Plain(opcode) => self.byte(*opcode),
            Insn::Push(opcode, number) => self.push(*opcode, *number),
            Insn::Local(opcode, local) => self.local(self.is_wide(at, place, 2), *opcode, *local),
            Insn::Iinc(local, by) => self.increment(self.is_wide(at, place, 3), *local, *by),
            Insn::Pool(opcode, index) => self.pool(at, place, *opcode, *index),
            Insn::Branch(opcode, target) => self.branch(at, *opcode, *target),
            Insn::Table(default, low, targets) => {
                self.table(at, *default, *low, targets.as_slice())
            }
            Insn::Lookup(default, cases) => self.lookup(at, *default, cases.as_slice()),
            Insn::Refused(opcode) => self.refused(at, place, *opcode),
        }
    }

    // The address after the instruction at a place.
    fn end(&self, place: usize) -> usize {
        match self.placed.get(place.saturating_add(1)) {
            Some(next) => next.at as usize,
            None => self.code.len(),
        }
    }

    // Whether the instruction at an address and a place has another size than this one.
    fn is_wide(&self, at: u32, place: usize, narrow: usize) -> bool {
        (at as usize).saturating_add(narrow) != self.end(place)
    }

    fn bytes(&mut self, bytes: &[u8]) -> Result<(), SpellFault> {
        self.out.extend_from_slice(bytes)?;
        Ok(())
    }

    fn byte(&mut self, byte: u8) -> Result<(), SpellFault> {
        self.bytes(&[byte])
    }

    fn number(&mut self, number: i32) -> Result<(), SpellFault> {
        self.bytes(&number.to_be_bytes())
    }

    // A number that doesn't fit a byte takes two, so that it isn't spelled as another.
    fn push(&mut self, opcode: u8, number: i16) -> Result<(), SpellFault> {
        self.byte(opcode)?;
        match i8::try_from(number) {
            Ok(number) if opcode == BIPUSH => self.bytes(&number.to_be_bytes()),
            _ => self.bytes(&number.to_be_bytes()),
        }
    }

    fn local(&mut self, is_wide: bool, opcode: u8, local: u16) -> Result<(), SpellFault> {
        match u8::try_from(local) {
            Ok(local) if !is_wide => self.bytes(&[opcode, local]),
            _ => {
                self.bytes(&[WIDE, opcode])?;
                self.bytes(&local.to_be_bytes())
            }
        }
    }

    fn increment(&mut self, is_wide: bool, local: u16, by: i16) -> Result<(), SpellFault> {
        match (u8::try_from(local), i8::try_from(by)) {
            (Ok(local), Ok(by)) if !is_wide => {
                self.bytes(&[IINC, local])?;
                self.bytes(&by.to_be_bytes())
            }
            _ => {
                self.bytes(&[WIDE, IINC])?;
                self.bytes(&local.to_be_bytes())?;
                self.bytes(&by.to_be_bytes())
            }
        }
    }

    fn pool(&mut self, at: u32, place: usize, opcode: u8, index: u16) -> Result<(), SpellFault> {
        self.byte(opcode)?;
        match u8::try_from(index) {
            Ok(index) if opcode == LDC => return self.byte(index),
            _ => self.bytes(&index.to_be_bytes())?,
        }
        if opcode == INVOKEINTERFACE {
            return self.after_index(at, place);
        }
        Ok(())
    }

    // What the code has after the opcode and the index of an invokeinterface.
    fn after_index(&mut self, at: u32, place: usize) -> Result<(), SpellFault> {
        let own = self.code.get(at as usize..self.end(place));
        match own {
            Some([_, _, _, rest @ ..]) => self.bytes(rest),
            _ => Err(SpellFault::Misplaced(at)),
        }
    }

    // From an address to the instruction at a place.
    fn offset(&self, at: u32, target: u32) -> Result<i32, SpellFault> {
        let Some(target) = self.placed.get(target as usize) else {
            return Err(SpellFault::Target(at));
        };
        let offset = i64::from(target.at).wrapping_sub(i64::from(at));
        i32::try_from(offset).map_err(|_| SpellFault::Target(at))
    }

    fn branch(&mut self, at: u32, opcode: u8, target: u32) -> Result<(), SpellFault> {
        let offset = self.offset(at, target)?;
        self.byte(opcode)?;
        if opcode == GOTO_W {
            return self.number(offset);
        }
        match i16::try_from(offset) {
            Ok(offset) => self.bytes(&offset.to_be_bytes()),
            Err(_) => Err(SpellFault::Target(at)),
        }
    }

    // The opcode of a switch, its padding and its default.
    fn switch(&mut self, at: u32, opcode: u8, default: u32) -> Result<(), SpellFault> {
        self.byte(opcode)?;
        for _ in 0..3 - at % 4 {
            self.byte(0)?;
        }
        self.number(self.offset(at, default)?)
    }

    fn table(
        &mut self,
        at: u32,
        default: u32,
        low: i32,
        targets: &[u32],
    ) -> Result<(), SpellFault> {
        self.switch(at, TABLESWITCH, default)?;
        let Some(high) = highest(low, targets.len()) else {
            return Err(SpellFault::Switch(at));
        };
        self.number(low)?;
        self.number(high)?;
        for target in targets {
            self.number(self.offset(at, *target)?)?;
        }
        Ok(())
    }

    fn lookup(&mut self, at: u32, default: u32, cases: &[Case]) -> Result<(), SpellFault> {
        self.switch(at, LOOKUPSWITCH, default)?;
        let Ok(count) = i32::try_from(cases.len()) else {
            return Err(SpellFault::Switch(at));
        };
        self.number(count)?;
        for case in cases {
            self.number(case.key)?;
            self.number(self.offset(at, case.target)?)?;
        }
        Ok(())
    }

    // The opcode, and what the code has after it.
    fn refused(&mut self, at: u32, place: usize, opcode: u8) -> Result<(), SpellFault> {
        let own = self.code.get(at as usize..self.end(place));
        match own {
            Some([WIDE, _, rest @ ..]) => {
                self.bytes(&[WIDE, opcode])?;
                self.bytes(rest)
            }
            Some([_, rest @ ..]) => {
                self.byte(opcode)?;
                self.bytes(rest)
            }
            _ => Err(SpellFault::Misplaced(at)),
        }
    }
}

// The last of this many numbers from a lowest on.
fn highest(low: i32, count: usize) -> Option<i32> {
    let after = i64::from(low).checked_add(i64::try_from(count).ok()?)?;
    let high = i32::try_from(after.checked_sub(1)?).ok()?;
    if high < low { None } else { Some(high) }
}
