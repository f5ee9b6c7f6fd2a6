//! The opcodes that the bytes of an instruction or its entry depend on (JVMS 6.5).

pub(crate) const BIPUSH: u8 = 16;

pub(crate) const LDC: u8 = 18;

pub(crate) const INVOKESTATIC: u8 = 184;

pub(crate) const GOTO_W: u8 = 200;
