//! Calls on a receiver, under symbols of their own.

ghost use Rattle.std.specs.Prelude.{◌≡◌, IfOk};
ghost use Rattle.pv_value.specs.Receivers.{letter_of, receiver_name, receiver_desc, receiver_sym};

use crate::memory::Memory;
use crate::name::{Name, Sym};
use std::alloc::Global;

/// How an instruction finds the method that it calls on a receiver (JVMS 6.5): invokevirtual,
/// invokespecial or invokeinterface.
#[derive(Clone, Copy, Debug, PartialEq, Eq)]
pub enum Form {
    Virtual,
    Special,
    Interface,
}

/// The byte that no name of a class file has (JVMS 4.4.7).
pub const MARK: u8 = 0xFF;

/// The first parameter of a receiver symbol.
const RECEIVER: &[u8] = b"(Ljava/lang/Object;";

// The letter of a form.
fn letter_of(form: Form) -> u8
    ensures { result ≡ letter_of form }
{
    match form {
        Form::Virtual => b'v',
        Form::Special => b's',
        Form::Interface => b'i',
    }
}

// The name of a method, with its mark and the letter of the form.
fn receiver_name(alloc: Global, form: Form, name: &Name) -> Result<Name, Memory>
    ensures { IfOk result (λ marked. marked ≡ receiver_name form name.now) }
{
    let mut bytes = Vec::from_slice(alloc, name.bytes())?;
    bytes.push(MARK)?;
    bytes.push(letter_of(form))?;
    Name::new(alloc, &bytes)
}

// The descriptor of a method, with a reference as first parameter.
fn receiver_desc(alloc: Global, desc: &Name) -> Result<Name, Memory>
    ensures { IfOk result (λ taking. taking ≡ receiver_desc desc.now) }
{
    let mut bytes = Vec::from_slice(alloc, RECEIVER)?;
    if let [_, rest @ ..] = desc.bytes() {
        bytes.extend_from_slice(rest)?;
    }
    Name::new(alloc, &bytes)
}

/// The symbol under which a call of this form is looked up: that of the method, with a mark and the letter
/// of the form in its name, and with the receiver as the first parameter in its descriptor.
pub fn receiver_sym(alloc: Global, form: Form, sym: &Sym) -> Result<Sym, Memory>
    ensures { IfOk result (λ s. s ≡ receiver_sym form sym.now) }
{
    Ok(Sym {
        class: sym.class.clone()?,
        name: receiver_name(alloc, form, &sym.name)?,
        desc: receiver_desc(alloc, &sym.desc)?,
    })
}
