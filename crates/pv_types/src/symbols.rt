//! The symbols and texts of facts.

ghost use Rattle.std.specs.Prelude.{◌≡◌, IfOk};
ghost use Rattle.pv_types.specs.Facts as facts;

use pv_value::{MARK, Memory, Name, Sym};
use std::alloc::Global;

const OF_OBJECT: &[u8] = b"(Ljava/lang/Object;)Z";

const OF_OBJECTS: &[u8] = b"(Ljava/lang/Object;Ljava/lang/Object;)Z";

// A name that no class file has.
fn marked(alloc: Global, word: &[u8]) -> Result<Name, Memory>
    ensures { IfOk result (λ name. name ≡ facts.marked word.now) }
{
    let mut bytes = Vec::new(alloc);
    bytes.push(MARK)?;
    bytes.extend_from_slice(word)?;
    Name::new(alloc, &bytes)
}

/// The symbol under which it stands whether an object is of a class.
pub fn is_sym(alloc: Global, class: &Name) -> Result<Sym, Memory>
    ensures { IfOk result (λ s. s ≡ facts.is_sym class.now) }
{
    Ok(Sym {
        class: class.clone()?,
        name: marked(alloc, b"is")?,
        desc: Name::new(alloc, OF_OBJECT)?,
    })
}

/// The symbol under which it stands whether a reference fits an array.
pub fn fits_sym(alloc: Global) -> Result<Sym, Memory>
    ensures { IfOk result (λ s. s ≡ facts.fits_sym) }
{
    Ok(Sym {
        class: marked(alloc, b"array")?,
        name: marked(alloc, b"fits")?,
        desc: Name::new(alloc, OF_OBJECTS)?,
    })
}

/// The text of the literal whose object a failed cast throws.
pub fn cast_text(alloc: Global) -> Result<Name, Memory>
    ensures { IfOk result (λ text. text ≡ facts.cast_text) }
{
    marked(alloc, b"cast")
}

/// The text of the literal whose object a failed store of a reference throws.
pub fn store_text(alloc: Global) -> Result<Name, Memory>
    ensures { IfOk result (λ text. text ≡ facts.store_text) }
{
    marked(alloc, b"store")
}
