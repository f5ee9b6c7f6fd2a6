//! Methods of class files, at their places, that have a code.

ghost use Rattle.std.specs.Prelude.{◌≡◌, ◌<◌, Some, IfOk, IsTrue, length, slice_get};
ghost use Rattle.pv_frame.specs.Answers.{HasCode, HasReferences};
ghost use Rattle.pv_class.specs.declared.file.Method.{Method};
ghost use Rattle.cases_methods.specs.Methods.{IsRead, OwnsCode};

use cases_words::answers::NoAnswer;
use pv_class::{ClassFault, ClassFile, read_class};
use std::alloc::Global;

/// The class file that these bytes are, whose first method has a code.
pub(crate) fn with_code(alloc: Global, bytes: &[u8]) -> Result<ClassFile, NoAnswer>
    ensures code { IfOk result (λ file. HasCode file 0) }
    ensures references { IfOk result (λ file. HasReferences file) }
{
    let placed = read_placed(alloc, bytes, 0)?;
    Ok(placed.class)
}

/// A class file, and the place of one of its methods, which has a code.
#[derive(Drop)]
pub struct Placed {
    pub class: ClassFile,
    pub place: usize,
}

/// The method at a place of the class file that these bytes are.
pub fn read_placed(alloc: Global, bytes: &[u8], place: usize) -> Result<Placed, NoAnswer>
    ensures place { IfOk result (λ p. p.place ≡ place) }
    ensures code { IfOk result (λ p. HasCode p.class p.place) }
    ensures references { IfOk result (λ p. HasReferences p.class) }
{
    let class = read(alloc, bytes)?;
    if is_coded(&class, place) {
        Ok(Placed { class, place })
    } else {
        Err(NoAnswer::Unreadable)
    }
}

fn read(alloc: Global, bytes: &[u8]) -> Result<ClassFile, NoAnswer>
    ensures { IfOk result (λ file. IsRead file) }
{
    match read_class(alloc, bytes) {
        Ok(class) => Ok(class),
        Err(ClassFault::Memory) => Err(NoAnswer::Memory),
        Err(_) => Err(NoAnswer::Unreadable),
    }
}

// Whether a class has a method at this place, and that has a code.
fn is_coded(class: &ClassFile, place: usize) -> bool
    requires { IsRead class.now }
    ensures { IsTrue result → HasCode class.now place }
{
    place < class.methods.as_slice().len() && has_code(class, place)
}

// Whether the method at a place has a code.
fn has_code(class: &ClassFile, place: usize) -> bool
    requires { place < length class.now.methods }
    ensures { (m : Method) → slice_get class.now.methods place ≡ Some m → IsTrue result → OwnsCode m }
{
    class.methods.as_slice()[place].code.is_some()
}
