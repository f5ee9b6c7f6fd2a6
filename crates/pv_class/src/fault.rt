//! Why a class file was not read, and where.

ghost use Rattle.std.specs.Prelude.{◌≡◌};
ghost use Rattle.pv_class.specs.ClassFaults.{fault_at};

use pv_format::Stopped;
use thiserror::Error;

/// What is wrong with a constant pool.
#[derive(Clone, Copy, Debug, PartialEq, Eq)]
pub enum PoolWord {
    /// An entry has an unknown tag.
    Tag,
    /// The bytes of a Utf8 are no modified UTF-8.
    Utf8,
    /// An index is out of range, or of an entry of the wrong kind.
    Reference,
}

/// Why a file is no class file (JVMS 4.1 to 4.8). A number is a place, as an offset in bytes.
#[derive(Clone, Copy, Debug, PartialEq, Eq, Error)]
pub enum ClassFault {
    /// The file ends within an item: where the first such item begins.
    #[error("truncated at {0}")]
    Truncated(usize),
    /// The first item is not 0xCAFEBABE: 0.
    #[error("no magic number at {0}")]
    Magic(usize),
    /// The major version is below 45 or above 69: 4.
    #[error("unknown version at {0}")]
    Version(usize),
    /// Something is wrong with the constant pool: where the entry begins, or where the index stands
    /// outside the pool.
    #[error("bad constant pool at {1}")]
    Pool(PoolWord, usize),
    /// The descriptor of a field or a method is none: where the field or the method begins.
    #[error("bad descriptor at {0}")]
    Descriptor(usize),
    /// The code is empty or has more than 65535 bytes, the length of a Code attribute doesn't match
    /// its contents, or a method has a second one: where the attribute begins.
    #[error("bad code at {0}")]
    Code(usize),
    /// A method has the name and the descriptor of an earlier one: where it begins.
    #[error("duplicate method at {0}")]
    Duplicate(usize),
    /// Bytes stand after the class file: where they begin.
    #[error("trailing bytes at {0}")]
    Trailing(usize),
    /// The file has more than `LONGEST_FILE` bytes: that number.
    #[error("more than {0} bytes")]
    TooLong(usize),
    /// There is no memory; this says nothing of the file.
    #[error("out of memory")]
    Memory,
}

/// Why an item fails.
#[derive(Clone, Copy)]
pub(crate) enum Cause {
    Truncated,
    Magic,
    Version,
    Reference,
    Descriptor,
    Code,
    Duplicate,
    Trailing,
}

impl Cause {
    /// The fault of an item that fails at a place.
    pub(crate) fn at(self, place: usize) -> ClassFault
        ensures { result ≡ fault_at self place }
    {
        match self {
            Cause::Truncated => ClassFault::Truncated(place),
            Cause::Magic => ClassFault::Magic(place),
            Cause::Version => ClassFault::Version(place),
            Cause::Reference => ClassFault::Pool(PoolWord::Reference, place),
            Cause::Descriptor => ClassFault::Descriptor(place),
            Cause::Code => ClassFault::Code(place),
            Cause::Duplicate => ClassFault::Duplicate(place),
            Cause::Trailing => ClassFault::Trailing(place),
        }
    }
}

/// Why reading stops, and how many bytes of the file are left there.
#[derive(Clone, Copy)]
pub(crate) struct Failure {
    pub cause: Cause,
    pub left: usize,
}

/// Why reading stops.
pub(crate) type Stop = Stopped<Failure>;
