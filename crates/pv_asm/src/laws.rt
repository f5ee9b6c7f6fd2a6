//! Laws of the classes of listings, each as the contract of a function that does nothing.

ghost use Rattle.pv_asm.specs.Laws.{CodesAreListed, EntriesOnce, LabelsStand, LinesAreClass, LinesAreListed, ListingIsClass, MethodsHaveClass};

/// Each class of a listing, if it isn't too long to be read, is a class file, and its methods are those of the listing.
pub fn law_class()
    ensures { ListingIsClass }
{}

/// So is each class of lines that have spellings.
pub fn law_lines()
    ensures { LinesAreClass }
{}

/// No entry stands twice in the constant pool of a listing.
pub fn law_once()
    ensures { EntriesOnce }
{}

/// The address of a label is the number of bytes of code before it.
pub fn law_labels()
    ensures { LabelsStand }
{}

/// The code of a method is decoded to the instructions of its lines, if each label that one of them names stands before some
/// instruction: each at its address, with the index of what it names in the constant pool, and with the places of the
/// instructions at its labels.
pub fn law_codes()
    ensures { CodesAreListed }
{}

/// So is that of each method of lines that have spellings.
pub fn law_line_codes()
    ensures { LinesAreListed }
{}

/// Methods of which each has a code by itself, and no two the same name and descriptor, have a class together, if no instruction needs
/// an entry in the constant pool and there are at most 21843 of them.
pub fn law_methods()
    ensures { MethodsHaveClass }
{}
