//! A class as far as its listing was read, and what each line adds to it.

ghost use Rattle.std.specs.Prelude.{◌≡◌, ◌++◌, [], length, IfOk, List, Option};
ghost use Rattle.pv_listing.specs.declared.line.Line.{Line};
ghost use Rattle.pv_asm.specs.declared.draft.Place.TheVariants.{Inside};
ghost use Rattle.pv_asm.specs.Codes.{insn_bytes};
ghost use Rattle.pv_asm.specs.Needs.{needed};
ghost use Rattle.pv_asm.specs.Listings.{begin, need_head, open_method, at_label, need_of, at_insn, at_end, next};
ghost use Rattle.pv_asm.specs.Stopping.{Yields};

use crate::code::{Site, insn_bytes};
use crate::labels::{Labels, labels_of};
use crate::pool::Pool;
use crate::seen::{SeenLabels, Signature, Signatures};
use crate::stop::Stop;
use pv_list::Listed;
use pv_listing::{Line, Operands, Title};
use pv_value::Name;
use std::alloc::{AllocError, Global};

/// The most bytes of a code (JVMS 4.7.3).
const LONGEST_CODE: usize = 65535;

/// The head of a method: indices of its name, its descriptor and the name of its code, and the sizes of its frames.
#[derive(Clone, Copy, Debug)]
pub(crate) struct Head {
    pub is_static: bool,
    pub name: u16,
    pub desc: u16,
    pub code: u16,
    pub stack: u16,
    pub locals: u16,
}

/// A method whose end was read.
#[derive(Debug, Drop)]
pub(crate) struct Method {
    pub head: Head,
    pub code: Listed<u8>,
}

/// A method whose end wasn't read yet: its head, all its labels, the labels that were read, and its code so far.
#[derive(Debug, Drop)]
pub(crate) struct Open {
    pub head: Head,
    pub labels: Labels,
    pub seen: SeenLabels,
    pub code: Listed<u8>,
}

/// A class so far: its pool, the indices of its Class and that of its superclass, the signatures of its methods, and the
/// methods whose end was read.
#[derive(Debug, Drop)]
pub(crate) struct Draft {
    pub pool: Pool,
    pub class: u16,
    pub superclass: u16,
    pub signatures: Signatures,
    pub methods: Listed<Method>,
}

/// Where a line stands.
#[derive(Debug, Drop)]
pub(crate) enum Place {
    Start,
    /// After the first line or an `end`.
    Between(Draft),
    /// In a method.
    Inside(Draft, Open),
}

// The class of a name, whose superclass is Object.
fn begin(alloc: Global, name: &Name) -> Result<Draft, Stop>
    ensures { Yields (λ d. d) result (begin name.now) }
{
    let mut pool = Pool::new(alloc);
    let class = pool.need_class(alloc, name.bytes())?;
    let superclass = pool.need_class(alloc, b"java/lang/Object")?;
    Ok(Draft {
        pool,
        class,
        superclass,
        signatures: Signatures::new(alloc),
        methods: Listed::from(Vec::new(alloc)),
    })
}

// The head of a method, with what it needs in the pool.
fn need_head(alloc: Global, pool: &mut Pool, title: &Title) -> Result<Head, Stop>
    ensures { Yields (λ head. (head, pool.new)) result (need_head pool.old title.now) }
{
    let name = pool.need_text(alloc, title.name.bytes())?;
    let desc = pool.need_text(alloc, title.desc.bytes())?;
    let code = pool.need_text(alloc, b"Code")?;
    Ok(Head {
        is_static: title.is_static,
        name,
        desc,
        code,
        stack: title.stack,
        locals: title.locals,
    })
}

// The head of a method.
fn open_method(
    alloc: Global,
    mut draft: Draft,
    title: &Title,
    after: &[Option<Line>],
) -> Result<Place, Stop>
    ensures { Yields (λ p. p) result (open_method draft title.now after.now) }
{
    draft.signatures.put(Signature {
        name: title.name.clone()?,
        desc: title.desc.clone()?,
    })?;
    let head = need_head(alloc, &mut draft.pool, title)?;
    let method = Open {
        head,
        labels: labels_of(alloc, after)?,
        seen: SeenLabels::new(alloc),
        code: Listed::from(Vec::new(alloc)),
    };
    Ok(Place::Inside(draft, method))
}

// A label.
fn at_label(mut method: Open, label: &Name) -> Result<Open, Stop>
    ensures { Yields (λ m. m) result (at_label method label.now) }
{
    method.seen.put(label.clone()?)?;
    Ok(method)
}

// The index of the entry that an instruction needs, or 0.
fn need_of(alloc: Global, pool: &mut Pool, op: u8, operands: &Operands) -> Result<u16, Stop>
    ensures { Yields (λ i. needed i pool.new) result (need_of pool.old op operands.now) }
{
    match operands {
        Operands::Int(value) => pool.need_int(alloc, *value),
        Operands::Long(value) => pool.need_long(alloc, *value),
        Operands::Member(sym) => pool.need_member(alloc, op, sym),
        _ => Ok(0),
    }
}

// The method with more code.
fn with_code(method: Open, bytes: &[u8]) -> Result<Open, AllocError>
    ensures { IfOk result (λ m. m ≡ record method { code = method.code ++ bytes.now }) }
{
    let Open {
        head,
        labels,
        seen,
        code,
    } = method;
    let mut code = code.into_vec();
    code.extend_from_slice(bytes)?;
    Ok(Open {
        head,
        labels,
        seen,
        code: Listed::from(code),
    })
}

// The bytes of an instruction after those of a method, by the index of its entry.
fn bytes_at(
    alloc: Global,
    method: &Open,
    index: u16,
    op: u8,
    operands: &Operands,
) -> Result<Vec<u8>, Stop>
    ensures { Yields (λ v. v.items) result (insn_bytes method.now.labels (length method.now.code) index op operands.now) }
{
    let site = Site {
        labels: &method.labels,
        at: method.code.as_slice().len(),
        index,
        op,
    };
    insn_bytes(alloc, &site, operands)
}

// An instruction.
fn at_insn(
    alloc: Global,
    mut draft: Draft,
    method: Open,
    op: u8,
    operands: &Operands,
) -> Result<Place, Stop>
    ensures { Yields (λ p. p) result (at_insn draft method op operands.now) }
{
    let index = need_of(alloc, &mut draft.pool, op, operands)?;
    let bytes = bytes_at(alloc, &method, index, op, operands)?;
    Ok(Place::Inside(draft, with_code(method, &bytes)?))
}

// The end of a method.
fn at_end(draft: Draft, method: Open) -> Result<Draft, Stop>
    ensures { Yields (λ d. d) result (at_end draft method) }
{
    let Open { head, code, .. } = method;
    let size = code.as_slice().len();
    if size == 0 || size > LONGEST_CODE {
        return Err(Stop::NoReading);
    }
    let Draft {
        pool,
        class,
        superclass,
        signatures,
        methods,
    } = draft;
    let mut methods = methods.into_vec();
    methods.push(Method { head, code })?;
    Ok(Draft {
        pool,
        class,
        superclass,
        signatures,
        methods: Listed::from(methods),
    })
}

// What a line in a method adds.
fn next_inside(alloc: Global, draft: Draft, method: Open, line: &Line) -> Result<Place, Stop>
    ensures { (after : List (Option Line)) → Yields (λ p. p) result (next (Inside draft method) line.now after) }
{
    match line {
        Line::Label(label) => Ok(Place::Inside(draft, at_label(method, label)?)),
        Line::Instruction(op, operands) => at_insn(alloc, draft, method, *op, operands),
        Line::End => Ok(Place::Between(at_end(draft, method)?)),
        Line::Class(_) => Err(Stop::NoReading),
        Line::Method(_) => Err(Stop::NoReading),
    }
}

/// What a line adds, after which these lines stand.
pub(crate) fn next(
    alloc: Global,
    place: Place,
    line: &Line,
    after: &[Option<Line>],
) -> Result<Place, Stop>
    ensures { Yields (λ p. p) result (next place line.now after.now) }
{
    match (place, line) {
        (Place::Start, Line::Class(name)) => Ok(Place::Between(begin(alloc, name)?)),
        (Place::Between(draft), Line::Method(title)) => open_method(alloc, draft, title, after),
        (Place::Inside(draft, method), line) => next_inside(alloc, draft, method, line),
        _ => Err(Stop::NoReading),
    }
}
