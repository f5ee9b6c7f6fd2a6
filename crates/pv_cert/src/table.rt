//! The words of closed sets: the names of operations, the letters of sorts and of variables, and the kinds of elements.

ghost use Rattle.std.specs.Prelude.{◌≡◌, ◌++◌, codes};
ghost use Rattle.pv_cert.specs.Names.{scalar_name, head_name, sort_name, kind_name, row_name};
ghost use Rattle.pv_cert.specs.Variables.{var_name};

use pv_graph::OpSort;
use pv_steps::Var;
use pv_token::Token;
use pv_value::{Kind, ScalarOp};
use std::alloc::AllocError;

/// An operation without its parameters.
#[derive(Clone, Copy, Debug, PartialEq, Eq)]
pub enum Head {
    Int,
    Long,
    Null,
    Literal,
    Param,
    This,
    Heap0,
    Unit,
    Never,
    Clear,
    FNull,
    FArith,
    FIndex,
    Zero,
    Succ,
    Thrown,
    IsClear,
    Both,
    Phi,
    Theta,
    Eval,
    Pass,
    Shift,
    Root,
    Scalar(ScalarOp),
    Aeq,
    GetStatic,
    PutStatic,
    GetField,
    PutField,
    Load,
    Store,
    Length,
    CallEnd,
    CallRes,
    CallFault,
    CallHeap,
    Var,
}

/// The row of a step.
#[derive(Clone, Copy, Debug, PartialEq, Eq)]
pub enum Row {
    Node,
    Axiom,
    Use,
    Flip,
    Chain,
    Set,
    Open,
    Close,
    Assume,
    Finish,
}

static HEADS: [Head; 70] = [
    Head::Int,
    Head::Long,
    Head::Null,
    Head::Literal,
    Head::Param,
    Head::This,
    Head::Heap0,
    Head::Unit,
    Head::Never,
    Head::Clear,
    Head::FNull,
    Head::FArith,
    Head::FIndex,
    Head::Zero,
    Head::Succ,
    Head::Thrown,
    Head::IsClear,
    Head::Both,
    Head::Phi,
    Head::Theta,
    Head::Eval,
    Head::Pass,
    Head::Shift,
    Head::Root,
    Head::Scalar(ScalarOp::Iadd),
    Head::Scalar(ScalarOp::Isub),
    Head::Scalar(ScalarOp::Imul),
    Head::Scalar(ScalarOp::Idiv),
    Head::Scalar(ScalarOp::Irem),
    Head::Scalar(ScalarOp::Ishl),
    Head::Scalar(ScalarOp::Ishr),
    Head::Scalar(ScalarOp::Iushr),
    Head::Scalar(ScalarOp::Iand),
    Head::Scalar(ScalarOp::Ior),
    Head::Scalar(ScalarOp::Ixor),
    Head::Scalar(ScalarOp::Ieq),
    Head::Scalar(ScalarOp::Ilt),
    Head::Scalar(ScalarOp::Ineg),
    Head::Scalar(ScalarOp::I2b),
    Head::Scalar(ScalarOp::I2c),
    Head::Scalar(ScalarOp::I2s),
    Head::Scalar(ScalarOp::I2l),
    Head::Scalar(ScalarOp::Ladd),
    Head::Scalar(ScalarOp::Lsub),
    Head::Scalar(ScalarOp::Lmul),
    Head::Scalar(ScalarOp::Ldiv),
    Head::Scalar(ScalarOp::Lrem),
    Head::Scalar(ScalarOp::Lshl),
    Head::Scalar(ScalarOp::Lshr),
    Head::Scalar(ScalarOp::Lushr),
    Head::Scalar(ScalarOp::Land),
    Head::Scalar(ScalarOp::Lor),
    Head::Scalar(ScalarOp::Lxor),
    Head::Scalar(ScalarOp::Leq),
    Head::Scalar(ScalarOp::Lcmp),
    Head::Scalar(ScalarOp::Lneg),
    Head::Scalar(ScalarOp::L2i),
    Head::Aeq,
    Head::GetStatic,
    Head::PutStatic,
    Head::GetField,
    Head::PutField,
    Head::Load,
    Head::Store,
    Head::Length,
    Head::CallEnd,
    Head::CallRes,
    Head::CallFault,
    Head::CallHeap,
    Head::Var,
];

static SORTS: [OpSort; 8] = [
    OpSort::I,
    OpSort::L,
    OpSort::A,
    OpSort::N,
    OpSort::F,
    OpSort::T,
    OpSort::H,
    OpSort::R,
];

// No variable stands for roots.
static VARS: [Var; 14] = [
    Var {
        sort: OpSort::I,
        settled: false,
    },
    Var {
        sort: OpSort::I,
        settled: true,
    },
    Var {
        sort: OpSort::L,
        settled: false,
    },
    Var {
        sort: OpSort::L,
        settled: true,
    },
    Var {
        sort: OpSort::A,
        settled: false,
    },
    Var {
        sort: OpSort::A,
        settled: true,
    },
    Var {
        sort: OpSort::N,
        settled: false,
    },
    Var {
        sort: OpSort::N,
        settled: true,
    },
    Var {
        sort: OpSort::F,
        settled: false,
    },
    Var {
        sort: OpSort::F,
        settled: true,
    },
    Var {
        sort: OpSort::T,
        settled: false,
    },
    Var {
        sort: OpSort::T,
        settled: true,
    },
    Var {
        sort: OpSort::H,
        settled: false,
    },
    Var {
        sort: OpSort::H,
        settled: true,
    },
];

static KINDS: [Kind; 6] = [
    Kind::Int,
    Kind::Long,
    Kind::Ref,
    Kind::Byte,
    Kind::Char,
    Kind::Short,
];

static ROWS: [Row; 10] = [
    Row::Node,
    Row::Axiom,
    Row::Use,
    Row::Flip,
    Row::Chain,
    Row::Set,
    Row::Open,
    Row::Close,
    Row::Assume,
    Row::Finish,
];

fn scalar_name(op: ScalarOp) -> &'static [u8]
    ensures { result.now ≡ scalar_name op }
{
    match op {
        ScalarOp::Iadd => b"iadd",
        ScalarOp::Isub => b"isub",
        ScalarOp::Imul => b"imul",
        ScalarOp::Idiv => b"idiv",
        ScalarOp::Irem => b"irem",
        ScalarOp::Ishl => b"ishl",
        ScalarOp::Ishr => b"ishr",
        ScalarOp::Iushr => b"iushr",
        ScalarOp::Iand => b"iand",
        ScalarOp::Ior => b"ior",
        ScalarOp::Ixor => b"ixor",
        ScalarOp::Ieq => b"ieq",
        ScalarOp::Ilt => b"ilt",
        ScalarOp::Ineg => b"ineg",
        ScalarOp::I2b => b"i2b",
        ScalarOp::I2c => b"i2c",
        ScalarOp::I2s => b"i2s",
        ScalarOp::I2l => b"i2l",
        ScalarOp::Ladd => b"ladd",
        ScalarOp::Lsub => b"lsub",
        ScalarOp::Lmul => b"lmul",
        ScalarOp::Ldiv => b"ldiv",
        ScalarOp::Lrem => b"lrem",
        ScalarOp::Lshl => b"lshl",
        ScalarOp::Lshr => b"lshr",
        ScalarOp::Lushr => b"lushr",
        ScalarOp::Land => b"land",
        ScalarOp::Lor => b"lor",
        ScalarOp::Lxor => b"lxor",
        ScalarOp::Leq => b"leq",
        ScalarOp::Lcmp => b"lcmp",
        ScalarOp::Lneg => b"lneg",
        ScalarOp::L2i => b"l2i",
    }
}

// The name of an operation.
fn head_name(head: Head) -> &'static [u8]
    ensures { result.now ≡ head_name head }
{
    match head {
        Head::Int => b"int",
        Head::Long => b"long",
        Head::Null => b"null",
        Head::Literal => b"literal",
        Head::Param => b"param",
        Head::This => b"this",
        Head::Heap0 => b"heap0",
        Head::Unit => b"unit",
        Head::Never => b"never",
        Head::Clear => b"clear",
        Head::FNull => b"fnull",
        Head::FArith => b"farith",
        Head::FIndex => b"findex",
        Head::Zero => b"zero",
        Head::Succ => b"succ",
        Head::Thrown => b"thrown",
        Head::IsClear => b"isclear",
        Head::Both => b"both",
        Head::Phi => b"phi",
        Head::Theta => b"theta",
        Head::Eval => b"eval",
        Head::Pass => b"pass",
        Head::Shift => b"shift",
        Head::Root => b"root",
        Head::Scalar(op) => scalar_name(op),
        Head::Aeq => b"aeq",
        Head::GetStatic => b"getstatic",
        Head::PutStatic => b"putstatic",
        Head::GetField => b"getfield",
        Head::PutField => b"putfield",
        Head::Load => b"load",
        Head::Store => b"store",
        Head::Length => b"length",
        Head::CallEnd => b"callend",
        Head::CallRes => b"callres",
        Head::CallFault => b"callfault",
        Head::CallHeap => b"callheap",
        Head::Var => b"var",
    }
}

// The letter of a sort.
fn sort_name(sort: OpSort) -> &'static [u8]
    ensures { result.now ≡ sort_name sort }
{
    match sort {
        OpSort::I => b"I",
        OpSort::L => b"L",
        OpSort::A => b"A",
        OpSort::N => b"N",
        OpSort::F => b"F",
        OpSort::T => b"T",
        OpSort::H => b"H",
        OpSort::R => b"R",
    }
}

// The letter of a sort whose nodes have to be settled.
fn settled_name(sort: OpSort) -> &'static [u8]
    ensures { result.now ≡ sort_name sort ++ codes "!" }
{
    match sort {
        OpSort::I => b"I!",
        OpSort::L => b"L!",
        OpSort::A => b"A!",
        OpSort::N => b"N!",
        OpSort::F => b"F!",
        OpSort::T => b"T!",
        OpSort::H => b"H!",
        OpSort::R => b"R!",
    }
}

// The letter of the sort of a variable, and ! where the variable has to be settled.
fn var_name(var: Var) -> &'static [u8]
    ensures { result.now ≡ var_name var }
{
    if var.settled {
        settled_name(var.sort)
    } else {
        sort_name(var.sort)
    }
}

// The word of a kind of elements.
fn kind_name(kind: Kind) -> &'static [u8]
    ensures { result.now ≡ kind_name kind }
{
    match kind {
        Kind::Int => b"Int",
        Kind::Long => b"Long",
        Kind::Ref => b"Ref",
        Kind::Byte => b"Byte",
        Kind::Char => b"Char",
        Kind::Short => b"Short",
    }
}

// The first word of a step.
fn row_name(row: Row) -> &'static [u8]
    ensures { result.now ≡ row_name row }
{
    match row {
        Row::Node => b"node",
        Row::Axiom => b"axiom",
        Row::Use => b"use",
        Row::Flip => b"flip",
        Row::Chain => b"chain",
        Row::Set => b"set",
        Row::Open => b"open",
        Row::Close => b"close",
        Row::Assume => b"assume",
        Row::Finish => b"finish",
    }
}

/// The names of operations, as words.
pub struct HeadWord;

impl Token for HeadWord {
    ghost use Rattle.pv_cert.specs.Names.{head_token};

    type Value = Head;

    ghost token = { head_token };

    fn read(word: &[u8]) -> Option<Head> {
        HEADS.iter().copied().find(|head| head_name(*head) == word)
    }

    fn push(out: &mut Vec<u8>, value: Head) -> Result<(), AllocError> {
        out.extend_from_slice(head_name(value))
    }
}

/// The letters of sorts, as words.
pub struct SortWord;

impl Token for SortWord {
    ghost use Rattle.pv_cert.specs.Names.{sort_token};

    type Value = OpSort;

    ghost token = { sort_token };

    fn read(word: &[u8]) -> Option<OpSort> {
        SORTS.iter().copied().find(|sort| sort_name(*sort) == word)
    }

    fn push(out: &mut Vec<u8>, value: OpSort) -> Result<(), AllocError> {
        out.extend_from_slice(sort_name(value))
    }
}

/// The variables of lemmas, as words.
pub struct VarWord;

impl Token for VarWord {
    ghost use Rattle.pv_cert.specs.Variables.{var_token};

    type Value = Var;

    ghost token = { var_token };

    fn read(word: &[u8]) -> Option<Var> {
        VARS.iter().copied().find(|var| var_name(*var) == word)
    }

    fn push(out: &mut Vec<u8>, value: Var) -> Result<(), AllocError> {
        out.extend_from_slice(var_name(value))
    }
}

/// The kinds of elements, as words.
pub struct KindWord;

impl Token for KindWord {
    ghost use Rattle.pv_cert.specs.Names.{kind_token};

    type Value = Kind;

    ghost token = { kind_token };

    fn read(word: &[u8]) -> Option<Kind> {
        KINDS.iter().copied().find(|kind| kind_name(*kind) == word)
    }

    fn push(out: &mut Vec<u8>, value: Kind) -> Result<(), AllocError> {
        out.extend_from_slice(kind_name(value))
    }
}

/// The first words of steps.
pub struct RowWord;

impl Token for RowWord {
    ghost use Rattle.pv_cert.specs.Names.{row_token};

    type Value = Row;

    ghost token = { row_token };

    fn read(word: &[u8]) -> Option<Row> {
        ROWS.iter().copied().find(|row| row_name(*row) == word)
    }

    fn push(out: &mut Vec<u8>, value: Row) -> Result<(), AllocError> {
        out.extend_from_slice(row_name(value))
    }
}
