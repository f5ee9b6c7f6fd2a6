//! Mnemonics, and what is written after each.

ghost use Rattle.std.specs.Prelude.{◌≡◌, map};
ghost use Rattle.pv_listing.specs.Mnemonics.{names, opcode_in, kind_in, kind_of};

/// What is written after a mnemonic.
#[derive(Clone, Copy, Debug, PartialEq, Eq)]
pub enum Kind {
    Nothing,
    /// A number in the range of a byte.
    Byte,
    /// A number in the range of a short.
    Short,
    /// The number of a local.
    Local,
    /// The number of a local, and a number in the range of a byte.
    Increment,
    Int,
    Long,
    Label,
    /// An int, and labels.
    Table,
    /// A label, and ints, each with a label.
    Lookup,
    /// A field of a class.
    Field,
    /// A method of a class.
    Method,
}

/// The first and the last of opcodes that have one kind, and that kind.
#[derive(Clone, Copy)]
struct Row(u8, u8, Kind);

/// The opcodes after whose mnemonics something is written. `kind_of` is proved to give each its kind by
/// the table of opcodes.
const KINDS: [Row; 15] = [
    // bipush, sipush
    Row(16, 16, Kind::Byte),
    Row(17, 17, Kind::Short),
    // ldc, ldc_w, ldc2_w
    Row(18, 19, Kind::Int),
    Row(20, 20, Kind::Long),
    // loads, stores, ret
    Row(21, 25, Kind::Local),
    Row(54, 58, Kind::Local),
    Row(169, 169, Kind::Local),
    Row(132, 132, Kind::Increment),
    // branches
    Row(153, 168, Kind::Label),
    Row(198, 199, Kind::Label),
    Row(200, 201, Kind::Label),
    Row(170, 170, Kind::Table),
    Row(171, 171, Kind::Lookup),
    // getstatic to putfield, invokestatic
    Row(178, 181, Kind::Field),
    Row(184, 184, Kind::Method),
];

/// The kind of an opcode in rows.
fn kind_in(rows: &[Row], op: u8) -> Kind
    ensures { result ≡ kind_in rows.now op }
{
    for row in rows {
        let Row(first, last, kind) = *row;
        if first <= op && op <= last {
            return kind;
        }
    }
    Kind::Nothing
}

/// What is written after the mnemonic of an opcode.
pub fn kind_of(op: u8) -> Kind
    ensures { result ≡ kind_of op }
{
    kind_in(&KINDS, op)
}

/// The opcodes and their mnemonics (JVMS 6.5).
const NAMES: [(u8, &[u8]); 128] = [
    (0, b"nop"),
    (1, b"aconst_null"),
    (2, b"iconst_m1"),
    (3, b"iconst_0"),
    (4, b"iconst_1"),
    (5, b"iconst_2"),
    (6, b"iconst_3"),
    (7, b"iconst_4"),
    (8, b"iconst_5"),
    (9, b"lconst_0"),
    (10, b"lconst_1"),
    (16, b"bipush"),
    (17, b"sipush"),
    (18, b"ldc"),
    (19, b"ldc_w"),
    (20, b"ldc2_w"),
    (21, b"iload"),
    (22, b"lload"),
    (25, b"aload"),
    (26, b"iload_0"),
    (27, b"iload_1"),
    (28, b"iload_2"),
    (29, b"iload_3"),
    (30, b"lload_0"),
    (31, b"lload_1"),
    (32, b"lload_2"),
    (33, b"lload_3"),
    (42, b"aload_0"),
    (43, b"aload_1"),
    (44, b"aload_2"),
    (45, b"aload_3"),
    (46, b"iaload"),
    (47, b"laload"),
    (50, b"aaload"),
    (51, b"baload"),
    (52, b"caload"),
    (53, b"saload"),
    (54, b"istore"),
    (55, b"lstore"),
    (58, b"astore"),
    (59, b"istore_0"),
    (60, b"istore_1"),
    (61, b"istore_2"),
    (62, b"istore_3"),
    (63, b"lstore_0"),
    (64, b"lstore_1"),
    (65, b"lstore_2"),
    (66, b"lstore_3"),
    (75, b"astore_0"),
    (76, b"astore_1"),
    (77, b"astore_2"),
    (78, b"astore_3"),
    (79, b"iastore"),
    (80, b"lastore"),
    (84, b"bastore"),
    (85, b"castore"),
    (86, b"sastore"),
    (87, b"pop"),
    (88, b"pop2"),
    (89, b"dup"),
    (90, b"dup_x1"),
    (91, b"dup_x2"),
    (92, b"dup2"),
    (93, b"dup2_x1"),
    (94, b"dup2_x2"),
    (95, b"swap"),
    (96, b"iadd"),
    (97, b"ladd"),
    (100, b"isub"),
    (101, b"lsub"),
    (104, b"imul"),
    (105, b"lmul"),
    (108, b"idiv"),
    (109, b"ldiv"),
    (112, b"irem"),
    (113, b"lrem"),
    (116, b"ineg"),
    (117, b"lneg"),
    (120, b"ishl"),
    (121, b"lshl"),
    (122, b"ishr"),
    (123, b"lshr"),
    (124, b"iushr"),
    (125, b"lushr"),
    (126, b"iand"),
    (127, b"land"),
    (128, b"ior"),
    (129, b"lor"),
    (130, b"ixor"),
    (131, b"lxor"),
    (132, b"iinc"),
    (133, b"i2l"),
    (136, b"l2i"),
    (145, b"i2b"),
    (146, b"i2c"),
    (147, b"i2s"),
    (148, b"lcmp"),
    (153, b"ifeq"),
    (154, b"ifne"),
    (155, b"iflt"),
    (156, b"ifge"),
    (157, b"ifgt"),
    (158, b"ifle"),
    (159, b"if_icmpeq"),
    (160, b"if_icmpne"),
    (161, b"if_icmplt"),
    (162, b"if_icmpge"),
    (163, b"if_icmpgt"),
    (164, b"if_icmple"),
    (165, b"if_acmpeq"),
    (166, b"if_acmpne"),
    (167, b"goto"),
    (170, b"tableswitch"),
    (171, b"lookupswitch"),
    (172, b"ireturn"),
    (173, b"lreturn"),
    (176, b"areturn"),
    (177, b"return"),
    (178, b"getstatic"),
    (179, b"putstatic"),
    (180, b"getfield"),
    (181, b"putfield"),
    (184, b"invokestatic"),
    (190, b"arraylength"),
    (191, b"athrow"),
    (198, b"ifnull"),
    (199, b"ifnonnull"),
    (200, b"goto_w"),
];

/// The opcode of a name in rows.
fn opcode_in(rows: &[(u8, &[u8])], word: &[u8]) -> Option<u8>
    ensures { result ≡ opcode_in (map (λ row. (row.0, row.1.now)) rows.now) word.now }
{
    for row in rows {
        if row.1 == word {
            return Some(row.0);
        }
    }
    None
}

/// The opcode of a mnemonic.
pub fn opcode_of(word: &[u8]) -> Option<u8>
    ensures { result ≡ opcode_in names word.now }
{
    opcode_in(&NAMES, word)
}
