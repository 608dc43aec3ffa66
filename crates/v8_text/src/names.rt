//! The names of instructions.
ghost use Rattle.std.specs.Prelude.{◌≡◌, ◌<◌, ◌++◌, IfSome, if◌then◌else◌, true, false};
ghost use Rattle.std.specs.Str.{bytes_eq};
ghost use Rattle.v8_text.specs.Texts.{alu_text, branch_text, load_text, store_text, trap_text};
ghost use Rattle.v8_text.specs.Parts.{alu_in, both, condition_in, joined_of, leaving, load_in, name_of, setting, single_of, store_in};

use line_words::is_word;
use v8_decode::{AluOp, Cond, LoadKind, StoreKind};

/// What a name says of its instruction: all but the operands.
#[derive(Clone, Copy, Drop)]
pub(crate) enum Name {
    Sethi,
    Branch { cond: Cond, annul: bool },
    Call,
    Alu { op: AluOp, cc: bool },
    ReadY,
    WriteY,
    Jmpl,
    Ticc { cond: Cond },
    Flush,
    Save,
    Restore,
    Load { kind: LoadKind },
    Store { kind: StoreKind },
    Ldstub,
    Swap,
}

// ---- names that are written

/// One of two names.
fn either(second: bool, first: &'static [u8], other: &'static [u8]) -> &'static [u8]
    ensures { result.now ≡ (if second then other.now else first.now) }
{
    if second { other } else { first }
}

/// The name of a branch on the condition with this number.
pub(crate) fn branch_name(cond: u8, annul: bool) -> &'static [u8]
    requires { cond < 16 }
    ensures { result.now ≡ branch_text cond annul }
{
    match cond {
        0 => either(annul, b"bn", b"bn,a"),
        1 => either(annul, b"be", b"be,a"),
        2 => either(annul, b"ble", b"ble,a"),
        3 => either(annul, b"bl", b"bl,a"),
        4 => either(annul, b"bleu", b"bleu,a"),
        5 => either(annul, b"bcs", b"bcs,a"),
        6 => either(annul, b"bneg", b"bneg,a"),
        7 => either(annul, b"bvs", b"bvs,a"),
        8 => either(annul, b"ba", b"ba,a"),
        9 => either(annul, b"bne", b"bne,a"),
        10 => either(annul, b"bg", b"bg,a"),
        11 => either(annul, b"bge", b"bge,a"),
        12 => either(annul, b"bgu", b"bgu,a"),
        13 => either(annul, b"bcc", b"bcc,a"),
        14 => either(annul, b"bpos", b"bpos,a"),
        _ => either(annul, b"bvc", b"bvc,a"),
    }
}

/// The name of a trap on the condition with this number.
pub(crate) fn trap_name(cond: u8) -> &'static [u8]
    requires { cond < 16 }
    ensures { result.now ≡ trap_text cond }
{
    match cond {
        0 => b"tn",
        1 => b"te",
        2 => b"tle",
        3 => b"tl",
        4 => b"tleu",
        5 => b"tcs",
        6 => b"tneg",
        7 => b"tvs",
        8 => b"ta",
        9 => b"tne",
        10 => b"tg",
        11 => b"tge",
        12 => b"tgu",
        13 => b"tcc",
        14 => b"tpos",
        _ => b"tvc",
    }
}

/// The name of an operation; where it has both forms, `cc` says which.
pub(crate) fn alu_name(op: AluOp, cc: bool) -> &'static [u8]
    ensures { result.now ≡ alu_text op cc }
{
    match op {
        AluOp::ADD => either(cc, b"add", b"addcc"),
        AluOp::AND => either(cc, b"and", b"andcc"),
        AluOp::OR => either(cc, b"or", b"orcc"),
        AluOp::XOR => either(cc, b"xor", b"xorcc"),
        AluOp::SUB => either(cc, b"sub", b"subcc"),
        AluOp::ANDN => either(cc, b"andn", b"andncc"),
        AluOp::ORN => either(cc, b"orn", b"orncc"),
        AluOp::XNOR => either(cc, b"xnor", b"xnorcc"),
        AluOp::ADDX => either(cc, b"addx", b"addxcc"),
        AluOp::UMUL => either(cc, b"umul", b"umulcc"),
        AluOp::SMUL => either(cc, b"smul", b"smulcc"),
        AluOp::SUBX => either(cc, b"subx", b"subxcc"),
        AluOp::UDIV => either(cc, b"udiv", b"udivcc"),
        AluOp::SDIV => either(cc, b"sdiv", b"sdivcc"),
        AluOp::TADDcc => b"taddcc",
        AluOp::TSUBcc => b"tsubcc",
        AluOp::TADDccTV => b"taddcctv",
        AluOp::TSUBccTV => b"tsubcctv",
        AluOp::MULScc => b"mulscc",
        AluOp::SLL => b"sll",
        AluOp::SRL => b"srl",
        AluOp::SRA => b"sra",
    }
}

pub(crate) fn load_name(kind: LoadKind) -> &'static [u8]
    ensures { result.now ≡ load_text kind }
{
    match kind {
        LoadKind::LD => b"ld",
        LoadKind::LDUB => b"ldub",
        LoadKind::LDUH => b"lduh",
        LoadKind::LDD => b"ldd",
        LoadKind::LDSB => b"ldsb",
        LoadKind::LDSH => b"ldsh",
    }
}

pub(crate) fn store_name(kind: StoreKind) -> &'static [u8]
    ensures { result.now ≡ store_text kind }
{
    match kind {
        StoreKind::ST => b"st",
        StoreKind::STB => b"stb",
        StoreKind::STH => b"sth",
        StoreKind::STD => b"std",
    }
}

// ---- names that are read

/// What a name says.
#[tactic(auto, unfolding(crate::specs::Parts::name_of))]
pub(crate) fn read_name(name: &[u8]) -> Option<Name>
    ensures { result ≡ name_of name.now }
{
    match joined(name) {
        Some(joined) => Some(joined),
        None => single(name),
    }
}

/// A name that a condition, an operation or a size is part of.
#[tactic(auto, unfolding(crate::specs::Parts::joined_of))]
fn joined(name: &[u8]) -> Option<Name>
    ensures { result ≡ joined_of name.now }
{
    if let Some(op) = leaving(name) {
        return Some(Name::Alu { op, cc: false });
    }
    if let Some(op) = setting(name) {
        return Some(Name::Alu { op, cc: true });
    }
    if let Some(cond) = branch(name, false) {
        return Some(Name::Branch { cond, annul: false });
    }
    if let Some(cond) = branch(name, true) {
        return Some(Name::Branch { cond, annul: true });
    }
    if let Some(cond) = trap(name) {
        return Some(Name::Ticc { cond });
    }
    match load(name) {
        Some(kind) => Some(Name::Load { kind }),
        None => store(name).map(|kind| Name::Store { kind }),
    }
}

/// The operations that leave the codes or set them.
const BOTH: [AluOp; 14] = [
    AluOp::ADD,
    AluOp::AND,
    AluOp::OR,
    AluOp::XOR,
    AluOp::SUB,
    AluOp::ANDN,
    AluOp::ORN,
    AluOp::XNOR,
    AluOp::ADDX,
    AluOp::UMUL,
    AluOp::SMUL,
    AluOp::SUBX,
    AluOp::UDIV,
    AluOp::SDIV,
];

/// An operation that leaves the codes.
fn leaving(name: &[u8]) -> Option<AluOp>
    ensures { result ≡ alu_in leaving false name.now }
{
    operation(name, false, &[AluOp::SLL, AluOp::SRL, AluOp::SRA])
}

/// An operation that sets the codes.
fn setting(name: &[u8]) -> Option<AluOp>
    ensures { result ≡ alu_in setting true name.now }
{
    let others = [
        AluOp::TADDcc,
        AluOp::TSUBcc,
        AluOp::TADDccTV,
        AluOp::TSUBccTV,
        AluOp::MULScc,
    ];
    operation(name, true, &others)
}

/// An operation of both forms, or one of the others.
fn operation(name: &[u8], cc: bool, others: &[AluOp]) -> Option<AluOp>
    ensures { result ≡ alu_in (both ++ others.now) cc name.now }
{
    BOTH.iter()
        .chain(others.iter())
        .copied()
        .find(|op| name == alu_name(*op, cc))
}

/// The condition of a branch.
fn branch(name: &[u8], annul: bool) -> Option<Cond>
    ensures { result ≡ condition_in (λ cond. branch_text cond annul) name.now }
{
    let number = branch_number(name, annul)?;
    Cond::new(number)
}

fn branch_number(name: &[u8], annul: bool) -> Option<u8>
    ensures value { result ≡ condition_in (λ cond. branch_text cond annul) name.now }
    ensures range { IfSome result (λ cond. cond < 16) }
{
    (0..16).find(|cond| name == branch_name(*cond, annul))
}

/// The condition of a trap.
fn trap(name: &[u8]) -> Option<Cond>
    ensures { result ≡ condition_in trap_text name.now }
{
    let number = trap_number(name)?;
    Cond::new(number)
}

fn trap_number(name: &[u8]) -> Option<u8>
    ensures value { result ≡ condition_in trap_text name.now }
    ensures range { IfSome result (λ cond. cond < 16) }
{
    (0..16).find(|cond| name == trap_name(*cond))
}

fn load(name: &[u8]) -> Option<LoadKind>
    ensures { result ≡ load_in name.now }
{
    let loads = [
        LoadKind::LD,
        LoadKind::LDUB,
        LoadKind::LDUH,
        LoadKind::LDD,
        LoadKind::LDSB,
        LoadKind::LDSH,
    ];
    loads.iter().copied().find(|kind| name == load_name(*kind))
}

fn store(name: &[u8]) -> Option<StoreKind>
    ensures { result ≡ store_in name.now }
{
    let stores = [
        StoreKind::ST,
        StoreKind::STB,
        StoreKind::STH,
        StoreKind::STD,
    ];
    stores
        .iter()
        .copied()
        .find(|kind| name == store_name(*kind))
}

/// A name that stands for one instruction.
#[tactic(auto, unfolding(crate::specs::Parts::single_of))]
fn single(name: &[u8]) -> Option<Name>
    ensures { result ≡ single_of name.now }
{
    if is_word(name, "sethi") {
        Some(Name::Sethi)
    } else if is_word(name, "call") {
        Some(Name::Call)
    } else if is_word(name, "jmpl") {
        Some(Name::Jmpl)
    } else if is_word(name, "save") {
        Some(Name::Save)
    } else if is_word(name, "restore") {
        Some(Name::Restore)
    } else if is_word(name, "rd") {
        Some(Name::ReadY)
    } else if is_word(name, "wr") {
        Some(Name::WriteY)
    } else if is_word(name, "flush") {
        Some(Name::Flush)
    } else if is_word(name, "ldstub") {
        Some(Name::Ldstub)
    } else if is_word(name, "swap") {
        Some(Name::Swap)
    } else {
        None
    }
}
