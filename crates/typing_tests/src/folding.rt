use ob_text::{Name, NoMemory, Text};
use oberon_types::{ConstExpr, FoldFault, Op, Value, fold_const};
use std::alloc::Global;
use std::test::Fail;

/// A part of an expression, or what an expression folds to: a value, a trap, or what isn't constant.
#[derive(Clone, Copy, Debug)]
enum Part {
    Int(i32),
    Char(u8),
    Truth(bool),
    Set(u32),
    Str(&'static str),
    Trap,
    Other,
}

const LEAST: i32 = -2147483648;

const GREATEST: i32 = 2147483647;

const BINARY: [(Part, Op, Part, Part); 54] = [
    (Part::Int(5), Op::Div, Part::Int(3), Part::Int(1)),
    (Part::Int(5), Op::Mod, Part::Int(3), Part::Int(2)),
    (Part::Int(-5), Op::Div, Part::Int(3), Part::Int(-2)),
    (Part::Int(-5), Op::Mod, Part::Int(3), Part::Int(1)),
    (Part::Int(-6), Op::Div, Part::Int(3), Part::Int(-2)),
    (Part::Int(-6), Op::Mod, Part::Int(3), Part::Int(0)),
    (Part::Int(5), Op::Div, Part::Int(0), Part::Trap),
    (Part::Int(5), Op::Mod, Part::Int(0), Part::Trap),
    (Part::Int(5), Op::Div, Part::Int(-3), Part::Trap),
    (Part::Int(5), Op::Mod, Part::Int(-3), Part::Trap),
    (Part::Int(LEAST), Op::Div, Part::Int(1), Part::Int(LEAST)),
    (
        Part::Int(LEAST),
        Op::Mod,
        Part::Int(GREATEST),
        Part::Int(2147483646),
    ),
    (Part::Int(GREATEST), Op::Add, Part::Int(1), Part::Trap),
    (
        Part::Int(GREATEST),
        Op::Add,
        Part::Int(0),
        Part::Int(GREATEST),
    ),
    (Part::Int(LEAST), Op::Subtract, Part::Int(1), Part::Trap),
    (
        Part::Int(-1),
        Op::Subtract,
        Part::Int(GREATEST),
        Part::Int(LEAST),
    ),
    (Part::Int(65536), Op::Multiply, Part::Int(32768), Part::Trap),
    (
        Part::Int(-65536),
        Op::Multiply,
        Part::Int(32768),
        Part::Int(LEAST),
    ),
    (Part::Int(1), Op::Divide, Part::Int(1), Part::Trap),
    (Part::Int(-1), Op::Less, Part::Int(0), Part::Truth(true)),
    (
        Part::Int(0),
        Op::LessEqual,
        Part::Int(-1),
        Part::Truth(false),
    ),
    (Part::Int(0), Op::Greater, Part::Int(-1), Part::Truth(true)),
    (
        Part::Int(-1),
        Op::GreaterEqual,
        Part::Int(-1),
        Part::Truth(true),
    ),
    (Part::Int(3), Op::Unequal, Part::Int(3), Part::Truth(false)),
    (Part::Set(6), Op::Add, Part::Set(12), Part::Set(14)),
    (Part::Set(6), Op::Subtract, Part::Set(12), Part::Set(2)),
    (Part::Set(6), Op::Multiply, Part::Set(12), Part::Set(4)),
    (Part::Set(6), Op::Divide, Part::Set(12), Part::Set(10)),
    (Part::Set(6), Op::Equal, Part::Set(6), Part::Truth(true)),
    (Part::Int(2), Op::In, Part::Set(4), Part::Truth(true)),
    (Part::Int(1), Op::In, Part::Set(4), Part::Truth(false)),
    (
        Part::Int(31),
        Op::In,
        Part::Set(2147483648),
        Part::Truth(true),
    ),
    (Part::Int(34), Op::In, Part::Set(4), Part::Truth(false)),
    (
        Part::Int(-1),
        Op::In,
        Part::Set(4294967295),
        Part::Truth(false),
    ),
    (
        Part::Truth(true),
        Op::Equal,
        Part::Truth(false),
        Part::Truth(false),
    ),
    (
        Part::Truth(false),
        Op::Unequal,
        Part::Truth(false),
        Part::Truth(false),
    ),
    (Part::Char(65), Op::Less, Part::Char(66), Part::Truth(true)),
    (Part::Char(65), Op::Equal, Part::Str("A"), Part::Truth(true)),
    (
        Part::Str("B"),
        Op::Greater,
        Part::Char(65),
        Part::Truth(true),
    ),
    (Part::Str("AB"), Op::Equal, Part::Char(65), Part::Trap),
    (
        Part::Str("abc"),
        Op::Less,
        Part::Str("abd"),
        Part::Truth(true),
    ),
    (
        Part::Str("ab"),
        Op::Less,
        Part::Str("abc"),
        Part::Truth(true),
    ),
    (
        Part::Str("b"),
        Op::LessEqual,
        Part::Str("abc"),
        Part::Truth(false),
    ),
    (
        Part::Str("ab\0c"),
        Op::Equal,
        Part::Str("ab"),
        Part::Truth(true),
    ),
    (Part::Str("\0"), Op::Equal, Part::Str(""), Part::Truth(true)),
    (Part::Truth(false), Op::And, Part::Trap, Part::Truth(false)),
    (Part::Truth(true), Op::And, Part::Trap, Part::Trap),
    (
        Part::Truth(true),
        Op::And,
        Part::Truth(false),
        Part::Truth(false),
    ),
    (Part::Truth(true), Op::Or, Part::Trap, Part::Truth(true)),
    (
        Part::Truth(false),
        Op::Or,
        Part::Truth(true),
        Part::Truth(true),
    ),
    (Part::Trap, Op::And, Part::Truth(false), Part::Trap),
    (Part::Truth(false), Op::And, Part::Other, Part::Other),
    (Part::Trap, Op::Add, Part::Other, Part::Other),
    (Part::Other, Op::Is, Part::Other, Part::Other),
];

const UNARY: [(Op, Part, Part); 8] = [
    (Op::Subtract, Part::Int(GREATEST), Part::Int(-2147483647)),
    (Op::Subtract, Part::Int(LEAST), Part::Trap),
    (Op::Add, Part::Int(LEAST), Part::Int(LEAST)),
    (Op::Subtract, Part::Set(1), Part::Set(4294967294)),
    (Op::Not, Part::Truth(true), Part::Truth(false)),
    (Op::Not, Part::Int(1), Part::Trap),
    (Op::Not, Part::Other, Part::Other),
    (Op::Subtract, Part::Trap, Part::Trap),
];

const CALLS: [(&str, &[Part], Part); 28] = [
    ("ABS", &[Part::Int(-7)], Part::Int(7)),
    ("ABS", &[Part::Int(LEAST)], Part::Trap),
    ("ODD", &[Part::Int(-1)], Part::Truth(true)),
    ("ODD", &[Part::Int(4)], Part::Truth(false)),
    ("LSL", &[Part::Int(1), Part::Int(31)], Part::Int(LEAST)),
    ("LSL", &[Part::Int(-1), Part::Int(4)], Part::Int(-16)),
    ("LSL", &[Part::Int(3), Part::Int(31)], Part::Int(LEAST)),
    ("ASR", &[Part::Int(-5), Part::Int(1)], Part::Int(-3)),
    ("ASR", &[Part::Int(LEAST), Part::Int(31)], Part::Int(-1)),
    ("ROR", &[Part::Int(1), Part::Int(1)], Part::Int(LEAST)),
    ("ROR", &[Part::Int(6), Part::Int(0)], Part::Int(6)),
    ("LSL", &[Part::Int(1), Part::Int(32)], Part::Trap),
    ("ASR", &[Part::Int(1), Part::Int(-1)], Part::Trap),
    ("ORD", &[Part::Char(200)], Part::Int(200)),
    ("ORD", &[Part::Str("A")], Part::Int(65)),
    ("ORD", &[Part::Truth(true)], Part::Int(1)),
    ("ORD", &[Part::Set(2147483648)], Part::Int(LEAST)),
    ("CHR", &[Part::Int(255)], Part::Char(255)),
    ("CHR", &[Part::Int(256)], Part::Trap),
    ("CHR", &[Part::Int(-1)], Part::Trap),
    ("CHR", &[], Part::Trap),
    ("ABS", &[Part::Int(1), Part::Int(1)], Part::Trap),
    (
        "LSL",
        &[Part::Int(1), Part::Int(1), Part::Int(1)],
        Part::Trap,
    ),
    ("ABS", &[Part::Trap], Part::Trap),
    ("ABS", &[Part::Other], Part::Other),
    ("LEN", &[Part::Int(1)], Part::Other),
    ("F", &[Part::Int(1)], Part::Other),
    ("ABSX", &[Part::Int(1)], Part::Other),
];

const SETS: [(&[(Part, Part)], Part); 10] = [
    (&[], Part::Set(0)),
    (
        &[(Part::Int(1), Part::Int(1)), (Part::Int(3), Part::Int(5))],
        Part::Set(58),
    ),
    (&[(Part::Int(0), Part::Int(31))], Part::Set(4294967295)),
    (&[(Part::Int(31), Part::Int(31))], Part::Set(2147483648)),
    (&[(Part::Int(5), Part::Int(3))], Part::Set(0)),
    (
        &[(Part::Int(2), Part::Int(3)), (Part::Int(3), Part::Int(4))],
        Part::Set(28),
    ),
    (&[(Part::Int(0), Part::Int(32))], Part::Trap),
    (&[(Part::Int(-1), Part::Int(-2))], Part::Trap),
    (&[(Part::Trap, Part::Int(1))], Part::Trap),
    (
        &[(Part::Int(40), Part::Int(40)), (Part::Other, Part::Int(1))],
        Part::Other,
    ),
];

#[test]
fn operators(rt: HostRuntime) -> Result<(), Fail> {
    let alloc = rt.alloc();
    for &(left, op, right, want) in &BINARY {
        let left = Box::new(alloc, expression(alloc, left)?)?;
        let right = Box::new(alloc, expression(alloc, right)?)?;
        let got = fold_const(alloc, &ConstExpr::Binary { op, left, right });
        assert!(rt; is(&got, want), "{op:?} gives {want:?}");
    }
    for &(op, given, want) in &UNARY {
        let given = Box::new(alloc, expression(alloc, given)?)?;
        let got = fold_const(alloc, &ConstExpr::Unary { op, part: given });
        assert!(rt; is(&got, want), "{op:?} gives {want:?}");
    }
    Ok(())
}

#[test]
fn calls(rt: HostRuntime) -> Result<(), Fail> {
    let alloc = rt.alloc();
    for &(name, given, want) in &CALLS {
        let function = Name::new(alloc, name.as_bytes())?;
        let parts = expressions(alloc, given)?;
        let got = fold_const(alloc, &ConstExpr::Call { function, parts });
        assert!(rt; is(&got, want), "{name} gives {want:?}");
    }
    Ok(())
}

#[test]
fn sets(rt: HostRuntime) -> Result<(), Fail> {
    let alloc = rt.alloc();
    for &(given, want) in &SETS {
        let mut ranges = Vec::new(alloc);
        for (low, high) in given {
            ranges.push((expression(alloc, *low)?, expression(alloc, *high)?))?;
        }
        let got = fold_const(alloc, &ConstExpr::SetOf(ranges));
        assert!(rt; is(&got, want), "a set gives {want:?}");
    }
    Ok(())
}

fn expressions(alloc: Global, parts: &[Part]) -> Result<Vec<ConstExpr>, NoMemory> {
    let mut made = Vec::new(alloc);
    for part in parts {
        made.push(expression(alloc, *part)?)?;
    }
    Ok(made)
}

fn expression(alloc: Global, part: Part) -> Result<ConstExpr, NoMemory> {
    Ok(match part {
        Part::Int(x) => ConstExpr::Known(Value::Integer(x)),
        Part::Char(code) => ConstExpr::Known(Value::Char(code)),
        Part::Truth(truth) => ConstExpr::Known(Value::Boolean(truth)),
        Part::Set(set) => ConstExpr::Known(Value::Set(set)),
        Part::Str(text) => ConstExpr::Known(Value::Str(Text::new(alloc, text.as_bytes())?)),
        Part::Trap => ConstExpr::Binary {
            op: Op::Div,
            left: Box::new(alloc, ConstExpr::Known(Value::Integer(1)))?,
            right: Box::new(alloc, ConstExpr::Known(Value::Integer(0)))?,
        },
        Part::Other => ConstExpr::Other,
    })
}

/// Whether an expression folded to this. A string is no answer of this table.
fn is(got: &Result<Value, FoldFault>, want: Part) -> bool {
    match (got, want) {
        (Ok(Value::Integer(x)), Part::Int(y)) => *x == y,
        (Ok(Value::Char(x)), Part::Char(y)) => *x == y,
        (Ok(Value::Boolean(x)), Part::Truth(y)) => *x == y,
        (Ok(Value::Set(x)), Part::Set(y)) => *x == y,
        (Err(FoldFault::Range), Part::Trap) => true,
        (Err(FoldFault::NotConstant), Part::Other) => true,
        _ => false,
    }
}
