//! Rows on integer types and operators.

use int_types::*;
use std::process::Abort;

type Name = (bool, u8);

const INT2: Name = (true, 2);

const INT8: Name = (true, 8);

const INT32: Name = (true, 32);

const INT40: Name = (true, 40);

const INT64: Name = (true, 64);

const UINT1: Name = (false, 1);

const UINT8: Name = (false, 8);

const UINT16: Name = (false, 16);

const UINT32: Name = (false, 32);

const UINT40: Name = (false, 40);

const UINT64: Name = (false, 64);

const LEAST_32: i128 = -2147483648;

const MOST_32: i128 = 2147483647;

const ALL_32: i128 = 4294967295;

const LEAST_64: i128 = -9223372036854775808;

const MOST_64: i128 = 9223372036854775807;

const ALL_64: i128 = 18446744073709551615;

// The type of a name, which is checked to be there.
fn named(rt: &impl Abort, name: Name) -> Ty {
    let (signed, bits) = name;
    match Ty::new(signed, bits) {
        Some(ty) => ty,
        None => {
            assert!(rt; false, "no type of {bits} bits");
            int32()
        }
    }
}

// An operator, its operands with their types, and the type and value that it gives.
type Case = (BinOp, Name, i128, Name, i128, Name, i128);

const BINARY: &[Case] = &[
    (BinOp::Div, INT32, 7, INT32, 0, INT32, 0),
    (BinOp::Rem, INT32, 7, INT32, 0, INT32, 7),
    (BinOp::Div, INT32, -7, INT32, 3, INT32, -2),
    (BinOp::Rem, INT32, -7, INT32, 3, INT32, -1),
    (BinOp::Div, INT64, LEAST_64, INT64, -1, INT64, LEAST_64),
    (BinOp::Rem, INT64, LEAST_64, INT64, -1, INT64, 0),
    (BinOp::Mul, UINT64, ALL_64, UINT64, ALL_64, UINT64, 1),
    (BinOp::Lt, UINT32, 0, INT32, -1, INT32, 1),
    (BinOp::Add, UINT8, 200, UINT8, 100, INT32, 300),
    (BinOp::Div, INT32, 7, INT32, -2, INT32, -3),
    (BinOp::Rem, INT32, 7, INT32, -2, INT32, 1),
    (BinOp::Div, INT32, LEAST_32, INT32, -1, INT32, LEAST_32),
    (BinOp::Div, INT32, -1, UINT32, 2, UINT32, MOST_32),
    (BinOp::Rem, INT8, -128, UINT64, 10, UINT64, 8),
    (BinOp::Rem, INT64, LEAST_64, INT64, 0, INT64, LEAST_64),
    (BinOp::Add, INT32, MOST_32, INT32, 1, INT32, LEAST_32),
    (BinOp::Add, INT64, MOST_64, INT64, MOST_64, INT64, -2),
    (
        BinOp::Add,
        UINT64,
        ALL_64,
        UINT64,
        ALL_64,
        UINT64,
        ALL_64 - 1,
    ),
    (BinOp::Add, INT32, -1, UINT32, 0, UINT32, ALL_32),
    (BinOp::Sub, UINT32, 0, UINT32, 1, UINT32, ALL_32),
    (BinOp::Sub, INT64, LEAST_64, INT64, 1, INT64, MOST_64),
    (BinOp::Sub, UINT8, 0, UINT8, 255, INT32, -255),
    (BinOp::Mul, INT64, LEAST_64, INT64, LEAST_64, INT64, 0),
    (BinOp::Mul, INT64, LEAST_64, INT64, -1, INT64, LEAST_64),
    (BinOp::Mul, INT32, 65536, INT32, 65536, INT32, 0),
    (
        BinOp::Mul,
        INT40,
        549755813887,
        UINT40,
        2,
        UINT40,
        1099511627774,
    ),
    (BinOp::BitAnd, INT32, -1, INT64, MOST_64, INT64, MOST_64),
    (
        BinOp::BitAnd,
        INT8,
        -128,
        UINT32,
        ALL_32,
        UINT32,
        4294967168,
    ),
    (BinOp::BitOr, INT2, -2, UINT1, 1, INT32, -1),
    (
        BinOp::BitOr,
        UINT64,
        1,
        INT64,
        LEAST_64,
        UINT64,
        MOST_64 + 2,
    ),
    (BinOp::BitXor, INT64, -1, INT64, MOST_64, INT64, LEAST_64),
    (
        BinOp::BitXor,
        INT32,
        LEAST_32,
        UINT32,
        ALL_32,
        UINT32,
        MOST_32,
    ),
    (BinOp::Eq, INT32, -1, UINT32, ALL_32, INT32, 1),
    (BinOp::Ne, INT64, -1, UINT64, ALL_64, INT32, 0),
    (BinOp::Ne, INT40, -1, UINT32, ALL_32, INT32, 1),
    (BinOp::Lt, INT64, -1, UINT64, 0, INT32, 0),
    (BinOp::Lt, INT64, -1, UINT32, 0, INT32, 1),
    (BinOp::Le, UINT64, ALL_64, INT64, -1, INT32, 1),
    (BinOp::Gt, UINT64, MOST_64 + 1, INT64, LEAST_64, INT32, 0),
    (BinOp::Ge, INT32, LEAST_32, INT32, MOST_32, INT32, 0),
    (BinOp::LogOr, UINT64, 0, INT64, LEAST_64, INT32, 1),
    (BinOp::LogOr, INT2, 0, UINT1, 0, INT32, 0),
    (BinOp::LogAnd, INT64, -1, UINT64, ALL_64, INT32, 1),
    (BinOp::LogAnd, INT8, 127, INT8, 0, INT32, 0),
    (BinOp::Min, INT64, -1, UINT64, 5, UINT64, 5),
    (BinOp::Max, INT64, -1, UINT64, 5, UINT64, ALL_64),
    (BinOp::Max, INT8, -128, UINT16, 65535, INT32, 65535),
];

const UNARY: &[(UnOp, Name, i128, Name, i128)] = &[
    (UnOp::Minus, UINT32, 1, UINT32, ALL_32),
    (UnOp::Abs, INT32, LEAST_32, INT32, LEAST_32),
    (UnOp::Flip, UINT8, 0, INT32, -1),
    (UnOp::Not, UINT8, 0, INT32, 1),
    (UnOp::Plus, UINT8, 255, INT32, 255),
    (UnOp::Plus, UINT64, ALL_64, UINT64, ALL_64),
    (UnOp::Minus, INT64, LEAST_64, INT64, LEAST_64),
    (UnOp::Minus, UINT64, ALL_64, UINT64, 1),
    (UnOp::Minus, INT8, -128, INT32, 128),
    (UnOp::Flip, UINT64, 0, UINT64, ALL_64),
    (UnOp::Flip, INT64, LEAST_64, INT64, MOST_64),
    (UnOp::Not, UINT64, ALL_64, INT32, 0),
    (UnOp::Abs, INT64, -MOST_64, INT64, MOST_64),
    (UnOp::Abs, INT2, -2, INT32, 2),
];

const COMMON: &[(Name, Name, Name)] = &[
    (UINT40, INT64, INT64),
    (INT40, UINT64, UINT64),
    (UINT64, INT64, UINT64),
    (UINT8, UINT16, INT32),
    (INT32, UINT32, UINT32),
    (UINT32, INT40, INT40),
    (INT2, UINT40, UINT40),
];

// A test, two operands with their types, and the type and value of the one that is chosen.
const CHOICES: &[(i128, Name, i128, Name, i128, Name, i128)] = &[
    (-1, INT32, -1, UINT32, 7, UINT32, ALL_32),
    (0, UINT8, 1, INT8, -128, INT32, -128),
];

const NO_TYPES: &[Name] = &[
    (true, 0),
    (false, 0),
    (true, 1),
    (true, 65),
    (false, 65),
    (true, 255),
];

const LITERALS: &[(u64, Name)] = &[(2147483647, INT32), (2147483648, INT64), (1 << 63, UINT64)];

// A type, the bytes of its cell, and what it is promoted to.
const SIZES: &[(Name, u8, Name)] = &[
    (UINT1, 1, INT32),
    (INT8, 1, INT32),
    (UINT16, 2, INT32),
    (INT32, 4, INT32),
    (UINT40, 8, UINT40),
];

const WRAPS: &[(Name, i128, i128)] = &[
    (UINT8, 256, 0),
    (INT8, 128, -128),
    (INT2, 2, -2),
    (UINT64, -1, ALL_64),
    (INT64, i128::MAX, -1),
    (UINT1, i128::MIN, 0),
];

const SPELLED_BINARY: &[(BinOp, &str)] = &[
    (BinOp::LogOr, "||"),
    (BinOp::LogAnd, "&&"),
    (BinOp::BitOr, "|"),
    (BinOp::BitXor, "^"),
    (BinOp::BitAnd, "&"),
    (BinOp::Eq, "=="),
    (BinOp::Ne, "!="),
    (BinOp::Lt, "<"),
    (BinOp::Le, "<="),
    (BinOp::Gt, ">"),
    (BinOp::Ge, ">="),
    (BinOp::Add, "+"),
    (BinOp::Sub, "-"),
    (BinOp::Mul, "*"),
    (BinOp::Div, "/"),
    (BinOp::Rem, "%"),
    (BinOp::Min, "min"),
    (BinOp::Max, "max"),
];

const SPELLED_UNARY: &[(UnOp, &str)] = &[
    (UnOp::Plus, "+"),
    (UnOp::Minus, "-"),
    (UnOp::Flip, "~"),
    (UnOp::Not, "!"),
    (UnOp::Abs, "abs"),
];

#[test]
fn operators_of_two_operands(rt: HostRuntime) {
    for row in BINARY {
        let (op, a, x, b, y, ty, value) = *row;
        let found = binary(op, named(&rt, a), x, named(&rt, b), y);
        assert_eq!(rt; found, (named(&rt, ty), value), "{op:?} of {x} and {y}");
    }
}

#[test]
fn operators_of_one_operand(rt: HostRuntime) {
    for row in UNARY {
        let (op, of, v, ty, value) = *row;
        let of = named(&rt, of);
        assert!(rt; in_range(of, v), "{v} in range");
        assert_eq!(rt; unary(op, of, v), (named(&rt, ty), value), "{op:?} of {v}");
    }
}

#[test]
fn choices(rt: HostRuntime) {
    for row in CHOICES {
        let (test, a, x, b, y, ty, value) = *row;
        let found = select(test, named(&rt, a), x, named(&rt, b), y);
        assert_eq!(rt; found, (named(&rt, ty), value), "select {test}");
    }
}

#[test]
fn common_types(rt: HostRuntime) {
    for row in COMMON {
        let (a, b, ty) = *row;
        assert_eq!(rt;
            common(named(&rt, a), named(&rt, b)),
            named(&rt, ty),
            "{a:?} and {b:?}"
        );
    }
}

#[test]
fn no_types(rt: HostRuntime) {
    for row in NO_TYPES {
        let (signed, bits) = *row;
        assert_eq!(rt; Ty::new(signed, bits), None, "{signed} {bits}");
    }
}

#[test]
fn types_of_literals(rt: HostRuntime) {
    for row in LITERALS {
        let (v, ty) = *row;
        assert_eq!(rt; literal_type(v), named(&rt, ty), "literal {v}");
    }
}

#[test]
fn sizes_and_promotions(rt: HostRuntime) {
    for row in SIZES {
        let (ty, bytes, promoted) = *row;
        let ty = named(&rt, ty);
        assert_eq!(rt; cell_bytes(ty), bytes, "cell of {bytes} bytes");
        assert_eq!(rt;
            promote(ty),
            named(&rt, promoted),
            "promoted to {promoted:?}"
        );
    }
}

#[test]
fn wraps(rt: HostRuntime) {
    for row in WRAPS {
        let (ty, v, value) = *row;
        assert_eq!(rt; wrap(named(&rt, ty), v), value, "{v} in {ty:?}");
    }
}

#[test]
fn spellings(rt: HostRuntime) {
    for row in SPELLED_BINARY {
        let (op, spelling) = *row;
        assert_eq!(rt; op.spelling(), spelling.as_bytes(), "{op:?}");
    }
    for row in SPELLED_UNARY {
        let (op, spelling) = *row;
        assert_eq!(rt; op.spelling(), spelling.as_bytes(), "{op:?}");
    }
}
