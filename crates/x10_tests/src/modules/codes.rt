use std::test::*;
use x10_code::{
    CodeFault, Form, Instr, Op, Operand, code, decode, decode_slice, encode, form, has_spelling,
    name, op_named, op_with_code,
};

/// Each operation's code and name, and which of a, b, c and x it has (1) or not (0).
const TABLE: [(u8, &str, [u8; 4]); 46] = [
    (0x01, "INTK", [1, 0, 0, 1]),
    (0x02, "TEXTK", [1, 0, 0, 1]),
    (0x03, "MOVE", [1, 1, 0, 0]),
    (0x04, "ADD", [1, 1, 1, 0]),
    (0x05, "SUB", [1, 1, 1, 0]),
    (0x06, "MUL", [1, 1, 1, 0]),
    (0x07, "DIV", [1, 1, 1, 1]),
    (0x08, "REM", [1, 1, 1, 1]),
    (0x09, "LT", [1, 1, 1, 0]),
    (0x0a, "EQ", [1, 1, 1, 0]),
    (0x0b, "JMP", [0, 0, 0, 1]),
    (0x0c, "JZ", [1, 0, 0, 1]),
    (0x0d, "LOOP", [1, 0, 0, 1]),
    (0x0e, "ENDL", [1, 0, 0, 1]),
    (0x0f, "PRINT", [1, 0, 0, 0]),
    (0x10, "HERE", [1, 0, 0, 0]),
    (0x11, "PLACEK", [1, 0, 0, 1]),
    (0x12, "PLACEN", [1, 1, 0, 1]),
    (0x13, "PLACEI", [1, 1, 0, 0]),
    (0x14, "NEXTP", [1, 1, 0, 0]),
    (0x15, "COUNT", [1, 0, 0, 0]),
    (0x16, "HOME", [1, 1, 0, 0]),
    (0x17, "GNEW", [1, 1, 0, 0]),
    (0x18, "GOPEN", [1, 1, 0, 0]),
    (0x19, "IFHERE", [1, 0, 0, 1]),
    (0x1a, "IFSAME", [1, 1, 0, 1]),
    (0x1b, "NEW", [1, 1, 0, 1]),
    (0x1c, "GET", [1, 1, 1, 0]),
    (0x1d, "PUT", [1, 1, 1, 0]),
    (0x1e, "NULL", [1, 0, 0, 1]),
    (0x1f, "IFOBJ", [1, 1, 0, 1]),
    (0x20, "RAIL", [1, 1, 0, 1]),
    (0x21, "RGET", [1, 1, 1, 1]),
    (0x22, "RSET", [1, 1, 1, 1]),
    (0x23, "RLEN", [1, 1, 0, 0]),
    (0x24, "TLEN", [1, 1, 0, 0]),
    (0x25, "TCAT", [1, 1, 1, 1]),
    (0x28, "CALL", [1, 1, 0, 1]),
    (0x29, "RET", [1, 0, 0, 0]),
    (0x2a, "ASYNC", [0, 1, 0, 1]),
    (0x2b, "AT", [1, 1, 1, 1]),
    (0x2c, "ATA", [0, 1, 1, 1]),
    (0x2d, "FINB", [0, 0, 0, 0]),
    (0x2e, "FINE", [0, 0, 0, 0]),
    (0x2f, "ATOMB", [0, 0, 0, 0]),
    (0x30, "ATOME", [0, 0, 0, 0]),
];

/// The table as a slice.
fn table() -> &'static [(u8, &'static str, [u8; 4])] {
    &TABLE
}

/// The operations that can jump.
const JUMPS: [&str; 13] = [
    "DIV", "REM", "JMP", "JZ", "ENDL", "PLACEN", "IFHERE", "IFSAME", "IFOBJ", "RAIL", "RGET",
    "RSET", "TCAT",
];

/// The eight bytes with 1 for each operand that an operation has.
fn spelled(code: u8, has: [u8; 4]) -> [u8; 8] {
    let [a, b, c, x] = has;
    [code, a, b, c, 0, 0, 0, x]
}

#[test]
fn each_operation(rt: HostRuntime) -> Result<(), Fail> {
    for (byte, text, has) in table() {
        let op = op_with_code(*byte).ok_or("the code is an operation's")?;
        assert_eq!(rt; code(op), *byte);
        assert_eq!(rt; name(op), *text);
        assert_eq!(rt; op_named(text), Some(op));
        let bytes = spelled(*byte, *has);
        let instr = decode(&bytes).ok().ok_or("the bytes are an instruction")?;
        assert_eq!(rt; instr.op, op);
        assert!(rt; has_spelling(instr));
        assert_eq!(rt; encode(instr), bytes);
    }
    Ok(())
}

#[test]
fn unused_operands(rt: HostRuntime) {
    for (byte, text, has) in table() {
        for (operand, at) in [(0, 1), (1, 2), (2, 3), (3, 7)] {
            if has[operand] == 0 {
                let mut bytes = spelled(*byte, *has);
                bytes[at] = 1;
                assert_eq!(rt;
                    decode(&bytes),
                    Err(CodeFault::UnusedNotZero),
                    "{text} at {at}"
                );
            }
        }
    }
}

#[test]
fn operands_in_order(rt: HostRuntime) {
    let instr = Instr {
        op: Op::At,
        a: 1,
        b: 2,
        c: 3,
        x: 0x0405_0607,
    };
    let bytes = [0x2b, 1, 2, 3, 4, 5, 6, 7];
    assert_eq!(rt; encode(instr), bytes);
    assert_eq!(rt; decode(&bytes), Ok(instr));
    assert_eq!(rt; decode_slice(bytes.as_slice()), Ok(instr));
}

#[test]
fn no_operation(rt: HostRuntime) {
    for code in [0x00, 0x26, 0x27, 0x31, 0xff] {
        assert!(rt; op_with_code(code).is_none());
        let bytes = [code, 1, 1, 1, 1, 1, 1, 1];
        assert!(rt; decode(&bytes) == Err(CodeFault::UnknownOp), "{code}");
    }
    for text in ["", "add", "ADDS", "AD", "ATAX"] {
        assert!(rt; op_named(text).is_none(), "{text}");
    }
}

#[test]
fn forms(rt: HostRuntime) {
    let ata = form(Op::Ata);
    assert!(rt; ata.a == Operand::Unused && ata.b == Operand::Arguments);
    assert!(rt; ata.c == Operand::Register && ata.x == Operand::Function);
    assert!(rt; form(Op::Loop).x == Operand::Count);
    assert!(rt; form(Op::Get).c == Operand::Field && form(Op::Ret).a == Operand::Result);
}

#[test]
fn jumps(rt: HostRuntime) -> Result<(), Fail> {
    for (byte, text, _) in table() {
        let op = op_with_code(*byte).ok_or("the code is an operation's")?;
        let jumps = JUMPS.iter().any(|jump| *jump == *text);
        assert_eq!(rt; form(op).x == Operand::Target, jumps, "{byte}");
    }
    Ok(())
}
