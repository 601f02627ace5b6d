/// The operations. The table below has a row for each, and `docs/INSTRUCTIONS.md` says what each asks and does.
#[derive(Clone, Copy, Debug, PartialEq, Eq)]
pub enum Op {
    /// `r(a) :=` the constant number `x`.
    Intk,
    /// `r(a) :=` a new text, the constant `x`.
    Textk,
    /// `r(a) := r(b)`.
    Move,
    /// `r(a) := r(b) + r(c)`, wrapping.
    Add,
    /// `r(a) := r(b) - r(c)`, wrapping.
    Sub,
    /// `r(a) := r(b) * r(c)`, wrapping.
    Mul,
    /// `r(a) := r(b) / r(c)`, toward zero; by 0 goes to `x`.
    Div,
    /// `r(a) := r(b) rem r(c)`, with the sign of `r(b)`; by 0 goes to `x`.
    Rem,
    /// `r(a) := 1` where `r(b) < r(c)`, else 0.
    Lt,
    /// `r(a) := 1` where `r(b) = r(c)`, else 0.
    Eq,
    /// goes to `x`.
    Jmp,
    /// goes to `x` where `r(a)` is 0.
    Jz,
    /// `slot(a) := x`.
    Loop,
    /// `slot(a) := slot(a) - 1`; above 0 goes to `x`.
    Endl,
    /// one line of output: the number or text in `r(a)`.
    Print,
    /// `r(a) :=` this place.
    Here,
    /// `r(a) :=` place number `x`.
    Placek,
    /// `r(a) :=` the place with the number in `r(b)`; goes to `x` where there is none.
    Placen,
    /// `r(a) :=` the number of the place in `r(b)`.
    Placei,
    /// `r(a) :=` the place after `r(b)`; after the last one, the first.
    Nextp,
    /// `r(a) :=` the number of places.
    Count,
    /// `r(a) :=` the home of the global reference in `r(b)`.
    Home,
    /// `r(a) :=` a new global reference to the object in `r(b)`.
    Gnew,
    /// `r(a) :=` the object of the global reference in `r(b)`, at its home.
    Gopen,
    /// goes to `x` where the place or home in `r(a)` isn't here.
    Ifhere,
    /// goes to `x` where the places or homes in `r(a)` and `r(b)` differ.
    Ifsame,
    /// `r(a) :=` a new object of class `x`, its fields from `r(b)` on.
    New,
    /// `r(a) :=` field `c` of the object in `r(b)`.
    Get,
    /// field `c` of the object in `r(a)` `:= r(b)`.
    Put,
    /// `r(a) := null` of class `x`.
    Null,
    /// `r(a) := r(b)` where that is an object; goes to `x` where it is null.
    Ifobj,
    /// `r(a) :=` a new rail of `r(b)` zero bytes; goes to `x` where that is outside 0 to 65,535.
    Rail,
    /// `r(a) :=` the byte at `r(c)` of the rail in `r(b)`; goes to `x` where there is none.
    Rget,
    /// the byte at `r(b)` of the rail in `r(a)` `:= r(c) mod 256`; goes to `x` where there is none.
    Rset,
    /// `r(a) :=` the length of the rail in `r(b)`.
    Rlen,
    /// `r(a) :=` the length in bytes of the text in `r(b)`.
    Tlen,
    /// `r(a) :=` the texts in `r(b)` and `r(c)` joined; goes to `x` where that is above 65,535 bytes.
    Tcat,
    /// `r(a) :=` function `x` of the arguments from `r(b)` on.
    Call,
    /// ends the function with the result in `r(a)`.
    Ret,
    /// starts an activity here: function `x` of the arguments from `r(b)` on.
    Async,
    /// `r(a) :=` function `x` of copies of the arguments from `r(b)` on, at the place in `r(c)`.
    At,
    /// starts an activity at the place in `r(c)`: function `x` of copies of the arguments from `r(b)` on.
    Ata,
    /// opens a finish.
    Finb,
    /// waits until the innermost finish is done, and closes it.
    Fine,
    /// begins an atomic region: until its end no other activity of this place moves.
    Atomb,
    /// ends the atomic region.
    Atome,
}

/// The table: every operation by rising code, a row each. A row has the code, the name, the group, and what the operands a, b,
/// c and x name. Everything that reads, writes, assembles or lists an instruction uses these rows.
///
/// `table!(each(given))` is `each!` of what is given and the rows.
macro_rules! table {
    ($each:ident($($given:tt)*)) => {
        $each!(
            ($($given)*)
            Intk row(0x01, "INTK", Numbers, Register, Unused, Unused, Int);
            Textk row(0x02, "TEXTK", Texts, Register, Unused, Unused, Text);
            Move row(0x03, "MOVE", Control, Register, Register, Unused, Unused);
            Add row(0x04, "ADD", Numbers, Register, Register, Register, Unused);
            Sub row(0x05, "SUB", Numbers, Register, Register, Register, Unused);
            Mul row(0x06, "MUL", Numbers, Register, Register, Register, Unused);
            Div row(0x07, "DIV", Numbers, Register, Register, Register, Target);
            Rem row(0x08, "REM", Numbers, Register, Register, Register, Target);
            Lt row(0x09, "LT", Numbers, Register, Register, Register, Unused);
            Eq row(0x0a, "EQ", Numbers, Register, Register, Register, Unused);
            Jmp row(0x0b, "JMP", Control, Unused, Unused, Unused, Target);
            Jz row(0x0c, "JZ", Control, Register, Unused, Unused, Target);
            Loop row(0x0d, "LOOP", Control, Slot, Unused, Unused, Count);
            Endl row(0x0e, "ENDL", Control, Slot, Unused, Unused, Target);
            Print row(0x0f, "PRINT", Output, Register, Unused, Unused, Unused);
            Here row(0x10, "HERE", Places, Register, Unused, Unused, Unused);
            Placek row(0x11, "PLACEK", Places, Register, Unused, Unused, Place);
            Placen row(0x12, "PLACEN", Places, Register, Register, Unused, Target);
            Placei row(0x13, "PLACEI", Places, Register, Register, Unused, Unused);
            Nextp row(0x14, "NEXTP", Places, Register, Register, Unused, Unused);
            Count row(0x15, "COUNT", Places, Register, Unused, Unused, Unused);
            Home row(0x16, "HOME", Places, Register, Register, Unused, Unused);
            Gnew row(0x17, "GNEW", Places, Register, Register, Unused, Unused);
            Gopen row(0x18, "GOPEN", Places, Register, Register, Unused, Unused);
            Ifhere row(0x19, "IFHERE", Places, Register, Unused, Unused, Target);
            Ifsame row(0x1a, "IFSAME", Places, Register, Register, Unused, Target);
            New row(0x1b, "NEW", Objects, Register, Arguments, Unused, Class);
            Get row(0x1c, "GET", Objects, Register, Register, Field, Unused);
            Put row(0x1d, "PUT", Objects, Register, Register, Field, Unused);
            Null row(0x1e, "NULL", Objects, Register, Unused, Unused, Class);
            Ifobj row(0x1f, "IFOBJ", Objects, Register, Register, Unused, Target);
            Rail row(0x20, "RAIL", Rails, Register, Register, Unused, Target);
            Rget row(0x21, "RGET", Rails, Register, Register, Register, Target);
            Rset row(0x22, "RSET", Rails, Register, Register, Register, Target);
            Rlen row(0x23, "RLEN", Rails, Register, Register, Unused, Unused);
            Tlen row(0x24, "TLEN", Texts, Register, Register, Unused, Unused);
            Tcat row(0x25, "TCAT", Texts, Register, Register, Register, Target);
            Call row(0x28, "CALL", Control, Result, Arguments, Unused, Function);
            Ret row(0x29, "RET", Control, Result, Unused, Unused, Unused);
            Async row(0x2a, "ASYNC", Activities, Unused, Arguments, Unused, Function);
            At row(0x2b, "AT", Activities, Result, Arguments, Register, Function);
            Ata row(0x2c, "ATA", Activities, Unused, Arguments, Register, Function);
            Finb row(0x2d, "FINB", Activities, Unused, Unused, Unused, Unused);
            Fine row(0x2e, "FINE", Activities, Unused, Unused, Unused, Unused);
            Atomb row(0x2f, "ATOMB", Activities, Unused, Unused, Unused, Unused);
            Atome row(0x30, "ATOME", Activities, Unused, Unused, Unused, Unused);
        )
    };
}

pub(crate) use table;

macro_rules! all {
    (() $($variant:ident $row:ident $fields:tt;)*) => {
        [$(Op::$variant),*]
    };
}

/// All operations, by rising code.
pub(crate) const OPERATIONS: [Op; 46] = table!(all());
