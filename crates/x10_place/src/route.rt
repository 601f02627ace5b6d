//! Operations, as a step distinguishes them.
ghost use Rattle.std.specs.Prelude.{◌≡◌};
ghost use Rattle.x10_place.specs.Routes.{route_of, local_part};

use x10_code::Op;

/// What gives a number: a constant of the module, two registers, or the length of a rail or text.
#[derive(Clone, Copy, Debug, PartialEq, Eq)]
pub(crate) enum Number {
    Constant,
    Sum,
    Difference,
    Product,
    Less,
    Equal,
    RailLength,
    TextLength,
    /// The number of a place.
    PlaceNumber,
}

/// What gives a number, or none: a quotient or remainder by 0, or a byte of a rail where there is none.
#[derive(Clone, Copy, Debug, PartialEq, Eq)]
pub(crate) enum Partial {
    Quotient,
    Remainder,
    Byte,
}

/// An operation that changes its own call frame, a field of an object or a byte of a rail, and takes no memory.
#[derive(Clone, Copy, Debug, PartialEq, Eq)]
pub(crate) enum Local {
    /// Writes a number to a register.
    Number(Number),
    /// Writes a number to a register, or goes to x where there is none.
    Partial(Partial),
    /// Copies a register.
    Copy,
    /// Writes null to a register.
    Null,
    /// Copies a register that isn't null, or goes to x where it is.
    NotNull,
    /// Copies a field of an object to a register.
    GetField,
    /// Copies a register to a field of an object.
    SetField,
    /// Writes a byte of a rail, or goes to x where there is none.
    SetByte,
    /// Writes place x to a register.
    Place,
    /// Writes the home of a global reference to a register.
    Home,
    /// Writes the object that a global reference names to a register.
    Open,
    /// Goes on where two registers stand for one place, else to x.
    SamePlace,
    /// Goes to x.
    Jump,
    /// Goes to x where a register is 0.
    JumpIfZero,
    /// Begins a counted loop.
    Loop,
    /// Ends a turn of a loop.
    EndLoop,
}

/// An operation that changes its own call frame alone, and depends on the place where it is executed.
#[derive(Clone, Copy, Debug, PartialEq, Eq)]
pub(crate) enum Site {
    /// Writes this place to a register.
    Here,
    /// Writes how many places there are to a register.
    Count,
    /// Writes the place after another one to a register; the first after the last.
    Next,
    /// Writes the place with a number to a register, or goes to x where there is none.
    Numbered,
    /// Goes on where a register stands for this place, else to x.
    IsHere,
}

/// What an operation makes in the heap.
#[derive(Clone, Copy, Debug, PartialEq, Eq)]
pub(crate) enum Make {
    /// A text that the module has.
    Text,
    /// A text of two joined; goes to x where it would be too long.
    JoinedText,
    /// An object with its fields from registers.
    Object,
    /// A rail of zeros; goes to x where there is no such length.
    Rail,
}

/// What an operation does.
#[derive(Clone, Copy, Debug, PartialEq, Eq)]
pub(crate) enum Route {
    Local(Local),
    Make(Make),
    Site(Site),
    /// Makes a global reference to an object.
    Export,
    Call,
    Return,
    Print,
    /// Enters an atomic region, or leaves it where the argument is false.
    Region(bool),
    /// Opens a finish.
    OpenFinish,
    /// Closes the innermost finish, or waits there.
    CloseFinish,
    /// Begins an activity at this place.
    Async,
    /// Goes on at a place, for which the stay here waits.
    At,
    /// Sends an activity to a place.
    Ata,
}

/// What an operation does that changes its own call frame, a field of an object or a byte of a rail; none for another one.
#[inline(always)]
fn local_of(op: Op) -> Option<Local>
    ensures { result ≡ local_part (route_of op) }
{
    Some(match op {
        Op::Intk => Local::Number(Number::Constant),
        Op::Add => Local::Number(Number::Sum),
        Op::Sub => Local::Number(Number::Difference),
        Op::Mul => Local::Number(Number::Product),
        Op::Div => Local::Partial(Partial::Quotient),
        Op::Rem => Local::Partial(Partial::Remainder),
        Op::Lt => Local::Number(Number::Less),
        Op::Eq => Local::Number(Number::Equal),
        Op::Move => Local::Copy,
        Op::Jmp => Local::Jump,
        Op::Jz => Local::JumpIfZero,
        Op::Loop => Local::Loop,
        Op::Endl => Local::EndLoop,
        Op::Tlen => Local::Number(Number::TextLength),
        Op::Get => Local::GetField,
        Op::Put => Local::SetField,
        Op::Null => Local::Null,
        Op::Ifobj => Local::NotNull,
        Op::Rget => Local::Partial(Partial::Byte),
        Op::Rset => Local::SetByte,
        Op::Rlen => Local::Number(Number::RailLength),
        Op::Placek => Local::Place,
        Op::Placei => Local::Number(Number::PlaceNumber),
        Op::Home => Local::Home,
        Op::Gopen => Local::Open,
        Op::Ifsame => Local::SamePlace,
        _ => return None,
    })
}

/// What an operation does.
#[inline(always)]
pub(crate) fn classify(op: Op) -> Route
    ensures { result ≡ route_of op }
{
    if let Some(local) = local_of(op) {
        return Route::Local(local);
    }
    match op {
        Op::Call => Route::Call,
        Op::Ret => Route::Return,
        Op::Print => Route::Print,
        Op::Textk => Route::Make(Make::Text),
        Op::Tcat => Route::Make(Make::JoinedText),
        Op::New => Route::Make(Make::Object),
        Op::Rail => Route::Make(Make::Rail),
        Op::Here => Route::Site(Site::Here),
        Op::Placen => Route::Site(Site::Numbered),
        Op::Nextp => Route::Site(Site::Next),
        Op::Count => Route::Site(Site::Count),
        Op::Gnew => Route::Export,
        Op::Ifhere => Route::Site(Site::IsHere),
        Op::Async => Route::Async,
        Op::Finb => Route::OpenFinish,
        Op::Fine => Route::CloseFinish,
        Op::At => Route::At,
        Op::Ata => Route::Ata,
        Op::Atomb => Route::Region(true),
        Op::Atome => Route::Region(false),
        _ => unreachable!(),
    }
}
