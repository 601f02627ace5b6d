//! The programs that the tests call, one of each group of instructions.

/// Numbers: sums, differences, products, quotients and comparisons.
pub(crate) const NUMBERS: &str = "places 1
int 6
int 7
int 9223372036854775807
func 3 0 none
INTK 0 0
INTK 1 1
MUL 2 0 1
PRINT 2
SUB 2 1 0
DIV 2 1 0 11
REM 2 1 0 11
INTK 0 2
ADD 2 0 2
LT 1 0 2
PRINT 2
RET 0
end
entry 0
";

/// Calls: 3 squared and doubled.
pub(crate) const CALLS: &str = "places 1
int 3
func 1 0 int int
MUL 0 0 0
RET 0
end
func 2 0 int int
CALL 0 0 0
ADD 1 0 0
RET 1
end
func 2 0 none
INTK 0 0
CALL 1 0 1
PRINT 1
RET 0
end
entry 2
";

/// Objects: a list of two, of which the second's number is printed.
pub(crate) const OBJECTS: &str = "places 1
class int opt:0
int 1
int 2
func 4 0 none
INTK 0 0
NULL 1 0
NEW 2 0 0
INTK 0 1
MOVE 1 2
NEW 2 0 0
GET 1 2 1
IFOBJ 3 1 10
GET 0 3 0
PRINT 0
RET 0
end
entry 0
";

/// Rails and texts: a byte that was set, and two texts joined.
pub(crate) const RAILS: &str = "places 1
int 7
int 1
text \"a\"
text \"b\"
func 5 0 none
INTK 0 0
RAIL 1 0 11
INTK 2 1
RSET 1 2 0 11
RGET 3 1 2 11
PRINT 3
TEXTK 3 0
TEXTK 4 1
TCAT 3 3 4 11
TLEN 0 3
PRINT 3
RET 0
end
entry 0
";
