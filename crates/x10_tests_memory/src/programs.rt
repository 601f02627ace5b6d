//! The programs that the tests run.

/// An object with a rail, a text and a reference goes to place 1, where the text is printed, and comes back. Main prints
/// the text of what came.
pub(crate) const THERE_AND_BACK: &str = "places 2
class rail text gref:1
class
int 3
text \"0123456789\"
func 2 0 obj:0 obj:0
GET 1 0 1
PRINT 1
RET 0
end
func 8 0 none
NEW 7 0 1
GNEW 2 7
INTK 5 0
RAIL 0 5 12
TEXTK 1 0
NEW 3 0 0
FINB
PLACEK 6 1
AT 4 3 6 0
FINE
GET 1 4 1
PRINT 1
RET 0
end
entry 1
";

/// An object with a rail, a text and a reference goes to place 1 with a new activity, which prints the text. Main's finish
/// waits for it.
pub(crate) const SENT_OUT: &str = "places 2
class rail text gref:1
class
int 3
text \"0123456789\"
func 2 0 none obj:0
GET 1 0 1
PRINT 1
RET 0
end
func 8 0 none
NEW 7 0 1
GNEW 2 7
INTK 5 0
RAIL 0 5 10
TEXTK 1 0
NEW 3 0 0
FINB
PLACEK 6 1
ATA 3 6 0
FINE
RET 0
end
entry 1
";

/// A number and four times that, through three calls; the innermost has one register more than a call frame holds in place.
/// Then an object, a reference to it, a rail and two texts, of which the second is printed.
pub(crate) const DEEP: &str = "places 1
class int
int 5
text \"0123456789\"
func 9 0 int int
ADD 0 0 0
RET 0
end
func 2 0 int int
CALL 1 0 0
ADD 0 0 1
RET 0
end
func 2 0 int int
CALL 1 0 1
ADD 0 0 1
RET 0
end
func 4 0 none
INTK 1 0
PRINT 1
CALL 0 1 2
PRINT 0
NEW 2 0 0
GNEW 3 2
RAIL 2 1 10
TEXTK 2 0
TCAT 3 2 2 10
PRINT 3
RET 0
end
entry 3
";

/// Main changes its own copy of a rail, at its own place, and prints a byte of both.
pub(crate) const COPIED: &str = "places 1
int 0
int 7
int 1
func 3 0 none rail
INTK 1 0
INTK 2 1
RSET 0 1 2 5
RGET 2 0 1 5
PRINT 2
RET 0
end
func 3 0 none
INTK 1 2
RAIL 0 1 7
HERE 2
AT 0 0 2 0
INTK 1 0
RGET 1 0 1 7
PRINT 1
RET 0
end
entry 1
";

/// Main prints 7.
pub(crate) const PRINTED: &str = "places 1
int 7
func 1 0 none
INTK 0 0
PRINT 0
RET 0
end
entry 0
";
