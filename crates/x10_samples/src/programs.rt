/// Main waits in a finish, goes to place 1 and back; what it starts from there at place 2 prints 5. Then main prints 9.
pub const AWAY: &str = "places 3
int 5
int 9
func 1 0 none
INTK 0 0
PRINT 0
RET 0
end
func 1 0 none
PLACEK 0 2
ATA 0 0 0
RET 0
end
func 1 0 none
FINB
PLACEK 0 1
AT 0 0 0 1
FINE
INTK 0 1
PRINT 0
RET 0
end
entry 2
";

/// Two objects, each of which holds the other, a rail that both hold and a global reference go to place 1. There the rail
/// is changed, and its byte printed. Then main prints the byte of its own rail.
pub const ALONG: &str = "places 2
class opt:0 rail gref:1
class
int 2
int 0
int 9
func 4 0 none obj:0
GET 1 0 1
INTK 2 1
INTK 3 2
RSET 1 2 3 9
GET 0 0 0
IFOBJ 0 0 9
GET 1 0 1
RGET 3 1 2 9
PRINT 3
RET 0
end
func 7 0 none
NEW 3 0 1
GNEW 2 3
INTK 5 0
RAIL 1 5 16
NULL 0 0
NEW 3 0 0
MOVE 0 3
NEW 4 0 0
PUT 3 4 0
FINB
PLACEK 6 1
ATA 4 6 0
FINE
INTK 5 1
RGET 5 1 5 16
PRINT 5
RET 0
end
entry 1
";

/// A number goes round four places, one less at each; each prints it.
pub const RELAY: &str = "places 4
int 10
int 1
func 3 0 none int
JZ 0 7
PRINT 0
INTK 1 1
SUB 0 0 1
HERE 2
NEXTP 2 2
ATA 0 2 0
RET 0
end
func 1 0 none
INTK 0 0
ASYNC 0 0
RET 0
end
entry 1
";

/// Jumps and loops: 4,096 by doubling.
pub const LOOPS: &str = "places 1
int 1
func 1 2 none
INTK 0 0
LOOP 0 3
LOOP 1 4
ADD 0 0 0
ENDL 1 3
ENDL 0 2
PRINT 0
RET 0
end
entry 0
";
