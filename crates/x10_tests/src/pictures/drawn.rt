//! Programs that are drawn, and a picture.

/// The picture of the run of seven, from its legend on.
pub(crate) const SEVEN_DRAWN: &str =
    r##"<g transform="translate(12 32)"><path d="M5 0V14" stroke="#4a76b8" stroke-width="6"/><text x="16" y="10">at work</text></g>
<g transform="translate(88 32)"><path d="M6 2l5 5l-5 5l-5 -5z" fill="#b00040"/><text x="18" y="10">PRINT</text></g>
<g transform="translate(154 32)"><path d="M1 7H11" stroke="#111111" stroke-width="2"/><text x="18" y="10">has ended here</text></g>
<text x="12" y="62">Time goes down.</text>
<text x="12" y="76">2:7 ADD: instruction 7 of function 2, from 0. f2: function 2.</text>
<path d="M26 111V176" stroke="#999999" stroke-dasharray="6 4"/>
<text x="18" y="105" font-size="12" font-weight="bold">place 0</text>
<path stroke="#c8c8c8" d="M0 0M58 128H66M58 140H66M58 152H66M58 164H66"/>
<path d="M58 128V164" stroke="#4a76b8" stroke-width="6"/>
<path stroke="#ffffff" stroke-width="3" d="M0 0"/>
<path d="M53 164H63" stroke="#111111" stroke-width="2"/>
<circle cx="58" cy="128" r="2" fill="#ffffff" stroke="#111111"/>
<path d="M55 140h6" stroke="#ffffff"/>
<path d="M58 147l5 5l-5 5l-5 -5z" fill="#b00040"/>
<circle cx="58" cy="164" r="2" fill="#ffffff" stroke="#111111"/>
<path fill="#ffffff" d="M0 0M68 123h90v10h-90zM68 135h90v10h-90zM68 147h66v10h-66zM68 159h66v10h-66z"/>
<text x="68" y="131" fill="#111111">main: f0 begins</text>
<text x="68" y="143" fill="#666666">0:0 INTK r0 = 7</text>
<text x="68" y="155" fill="#b00040">0:1 PRINT 7</text>
<text x="68" y="167" fill="#111111">0:2 RET end</text>
</svg>
"##;

/// Main at its own place by AT, in a finish in a finish; it starts a stay that loops and prints a line.
pub(crate) const BESIDE: &str = "places 1
int 1
text \"<&>\\n 'a line' that is \\\"longer\\\" than a label shows\"
func 1 1 none
LOOP 0 5
INTK 0 0
ADD 0 0 0
ENDL 0 1
TEXTK 0 0
RET 0
end
func 1 0 none
TEXTK 0 0
PRINT 0
RET 0
end
func 2 0 none
FINB
FINB
HERE 0
AT 0 0 0 0
ASYNC 0 1
FINE
FINE
RET 0
end
entry 2
";

/// Main is inside an atomic region while the stay that it started is stepped; then that one is inside another.
pub(crate) const REGIONS: &str = "version 2
places 1
func 1 0 none
HERE 0
ATOMB
HERE 0
ATOME
RET 0
end
func 1 0 none
ASYNC 0 0
ATOMB
HERE 0
HERE 0
ATOME
RET 0
end
entry 1
";

/// Two stays add 1 to the same field at the same time; main prints the number, and goes on with a text.
pub(crate) const LOST: &str = "places 1
class int
int 0
int 1
text \"a text that is longer than a label shows\"
func 3 0 none obj:0
INTK 2 1
GET 1 0 0
ADD 1 1 2
PUT 0 1 0
RET 0
end
func 1 0 text
TEXTK 0 0
RET 0
end
func 2 0 none
INTK 0 0
NEW 1 0 0
FINB
ASYNC 1 0
ASYNC 1 0
FINE
GET 0 1 0
PRINT 0
CALL 0 0 1
RET 0
end
entry 2
";

/// Main starts a stay in a finish, four hundred times. It needs no more than one place.
pub(crate) const TURNS: &str = "places 1
func 1 0 none
HERE 0
RET 0
end
func 1 1 none
LOOP 0 400
FINB
ASYNC 0 0
FINE
ENDL 0 1
RET 0
end
entry 1
";

/// Main starts a hundred stays.
pub(crate) const CROWD: &str = "places 1
func 1 1 none
LOOP 0 400
HERE 0
ENDL 0 1
RET 0
end
func 1 1 none
LOOP 0 100
ASYNC 0 0
ENDL 0 1
RET 0
end
entry 1
";
