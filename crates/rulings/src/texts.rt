//! The texts that are played, each with a label. Most are a part of a module, and are played in a frame.

/// A register that is loaded under a condition, and outputs that show it.
pub const PACE: &str = r"MODULE: PACE. INPUTS: go; d[2]. OUTPUTS: q[2]; hot. MEMORY: r[2].
BODY SEQUENCE: clk.
1 r * (go) <= d; => (^go)/(1).
2 q = r; hot = &/ r; => (1).
ENDSEQUENCE CONTROLRESET(1). END.
";

/// Four constants: 00011, 11, 00 and 011.
pub const FOUR_CONSTANTS: &str = r"MODULE: m. MEMORY: r[5]; s[2]; t[3]. BODY SEQUENCE: clk.
1 r <= 5$3; s <= 2$7; s <= \1,1\ & \0\; t <= ^\1,0\,\1\; => (1).
ENDSEQUENCE CONTROLRESET(1). END.
";

/// A module with every class, every kind of step and of statement, and every sign.
pub const EVERYTHING: &str =
    r"MODULE: m. INPUTS: a; d[4]. OUTPUTS: o; p[4]. MEMORY: r; s[4]. BUSES: b[4]; c.
BODY SEQUENCE: clk.
1 s[0:1], s[2], r * (^a + d[3]) <= d & \1,0,1,1\; => (1, 2, 3).
2 c = b[1]; p = 4$9 @ (s[0:2], r); o = &/ s; => (a, +/ d, 1$1)/(3, 1, 2).
3 o, p = @/ s, d; r <= r.
4 NULL.
5 DEADEND.
ENDSEQUENCE CONTROLRESET(1, 2); b = d; o = b[1].
END.
";

/// A text with a byte that begins no word, and one that breaks a rule.
pub const NO_WORD: &str = "MODULE!";

pub const BROKEN_RULE: &str =
    "MODULE:M. INPUTS:a. MEMORY:r. BODY SEQUENCE:clk. 1 r<=x. 2 DEADEND. ENDSEQUENCE CONTROLRESET(1). END.";

/// What stands before and behind the declarations of a module.
pub const BEFORE_ITEMS: &str = "MODULE:M. ";

pub const BEHIND_ITEMS: &str = " BODY SEQUENCE:clk. 1 DEADEND. ENDSEQUENCE CONTROLRESET(1). END.";

/// What stands before and behind the action of the first of two steps.
pub const BEFORE_ACTION: &str =
    "MODULE:M. INPUTS:a;d[4];e[32]. OUTPUTS:o;p[4];w[32]. MEMORY:r;s[4];t[32]. BUSES:b;c[4];g. BODY SEQUENCE:clk. 1 ";

pub const BEHIND_ACTION: &str = ". 2 DEADEND. ENDSEQUENCE CONTROLRESET(1). END.";

/// What stands before and behind the connections behind CONTROLRESET.
pub const BEFORE_CONNECTIONS: &str =
    "MODULE:M. INPUTS:a;d[4];e[32]. OUTPUTS:o;p[4];w[32]. MEMORY:r;s[4];t[32]. BUSES:b;c[4];g. BODY SEQUENCE:clk. 1 DEADEND. ENDSEQUENCE CONTROLRESET(1)";

pub const BEHIND_CONNECTIONS: &str = ". END.";

/// What stands before and behind the steps of a module and its CONTROLRESET.
pub const BEFORE_STEPS: &str =
    "MODULE:M. INPUTS:a;d[4];e[32]. OUTPUTS:o. MEMORY:r;s[4];t[32]. BUSES:b;g. BODY SEQUENCE:clk. ";

pub const BEHIND_STEPS: &str = ". END.";

/// Whole texts with their words or their grammar wrong.
pub const TEXTS: &[(&str, &str)] = &[
    ("no text", ""),
    ("a byte that begins no word", "MODULE:M!"),
    ("a long name", "MODULE:abcdefghijklmnopqrstu."),
    ("a great integer", "MODULE:M. INPUTS:a[65536]."),
    (
        "a rule broken before the grammar is",
        "MODULE:M. INPUTS:a;a. BODY SEQUENCE:clk. 1 DEADEND. ENDSEQUENCE CONTROLRESET(1). END",
    ),
    (
        "a clock with the module's name",
        "MODULE:M. INPUTS:a. BODY SEQUENCE:m. 1 DEADEND. ENDSEQUENCE CONTROLRESET(1). END.",
    ),
    (
        "classes in several declarations",
        "MODULE:M. BUSES:b. INPUTS:a. BUSES:c. MEMORY:r. BODY SEQUENCE:k. 1 c=b;=>(1). ENDSEQUENCE CONTROLRESET(1). END.",
    ),
    (
        "a bus of a later declaration",
        "MODULE:M. BUSES:b. INPUTS:a. BUSES:c. MEMORY:r. BODY SEQUENCE:k. 1 b=c;=>(1). ENDSEQUENCE CONTROLRESET(1). END.",
    ),
];

/// Declarations.
pub const ITEMS: &[(&str, &str)] = &[
    ("no width", "INPUTS:a."),
    ("a width of 0", "INPUTS:a[0]."),
    ("a width of 1", "INPUTS:a[1]."),
    ("a width of 32", "INPUTS:a[32]."),
    ("a width of 33", "INPUTS:a[33]."),
    ("a width of 65535", "INPUTS:a[65535]."),
    (
        "a width of 0 last of several",
        "OUTPUTS:o;p[4]. BUSES:b[32];c[0].",
    ),
    ("a name twice", "INPUTS:a;b;a."),
    ("a name twice and again", "INPUTS:a;a;a."),
    ("a name in two classes", "INPUTS:a. MEMORY:r;a."),
    ("a name in both cases", "INPUTS:a;A."),
    ("a long name in both cases", "OUTPUTS:Ab_9;aB_9."),
    ("a name twice with two widths", "BUSES:a;a[2]."),
    ("a name twice with a width of 0", "BUSES:a;a[0]."),
    ("a width of 0 and then the name again", "BUSES:a[0];a."),
    ("names that begin alike", "INPUTS:ab;abc;a;ab_;ab1."),
    ("the clock's name", "INPUTS:a;clk."),
    ("the clock's name in capitals", "BUSES:CLK."),
    ("the clock's name and a width of 33", "BUSES:clk;a[33]."),
    ("the module's name", "MEMORY:m."),
    ("a name twice and the clock's", "MEMORY:clk;clk."),
];

/// Actions about constants.
pub const CONSTANTS: &[(&str, &str)] = &[
    ("0 bits of 1", "r<=0$1"),
    ("1 bit of 1", "r<=1$1"),
    ("32 bits of 7", "t<=32$7"),
    ("33 bits of 7", "t<=33$7"),
    ("65535 bits of 1", "t<=65535$1"),
    ("5 bits of 3", "s,r<=5$3"),
    ("2 bits of 7", "s[1:2]<=2$7"),
    ("16 bits of 65535", "t[0:15]<=16$65535"),
    ("17 bits of 65535", "t[0:16]<=17$65535"),
    ("the bit 0", r"r<=\0\"),
    ("the bit 1", r"r<=\1\"),
    ("the bit 2", r"r<=\2\"),
    ("the bit 01", r"r<=\01\"),
    ("the bit 00001", r"r<=\00001\"),
    ("the bit 10", r"r<=\10\"),
    ("the bit 65535", r"r<=\65535\"),
    ("a bit 2 in a string", r"s<=\0,1,2,1\"),
    ("two bits 2 in a string", r"s<=\0,2,1,2\"),
    ("a string and one bit", r"s[0:1]<=\1,1\ & \0\"),
    ("a string under NOT", r"s[0:2]<=^\1,0\,\1\"),
    ("no bits and a width beside them", "s<=0$1 & d"),
    ("33 bits of a value that does not fit", "s<=33$1"),
    ("a bit 2 in a condition", r"r*(\2\)<=a"),
    ("no bits in a condition", "r*(0$1)<=a"),
    ("a bit 2 in a branch", r"=>(\2\)/(1)"),
    ("no bits in a branch", "=>(0$1)/(1)"),
];

/// Actions about names and classes.
pub const NAMES: &[(&str, &str)] = &[
    ("names in the other case", "R<=A"),
    ("an undeclared name", "r<=x"),
    ("an output in a value", "r<=o"),
    ("a bit of an output in a value", "r<=p[0]"),
    ("the clock in a value", "r<=clk"),
    ("the module in a value", "r<=m"),
    ("an undeclared name deep in a value", "s<=d&(d+^(c@x))"),
    ("two undeclared names", "s<=x&y"),
    ("an input, memory and a bus in a value", "s<=d&s&c"),
    ("an input in a condition", "r*(a)<=a"),
    ("memory in a condition", "r*(r)<=a"),
    ("a bus in a condition", "r*(b)<=a"),
    ("an undeclared name in a condition", "r*(x)<=a"),
    ("an output in a condition", "r*(o)<=a"),
    ("an input in a branch", "=>(a)/(1)"),
    ("memory in a branch", "=>(r)/(1)"),
    ("a bus in a branch", "=>(b)/(1)"),
    ("an undeclared name in a branch", "=>(x)/(1)"),
    ("an output in a branch", "=>(o)/(1)"),
    ("an undeclared name to be loaded", "x<=a"),
    ("an input to be loaded", "a<=a"),
    ("an output to be loaded", "o<=a"),
    ("a bus to be loaded", "b<=a"),
    ("an output to be loaded under a condition", "o*(a)<=a"),
    ("an undeclared name to be loaded with others", "r,x<=d[0:1]"),
    ("an input to be loaded with others", "r,a,s<=a"),
    ("a bus to be driven", "b=a"),
    ("an output to be driven", "o=a"),
    ("buses and outputs to be driven together", "b,o,c[0],p[1]=d"),
    ("an undeclared name to be driven", "x=a"),
    ("an input to be driven", "a=a"),
    ("memory to be driven", "r=a"),
    ("memory to be driven with others", "b,o,r=a"),
    ("an undeclared name with a wrong subscript", "r<=x[9:1]"),
    ("the clock to be loaded", "clk<=a"),
    ("the module to be driven", "M=a"),
    ("the clock in a condition", "r*(clk)<=a"),
    ("the clock in a branch", "=>(clk)/(1)"),
    ("the module in a branch", "=>(M)/(1)"),
];

/// Actions about subscripts.
pub const SUBSCRIPTS: &[(&str, &str)] = &[
    ("the first bit", "r<=d[0]"),
    ("the last bit", "r<=d[3]"),
    ("a bit past the last", "r<=d[4]"),
    ("bit 65535", "r<=d[65535]"),
    ("all bits", "s<=d[0:3]"),
    ("bits past the last", "s<=d[1:4]"),
    ("bits wholly past the last", "s<=d[4:7]"),
    ("bits that run backwards", "r<=d[2:1]"),
    ("bits that run backwards from past the last", "r<=d[4:3]"),
    ("bits of one bit", "r<=d[3:3]"),
    ("bit 0 of a symbol of one bit", "r<=a[0]"),
    ("bits 0 to 0 of a symbol of one bit", "r[0:0]<=a[0:0]"),
    ("bit 1 of a symbol of one bit", "r<=a[1]"),
    ("bit 32 of 32", "r<=e[32]"),
    ("bit 31 of 32", "r<=e[31]"),
    ("a wrong bit deep in a value", "s<=d&(d+^(c@d[4]))"),
    ("a wrong bit to be loaded", "s[4]<=a"),
    ("bits to be loaded that run backwards", "s[2:1]<=d[0:1]"),
    ("a wrong bit to be loaded with others", "r,s[1:4]<=a"),
    ("a wrong bit to be driven", "p[4]=a"),
    ("bits to be driven that run backwards", "c[3:0]=d"),
    ("a wrong bit in a condition", "r*(d[4])<=a"),
    ("bits in a condition that run backwards", "r*(d[1:0])<=a"),
    ("a wrong bit in a branch", "=>(d[4])/(1)"),
    ("bits in a branch that run backwards", "=>(d[2:0])/(1)"),
    ("two wrong bits", "s[4]<=d[4]"),
    ("a bit named twice", "r,r<=d[0:1]"),
];

/// Actions about the widths of operands.
pub const OPERANDS: &[(&str, &str)] = &[
    ("AND of two widths", "s<=d&e"),
    ("OR of two widths", "s<=d+e"),
    ("XOR of two widths", "s<=d@e"),
    ("AND of one width", "s<=d&s"),
    ("OR of one width", "s<=d+s"),
    ("XOR of one width", "s<=d@s"),
    ("AND with one bit at the left", "s<=a&d"),
    ("OR with one bit at the left", "s<=a+d"),
    ("XOR with one bit at the left", "s<=a@d"),
    ("AND with one bit at the right", "s<=d&a"),
    ("OR with one bit at the right", "s<=d+a"),
    ("XOR with one bit at the right", "s<=d@a"),
    ("AND of three from the left", "s<=a&d&e"),
    ("AND before XOR before OR", "s<=d+a@d&e"),
    ("parentheses before AND", "s<=(d+e)&a"),
    ("a comma after OR", "s[0:1]<=a,a+r"),
    ("a comma up to 32 bits", "t<=e[1:31],a"),
    ("a comma past 32 bits", "t<=e,a"),
    ("a second comma past 32 bits", "t<=e[0:30],a,a"),
    ("a comma past 32 bits in parentheses", "r<=&/(e,a)"),
    ("a comma past 32 bits in a condition", "r*(+/(a,e))<=a"),
    ("a comma past 32 bits in a branch", "=>(a,e)/(1)"),
    ("two commas of 32 bits side by side", "t<=e,e"),
    ("NOT of several bits", "s<=^d"),
    ("NOT of several bits into one", "r<=^d"),
    ("all bits ANDed", "r<=&/d"),
    ("all bits ORed", "r<=+/d"),
    ("all bits XORed", "r<=@/d"),
    ("all bits ANDed into several", "s<=&/d"),
    ("all bits ORed into several", "s<=+/d"),
    ("all bits XORed into several", "s<=@/d"),
    ("a reduction binds closer than AND", "s<=&/d&d"),
    ("a comma of targets up to 32 bits", "t[1:31],r<=e"),
    ("a comma of targets past 32 bits", "t,r<=e"),
    ("a second comma of targets past 32 bits", "s,t[4:31],r,r<=e"),
    ("a comma of driven bits up to 32", "w[1:31],b=e"),
    ("a comma of driven bits past 32", "w,b,c=e"),
    (
        "a comma of targets past 32 bits under a condition",
        "t,r*(a)<=e",
    ),
    ("AND of two widths in a condition", "r*(d&e)<=a"),
    ("OR of two widths in a condition", "r*(d+e)<=a"),
    ("XOR of two widths in a condition", "r*(d@e)<=a"),
    ("AND of two widths in a branch", "=>(d&e)/(1)"),
    ("OR of two widths in a branch", "=>(d+e)/(1)"),
    ("XOR of two widths in a branch", "=>(d@e)/(1)"),
    ("a comma past 32 bits in a condition", "r*(e,a)<=a"),
    ("a comma past 32 bits in a branch", "=>(e,a)/(1)"),
];

/// Actions about the widths of statements and branches.
pub const SIDES: &[(&str, &str)] = &[
    ("a value too wide to be loaded", "s<=e"),
    ("a value too narrow to be loaded", "t<=d"),
    ("one bit to be loaded into several", "s<=a"),
    ("several bits to be loaded into one", "r<=d"),
    ("targets together as wide as the value", "r,s[0:2]<=d"),
    ("targets together wider than the value", "r,s<=d"),
    ("one bit to be driven into several", "p=a"),
    ("several bits to be driven into one", "o=d"),
    ("driven bits together as wide as the value", "b,g,p[0:1]=d"),
    ("a value too narrow under a condition", "s*(a)<=a"),
    ("a condition of several bits", "r*(d)<=a"),
    ("a condition of two bits", "r*(a,a)<=a"),
    ("a condition of several bits made one", "r*(&/d)<=a"),
    ("a condition and a value too wide", "s*(d)<=e"),
    ("a condition too wide and an undeclared value", "s*(d)<=x"),
    ("a condition too wide and a wrong value", "s*(d)<=d&e"),
    (
        "a condition too wide behind an undeclared target",
        "x*(d)<=d",
    ),
    ("a faulty condition and a value too wide", "s*(x)<=e"),
    ("a faulty target and a value of another width", "s[4]<=e"),
    ("a faulty name and a value of another width", "s<=a&x"),
    ("a faulty bit and a value of another width", "s<=d[4]"),
    ("a faulty bit under AND of all bits", "s<=&/d[4]"),
    ("a faulty name under OR of all bits", "s<=+/x"),
    ("a faulty AND under XOR of all bits", "s<=@/(d&e)"),
    ("a faulty AND in a value too wide", "r<=d&e"),
    ("a faulty left side of AND", "s<=(d&e)&t"),
    ("a faulty right side of AND", "s<=t&(d&e)"),
    ("a faulty side of a comma", "t<=e,x"),
    ("a faulty side of a comma in targets", "t,r,x<=e"),
    ("a faulty condition in a branch", "=>(d&e)/(1)"),
    ("as many conditions as exits", "=>(d)/(1,2,2,1)"),
    ("more conditions than exits", "=>(d)/(1)"),
    ("fewer conditions than exits", "=>(a)/(1,1)"),
    (
        "fewer conditions than exits of which one is missing",
        "=>(a)/(1,9)",
    ),
    (
        "more conditions than exits of which one is missing",
        "=>(d)/(1,2,9)",
    ),
    (
        "an exit that is missing and an undeclared condition",
        "=>(x)/(9)",
    ),
    (
        "a target past 32 bits beside one that is undeclared",
        "t,x,r<=e",
    ),
];

/// Actions about the order of buses, of which b is declared first, then c, then g.
pub const BUS_ORDER: &[(&str, &str)] = &[
    ("a bus reads an earlier one", "g=b"),
    ("a bus reads a later one", "b=g"),
    ("a bus reads itself", "b=b"),
    ("a bit of a bus reads another", "c[0]=c[1]"),
    ("a bus reads inputs and memory", "c=d&s"),
    ("a bus reads an earlier one and itself", "g=b&g"),
    ("a bus reads later ones twice", "b=g&g"),
    ("a bus reads a later one under NOT", "b=^g"),
    ("a bus reads a later one under AND of all bits", "b=&/c"),
    ("a bus reads a later one behind a comma", "c=d[0:2],g"),
    ("buses read what is before both", "c,g=b,b,b,b,b"),
    ("buses read what is between them", "b,g=c[0:1]"),
    (
        "buses the other way round read what is between them",
        "g,b=c[0:1]",
    ),
    ("an output reads any bus", "o=g"),
    ("an output and a bus read an earlier one", "o,g=b,b"),
    ("an output and a bus read a later one", "o,b=g,g"),
    ("a bus and an output read a later one", "b,o=g,g"),
    ("memory reads any bus", "r<=g"),
    ("memory reads a bus under any bus", "r*(g)<=b"),
    ("a branch on any bus", "=>(g)/(1)"),
    ("a bus that reads a later one of another width", "b=c"),
    (
        "a bus that reads a later one in an AND of two widths",
        "b=e&c",
    ),
    (
        "a bus that reads an AND of two widths and a later one",
        "b=(d&e),g",
    ),
    ("an undeclared bus that reads a later one", "x=g"),
    ("a bus that reads a later one and an output", "b=g&o"),
    ("a bus that reads an output and a later one", "b=o&g"),
    ("a bus that reads a wrong bit of a later one", "b=c[4]"),
    (
        "a bus that reads a later one with no such bit earlier",
        "b=d[4]&g",
    ),
    ("an earlier and a later connection", "g=b; b=a"),
    ("a later connection out of order", "g=b; b=g"),
];

/// Connections behind CONTROLRESET.
pub const CONNECTIONS: &[(&str, &str)] = &[
    ("connections alone", "; o=a; b=r; w=e"),
    ("an undeclared name driven there", "; x=a"),
    ("an input driven there", "; a=a"),
    ("memory driven there", "; o=a; r=a"),
    ("an undeclared name read there", "; o=x"),
    ("an output read there", "; o=o"),
    ("a wrong bit read there", "; o=d[4]"),
    ("a wrong bit driven there", "; p[4]=a"),
    ("a value too wide there", "; o=d"),
    ("one bit for several there", "; p=a"),
    ("driven bits past 32 there", "; w,o=e"),
    ("AND of two widths there", "; p=d&e"),
    ("no bits there", "; o=0$1"),
    ("a bus out of order there", "; b=a; b=g"),
    ("a bus in order there", "; g=b"),
    ("a bit 2 there", r"; o=\2\"),
    ("a comma past 32 bits there", "; w=e,a"),
];

/// Steps and CONTROLRESET.
pub const STEPS: &[(&str, &str)] = &[
    ("one step", "1 DEADEND. ENDSEQUENCE CONTROLRESET(1)"),
    (
        "a step written 00001",
        "00001 DEADEND. ENDSEQUENCE CONTROLRESET(001)",
    ),
    ("a first step 2", "2 DEADEND. ENDSEQUENCE CONTROLRESET(2)"),
    ("a first step 0", "0 DEADEND. ENDSEQUENCE CONTROLRESET(0)"),
    (
        "a step left out",
        "1 NULL. 3 DEADEND. ENDSEQUENCE CONTROLRESET(1)",
    ),
    (
        "a step twice",
        "1 NULL. 1 DEADEND. ENDSEQUENCE CONTROLRESET(1)",
    ),
    (
        "steps the other way round",
        "1 NULL. 3 NULL. 2 DEADEND. ENDSEQUENCE CONTROLRESET(1)",
    ),
    (
        "a branch to a later step",
        "1 =>(2). 2 =>(1). ENDSEQUENCE CONTROLRESET(1)",
    ),
    ("a branch to itself", "1 =>(1). ENDSEQUENCE CONTROLRESET(1)"),
    ("an exit twice", "1 =>(1,1). ENDSEQUENCE CONTROLRESET(1)"),
    (
        "an exit twice under conditions",
        "1 =>(d[0:1])/(1,1). 2 DEADEND. ENDSEQUENCE CONTROLRESET(1)",
    ),
    ("a reset twice", "1 =>(1). ENDSEQUENCE CONTROLRESET(1,1)"),
    (
        "a reset of the last step",
        "1 NULL. 2 DEADEND. ENDSEQUENCE CONTROLRESET(2)",
    ),
    ("an exit 0", "1 =>(0). ENDSEQUENCE CONTROLRESET(1)"),
    (
        "an exit 0 under conditions",
        "1 =>(a)/(0). 2 DEADEND. ENDSEQUENCE CONTROLRESET(1)",
    ),
    ("a reset 0", "1 =>(1). ENDSEQUENCE CONTROLRESET(0)"),
    (
        "an exit that is missing",
        "1 =>(2). ENDSEQUENCE CONTROLRESET(1)",
    ),
    ("an exit 65535", "1 =>(65535). ENDSEQUENCE CONTROLRESET(1)"),
    (
        "a second exit that is missing",
        "1 =>(1,2). ENDSEQUENCE CONTROLRESET(1)",
    ),
    (
        "an exit that is missing under conditions",
        "1 =>(a)/(3). 2 DEADEND. ENDSEQUENCE CONTROLRESET(1)",
    ),
    (
        "a reset that is missing",
        "1 =>(1). ENDSEQUENCE CONTROLRESET(2)",
    ),
    (
        "a second reset that is missing",
        "1 =>(1). ENDSEQUENCE CONTROLRESET(1,2)",
    ),
    (
        "an exit that is written out of its place",
        "1 =>(3). 3 DEADEND. ENDSEQUENCE CONTROLRESET(1)",
    ),
    (
        "an exit that is left out",
        "1 =>(2). 3 DEADEND. ENDSEQUENCE CONTROLRESET(1)",
    ),
    (
        "an exit 0 that is written",
        "0 =>(0). ENDSEQUENCE CONTROLRESET(1)",
    ),
    (
        "an exit 0 before a step 0",
        "1 =>(0). 0 DEADEND. ENDSEQUENCE CONTROLRESET(1)",
    ),
    (
        "a reset that is missing behind an exit that is",
        "1 =>(9). ENDSEQUENCE CONTROLRESET(9)",
    ),
    (
        "a last step with NULL",
        "1 NULL. ENDSEQUENCE CONTROLRESET(1)",
    ),
    (
        "a last step without a branch",
        "1 r<=a. ENDSEQUENCE CONTROLRESET(1)",
    ),
    (
        "a last step with conditions",
        "1 =>(a)/(1). ENDSEQUENCE CONTROLRESET(1)",
    ),
    (
        "a last step with a statement and conditions",
        "1 r<=a; =>(a)/(1). ENDSEQUENCE CONTROLRESET(1)",
    ),
    (
        "a last step with a statement and a branch",
        "1 r<=a; =>(1). ENDSEQUENCE CONTROLRESET(1)",
    ),
    (
        "a last step with DEADEND",
        "1 r<=a. 2 DEADEND. ENDSEQUENCE CONTROLRESET(1)",
    ),
    (
        "a last step of two with NULL",
        "1 =>(1). 2 NULL. ENDSEQUENCE CONTROLRESET(1)",
    ),
    (
        "a last step left open before an undeclared name",
        "1 r<=x. ENDSEQUENCE CONTROLRESET(1)",
    ),
    (
        "a last step left open behind an undeclared name",
        "1 r<=x. 2 NULL. ENDSEQUENCE CONTROLRESET(1)",
    ),
    (
        "a last step left open before a reset that is missing",
        "1 NULL. ENDSEQUENCE CONTROLRESET(9)",
    ),
    (
        "a last step left open and out of its place",
        "1 NULL. 3 NULL. ENDSEQUENCE CONTROLRESET(1)",
    ),
    (
        "a last step with conditions and out of its place",
        "2 =>(a)/(1). ENDSEQUENCE CONTROLRESET(1)",
    ),
    (
        "an exit that is missing before two widths",
        "1 =>(9). 2 s<=e; =>(1). ENDSEQUENCE CONTROLRESET(1)",
    ),
    (
        "two widths before an exit that is missing",
        "1 s<=e; =>(9). ENDSEQUENCE CONTROLRESET(1)",
    ),
    (
        "a loaded bus behind a condition too wide",
        "1 r*(d)<=a; b<=a; =>(1). ENDSEQUENCE CONTROLRESET(1)",
    ),
    (
        "an undeclared name before a wrong step",
        "1 r<=x. 1 =>(1). ENDSEQUENCE CONTROLRESET(1)",
    ),
    (
        "a wrong step before an undeclared name",
        "2 r<=x. 3 =>(1). ENDSEQUENCE CONTROLRESET(1)",
    ),
    (
        "registers that swap",
        "1 t<=e; s<=d; r<=a; =>(1). ENDSEQUENCE CONTROLRESET(1)",
    ),
];

/// Declarations at the limits: the first so many buses, each with its subscript, and what stands behind them.
pub const MANY_ITEMS: &[(&str, usize, &str, &str)] = &[
    ("64 symbols", 64, "", ""),
    ("65 symbols", 65, "", ""),
    ("66 symbols", 66, "", ""),
    ("a 65th symbol in another class", 64, "", ". INPUTS:y"),
    ("a 65th symbol declared twice", 64, "", ";x0"),
    ("a 65th symbol of no width", 64, "", ";y[0]"),
    ("a 65th symbol behind one declared twice", 63, "", ";x0;y"),
    ("1024 bits", 32, "[32]", ""),
    ("1025 bits", 32, "[32]", ";y"),
    ("1025 bits with the width written", 32, "[32]", ";y[1]"),
    ("1056 bits", 33, "[32]", ""),
    ("1024 bits by a narrow symbol", 31, "[32]", ";y[31];z"),
    ("1025 bits by a wider symbol", 31, "[32]", ";y[31];z[2]"),
    ("1025 bits in another class", 32, "[32]", ". MEMORY:y"),
    ("a width of 0 behind 1024 bits", 32, "[32]", ";y[0]"),
    ("a width of 33 behind 1024 bits", 32, "[32]", ";y[33]"),
    (
        "a width of 33 between 1024 bits",
        31,
        "[32]",
        ";y[33];z[32]",
    ),
    ("a name twice at 1025 bits", 32, "[32]", ";x0"),
];

/// Steps at the limits: the first so many, which go on to the next, and what stands behind them.
pub const MANY_STEPS: &[(&str, usize, &str)] = &[
    ("64 steps", 63, "64 DEADEND. ENDSEQUENCE CONTROLRESET(64)"),
    ("65 steps", 64, "65 DEADEND. ENDSEQUENCE CONTROLRESET(65)"),
    ("66 steps", 65, "66 DEADEND. ENDSEQUENCE CONTROLRESET(1)"),
    (
        "a 65th step left open",
        64,
        "65 NULL. ENDSEQUENCE CONTROLRESET(1)",
    ),
    (
        "a 65th step out of its place",
        64,
        "66 DEADEND. ENDSEQUENCE CONTROLRESET(1)",
    ),
    (
        "a 65th step that is wrong inside",
        64,
        "65 x<=a; =>(99). ENDSEQUENCE CONTROLRESET(1)",
    ),
];

/// Texts that repeat a part: what stands before it in the frame of steps, the part, how often, and what stands behind it.
pub const LIMITS: &[(&str, &str, &str, usize, &str)] = &[
    (
        "16 nestings",
        "1 r<=",
        "^",
        16,
        "a; =>(1). ENDSEQUENCE CONTROLRESET(1)",
    ),
    (
        "17 nestings",
        "1 r<=",
        "^",
        17,
        "a; =>(1). ENDSEQUENCE CONTROLRESET(1)",
    ),
    (
        "32 bits in a string",
        r"1 t<=\",
        "0,",
        31,
        r"1\; =>(1). ENDSEQUENCE CONTROLRESET(1)",
    ),
    (
        "33 bits in a string",
        r"1 t<=\",
        "0,",
        32,
        r"1\; =>(1). ENDSEQUENCE CONTROLRESET(1)",
    ),
    (
        "34 bits in a string",
        r"1 t<=\",
        "0,",
        33,
        r"1\; =>(1). ENDSEQUENCE CONTROLRESET(1)",
    ),
    (
        "a bit 2 as the 32nd",
        r"1 t<=\",
        "0,",
        31,
        r"2\; =>(1). ENDSEQUENCE CONTROLRESET(1)",
    ),
    (
        "a bit 2 as the 33rd",
        r"1 t<=\",
        "0,",
        32,
        r"2\; =>(1). ENDSEQUENCE CONTROLRESET(1)",
    ),
    (
        "a bit 2 as the 34th",
        r"1 t<=\",
        "0,",
        33,
        r"2\; =>(1). ENDSEQUENCE CONTROLRESET(1)",
    ),
    (
        "a bit 2 as the first of 33",
        r"1 t<=\2,",
        "0,",
        31,
        r"1\; =>(1). ENDSEQUENCE CONTROLRESET(1)",
    ),
    (
        "33 bits in a string of another width",
        r"1 r<=\",
        "0,",
        32,
        r"1\; =>(1). ENDSEQUENCE CONTROLRESET(1)",
    ),
    (
        "32 conditions",
        "1 =>(e)/(",
        "1,",
        31,
        "1). 2 DEADEND. ENDSEQUENCE CONTROLRESET(1)",
    ),
    (
        "32 conditions and 33 exits",
        "1 =>(e)/(",
        "1,",
        32,
        "1). 2 DEADEND. ENDSEQUENCE CONTROLRESET(1)",
    ),
    (
        "256 statements",
        "1 ",
        "r<=a; ",
        256,
        "=>(1). ENDSEQUENCE CONTROLRESET(1)",
    ),
    (
        "257 statements",
        "1 ",
        "r<=a; ",
        257,
        "=>(1). ENDSEQUENCE CONTROLRESET(1)",
    ),
    (
        "258 statements",
        "1 ",
        "r<=a; ",
        258,
        "=>(1). ENDSEQUENCE CONTROLRESET(1)",
    ),
    (
        "256 statements in two steps",
        "1 r<=a. 2 ",
        "r<=a; ",
        255,
        "=>(1). ENDSEQUENCE CONTROLRESET(1)",
    ),
    (
        "a 257th statement of two targets",
        "1 ",
        "r<=a; ",
        256,
        "s[0],r<=a,a; =>(1). ENDSEQUENCE CONTROLRESET(1)",
    ),
    (
        "a 257th statement that loads an undeclared name",
        "1 ",
        "r<=a; ",
        256,
        "x<=a; =>(1). ENDSEQUENCE CONTROLRESET(1)",
    ),
    (
        "a 256th statement behind CONTROLRESET",
        "1 ",
        "r<=a; ",
        255,
        "=>(1). ENDSEQUENCE CONTROLRESET(1); o=a",
    ),
    (
        "a 257th statement behind CONTROLRESET",
        "1 ",
        "r<=a; ",
        256,
        "=>(1). ENDSEQUENCE CONTROLRESET(1); o=a",
    ),
    (
        "512 targets",
        "1 ",
        "r,r,r,r,r,r,r,r,r,r,r,r,r,r,r,r,r,r,r,r,r,r,r,r,r,r,r,r,r,r,r,r<=e; ",
        16,
        "=>(1). ENDSEQUENCE CONTROLRESET(1)",
    ),
    (
        "513 targets",
        "1 ",
        "r,r,r,r,r,r,r,r,r,r,r,r,r,r,r,r,r,r,r,r,r,r,r,r,r,r,r,r,r,r,r,r<=e; ",
        16,
        "r<=a; =>(1). ENDSEQUENCE CONTROLRESET(1)",
    ),
    (
        "544 targets",
        "1 ",
        "r,r,r,r,r,r,r,r,r,r,r,r,r,r,r,r,r,r,r,r,r,r,r,r,r,r,r,r,r,r,r,r<=e; ",
        17,
        "=>(1). ENDSEQUENCE CONTROLRESET(1)",
    ),
    (
        "a 512th target among others",
        "1 ",
        "r,r,r,r,r,r,r,r,r,r,r,r,r,r,r,r,r,r,r,r,r,r,r,r,r,r,r,r,r,r,r,r<=e; ",
        15,
        "r,r,r,r,r,r,r,r,r,r,r,r,r,r,r,r,r,r,r,r,r,r,r,r,r,r,r,r,r,r<=e[2:31]; r,r<=d[0:1]; =>(1). ENDSEQUENCE CONTROLRESET(1)",
    ),
    (
        "a 513th target among others",
        "1 ",
        "r,r,r,r,r,r,r,r,r,r,r,r,r,r,r,r,r,r,r,r,r,r,r,r,r,r,r,r,r,r,r,r<=e; ",
        15,
        "r,r,r,r,r,r,r,r,r,r,r,r,r,r,r,r,r,r,r,r,r,r,r,r,r,r,r,r,r,r,r<=e[1:31]; r,r<=d[0:1]; =>(1). ENDSEQUENCE CONTROLRESET(1)",
    ),
    (
        "a 513th target among others and a value of another width",
        "1 ",
        "r,r,r,r,r,r,r,r,r,r,r,r,r,r,r,r,r,r,r,r,r,r,r,r,r,r,r,r,r,r,r,r<=e; ",
        15,
        "r,r,r,r,r,r,r,r,r,r,r,r,r,r,r,r,r,r,r,r,r,r,r,r,r,r,r,r,r,r,r<=e[1:31]; r,r<=d; =>(1). ENDSEQUENCE CONTROLRESET(1)",
    ),
    (
        "a 513th target that is undeclared",
        "1 ",
        "r,r,r,r,r,r,r,r,r,r,r,r,r,r,r,r,r,r,r,r,r,r,r,r,r,r,r,r,r,r,r,r<=e; ",
        16,
        "x<=a; =>(1). ENDSEQUENCE CONTROLRESET(1)",
    ),
    (
        "a 513th target behind CONTROLRESET",
        "1 ",
        "r,r,r,r,r,r,r,r,r,r,r,r,r,r,r,r,r,r,r,r,r,r,r,r,r,r,r,r,r,r,r,r<=e; ",
        16,
        "=>(1). ENDSEQUENCE CONTROLRESET(1); o=a",
    ),
    (
        "512 exits",
        "1 =>(",
        "1,",
        511,
        "1). ENDSEQUENCE CONTROLRESET(1)",
    ),
    (
        "513 exits",
        "1 =>(",
        "1,",
        512,
        "1). ENDSEQUENCE CONTROLRESET(1)",
    ),
    (
        "514 exits",
        "1 =>(",
        "1,",
        513,
        "1). ENDSEQUENCE CONTROLRESET(1)",
    ),
    (
        "512 exits and three resets",
        "1 =>(",
        "1,",
        511,
        "1). ENDSEQUENCE CONTROLRESET(1,1,1)",
    ),
    (
        "a 513th exit of a later step",
        "1 =>(",
        "1,",
        511,
        "1). 2 =>(1). ENDSEQUENCE CONTROLRESET(1)",
    ),
    (
        "a 513th exit that is missing",
        "1 =>(",
        "1,",
        512,
        "9). ENDSEQUENCE CONTROLRESET(1)",
    ),
    (
        "512 exits under one condition",
        "1 =>(a)/(",
        "1,",
        511,
        "1). 2 DEADEND. ENDSEQUENCE CONTROLRESET(1)",
    ),
    (
        "513 exits under one condition",
        "1 =>(a)/(",
        "1,",
        512,
        "1). 2 DEADEND. ENDSEQUENCE CONTROLRESET(1)",
    ),
    (
        "512 nodes",
        "1 ",
        "r<=a&a; ",
        170,
        "r<=^a; =>(1). ENDSEQUENCE CONTROLRESET(1)",
    ),
    (
        "a 513th node AND",
        "1 ",
        "r<=a&a; ",
        170,
        "r<=a&a; =>(1). ENDSEQUENCE CONTROLRESET(1)",
    ),
    (
        "a 513th node OR",
        "1 ",
        "r<=a&a; ",
        170,
        "r<=a+a; =>(1). ENDSEQUENCE CONTROLRESET(1)",
    ),
    (
        "a 513th node XOR",
        "1 ",
        "r<=a&a; ",
        170,
        "r<=a@a; =>(1). ENDSEQUENCE CONTROLRESET(1)",
    ),
    (
        "a 513th node that is a comma",
        "1 ",
        "r<=a&a; ",
        170,
        "s[0:1]<=a,a; =>(1). ENDSEQUENCE CONTROLRESET(1)",
    ),
    (
        "a 513th node NOT",
        "1 ",
        "r<=a&a; ",
        170,
        "r<=^^a; =>(1). ENDSEQUENCE CONTROLRESET(1)",
    ),
    (
        "a 513th node AND of all bits",
        "1 ",
        "r<=a&a; ",
        170,
        "r<=&/^a; =>(1). ENDSEQUENCE CONTROLRESET(1)",
    ),
    (
        "a 513th node OR of all bits",
        "1 ",
        "r<=a&a; ",
        170,
        "r<=+/^a; =>(1). ENDSEQUENCE CONTROLRESET(1)",
    ),
    (
        "a 513th node XOR of all bits",
        "1 ",
        "r<=a&a; ",
        170,
        "r<=@/^a; =>(1). ENDSEQUENCE CONTROLRESET(1)",
    ),
    (
        "a 513th node that is a name",
        "1 ",
        "r<=a&a; ",
        170,
        "r<=^a&d[1]; =>(1). ENDSEQUENCE CONTROLRESET(1)",
    ),
    (
        "a 513th node that is a bit string",
        "1 ",
        "r<=a&a; ",
        170,
        r"r<=^a&\1\; =>(1). ENDSEQUENCE CONTROLRESET(1)",
    ),
    (
        "a 513th node that is a number",
        "1 ",
        "r<=a&a; ",
        170,
        "r<=^a&1$1; =>(1). ENDSEQUENCE CONTROLRESET(1)",
    ),
    (
        "a 513th node after a parenthesis",
        "1 ",
        "r<=a&a; ",
        170,
        "r<=(a)&(a); =>(1). ENDSEQUENCE CONTROLRESET(1)",
    ),
    (
        "a 513th node in a condition",
        "1 ",
        "r<=a&a; ",
        170,
        "r*(a&a)<=a; =>(1). ENDSEQUENCE CONTROLRESET(1)",
    ),
    (
        "a 513th node in a branch",
        "1 ",
        "r<=a&a; ",
        170,
        "=>(a&a)/(1). 2 DEADEND. ENDSEQUENCE CONTROLRESET(1)",
    ),
    (
        "a 513th node behind CONTROLRESET",
        "1 ",
        "r<=a&a; ",
        170,
        "=>(1). ENDSEQUENCE CONTROLRESET(1); o=a&a",
    ),
    (
        "a 513th node in a later step",
        "1 ",
        "r<=a&a; ",
        170,
        "r<=^a. 2 r<=a; =>(1). ENDSEQUENCE CONTROLRESET(1)",
    ),
    (
        "a 513th node of two widths",
        "1 ",
        "r<=a&a; ",
        170,
        "s<=d&e; =>(1). ENDSEQUENCE CONTROLRESET(1)",
    ),
    (
        "a 513th node that is undeclared",
        "1 ",
        "r<=a&a; ",
        170,
        "r<=^a&x; =>(1). ENDSEQUENCE CONTROLRESET(1)",
    ),
    (
        "a 513th node of no bits",
        "1 ",
        "r<=a&a; ",
        170,
        "r<=^a&0$1; =>(1). ENDSEQUENCE CONTROLRESET(1)",
    ),
    (
        "a 513th node in a side of another width",
        "1 ",
        "r<=a&a; ",
        170,
        "s<=^d&e; =>(1). ENDSEQUENCE CONTROLRESET(1)",
    ),
    (
        "a 513th node in a value of another width",
        "1 ",
        "r<=a&a; ",
        170,
        "s<=a&a; =>(1). ENDSEQUENCE CONTROLRESET(1)",
    ),
    (
        "a 513th node in a condition of several bits",
        "1 ",
        "r<=a&a; ",
        170,
        "r*(d&d)<=a; =>(1). ENDSEQUENCE CONTROLRESET(1)",
    ),
    (
        "a 513th node in a branch of too many bits",
        "1 ",
        "r<=a&a; ",
        170,
        "=>(d&d)/(1). 2 DEADEND. ENDSEQUENCE CONTROLRESET(1)",
    ),
    (
        "a 513th node in the value behind a condition of several bits",
        "1 ",
        "r<=a&a; ",
        170,
        "r*(d)<=a&a; =>(1). ENDSEQUENCE CONTROLRESET(1)",
    ),
    (
        "a 513th node that is a bus out of order",
        "1 ",
        "r<=a&a; ",
        170,
        "=>(1). ENDSEQUENCE CONTROLRESET(1); b=^a&g",
    ),
    (
        "516 nodes",
        "1 ",
        "r<=a&a; ",
        172,
        "=>(1). ENDSEQUENCE CONTROLRESET(1)",
    ),
    (
        "a 513th node whose sign stands behind that of the 514th",
        "1 ",
        "r<=a&a; ",
        169,
        "r<=^a; r<=a+a&a; =>(1). ENDSEQUENCE CONTROLRESET(1)",
    ),
    (
        "33 bits in a string of a condition",
        r"1 r*(\",
        "0,",
        32,
        r"1\)<=a; =>(1). ENDSEQUENCE CONTROLRESET(1)",
    ),
    (
        "33 bits in a string of a branch",
        r"1 =>(\",
        "0,",
        32,
        r"1\)/(1). 2 DEADEND. ENDSEQUENCE CONTROLRESET(1)",
    ),
    (
        "33 bits in a string behind CONTROLRESET",
        r"1 DEADEND. ENDSEQUENCE CONTROLRESET(1); o=\",
        "0,",
        32,
        r"1\",
    ),
];
