//! The modules, lines and calls that are played.

/// A register that is loaded under a condition, and outputs that show it.
pub const PACE: &str = r"MODULE: PACE. INPUTS: go; d[2]. OUTPUTS: q[2]; hot. MEMORY: r[2].
BODY SEQUENCE: clk.
1 r * (go) <= d; => (^go)/(1).
2 q = r; hot = &/ r; => (1).
ENDSEQUENCE CONTROLRESET(1). END.
";

/// Two steps that are always active and load the same register.
pub const BOTH: &str = r"MODULE: BOTH. INPUTS: go. OUTPUTS: seen[2]. MEMORY: r[2].
BODY SEQUENCE: clk.
1 r <= \0,1\; => (1).
2 r * (go) <= \1,0\; => (2).
ENDSEQUENCE CONTROLRESET(1, 2); seen = r. END.
";

/// A register that is loaded under a condition, and one under its opposite.
const LOADS: &str = r"MODULE: LOADS. INPUTS: c; d[2]. OUTPUTS: o[2]; e. MEMORY: r[2]; s[2]; t.
BODY SEQUENCE: clk.
1 r * (c) <= d; s * (^c) <= r; t * (c @ d[0]) <= &/ d; => (1).
ENDSEQUENCE CONTROLRESET(1); o = r @ s; e = t. END.
";

/// One register loaded by two statements of one step, under conditions of their own.
const TWO_LOADS: &str = r"MODULE: TWO. INPUTS: a; b; d[2]; e[2]. MEMORY: r[2].
BODY SEQUENCE: clk.
1 r * (a) <= d; r * (b) <= e; => (1).
ENDSEQUENCE CONTROLRESET(1). END.
";

/// Registers that swap their letters, and one that turns.
const SWAP: &str = r"MODULE: SWAP. INPUTS: a[2]; b[2]. MEMORY: s[2]; r[2]; u[4].
BODY SEQUENCE: clk.
1 r <= a; s <= b; u <= a, b; => (2).
2 r <= s; s <= r; u <= u[1:3], u[0]; => (2).
ENDSEQUENCE CONTROLRESET(1). END.
";

/// A branch with two conditions.
const BRANCHES: &str = r"MODULE: BRANCHES. INPUTS: c[2]. OUTPUTS: at[4].
BODY SEQUENCE: clk.
1 at[0] = \1\; => (c)/(3, 4).
2 at[1] = \1\; => (1).
3 at[2] = \1\; => (1).
4 at[3] = \1\; => (1).
ENDSEQUENCE CONTROLRESET(1). END.
";

/// Branches that list a step twice, their own, the next one and more than one.
const MANY_EXITS: &str = r"MODULE: EXITS. INPUTS: c[3]; d.
BODY SEQUENCE: clk.
1 => (c)/(2, 2, 3).
2 => (d)/(3).
3 => (1, 1).
4 => (^d)/(4).
5 => (4, 4, 4).
ENDSEQUENCE CONTROLRESET(1, 4). END.
";

/// A last step that passes nothing on, and one in the middle.
const DEAD_END: &str = r"MODULE: ENDS. INPUTS: a. OUTPUTS: o; p. MEMORY: r.
BODY SEQUENCE: clk.
1 r <= a; => (^a)/(4).
2 DEADEND.
3 DEADEND.
4 o = r; p = a; r <= ^r.
5 NULL.
6 DEADEND.
ENDSEQUENCE CONTROLRESET(1). END.
";

/// Steps that only pass on.
const NULLS: &str = r"MODULE: NULLS. INPUTS: a. OUTPUTS: o. MEMORY: r.
BODY SEQUENCE: clk.
1 NULL. 2 NULL. 3 NULL.
4 r <= a @ r.
5 NULL.
6 o = r; => (1).
ENDSEQUENCE CONTROLRESET(1). END.
";

/// A chain in which a token stays, goes back and leaves.
const CHAIN: &str =
    r"MODULE: CHAIN. INPUTS: go; back; d[2]. OUTPUTS: o[2]; busy. BUSES: b[2]. MEMORY: r[2]; n.
BODY SEQUENCE: clk.
1 n <= \0\; => (^go)/(1).
2 r <= d; busy = \1\.
3 b = r; r <= ^b; n <= ^n; busy = \1\; => (back)/(2).
4 b = d; r <= b @ r; busy = \1\.
5 o = r; => (n)/(3).
6 o = ^r; => (1).
ENDSEQUENCE CONTROLRESET(1). END.
";

/// A reset into several steps, and connections that hold in every step.
const RESETS: &str =
    r"MODULE: RESETS. INPUTS: a[4]. OUTPUTS: o[4]; p; z. MEMORY: r; s[4]. BUSES: b[4].
BODY SEQUENCE: clk.
1 r <= a[0]; => (1).
2 s <= a; => (3).
3 s <= ^a; => (2).
4 DEADEND.
5 r <= a[3]; p = \1\.
6 DEADEND.
ENDSEQUENCE CONTROLRESET(5, 2, 4, 2); b = a @ s; o = b & r; p = r; z = +/ b. END.
";

/// Buses that read one another, one with two drivers, one that is never driven; outputs likewise.
const BUSES: &str =
    r"MODULE: LANES. INPUTS: a[4]; s. OUTPUTS: o[4]; n[4]; v; w[2]. MEMORY: m[2]; t[4].
BUSES: p[4]; q[4]; u[4]. BUSES: z; y[2].
BODY SEQUENCE: clk.
1 p = a; t <= a; m * (^z) <= y; => (s)/(2).
2 p[1:2] = \1,0\; v = z; t <= q; => (3, 1).
3 o = p; p = ^a & s; w, v = q[0], m[0], a[3]; => (1).
ENDSEQUENCE CONTROLRESET(1, 3);
q = p @ t; z = &/ q; y = q[2], p[3]; o = u; o[3] = z; w[1] = p[0]; y[0] = s; v = u[2]. END.
";

/// A bus whose driver reads buses in a condition and in a branch, whatever their order.
const LATE_BUSES: &str = r"MODULE: LATE. INPUTS: a; b. OUTPUTS: o. MEMORY: r; s. BUSES: x; y.
BODY SEQUENCE: clk.
1 r * (y) <= x; s <= y @ x; => (x, y)/(1, 2).
2 x = a & r; y = x + b; => (y)/(2).
3 y = a; => (1, 2).
ENDSEQUENCE CONTROLRESET(1, 2, 3); x = b; o = y. END.
";

/// Every operator of two sides, of equal widths and with a side of one bit, and NOT.
const OPERATORS: &str = r"MODULE: SIGNS. INPUTS: a; b; d[3]; e[3].
OUTPUTS: and[3]; or[3]; xor[3]; left[3]; right[3]; one[3]; not[3]; pair[2]; more[6]; first[3]; grouped[3].
BODY SEQUENCE: clk.
1 DEADEND.
ENDSEQUENCE CONTROLRESET(1);
and = d & e; or = d + e; xor = d @ e; left = a & d; right = d + b; one = a @ e; not = ^d;
pair = a, b; more = d, e; first = a + b & d @ e; grouped = (a + b) & (d @ e). END.
";

/// AND, OR and XOR of all bits, of 1 to 32 of them.
const REDUCTIONS: &str =
    r"MODULE: ALL. INPUTS: a; d[2]; w[32]. OUTPUTS: of1[3]; of2[3]; of3[3]; of32[3]; none[3]; part[3].
BODY SEQUENCE: clk.
1 DEADEND.
ENDSEQUENCE CONTROLRESET(1);
of1 = &/ a, +/ a, @/ a; of2 = &/ d, +/ d, @/ d; of3 = &/ (a, d), +/ (a, d), @/ (a, d);
of32 = &/ w, +/ w, @/ w; none = ^&/ w, ^+/ w, ^@/ w; part = &/ w[0:7], +/ w[8:30], @/ w[31]. END.
";

/// Constants of all sorts, and commas up to 32 bits.
const CONSTANTS: &str = r"MODULE: FIXED. INPUTS: a; d[15]; h[16].
OUTPUTS: c1; c2[2]; c5[5]; c16[16]; c17[17]; c32[32]; s1; s4[4]; s32[32]; w[32]; v[32]; x[16]; m[5]. MEMORY: r[32].
BODY SEQUENCE: clk.
1 r <= 16$65535, \0,1\, 14$9999; => (2).
2 r <= ^r; => (1).
ENDSEQUENCE CONTROLRESET(1);
c1 = 1$1; c2 = 2$7; c5 = 5$3; c16 = 16$65535; c17 = 17$65535; c32 = 32$40000;
s1 = \0\; s4 = \1,01,0,00001\; s32 = \1,0,1,0,0,0,0,1,1,1,1,0,0,1,0,1,0,0,0,0,0,0,0,0,1,0,0,1,1,0,1,1\;
w = a, d, h; v = h, (d, a); x = d & a, &/ h; m = ^\1,0\, \1,1\ @ a, 1$65534. END.
";

/// Subscripts on both sides, several targets, and bits that are named twice.
const SUBSCRIPTS: &str =
    r"MODULE: BITS. INPUTS: d[4]; e[8]; c. OUTPUTS: o[8]; p[4]. MEMORY: r[4]; s; t[8]. BUSES: b[4]; k.
BODY SEQUENCE: clk.
1 r[0], s, r[2:3] <= d; t[4:7], t[0:3] <= e; => (2).
2 r[1:2], r[2:3] <= d[0:1], e[6:7]; s, s, s * (c) <= e[0:2]; t[3] <= r[1]; => (c)/(1).
3 t, r[3] * (c @ s) <= e[1:7], d[0], d[3]; => (1, 2).
ENDSEQUENCE CONTROLRESET(1);
b[1], k, b[1:3] = e[3:7]; o[0], p, o[5:7] = d, b; p[2] = k; o[2], o[2], o[3] = t[5:7]. END.
";

/// No inputs.
pub const NO_INPUTS: &str = r"MODULE: COUNT. OUTPUTS: o[3]. MEMORY: n[3]; go.
BODY SEQUENCE: clk.
1 n <= \0,0,0\; go <= \1\.
2 n <= n[0] @ n[1] & n[2], n[1] @ n[2], ^n[2]; o = n; => (&/ n)/(1).
3 => (2).
ENDSEQUENCE CONTROLRESET(1). END.
";

/// Neither inputs nor outputs, memory or buses that are read.
const OUTPUT_ALONE: &str = r"MODULE: LONE. OUTPUTS: o.
BODY SEQUENCE: clk.
1 o = \1\. 2 NULL. 3 => (1).
ENDSEQUENCE CONTROLRESET(1). END.
";

/// No memory.
const NO_MEMORY: &str = r"MODULE: JOIN. INPUTS: a[2]; b[2]. OUTPUTS: s[2]; c. BUSES: k; g.
BODY SEQUENCE: clk.
1 => (a)/(2, 1).
2 c = g; => (1).
ENDSEQUENCE CONTROLRESET(1, 2);
k = a[1] & b[1]; g = a[0] & b[0] + k & (a[0] @ b[0]); s = a[0] @ b[0] @ k, a[1] @ b[1]. END.
";

/// Inputs of 32 bits, and a register of as many.
const WIDE_INPUTS: &str = r"MODULE: WIDE. INPUTS: a[32]; c; b[32]. OUTPUTS: o[32]; t. MEMORY: r[32].
BODY SEQUENCE: clk.
1 r * (c) <= a @ b & r; => (1).
ENDSEQUENCE CONTROLRESET(1); o = r + (a[16:31], b[0:15]); t = @/ (r & a). END.
";

/// Unknown letters that could be known, and are not.
const UNKNOWN: &str = r"MODULE: UNSURE. INPUTS: a; b. OUTPUTS: o1; o2; o3; o4; o5. MEMORY: r; s.
BODY SEQUENCE: clk.
1 r * (a) <= s; s * (b) <= \1\; => (^b)/(1).
2 r <= r @ r; => (1).
ENDSEQUENCE CONTROLRESET(1);
o1 = r @ r; o2 = r & ^r; o3 = r + ^r; o4 = a & r + ^a & r; o5 = s & (a + ^a). END.
";

/// Few nodes of many sorts.
const FEW_CONSTANTS: &str = r"MODULE: FEW. OUTPUTS: o[3]; p. MEMORY: r[2].
BODY SEQUENCE: clk.
1 r <= \1,0\ @ 1$1; => (r[0], 1$0)/(1, 1).
2 p = &/ (r, \1\); => (2).
ENDSEQUENCE CONTROLRESET(1); o = r & \0,1\, 1$1. END.
";

/// Names in both cases, of up to 20 bytes.
const LONG_NAMES: &str =
    r"MODULE: NAMES. INPUTS: abcdefghijklmnopqrst[2]; ABCDEFGHIJKLMNOPQRSU; x_; Z9.
OUTPUTS: steps; Mixed_Case_Of_Letter[2]. MEMORY: a; aB; ABC_0123456789_abcde. BUSES: y_y; STEPS2.
BODY SEQUENCE: Clk.
1 a <= X_; Ab <= abcdefghijklmnopqrsU; abc_0123456789_ABCDE <= z9; Y_Y = A; => (1).
ENDSEQUENCE CONTROLRESET(1); sTEPS = y_y; MIXED_CASE_OF_LETTER = ABCDEFGHIJKLMNOPQRST; Steps2 = aB. END.
";

/// Texts that are refused.
const NO_WORD: &str = "MODULE!";

const LEFT_OPEN: &str =
    "MODULE:M. INPUTS:a. BODY SEQUENCE:clk. 1 =>(a)/(1). ENDSEQUENCE CONTROLRESET(1). END.";

/// Modules and their lines, each with a label.
pub const PLAYED: &[(&str, &str, &str)] = &[
    ("PACE", PACE, "GO D\n0 11\n1 11\n0 00\n"),
    ("two active steps", BOTH, "GO\n1\n0\nX\n0\n"),
    (
        "conditional loads",
        LOADS,
        "C D\n0 00\n1 01\nX 01\nX 10\n0 11\nX XX\n1 1X\n0 00\nX 11\n1 X0\n0 01\n",
    ),
    (
        "two loads of a register",
        TWO_LOADS,
        "A B D E\n1 0 01 10\n0 1 01 10\n1 1 01 10\n0 0 11 11\nX 0 11 01\nX X 00 00\n0 1 11 X0\n1 X 01 01\n0 0 00 00\n",
    ),
    ("a swap", SWAP, "A B\n01 10\n00 00\n11 11\nXX XX\n00 00\n"),
    (
        "a swap of unknown letters",
        SWAP,
        "A B\n0X X1\n00 00\n00 00\n00 00\n00 00\n",
    ),
    (
        "neither exit, one, both",
        BRANCHES,
        "C\n00\n00\n10\n00\n01\n00\n11\n00\n00\n11\n11\n11\n",
    ),
    (
        "exits under unknown conditions",
        BRANCHES,
        "C\n0X\n00\n00\nX0\n00\nX1\n0X\nXX\n00\n00\n",
    ),
    (
        "exits that are listed twice",
        MANY_EXITS,
        "C D\n000 0\n100 0\n010 1\n001 1\n111 0\nX00 X\n0X0 1\n00X 0\n1X1 1\n000 0\n",
    ),
    ("ends, not entered", DEAD_END, "A\n0\n1\n0\n0\n0\n0\n"),
    ("an end entered", DEAD_END, "A\n1\n1\n0\n0\n"),
    ("an end that may be entered", DEAD_END, "A\nX\n1\n0\n1\n0\n"),
    (
        "steps that pass on",
        NULLS,
        "A\n1\n1\n1\n1\n1\n1\n0\n1\nX\n0\n0\n0\n0\n",
    ),
    (
        "a chain",
        CHAIN,
        "GO BACK D\n0 0 11\n0 0 11\n1 0 11\n0 0 01\n0 0 01\n0 0 10\n0 0 10\n0 1 11\n0 0 10\n0 0 11\n0 0 00\n0 0 00\n0 0 00\n1 X 01\n0 X 01\n0 X 11\n0 X 11\n0 0 11\n0 0 11\n",
    ),
    (
        "a chain with two tokens",
        CHAIN,
        "GO BACK D\n1 0 01\n1 0 01\n0 0 10\n1 1 11\n0 1 00\n0 1 01\n0 1 01\n0 0 00\n0 0 11\nX 0 11\n0 0 10\n0 0 10\n0 0 10\n",
    ),
    (
        "a reset into several steps",
        RESETS,
        "A\n1010\n0000\n1111\n0001\nXXXX\n1000\n0110\n",
    ),
    (
        "buses",
        BUSES,
        "A S\n0000 0\n1111 0\n1001 1\n0110 1\n1111 1\n1011 0\nXXXX 0\n1111 X\n0000 1\n0101 0\n1110 1\n",
    ),
    (
        "buses read late",
        LATE_BUSES,
        "A B\n0 0\n0 1\n1 1\n1 0\n0 1\n1 0\n0 0\n1 0\n0 1\nX 0\n0 X\n1 1\n0 0\n",
    ),
    (
        "operators",
        OPERATORS,
        "A B D E\n0 0 000 111\n1 0 011 101\n0 1 011 101\n1 1 101 010\nX 0 01X 01X\n1 X 01X X01\nX X XXX 01X\n0 1 X00 X11\n1 0 110 X1X\n",
    ),
    (
        "reductions",
        REDUCTIONS,
        "A D W\n0 00 00000000000000000000000000000000\n1 11 11111111111111111111111111111111\nX 1X 1111111111111111111111111111111X\n0 X0 0000000000000000X000000000000000\n1 01 00000000000000000000000000000001\n1 10 11111111111111110111111111111111\n0 XX 1X0X1111000000000000000000000001\nX 11 00000000000000011111111100001111\n",
    ),
    (
        "constants and commas",
        CONSTANTS,
        "A D H\n0 000000000000000 0000000000000000\n1 101100111000111 1111000010100101\nX 0X1X0X1X0X1X0X1 1111111111111111\n1 XXXXXXXXXXXXXXX 111111111111111X\n",
    ),
    (
        "subscripts",
        SUBSCRIPTS,
        "D E C\n0110 00110101 0\n1001 11001010 1\n1111 01010101 0\n0000 11110000 1\n0X1X X01X01X0 X\n1010 00001111 1\n0101 1X1X0X01 0\n1111 11111111 X\n0000 00000000 1\n1100 10101010 1\n",
    ),
    ("no inputs", NO_INPUTS, "\n\n\n\n\n\n\n\n\n\n\n\n\n"),
    ("no inputs and no values", NO_INPUTS, "\n"),
    ("an output alone", OUTPUT_ALONE, "\n\n\n\n\n"),
    (
        "no memory",
        NO_MEMORY,
        "A B\n00 00\n01 01\n11 01\n10 11\n11 11\nX1 01\n0X X1\nXX XX\n11 1X\n",
    ),
    (
        "inputs of 32 bits",
        WIDE_INPUTS,
        "A C B\n11110000111100001111000011110000 1 00000000000000000000000000000000\n10101010101010101010101010101010 0 11111111111111110000000000000000\nXXXX0000111100001111000011110000 1 0000000011111111XXXXXXXXXXXXXXXX\n00000000000000000000000000000000 X 00000000000000000000000000000000\n11111111111111111111111111111111 1 00000000000000000000000000000000\n0101010101010101010101010101010X 0 10000000000000000000000000000001\n",
    ),
    (
        "letters that stay unknown",
        UNKNOWN,
        "A B\n0 0\nX 1\nX 0\n1 0\n0 0\n0 X\n1 1\n1 0\nX X\n1 0\nX 1\n",
    ),
    (
        "long names",
        LONG_NAMES,
        "abcdefghijklmnopqrst abcdefghijklmnopqrsu X_ z9\n01 1 0 1\n1X X 1 0\n00 0 0 0\n",
    ),
    ("names and no values", PACE, "GO D\n"),
    ("a byte that begins no word", NO_WORD, "\n"),
    ("a last step left open", LEFT_OPEN, "A\n0\n"),
    ("a refused text before wrong names", LEFT_OPEN, "B\n0\n"),
];

/// Names lines of PACE.
pub const NAMES_LINES: &[(&str, &str)] = &[
    ("names in lower case", "go d\n0 11\n"),
    ("names in both cases", "Go D\n0 11\n"),
    ("a name missing", "GO\n0 11\n"),
    ("the first name missing", "D\n0 11\n"),
    ("both names missing", "\n0 11\n"),
    ("the other order", "D GO\n0 11\n"),
    ("no space between names", "GOD\n0 11\n"),
    ("two spaces between names", "GO  D\n0 11\n"),
    ("a space before the names", " GO D\n0 11\n"),
    ("a space behind the names", "GO D \n0 11\n"),
    ("a tab between names", "GO\tD\n0 11\n"),
    ("a comma between names", "GO,D\n0 11\n"),
    ("byte 13 behind the names", "GO D\r\n0 11\n"),
    ("no byte 10 behind the names", "GO D"),
    ("names cut short", "GO "),
    ("no byte 10 and a name missing", "GO"),
    ("no lines", ""),
    ("a name twice", "GO GO D\n0 11\n"),
    ("a register's name too", "GO D R\n0 11\n"),
    ("another name", "GO E\n0 11\n"),
    ("a longer name", "GO D2\n0 11\n"),
    ("a shorter name", "G D\n0 11\n"),
    ("a width", "GO D[2]\n0 11\n"),
    ("an empty line before the names", "\nGO D\n0 11\n"),
    ("values alone", "0 11\n1 11\n"),
    ("an underscore for a letter", "GO _\n0 11\n"),
    ("bytes just outside the letters", "GO `\n0 11\n"),
];

/// What stands behind the names line of PACE.
pub const VALUE_LINES: &[(&str, &str)] = &[
    ("right values", "0 11\nX X1\n"),
    ("a letter missing", "0 1\n"),
    ("the first input's letter missing", " 11\n"),
    ("one input missing", "11\n"),
    ("the last input missing", "0 \n"),
    ("a letter too many", "0 111\n"),
    ("a letter too many in the first input", "00 11\n"),
    ("one input too many", "0 11 1\n"),
    ("a small x", "x 11\n"),
    ("a small x behind a capital one", "X Xx\n"),
    ("a digit 2", "0 12\n"),
    ("a digit 2 first", "2 11\n"),
    ("a letter O", "O 11\n"),
    ("two spaces", "0  11\n"),
    ("no space", "011\n"),
    ("a space within an input", "0 1 1\n"),
    ("a space before", " 0 11\n"),
    ("a space behind", "0 11 \n"),
    ("a tab between", "0\t11\n"),
    ("byte 13", "0 11\r\n"),
    ("no byte 10", "0 11"),
    ("no byte 10 on the second line", "0 11\n1 11"),
    ("no byte 10 and a letter missing", "0 11\n1 1"),
    ("an empty line", "\n"),
    ("an empty line in the middle", "0 11\n\n1 11\n"),
    ("an empty line at the end", "0 11\n\n"),
    ("a wrong line in the middle", "1 11\n0 00\n0 0\n1 11\n"),
    ("a wrong line behind a wrong line", "1 11\n0 O0\nx\n"),
    ("the names again", "0 11\nGO D\n0 11\n"),
];

/// What stands behind the names line of a module without inputs.
pub const EMPTY_LINES: &[(&str, &str)] = &[
    ("a space where there are no inputs", "\n \n"),
    ("a letter where there are no inputs", "\n0\n"),
    ("byte 13 where there are no inputs", "\n\r\n"),
    ("a tab where there are no inputs", "\n\n\t\n\n"),
    (
        "a last line without byte 10 where there are no inputs",
        "\n\n0",
    ),
];

/// Modules and lines that are put together of parts, each so many times: in a part, # stands for the number of the time, from 1, and ! for
/// the number before it.
pub const BUILT: &[(&str, &[(usize, &str)], &[(usize, &str)])] = &[
    (
        "64 symbols of four classes",
        &[
            (1, "MODULE:M. INPUTS:i"),
            (15, ";i#"),
            (1, ". MEMORY:m"),
            (15, ";m#"),
            (1, ". BUSES:b"),
            (15, ";b#"),
            (1, ". OUTPUTS:o"),
            (15, ";o#"),
            (1, ". BODY SEQUENCE:clk. 1 m<=i;"),
            (15, "m#<=i#@m#;"),
            (1, "=>(1). ENDSEQUENCE CONTROLRESET(1);b=m"),
            (1, ";b1=^b&i"),
            (14, ";o#=b#;b15=m#"),
            (1, ";o=&/(b1,b,m15). END."),
        ],
        &[
            (1, "I"),
            (15, " I#"),
            (1, "\n0"),
            (15, " 1"),
            (1, "\n1"),
            (15, " 0"),
            (1, "\nX"),
            (5, " 1 X 0"),
            (1, "\n1"),
            (15, " 1"),
            (1, "\n"),
        ],
    ),
    (
        "64 names of 20 bytes",
        &[
            (1, "MODULE:M. INPUTS:An_Input_Of_20_Bytes"),
            (9, ";an_INPUT_of_20_BYTe#"),
            (1, ". MEMORY:A_Register_20_Bytes_"),
            (9, ";fIRST_register_abcd#"),
            (9, ";SECOND_Register_abc#"),
            (1, ". BUSES:Buses_With_Long_Name"),
            (9, ";Lots_Of_Long_Buses_#"),
            (1, ". OUTPUTS:Outputs_With_A_Name_"),
            (9, ";First_out_put_abcde#"),
            (9, ";Second_out_put_abcd#"),
            (6, ";Third_out_put_abcde#"),
            (1, ". BODY SEQUENCE:clk. 1 "),
            (
                9,
                "first_register_ABCD#<=an_input_OF_20_byte#;second_register_ABC#<=FIRST_register_ABCD#;",
            ),
            (1, "=>(1). ENDSEQUENCE CONTROLRESET(1)"),
            (
                9,
                ";lots_OF_long_buses_#=An_Input_Of_20_Bytes@first_Register_abcd#",
            ),
            (
                9,
                ";FIRST_out_put_abcde#=lots_of_long_buses_#;second_OUT_put_abcd#=second_register_abc#",
            ),
            (6, ";third_out_PUT_abcde#=buses_with_long_name"),
            (1, ". END."),
        ],
        &[
            (1, "AN_input_OF_20_bytes"),
            (9, " AN_Input_of_20_byTe#"),
            (1, "\n1"),
            (9, " 0"),
            (1, "\n0"),
            (3, " 1 0 X"),
            (1, "\nX"),
            (9, " 1"),
            (1, "\n"),
        ],
    ),
    (
        "a ring of 64 steps",
        &[
            (
                1,
                "MODULE:M. INPUTS:go. OUTPUTS:o[2]. MEMORY:r[2]. BODY SEQUENCE:clk. ",
            ),
            (63, "# r<=r[1],go;=>(^go)/(#). "),
            (
                1,
                "64 r<=^r;=>(1). ENDSEQUENCE CONTROLRESET(1,40);o=r. END.",
            ),
        ],
        &[
            (1, "GO\n"),
            (4, "0\n1\n"),
            (20, "1\n1\n1\n"),
            (10, "1\n0\n"),
            (4, "1\nX\n1\n"),
        ],
    ),
    (
        "64 active steps",
        &[
            (1, "MODULE:M. INPUTS:a. OUTPUTS:o. BODY SEQUENCE:clk. "),
            (63, "# o=a;=>(a,^a)/(#,64). "),
            (1, "64 =>(1). ENDSEQUENCE CONTROLRESET(64"),
            (63, ",#"),
            (1, "). END."),
        ],
        &[(1, "A\n1\n0\n1\nX\n0\n1\n")],
    ),
    (
        "64 steps that pass on",
        &[
            (1, "MODULE:M. OUTPUTS:o. BODY SEQUENCE:clk. "),
            (63, "# NULL. "),
            (1, "64 DEADEND. ENDSEQUENCE CONTROLRESET(1,33). END."),
        ],
        &[(66, "\n")],
    ),
    (
        "1024 bits of four classes",
        &[
            (1, "MODULE:M. INPUTS:i[32]"),
            (7, ";i#[32]"),
            (1, ". MEMORY:m[32]"),
            (7, ";m#[32]"),
            (1, ". BUSES:b[32]"),
            (7, ";b#[32]"),
            (1, ". OUTPUTS:o[32]"),
            (7, ";o#[32]"),
            (1, ". BODY SEQUENCE:clk. 1 m<=i&i1;"),
            (7, "m#<=i#@m#;"),
            (1, "=>(^&/i)/(1). 2 "),
            (7, "m#<=i#;"),
            (1, "=>(1). ENDSEQUENCE CONTROLRESET(1);b=m"),
            (7, ";b#=m#+b"),
            (1, ";o=b7"),
            (7, ";o#=b#@i#"),
            (1, ". END."),
        ],
        &[
            (1, "I"),
            (7, " I#"),
            (1, "\n"),
            (32, "1"),
            (7, " 0110X1001110011010110001X0101101"),
            (1, "\n"),
            (32, "1"),
            (7, " 01010101010101010101010101010101"),
            (1, "\n"),
            (32, "0"),
            (7, " 1111000011110000XXXX111100001111"),
            (1, "\n"),
            (32, "X"),
            (7, " 1111000011110000XXXX111100001111"),
            (1, "\n"),
        ],
    ),
    (
        "1024 bits of inputs",
        &[
            (1, "MODULE:M. INPUTS:i[32]"),
            (31, ";i#[32]"),
            (
                1,
                ". BODY SEQUENCE:clk. 1 =>(i[0:1],i1[30:31],i31[31])/(1,2,3,4,5). 2 =>(2). 3 =>(3). 4 =>(4). 5 =>(5). ENDSEQUENCE CONTROLRESET(1). END.",
            ),
        ],
        &[
            (1, "I"),
            (31, " I#"),
            (1, "\n"),
            (31, "11000000000000000000000000000001 "),
            (1, "11000000000000000000000000000000\n"),
            (31, "X0000000000000000000000000000000 "),
            (1, "00000000000000000000000000000001\n"),
            (31, "0X0000000000000000000000000000X0 "),
            (1, "0000000000000000000000000000000X\n"),
            (31, "00000000000000000000000000000000 "),
            (1, "0000000000000000000000000000000\n"),
        ],
    ),
    (
        "1024 bits of outputs",
        &[
            (1, "MODULE:M. OUTPUTS:o[32]"),
            (31, ";o#[32]"),
            (1, ". BODY SEQUENCE:clk. 1 o=32$1"),
            (31, ";o#=32$9#"),
            (1, ". 2 o=32$2"),
            (31, ";o#=^32$#"),
            (1, ";=>(1). ENDSEQUENCE CONTROLRESET(1). END."),
        ],
        &[(4, "\n")],
    ),
    (
        "1024 bits of memory",
        &[
            (1, "MODULE:M. INPUTS:a[32]. MEMORY:m[32]"),
            (30, ";m#[32]"),
            (1, ". BODY SEQUENCE:clk. 1 m<=a;"),
            (30, "m#<=m#@a;"),
            (1, "=>(2). 2 m<=m30&a;"),
            (30, "m#<=a;"),
            (1, "=>(1). ENDSEQUENCE CONTROLRESET(2). END."),
        ],
        &[
            (1, "A\n"),
            (
                3,
                "0110X1001110011010110001X0101101\n01010101010101010101010101010101\n",
            ),
        ],
    ),
    (
        "a chain of 62 buses",
        &[
            (1, "MODULE:M. INPUTS:a. OUTPUTS:o. BUSES:b0"),
            (61, ";b#"),
            (1, ". BODY SEQUENCE:clk. 1 b0=a"),
            (61, ";b#=^b!"),
            (
                1,
                ";=>(2). 2 o=b61;=>(1). ENDSEQUENCE CONTROLRESET(1,2). END.",
            ),
        ],
        &[(1, "A\n0\n1\nX\n0\n")],
    ),
    (
        "512 targets and 256 statements",
        &[
            (
                1,
                "MODULE:M. INPUTS:a;d[2]. OUTPUTS:o[2]. MEMORY:r;s[2]. BODY SEQUENCE:clk. 1 ",
            ),
            (255, "r,s[1]<=d;"),
            (
                1,
                "=>(1). ENDSEQUENCE CONTROLRESET(1);o[1],o[1]=r,s[1]. END.",
            ),
        ],
        &[(1, "A D\n0 01\n1 10\nX X0\n0 00\n")],
    ),
    (
        "512 exits",
        &[
            (1, "MODULE:M. INPUTS:e[32]. BODY SEQUENCE:clk. "),
            (
                15,
                "# =>(e)/(1,2,3,4,5,6,7,8,9,10,11,12,13,14,15,16,1,2,3,4,5,6,7,8,9,10,11,12,13,14,15,#). ",
            ),
            (
                1,
                "16 =>(16,16,16,16,16,16,16,16,16,16,16,16,16,16,16,16,16,16,16,16,16,16,16,16,16,16,16,16,16,16,16,16). ENDSEQUENCE CONTROLRESET(1,16). END.",
            ),
        ],
        &[
            (
                1,
                "E\n00000000000000000000000000000000\n00000000000000000000000000000001\n",
            ),
            (
                1,
                "00000000000000000000000000000000\n000000X0000000000000000000000000\n",
            ),
            (
                1,
                "00001000010000000000000000000000\n10000000000000000000000000000000\n",
            ),
            (
                1,
                "00000000000000000000010000000000\n0000000000000X000000000000000000\n",
            ),
            (
                1,
                "000000000000000000000000000000XX\n00000000000000000000000000000000\n",
            ),
        ],
    ),
    (
        "512 nodes, nested 16 deep",
        &[
            (
                1,
                "MODULE:M. INPUTS:a. OUTPUTS:o. MEMORY:r. BODY SEQUENCE:clk. 1 ",
            ),
            (30, "r<=^^^^^^^^^^^^^^^^a;"),
            (1, "o=^r;=>(1). ENDSEQUENCE CONTROLRESET(1). END."),
        ],
        &[(1, "A\n0\n1\nX\n0\n")],
    ),
];

/// A call as it is written here. Numbers stand for levels: 2 is X in letters, and the bits of a number are those of a word.
#[derive(Clone, Copy)]
pub enum Deed {
    Open(&'static [u64]),
    Drive(usize, u64),
    Clock,
    Reset,
    Look(usize),
}

/// A letter that is not known.
const X: u64 = 2;

/// Words in which each lane has a bit of its number, the least one first, and others.
const BIT_0: u64 = 0xAAAA_AAAA_AAAA_AAAA;

const BIT_1: u64 = 0xCCCC_CCCC_CCCC_CCCC;

const BIT_2: u64 = 0xF0F0_F0F0_F0F0_F0F0;

const BIT_3: u64 = 0xFF00_FF00_FF00_FF00;

const BIT_4: u64 = 0xFFFF_0000_FFFF_0000;

const BIT_5: u64 = 0xFFFF_FFFF_0000_0000;

const MIXED: u64 = 0x0123_4567_89AB_CDEF;

const OTHER: u64 = 0x9E37_79B9_7F4A_7C15;

const ALL: u64 = 0xFFFF_FFFF_FFFF_FFFF;

/// Lists of calls.
const PACE_IN_BITS: &[Deed] = &[
    Deed::Look(0),
    Deed::Look(9),
    Deed::Clock,
    Deed::Look(3),
    Deed::Open(&[1, 0]),
    Deed::Look(0),
    Deed::Look(3),
    Deed::Look(4),
    Deed::Look(8),
    Deed::Look(9),
    Deed::Clock,
    Deed::Look(8),
    Deed::Drive(0, 1),
    Deed::Drive(2, 1),
    Deed::Look(2),
    Deed::Clock,
    Deed::Look(3),
    Deed::Look(4),
    Deed::Look(5),
    Deed::Look(6),
    Deed::Look(7),
    Deed::Look(9),
    Deed::Drive(3, 1),
    Deed::Open(&[1]),
    Deed::Open(&[]),
    Deed::Open(&[0, 1, 0]),
    Deed::Look(10),
    Deed::Look(9),
    Deed::Look(6),
    Deed::Reset,
    Deed::Look(8),
    Deed::Look(6),
    Deed::Look(4),
    Deed::Drive(1, 1),
    Deed::Clock,
    Deed::Reset,
    Deed::Reset,
    Deed::Drive(1, 0),
    Deed::Clock,
    Deed::Clock,
    Deed::Look(5),
];

const CHAIN_IN_BITS: &[Deed] = &[
    Deed::Open(&[0, 0, 0]),
    Deed::Drive(0, 1),
    Deed::Drive(3, 1),
    Deed::Clock,
    Deed::Drive(0, 0),
    Deed::Look(11),
    Deed::Clock,
    Deed::Look(7),
    Deed::Look(8),
    Deed::Look(12),
    Deed::Look(14),
    Deed::Drive(1, 1),
    Deed::Clock,
    Deed::Clock,
    Deed::Drive(1, 0),
    Deed::Clock,
    Deed::Look(4),
    Deed::Look(5),
    Deed::Look(9),
    Deed::Clock,
    Deed::Look(10),
    Deed::Clock,
    Deed::Clock,
    Deed::Look(17),
    Deed::Open(&[1, 1, 1]),
    Deed::Look(4),
    Deed::Clock,
    Deed::Look(6),
    Deed::Look(12),
];

const COUNT_IN_BITS: &[Deed] = &[
    Deed::Drive(0, 1),
    Deed::Open(&[1, 1, 1, 1]),
    Deed::Clock,
    Deed::Look(2),
    Deed::Clock,
    Deed::Look(2),
    Deed::Clock,
    Deed::Clock,
    Deed::Look(1),
    Deed::Look(2),
    Deed::Look(5),
    Deed::Look(6),
    Deed::Reset,
    Deed::Clock,
    Deed::Look(1),
    Deed::Look(3),
    Deed::Open(&[0, 1, 0]),
];

const PACE_IN_WORDS: &[Deed] = &[
    Deed::Look(4),
    Deed::Clock,
    Deed::Look(3),
    Deed::Open(&[BIT_3, BIT_4]),
    Deed::Look(3),
    Deed::Look(8),
    Deed::Drive(0, BIT_0),
    Deed::Drive(1, BIT_1),
    Deed::Drive(2, BIT_2),
    Deed::Look(0),
    Deed::Look(7),
    Deed::Clock,
    Deed::Look(3),
    Deed::Look(4),
    Deed::Look(5),
    Deed::Look(6),
    Deed::Look(7),
    Deed::Look(8),
    Deed::Look(9),
    Deed::Drive(0, BIT_5),
    Deed::Drive(1, OTHER),
    Deed::Clock,
    Deed::Look(3),
    Deed::Look(8),
    Deed::Drive(3, ALL),
    Deed::Open(&[ALL]),
    Deed::Look(10),
    Deed::Clock,
    Deed::Look(7),
    Deed::Reset,
    Deed::Look(9),
    Deed::Look(8),
    Deed::Look(3),
    Deed::Drive(0, MIXED),
    Deed::Clock,
    Deed::Look(9),
];

const BOTH_IN_WORDS: &[Deed] = &[
    Deed::Open(&[MIXED, OTHER]),
    Deed::Look(1),
    Deed::Drive(0, BIT_2),
    Deed::Clock,
    Deed::Look(1),
    Deed::Look(2),
    Deed::Look(3),
    Deed::Drive(0, MIXED),
    Deed::Clock,
    Deed::Look(1),
    Deed::Look(2),
    Deed::Look(5),
];

const BRANCHES_IN_WORDS: &[Deed] = &[
    Deed::Open(&[]),
    Deed::Drive(0, BIT_0),
    Deed::Drive(1, BIT_1),
    Deed::Clock,
    Deed::Look(6),
    Deed::Look(7),
    Deed::Look(8),
    Deed::Look(9),
    Deed::Clock,
    Deed::Look(2),
    Deed::Look(3),
    Deed::Drive(0, BIT_2),
    Deed::Drive(1, BIT_3),
    Deed::Clock,
    Deed::Look(6),
    Deed::Look(7),
    Deed::Look(8),
    Deed::Look(9),
    Deed::Open(&[0]),
    Deed::Open(&[]),
    Deed::Look(6),
    Deed::Look(0),
];

const CHAIN_IN_WORDS: &[Deed] = &[
    Deed::Open(&[BIT_0, BIT_1, BIT_2]),
    Deed::Drive(0, BIT_3),
    Deed::Drive(1, BIT_4),
    Deed::Drive(2, BIT_5),
    Deed::Drive(3, MIXED),
    Deed::Clock,
    Deed::Look(12),
    Deed::Look(13),
    Deed::Clock,
    Deed::Look(14),
    Deed::Look(4),
    Deed::Drive(0, OTHER),
    Deed::Clock,
    Deed::Look(7),
    Deed::Look(11),
    Deed::Clock,
    Deed::Look(4),
    Deed::Look(5),
    Deed::Clock,
    Deed::Look(9),
    Deed::Look(6),
    Deed::Clock,
    Deed::Clock,
    Deed::Look(16),
    Deed::Look(17),
];

const OPERATORS_IN_WORDS: &[Deed] = &[
    Deed::Open(&[]),
    Deed::Drive(0, BIT_0),
    Deed::Drive(1, BIT_1),
    Deed::Drive(2, BIT_2),
    Deed::Drive(3, BIT_3),
    Deed::Drive(4, BIT_4),
    Deed::Drive(5, BIT_5),
    Deed::Drive(6, MIXED),
    Deed::Drive(7, OTHER),
    Deed::Look(8),
];

const SUBSCRIPTS_IN_WORDS: &[Deed] = &[
    Deed::Open(&[
        MIXED, OTHER, BIT_0, BIT_1, BIT_2, BIT_3, BIT_4, BIT_5, MIXED, OTHER, ALL, 0, 1,
    ]),
    Deed::Drive(0, BIT_0),
    Deed::Drive(2, BIT_1),
    Deed::Drive(3, BIT_2),
    Deed::Drive(4, BIT_3),
    Deed::Drive(6, BIT_4),
    Deed::Drive(8, BIT_5),
    Deed::Drive(9, MIXED),
    Deed::Drive(11, OTHER),
    Deed::Drive(12, BIT_0),
    Deed::Clock,
    Deed::Look(13),
    Deed::Look(17),
    Deed::Drive(12, BIT_3),
    Deed::Clock,
    Deed::Look(14),
    Deed::Look(21),
    Deed::Drive(1, ALL),
    Deed::Clock,
    Deed::Look(18),
];

const PACE_IN_LETTERS: &[Deed] = &[
    Deed::Look(7),
    Deed::Clock,
    Deed::Look(8),
    Deed::Open(&[X, 0]),
    Deed::Look(3),
    Deed::Look(4),
    Deed::Look(0),
    Deed::Drive(0, X),
    Deed::Look(0),
    Deed::Drive(1, 1),
    Deed::Drive(2, X),
    Deed::Clock,
    Deed::Look(3),
    Deed::Look(4),
    Deed::Look(8),
    Deed::Look(9),
    Deed::Drive(0, 1),
    Deed::Clock,
    Deed::Look(3),
    Deed::Look(4),
    Deed::Look(5),
    Deed::Look(7),
    Deed::Reset,
    Deed::Look(8),
    Deed::Look(9),
    Deed::Drive(2, 1),
    Deed::Clock,
    Deed::Look(7),
    Deed::Look(6),
    Deed::Drive(usize::MAX, 1),
    Deed::Look(usize::MAX),
    Deed::Open(&[X, X, X]),
    Deed::Look(7),
];

const CHAIN_IN_LETTERS: &[Deed] = &[
    Deed::Open(&[X, 1, X]),
    Deed::Drive(0, X),
    Deed::Clock,
    Deed::Clock,
    Deed::Look(12),
    Deed::Look(13),
    Deed::Look(14),
    Deed::Drive(0, 1),
    Deed::Drive(1, X),
    Deed::Drive(2, X),
    Deed::Drive(3, 1),
    Deed::Clock,
    Deed::Clock,
    Deed::Look(4),
    Deed::Look(5),
    Deed::Look(9),
    Deed::Clock,
    Deed::Look(6),
    Deed::Reset,
    Deed::Look(12),
    Deed::Look(16),
    Deed::Clock,
    Deed::Look(6),
    Deed::Look(11),
];

const UNKNOWN_IN_LETTERS: &[Deed] = &[
    Deed::Open(&[1, X]),
    Deed::Look(4),
    Deed::Look(5),
    Deed::Look(6),
    Deed::Look(7),
    Deed::Look(8),
    Deed::Drive(0, X),
    Deed::Look(7),
    Deed::Look(8),
    Deed::Drive(1, 1),
    Deed::Clock,
    Deed::Look(2),
    Deed::Look(3),
    Deed::Look(8),
    Deed::Drive(0, 1),
    Deed::Clock,
    Deed::Look(2),
    Deed::Look(10),
];

/// A module and the calls that are made on it, with a label.
pub type Run = (&'static str, &'static str, &'static [Deed]);

pub const BIT_RUNS: &[Run] = &[
    ("PACE in bits", PACE, PACE_IN_BITS),
    ("a chain in bits", CHAIN, CHAIN_IN_BITS),
    ("no inputs, in bits", NO_INPUTS, COUNT_IN_BITS),
    ("no calls", PACE, &[]),
];

pub const WORD_RUNS: &[Run] = &[
    ("PACE in words", PACE, PACE_IN_WORDS),
    ("two active steps in words", BOTH, BOTH_IN_WORDS),
    ("branches in words", BRANCHES, BRANCHES_IN_WORDS),
    ("a chain in words", CHAIN, CHAIN_IN_WORDS),
    ("operators in words", OPERATORS, OPERATORS_IN_WORDS),
    ("subscripts in words", SUBSCRIPTS, SUBSCRIPTS_IN_WORDS),
];

pub const LETTER_RUNS: &[Run] = &[
    ("PACE in letters", PACE, PACE_IN_LETTERS),
    ("a chain in letters", CHAIN, CHAIN_IN_LETTERS),
    ("unknown letters", UNKNOWN, UNKNOWN_IN_LETTERS),
    ("bits again, in letters", PACE, PACE_IN_BITS),
];

/// Rows of the held and of the working table.
pub const LENGTHS: &[(usize, usize)] = &[
    (1088, 17472),
    (1200, 20000),
    (1087, 17472),
    (1088, 17471),
    (1087, 17471),
    (0, 17472),
    (1088, 0),
    (0, 0),
];

/// Calls on PACE with such tables.
pub const LENGTH_CALLS: &[(&str, Deed)] = &[
    ("open", Deed::Open(&[0, 1])),
    ("open with a level too few", Deed::Open(&[0])),
    ("open with a level too many", Deed::Open(&[0, 1, X])),
    ("open with no levels", Deed::Open(&[])),
    ("drive the last input", Deed::Drive(2, X)),
    ("drive an input too far", Deed::Drive(3, X)),
    ("drive the largest number", Deed::Drive(usize::MAX, X)),
    ("clock", Deed::Clock),
    ("reset", Deed::Reset),
    ("look at the last step", Deed::Look(9)),
    ("look at a step too far", Deed::Look(10)),
    ("look at the largest number", Deed::Look(usize::MAX)),
];

/// Rows of the held and of the working table, and bytes of the output.
pub const LINE_LENGTHS: &[(usize, usize, usize)] = &[
    (1088, 17472, 4096),
    (1200, 20000, 5000),
    (1088, 17472, 4095),
    (1087, 17472, 4096),
    (1088, 17471, 4096),
    (1087, 17472, 4095),
    (1088, 17472, 0),
    (0, 0, 0),
];

/// Names lines and value lines of PACE with such tables, each with a label.
pub const LENGTH_NAMES: &[(&str, &str)] = &[("right names", "GO D\n"), ("wrong names", "GO\n")];

pub const LENGTH_VALUES: &[(&str, &str)] = &[("right values", "1 X0\n"), ("wrong values", "1 X\n")];

/// How long a register's name is made, and how many bytes the output then has.
pub const LONG_OUTPUTS: &[(usize, usize)] = &[
    (4083, 4096),
    (4084, 4096),
    (4084, 4097),
    (5000, 4096),
    (5000, 5012),
    (5000, 5013),
    (5000, 6000),
];

/// One of the six tables.
#[derive(Clone, Copy, PartialEq, Eq)]
pub enum Table {
    Symbols,
    Steps,
    Statements,
    Targets,
    Exits,
    Nodes,
}

/// A table, a row from 1, a column from 0 and the number that is put there.
pub type Change = (Table, usize, usize, usize);

/// Modules whose rows are changed, and lines: a label, the module, the changes and the lines.
pub const CHANGED: &[(&str, &str, &[Change], &str)] = &[
    (
        "no step is marked for the reset",
        PACE,
        &[(Table::Steps, 1, 2, 0)],
        "GO D\n1 11\n1 11\n",
    ),
    (
        "both steps are marked for it",
        PACE,
        &[(Table::Steps, 2, 2, 1)],
        "GO D\n1 11\n0 00\n0 01\n",
    ),
    (
        "a mark of 2",
        PACE,
        &[(Table::Steps, 2, 2, 2)],
        "GO D\n1 11\n",
    ),
    (
        "a step with statements that is left by DEADEND",
        PACE,
        &[
            (Table::Steps, 2, 0, 4),
            (Table::Exits, 2, 0, 0),
            (Table::Exits, 2, 1, 0),
        ],
        "GO D\n1 11\n1 10\n1 11\n",
    ),
    (
        "an exit of a step with DEADEND",
        PACE,
        &[(Table::Steps, 2, 0, 4)],
        "GO D\n1 11\n",
    ),
    (
        "a first step that goes on",
        PACE,
        &[(Table::Steps, 1, 0, 1)],
        "GO D\n1 11\n",
    ),
    (
        "a longer name of an input",
        PACE,
        &[(Table::Symbols, 2, 3, 15)],
        "GO d[2]. outputs: \n1 11\n1 00\n",
    ),
    (
        "a name that touches the next one",
        PACE,
        &[(Table::Symbols, 1, 3, 4)],
        "go;  D\n1 11\n",
    ),
    (
        "a name that reaches into the next one",
        PACE,
        &[(Table::Symbols, 1, 3, 5)],
        "go; D\n1 11\n",
    ),
    (
        "an empty name",
        PACE,
        &[(Table::Symbols, 3, 3, 0)],
        "GO D\n1 11\n",
    ),
    (
        "a name with byte 10 inside",
        PACE,
        &[(Table::Symbols, 5, 3, 12)],
        "GO D\n1 11\n1 11\n",
    ),
    (
        "a name up to the end of the text",
        PACE,
        &[(Table::Symbols, 5, 3, 120)],
        "GO D\n1 11\n",
    ),
    (
        "a name past the end of the text",
        PACE,
        &[(Table::Symbols, 5, 3, 121)],
        "GO D\n1 11\n",
    ),
    (
        "two names that are alike",
        PACE,
        &[(Table::Symbols, 5, 2, 119)],
        "GO D\n1 11\n1 10\n",
    ),
    (
        "an output that is a bus",
        PACE,
        &[(Table::Symbols, 3, 0, 4)],
        "GO D\n1 11\n1 10\n",
    ),
    (
        "an input that is a register",
        PACE,
        &[(Table::Symbols, 1, 0, 3)],
        "D\n11\n10\n",
    ),
    (
        "a register that is an input",
        PACE,
        &[(Table::Symbols, 5, 0, 1)],
        "GO D R\n1 11 11\n",
    ),
    (
        "an exit that leads elsewhere",
        PACE,
        &[(Table::Exits, 1, 1, 2)],
        "GO D\n0 11\n1 11\n0 00\n0 01\n",
    ),
    (
        "another operator",
        PACE,
        &[(Table::Nodes, 7, 0, 10)],
        "GO D\n1 10\n0 00\n1 11\n0 00\n",
    ),
    (
        "an operator of two sides with one",
        PACE,
        &[(Table::Nodes, 7, 0, 5)],
        "GO D\n1 10\n",
    ),
    (
        "bits the wrong way round",
        PACE,
        &[(Table::Nodes, 5, 2, 1), (Table::Nodes, 5, 3, 0)],
        "GO D\n1 10\n",
    ),
    (
        "a target behind a bit that nothing drives",
        PACE,
        &[
            (Table::Symbols, 3, 1, 3),
            (Table::Targets, 2, 2, 1),
            (Table::Targets, 2, 3, 2),
        ],
        "GO D\n1 10\n0 00\n",
    ),
];

/// Modules whose rows are damaged in every column, with a label.
pub const DAMAGED: &[(&str, &str)] = &[
    ("PACE", PACE),
    ("a chain", CHAIN),
    ("buses", BUSES),
    ("steps that end", DEAD_END),
    ("bits", SUBSCRIPTS),
    ("constants", FEW_CONSTANTS),
];
