//! What refusals say.

/// A refusal in words, by its number.
pub fn sentence(number: u8) -> &'static str {
    match number {
        1 => "a table is shorter than its size",
        2 => "the text is longer than 16,384 bytes",
        3 => "no word begins with this byte",
        4 => "a name is longer than 20 bytes",
        5 => "an integer has more than five digits, or is above 65,535",
        6 => "no module goes on with this word, or the text ends too early",
        7 => "an expression nests more than 16 deep",
        8 => "the name is already declared",
        9 => "a width is not 1 to 32, or a bit is not 0 or 1",
        10 => "the name is not declared, or its class can't stand here",
        11 => "a subscript leaves the width of its symbol, or runs backwards",
        12 => "widths disagree or pass 32, or a condition isn't one bit",
        13 => "a step's integer isn't the next one, or there is no such step",
        14 => "a bus is read that isn't declared before the one that is driven",
        15 => "the last step must be DEADEND, or end in a branch without conditions",
        16 =>
            "there are more than 64 symbols or steps, 256 statements, 512 targets, exits or nodes, or 1,024 declared bits",
        17 => "the wiring or the scratch table is shorter than its size",
        18 => "the rows of the database are not sound",
        19 => "the store is not empty",
        20 => "there is no part of that code",
        21 => "an operand is no signal yet, or a leaf is not below 1,088",
        22 => "there are not enough free cells",
        23 => "a table of levels is shorter than its size",
        24 => "the wiring names a signal that the store lacks",
        25 =>
            "there is no such input, point or lane, or the levels to open with are not one for each register bit",
        26 => "the output is shorter than 4,096 bytes, or than the line to be printed",
        27 =>
            "the first line must name the inputs in declared order, one space between, and end in a line feed",
        28 =>
            "a line of values must have 0, 1 or X for each input bit, one space between inputs, and end in a line feed",
        0 => "there is not enough memory, or a store was wished too large",
        _ => "the call is refused",
    }
}
