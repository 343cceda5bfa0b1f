//! Lines and columns of a text.
ghost use Rattle.std.specs.Prelude.{◌≡◌, ◌-◌, ◌<◌, ◌≤◌, take, length, get_or, count_by, ◌==◌};
ghost use Rattle.explain.specs.Spots.{OneLine, SpotOf};

/// Where a place stands in a text.
#[derive(Clone, Copy, PartialEq, Eq, Debug)]
pub struct Spot {
    /// The place; the text's end, if it is behind that.
    pub place: usize,
    /// The number of its line, from 1.
    pub line: usize,
    /// The number of its column, from 1.
    pub column: usize,
    /// The place where its line begins.
    pub start: usize,
    /// The place where its line ends, before the byte that ends it.
    pub end: usize,
}

impl Spot {
    /// Where that place of a text stands.
    pub fn of(text: &[u8], place: usize) -> Spot
        ensures { SpotOf text.now place result }
    {
        let at = place.min(text.len());
        let start = start_of_line(text, at);
        Spot {
            place: at,
            line: breaks(text, at) + 1,
            column: at - start + 1,
            start,
            end: end_of_line(text, at),
        }
    }
}

// How many lines end before a place.
fn breaks(text: &[u8], at: usize) -> usize
    requires { at ≤ length text.now }
    ensures count { result ≡ count_by (λ b. b == 10) (take at text.now) }
    ensures few { result ≤ at }
{
    let mut count = 0;
    for i in 0..at {
        if text[i] == b'\n' {
            count += 1;
        }
    }
    count
}

// Where the line of a place begins.
fn start_of_line(text: &[u8], at: usize) -> usize
    requires { at ≤ length text.now }
    ensures before { result ≤ at }
    ensures begins { 1 ≤ result → get_or text.now (result - 1) 0 ≡ 10 }
    ensures line { OneLine text.now result at }
{
    let mut start = at;
    while start > 0 && text[start - 1] != b'\n' {
        start -= 1;
    }
    start
}

// Where the line of a place ends.
fn end_of_line(text: &[u8], at: usize) -> usize
    requires { at ≤ length text.now }
    ensures behind { at ≤ result }
    ensures within { result ≤ length text.now }
    ensures line { OneLine text.now at result }
    ensures ends { result < length text.now → get_or text.now result 0 ≡ 10 }
{
    let mut end = at;
    while end < text.len() && text[end] != b'\n' {
        end += 1;
    }
    end
}
