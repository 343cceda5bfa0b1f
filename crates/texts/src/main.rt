//! Plays a table of module texts, right and wrong, and prints for each whether it is read or how it is refused.
#![tactic(auto)]

use drafts::Reader;
use fault::Fault;
use std::alloc::{AllocError, Global};

/// A small module with every rule of the grammar and every sign. It is played with one space behind each word.
const SMALL: &str = r"
MODULE : m .
INPUTS : a ; d [ 4 ] .
OUTPUTS : o ; p [ 4 ] .
MEMORY : r ; s [ 4 ] .
BUSES : b [ 4 ] .
BODY SEQUENCE : clk .
1 r <= a ; s [ 0 : 1 ] , s [ 2 ] , r * ( ^ a + d [ 3 ] ) <= d & \ 1 , 0 , 1 , 1 \ ; => ( 1 , 2 , 3 ) .
2 p = 4 $ 9 @ ( s , r ) ; o = &/ s ; => ( a , +/ d , 1 $ 1 ) / ( 3 , 1 , 2 ) .
3 o , p = @/ s ; r <= r .
4 NULL .
5 DEADEND .
ENDSEQUENCE CONTROLRESET ( 1 , 2 ) ; b = d ; o = b [ 1 ] .
END .
";

/// A word that is wrong at every place but the first.
const STRANGER: &str = "MODULE";

/// A word that is wrong at the first place.
const FIRST_STRANGER: &str = "END";

/// What stands before and behind a value, in a module with one step.
const BEFORE_VALUE: &str = "MODULE:M. MEMORY:r;s. BODY SEQUENCE:c. 1 r<=";

const BEHIND_VALUE: &str = "; =>(1). ENDSEQUENCE CONTROLRESET(1). END.";

/// What stands before and behind the action of the only step of a module, and what then closes the module.
const BEFORE_ACTION: &str = "MODULE:M. INPUTS:a. OUTPUTS:o. MEMORY:r;s[2]. BODY SEQUENCE:c. 1 ";

const BEHIND_ACTION: &str = ". ENDSEQUENCE CONTROLRESET(1)";

const CLOSING: &str = ". END.";

/// Texts with their words right or wrong.
const TEXTS: [(&str, &[u8]); 9] = [
    ("an empty text", b""),
    ("separators alone", b" \t\r\n"),
    ("a byte of 128", b"MODULE \x80"),
    ("a byte of 255", b"\xff"),
    ("a faulty word behind wrong grammar", b"END END 123456"),
    (
        "words that touch",
        b"MODULE:M.INPUTS:a;b[2].MEMORY:r[2].BODY SEQUENCE:c.1r*(a)<=b;=>(^a)/(1).2DEADEND.ENDSEQUENCE CONTROLRESET(1).END.",
    ),
    (
        "capital words in small letters",
        b"module:m. inputs:a. outputs:o. memory:r. buses:b. body sequence:c. 1 null. 2 deadend. endsequence controlreset(1); o=b; b=a. end.",
    ),
    (
        "capital words in both cases",
        b"Module:m. InPuts:a. Body Sequence:c. 1 Null. 2 DeadEnd. EndSequence ControlReset(1). End.",
    ),
    ("a capital word for a name", b"MODULE: end."),
];

/// Values with their words right or wrong.
const VALUES: [(&str, &str); 12] = [
    ("a name of 20 bytes", "abcdefghijklmnopqrst"),
    ("a name of 21 bytes", "abcdefghijklmnopqrstu"),
    ("65535", "16$65535"),
    ("65536", "16$65536"),
    ("00001", "16$00001"),
    ("000001", "16$000001"),
    ("99999", "16$99999"),
    ("a lone <", "s < s"),
    ("a lone >", "s > s"),
    ("an underscore first", "s & _s"),
    ("an underscore behind digits", "12_"),
    ("a question mark", "s?s"),
];

/// Wrong and right actions of a step.
const ACTIONS: [(&str, &str); 16] = [
    ("a semicolon left out", "r<=a =>(1)"),
    ("a semicolon at the end", "r<=a;"),
    ("no action", ""),
    ("a branch before a statement", "=>(1); r<=a"),
    ("NULL before a statement", "NULL; r<=a"),
    ("a list for a condition", "=>(1)/(1)"),
    ("a list that goes on as an expression", "=>(1,2$1)/(1)"),
    (
        "an expression that begins with an integer",
        "=>(2$1,a)/(1,1,1)",
    ),
    ("a connection under a condition", "o*(a)=a"),
    ("a condition without an expression", "r*()<=a"),
    ("a subscript of three integers", "s[0:1:1]<=a"),
    ("a bit string without bits", r"r<=\\"),
    ("an operator without its right side", "r<=a&"),
    ("a lone prefix", "r<=^"),
    ("two values", "r<=a a"),
    ("a sized constant of a name", "r<=a$1"),
];

/// Wrong and right ends of a module.
const ENDS: [(&str, &str); 6] = [
    ("connections behind CONTROLRESET", "; o=a; o=r. END."),
    ("a transfer behind CONTROLRESET", "; r<=a. END."),
    ("a condition behind CONTROLRESET", "; o*(a)<=a. END."),
    ("a semicolon without a connection", ";. END."),
    ("a word behind the end", ". END. x"),
    ("no full stop at the end", ". END"),
];

// The small module with `word` in place of the word with that number, counted from 0.
fn with_word(heap: Global, at: usize, word: &str) -> Result<String, AllocError> {
    let mut text = String::new(heap);
    for (i, right) in SMALL.split_whitespace().enumerate() {
        text.push_str(if i == at { word } else { right })?;
        text.push_str(" ")?;
    }
    Ok(text)
}

// The first so many words of the small module.
fn cut(heap: Global, count: usize) -> Result<String, AllocError> {
    let mut text = String::new(heap);
    for word in SMALL.split_whitespace().take(count) {
        text.push_str(word)?;
        text.push_str(" ")?;
    }
    Ok(text)
}

// A text so many times.
fn times(heap: Global, part: &str, count: usize) -> Result<String, AllocError> {
    let mut text = String::new(heap);
    for _ in 0..count {
        text.push_str(part)?;
    }
    Ok(text)
}

/// Plays texts to one reader, and prints what comes of them.
#[derive(Drop)]
struct Player<'a> {
    rt: &'a HostRuntime,
    reader: Reader,
}

impl<'a> Player<'a> {
    // Prints what comes of a text.
    fn play(&mut self, label: &str, text: &[u8]) -> anyhow::Result<()> {
        match self.reader.read(text) {
            Ok(_) => println!(self.rt; "{label}: read")?,
            Err(fault) => {
                let refusal = fault.refusal();
                println!(self.rt; "{label}: {refusal}")?
            }
        }
        Ok(())
    }

    // The same at a place of the small module.
    fn play_at(&mut self, label: &str, at: usize, text: &str) -> anyhow::Result<()> {
        let numbered = format!(in self.rt.alloc(); "{label} {at}")?;
        self.play(numbered.as_str(), text.as_bytes())
    }

    // A module whose first step loads r with that value.
    fn play_value(&mut self, label: &str, value: &str) -> anyhow::Result<()> {
        let text = format!(in self.rt.alloc(); "{BEFORE_VALUE}{value}{BEHIND_VALUE}")?;
        self.play(label, text.as_bytes())
    }

    // A module with that action, and with that end.
    fn play_step(&mut self, label: &str, action: &str, end: &str) -> anyhow::Result<()> {
        let text = format!(in self.rt.alloc(); "{BEFORE_ACTION}{action}{BEHIND_ACTION}{end}")?;
        self.play(label, text.as_bytes())
    }

    // A module padded by spaces to so many bytes.
    fn play_padded(&mut self, bytes: usize) -> anyhow::Result<()> {
        let mut text = format!(in self.rt.alloc(); "{BEFORE_VALUE}s{BEHIND_VALUE}")?;
        let gap = times(self.rt.alloc(), " ", bytes.saturating_sub(text.len()))?;
        text.push_str(gap.as_str())?;
        let label = format!(in self.rt.alloc(); "{bytes} bytes")?;
        self.play(label.as_str(), text.as_bytes())
    }

    // Values under so many openings, each closed again.
    fn play_nested(&mut self, open: &str, close: &str, count: usize) -> anyhow::Result<()> {
        let opened = times(self.rt.alloc(), open, count)?;
        let closed = times(self.rt.alloc(), close, count)?;
        let value = format!(in self.rt.alloc(); "{opened}s{closed}")?;
        let label = format!(in self.rt.alloc(); "{count} times {open}")?;
        self.play_value(label.as_str(), value.as_str())
    }

    fn play_words(&mut self) -> anyhow::Result<()> {
        for (label, text) in TEXTS {
            self.play(label, text)?;
        }
        for (label, value) in VALUES {
            self.play_value(label, value)?;
        }
        self.play_padded(16_384)?;
        self.play_padded(16_385)
    }

    fn play_steps(&mut self) -> anyhow::Result<()> {
        for (label, action) in ACTIONS {
            self.play_step(label, action, CLOSING)?;
        }
        for (label, end) in ENDS {
            self.play_step(label, "NULL", end)?;
        }
        Ok(())
    }

    fn play_nestings(&mut self) -> anyhow::Result<()> {
        for (open, close) in [("(", ")"), ("^", ""), ("&/", ""), ("+/", ""), ("@/", "")] {
            self.play_nested(open, close, 16)?;
            self.play_nested(open, close, 17)?;
        }
        self.play_nested("^(", ")", 8)?;
        self.play_nested("^(", ")", 9)?;
        self.play_value(
            "a wrong word before the 17th nesting",
            "s s((((((((((((((((((s",
        )?;
        self.play_value("a wrong word behind it", "(((((((((((((((((s s")
    }

    // The small module with a wrong word at every place.
    fn play_strangers(&mut self, words: usize) -> anyhow::Result<()> {
        for at in 0..words {
            let word = if at == 0 { FIRST_STRANGER } else { STRANGER };
            let text = with_word(self.rt.alloc(), at, word)?;
            self.play_at("wrong word", at, text.as_str())?;
        }
        Ok(())
    }

    // The small module cut short before every word.
    fn play_cuts(&mut self, words: usize) -> anyhow::Result<()> {
        for count in 0..words {
            let text = cut(self.rt.alloc(), count)?;
            self.play_at("early end", count, text.as_str())?;
        }
        Ok(())
    }

    fn play_module(&mut self) -> anyhow::Result<()> {
        let words = SMALL.split_whitespace().count();
        self.play_strangers(words)?;
        self.play_cuts(words)?;
        let whole = cut(self.rt.alloc(), words)?;
        self.play("the small module", whole.as_bytes())?;
        let more = format!(in self.rt.alloc(); "{whole}x")?;
        self.play("a word behind it", more.as_bytes())
    }
}

fn main(rt: HostRuntime) -> anyhow::Result<()> {
    let mut player = Player {
        rt: &rt,
        reader: Reader::new(rt.alloc())?,
    };
    player.play_words()?;
    player.play_steps()?;
    player.play_nestings()?;
    player.play_module()
}
