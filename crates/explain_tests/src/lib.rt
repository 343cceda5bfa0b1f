//! Examples of refusals told to a person. A crate of its own, since tests have their crate proved twice.
#![tactic(auto)]

#[cfg(test)]
mod tests {
    use explain::{Spot, caret_below, line_shown, sentence};
    use std::test::Fail;

    // A word behind a tab, and a byte that is no character to print.
    #[test]
    fn points_below_a_tab(rt: HostRuntime) -> Result<(), Fail> {
        let text = b"MODULE: M.\n\tx y\xff z\nEND.\n";
        let spot = Spot::of(text, 14);
        assert!(rt; spot.line == 2 && spot.column == 4);
        assert!(rt; line_shown(rt.alloc(), text, spot)?.as_str() == "\tx y? z");
        assert!(rt; caret_below(rt.alloc(), text, spot)?.as_str() == "\t  ^");
        Ok(())
    }

    // An early end is told at the end of the text, behind its last line.
    #[test]
    fn points_at_the_end(rt: HostRuntime) -> Result<(), Fail> {
        let text = b"MODULE: M.\n";
        let spot = Spot::of(text, text.len());
        assert!(rt; spot.line == 2 && spot.column == 1);
        assert!(rt; line_shown(rt.alloc(), text, spot)?.is_empty());
        assert!(rt; caret_below(rt.alloc(), text, spot)?.as_str() == "^");
        Ok(())
    }

    // Each number from 1 to 28 has a sentence of its own.
    #[test]
    fn says_each_number(rt: HostRuntime) -> Result<(), Fail> {
        let other = sentence(0);
        for number in 1..29 {
            assert!(rt; sentence(number) != other && sentence(number) != sentence(number - 1));
        }
        Ok(())
    }
}
