//! Texts that are put together of parts.

use std::alloc::{AllocError, Global};

// Writes a part for the time of that number: # stands for the number, ! for the number before it.
fn write_part(text: &mut String, part: &str, number: usize) -> Result<(), AllocError> {
    let before = number.saturating_sub(1);
    for sign in part.chars() {
        match sign {
            '#' => write!(text, "{number}")?,
            '!' => write!(text, "{before}")?,
            _ => text.push(sign)?,
        }
    }
    Ok(())
}

/// The parts behind one another, each so many times.
pub(crate) fn built(heap: Global, parts: &[(usize, &str)]) -> Result<String, AllocError> {
    let mut text = String::new(heap);
    for &(times, part) in parts {
        for before in 0..times {
            write_part(&mut text, part, before.saturating_add(1))?;
        }
    }
    Ok(text)
}
