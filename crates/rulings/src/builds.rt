//! Long texts, put together.

use std::alloc::{AllocError, Global};

/// A text so many times.
pub(crate) fn times(heap: Global, part: &str, count: usize) -> Result<String, AllocError> {
    let mut text = String::new(heap);
    for _ in 0..count {
        text.push_str(part)?;
    }
    Ok(text)
}

/// So many items with names of their own, each with that subscript.
pub(crate) fn items(heap: Global, count: usize, subscript: &str) -> Result<String, AllocError> {
    let mut text = String::new(heap);
    for i in 0..count {
        let sign = if i == 0 { "" } else { ";" };
        write!(text, "{sign}x{i}{subscript}")?;
    }
    Ok(text)
}

/// The first so many steps, each of which goes on to the next.
pub(crate) fn steps(heap: Global, count: usize) -> Result<String, AllocError> {
    let mut text = String::new(heap);
    for before in 0..count {
        let number = before.saturating_add(1);
        write!(text, "{number} NULL. ")?;
    }
    Ok(text)
}
