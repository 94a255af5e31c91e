//! The text of lines.

use std::alloc::{AllocError, Global};

/// The lines as one text, each ended by a newline.
pub fn joined(alloc: Global, lines: &[&str]) -> Result<String, AllocError> {
    let mut text = String::new(alloc);
    for line in lines {
        text.push_str(line)?;
        text.push('\n')?;
    }
    Ok(text)
}
