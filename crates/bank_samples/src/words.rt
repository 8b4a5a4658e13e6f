//! Words of a command line.

use ofx_types::{Text, TextFault};
use std::alloc::{AllocError, Global};

/// The words as texts.
pub fn texts(alloc: Global, words: &[&str]) -> Result<Vec<Text>, TextFault> {
    let mut texts = Vec::new(alloc);
    for word in words {
        let text = Text::new(alloc, word.as_bytes(), 32)?;
        texts.push(text).map_err(AllocError::from)?;
    }
    Ok(texts)
}
