//! Texts of parts.
use std::alloc::Global;
use zk_base::{NoMemory, put};

/// The text of its parts.
pub fn text_of(alloc: Global, parts: &[&str]) -> Result<Vec<u8>, NoMemory> {
    let mut text = Vec::new(alloc);
    for part in parts {
        put(&mut text, part.as_bytes())?;
    }
    Ok(text)
}
