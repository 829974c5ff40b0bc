// Text inside of SVG.
use std::alloc::{AllocError, Global};

// Nothing of a text is read as markup, and no control character stands in it.
pub fn escaped(heap: Global, text: &str) -> Result<String, AllocError> {
    let mut out = String::new(heap);
    for c in text.chars() {
        match c {
            '&' => out.push_str("&amp;")?,
            '<' => out.push_str("&lt;")?,
            '>' => out.push_str("&gt;")?,
            '"' => out.push_str("&quot;")?,
            '\0'..='\x1f' => out.push(char::REPLACEMENT_CHARACTER)?,
            _ => out.push(c)?,
        }
    }
    Ok(out)
}
