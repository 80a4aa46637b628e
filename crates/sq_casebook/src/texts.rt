// The text of a case: its settings, and the short forms of long texts.
use std::alloc::{AllocError, Global};

/// What a case says of a setting, where it first does. Settings stand before the files.
pub fn setting<'a>(case: &'a str, key: &str) -> Option<&'a str> {
    let settings = case.split("\n- ").next().unwrap_or("");
    for line in settings.lines() {
        match line.split_once(':') {
            Some((name, value)) if name == key => return Some(value.trim()),
            _ => {}
        }
    }
    None
}

/// Puts a line at the end of a text.
pub fn push_line(text: &mut String, line: &str) -> Result<(), AllocError> {
    text.push_str(line)?;
    text.push('\n')
}

/// A copy of a text with a number for `#`.
fn push_numbered(text: &mut String, number: u64, copied: &str) -> Result<(), AllocError> {
    let alloc = *text.allocator();
    let number = format!(in alloc; "{number}")?;
    text.push_str(copied.replace(alloc, '#', number.as_str())?.as_str())
}

/// So many copies of a text, with the number of each, from 0, for `#`.
fn push_copies(text: &mut String, count: u64, copied: &str) -> Result<(), AllocError> {
    if !copied.contains('#') {
        let copies = copied.repeat(*text.allocator(), count as usize)?;
        return text.push_str(copies.as_str());
    }
    for number in 0..count {
        push_numbered(text, number, copied)?;
    }
    Ok(())
}

/// Puts a part at the end of a text. A repeat, `COUNT TEXT`, stands for so many copies; one without a count stands for nothing.
fn push_part(text: &mut String, part: &str, repeats: bool) -> Result<(), AllocError> {
    if !repeats {
        return text.push_str(part);
    }
    match part.split_once(' ') {
        Some((count, copied)) => push_copies(text, count.parse::<u64>().unwrap_or(0), copied),
        None => Ok(()),
    }
}

/// A text with each repeat, which stands between two `~`, written out, and then with its ends of lines.
pub fn written_out(alloc: Global, short: &str) -> Result<String, AllocError> {
    let mut text = String::new(alloc);
    let mut repeats = false;
    for part in short.split('~') {
        push_part(&mut text, part, repeats)?;
        repeats = !repeats;
    }
    text.replace(alloc, "\\r", "\r")?
        .replace(alloc, "\\n", "\n")
}

/// Puts the items between commas at the end of a list; an empty text has none.
pub fn push_items(items: &mut Vec<String>, text: &str) -> Result<(), AllocError> {
    let alloc = *items.allocator();
    if text.is_empty() {
        return Ok(());
    }
    for item in text.split(',') {
        items.push(String::from_str(alloc, item)?)?;
    }
    Ok(())
}
