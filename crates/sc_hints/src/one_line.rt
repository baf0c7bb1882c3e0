use sc_base::NoMemory;
use std::alloc::Global;

/// A sentence as one line: a text that it quotes may have line feeds and other control characters, and a space stands for
/// each.
pub(crate) fn on_one_line(alloc: Global, sentence: &str) -> Result<String, NoMemory> {
    let mut line = String::new(alloc);
    for letter in sentence.chars() {
        line.push(if letter.is_control() { ' ' } else { letter })?;
    }
    Ok(line)
}
