use sc_base::NoMemory;
use std::alloc::Global;

/// What a damaged journal needs, by the line that the program wrote of it.
pub fn journal_hint(alloc: Global, line: &str) -> Result<String, NoMemory> {
    let line = line.trim_end();
    match line.split_once(' ') {
        Some(("damaged", "0")) => Ok(String::from_str(
            alloc,
            "scxml.journal is not a journal: it is empty, was written by something else, or has no closed gate behind \
            its first 20 bytes; init makes one in its place where it does not begin as one",
        )?),
        Some(("damaged", place)) => Ok(format!(in alloc;
            "the header, or the entry whose gate stands at byte {place}, is not whole"
        )?),
        Some(("entry", number)) => Ok(format!(in alloc;
            "entry {number} spells no command, or one that the host refuses there"
        )?),
        _ => Ok(String::new(alloc)),
    }
}
