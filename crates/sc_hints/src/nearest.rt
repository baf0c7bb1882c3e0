use sc_base::NoMemory;
use std::alloc::Global;
use strsim::levenshtein;

/// The most bytes of a word that is compared.
const WORD_LIMIT: usize = 128;

/// The name that is most like a word, where one is like it: half of the letters may differ.
pub(crate) fn nearest<'a>(
    alloc: Global,
    word: &str,
    names: &[&'a str],
) -> Result<Option<&'a str>, NoMemory> {
    let mut best = None;
    let mut least = usize::MAX;
    for name in names {
        let edits = edits(alloc, word, name)?;
        if edits < least && edits <= word.len().max(name.len()) / 2 {
            least = edits;
            best = Some(*name);
        }
    }
    Ok(best)
}

fn edits(alloc: Global, word: &str, name: &str) -> Result<usize, NoMemory> {
    if word.len() > WORD_LIMIT || name.len() > WORD_LIMIT {
        return Ok(usize::MAX);
    }
    Ok(levenshtein(alloc, word, name)?)
}

/// `; the nearest is 'NAME'`, where a name is like the word, and else nothing.
pub(crate) fn nearest_told(alloc: Global, word: &str, names: &[&str]) -> Result<String, NoMemory> {
    match nearest(alloc, word, names)? {
        Some(name) => Ok(format!(in alloc; "; the nearest is '{name}'")?),
        None => Ok(String::new(alloc)),
    }
}
