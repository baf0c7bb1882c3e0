/// Whether a sentence tells each of the pieces, of which each but the last has a bar behind it.
pub(crate) fn tells(sentence: &Option<String>, pieces: &str) -> bool {
    match sentence {
        Some(sentence) => pieces.split('|').all(|piece| sentence.contains(piece)),
        None => false,
    }
}
