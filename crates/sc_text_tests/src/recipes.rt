use std::alloc::Global;
use std::test::Fail;

/// The text that a recipe puts together: each piece as often as the number before it says, else once.
pub(crate) fn large(alloc: Global, recipe: &str) -> Result<Vec<u8>, Fail> {
    let mut text = Vec::new(alloc);
    let mut times = 1;
    for word in recipe.split_whitespace() {
        match word.parse::<u32>() {
            Ok(number) => times = number,
            Err(_) => {
                for _ in 0..times {
                    text.extend_from_slice(word.as_bytes())?;
                }
                times = 1;
            }
        }
    }
    Ok(text)
}
