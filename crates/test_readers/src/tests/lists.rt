use bb_base::{NoMemory, Text, TextList};
use std::alloc::Global;

/// The words of a line, with a space between each two.
pub fn words_in(alloc: Global, line: &str) -> Result<TextList, NoMemory> {
    let mut list = TextList::none(alloc);
    add_words(alloc, &mut list, line)?;
    Ok(list)
}

fn add_words(alloc: Global, list: &mut TextList, line: &str) -> Result<(), NoMemory> {
    for word in line.split(' ') {
        if !word.is_empty() {
            list.push(Text::of(alloc, word)?)?;
        }
    }
    Ok(())
}
