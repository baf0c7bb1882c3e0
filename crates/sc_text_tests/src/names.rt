use sc_base::{Name, NoMemory, Plain, PlainName, Unfit, Word, is_plain_name};
use std::alloc::Global;
use std::test::Fail;

#[test]
fn a_name_may_have_a_hash_and_a_word_may_not(rt: HostRuntime) -> Result<(), Fail> {
    assert_eq!(rt; Word::of(rt.alloc(), b"a#").map(|_| ()), Err(Unfit::Form));
    let copy = Name::of(rt.alloc(), b"a#")?.copy()?;
    assert_eq!(rt; copy.bytes(), b"a#".as_slice());
    Ok(())
}

/// Whether bytes are a name, a word and a plain name, by making them and by asking.
fn forms(alloc: Global, bytes: &[u8]) -> [bool; 4] {
    [
        Name::of(alloc, bytes).is_ok(),
        Word::of(alloc, bytes).is_ok(),
        PlainName::of(alloc, bytes).is_ok(),
        is_plain_name(bytes),
    ]
}

#[test]
fn each_text_type_takes_its_form(rt: HostRuntime) {
    for (text, is_name, is_plain) in [
        ("door", true, true),
        ("_1", true, true),
        ("1a", true, false),
        ("a.b", true, false),
        ("\u{e9}", true, false),
        ("In", true, false),
        ("", false, false),
        ("a b", false, false),
        ("a'b", false, false),
        ("a\u{7f}", false, false),
    ] {
        let found = forms(rt.alloc(), text.as_bytes());
        assert_eq!(rt; found, [is_name, is_name, is_plain, is_plain], "{text}");
    }
}

/// The name of the copy of a word.
fn copied(word: &Word) -> Result<Name, NoMemory> {
    word.copy()?.name()
}

#[test]
fn texts_are_copied(rt: HostRuntime) -> Result<(), Fail> {
    let word = Word::of(rt.alloc(), b"door")?;
    let plain = PlainName::of(rt.alloc(), b"open")?.copy()?;
    assert_eq!(rt;
        [copied(&word)?.bytes(), plain.bytes()],
        [b"door".as_slice(), b"open".as_slice()]
    );
    Ok(())
}
