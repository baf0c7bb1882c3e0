use sc_names::{matches, piece_matches};

#[test]
fn a_descriptor_matches_by_tokens(rt: HostRuntime) {
    for (descriptor, name, wanted) in [
        ("error foo.*", "error.execution", true),
        ("error foo.*", "foo", true),
        ("error foo.*", "foo.bar", true),
        ("error foo.*", "errors", false),
        ("error foo.*", "foobar", false),
        ("a.", "a.b", true),
        ("*", "z", true),
        ("", "a", false),
        (" x\n\ta\r", "a.b", true),
        (" \n\t\r", "", false),
    ] {
        let found = matches(descriptor.as_bytes(), name.as_bytes());
        assert_eq!(rt; found, wanted, "{descriptor} {name}");
    }
}

#[test]
fn one_ending_is_dropped(rt: HostRuntime) {
    for (piece, name, wanted) in [
        ("*.*", "a", false),
        ("*.*", "*.b", true),
        ("a..", "a", false),
        ("a.*.", "a.*.b", true),
    ] {
        let found = piece_matches(piece.as_bytes(), name.as_bytes());
        assert_eq!(rt; found, wanted, "{piece} {name}");
    }
}
