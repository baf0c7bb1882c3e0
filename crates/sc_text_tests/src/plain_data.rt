use sc_base::{
    Bytes, Name, NoMemory, Plain, PlainName, Queue, Sequence, SharedBytes, TextWriter, Unfit,
};
use sc_types::{Attribute, Chart, Data, Event, Expr, Kind, Member, Node, Tag, Value};
use std::alloc::Global;
use std::test::Fail;

fn bytes(alloc: Global, text: &str) -> Result<Bytes, NoMemory> {
    Bytes::from_slice(alloc, text.as_bytes())
}

fn small(alloc: Global, text: &str) -> Result<SharedBytes, NoMemory> {
    SharedBytes::from_slice(alloc, text.as_bytes())
}

#[test]
fn a_sequence_is_a_list(rt: HostRuntime) -> Result<(), Fail> {
    let mut list: Sequence<u32> = Sequence::new(rt.alloc());
    for item in [3, 1, 2] {
        list.push(item)?;
    }
    assert_eq!(rt; list.len(), 3);
    *list.item_mut(1) = 7;
    let copy = list.copy()?;
    let found = [
        list.get(1).copied(),
        list.get(3).copied(),
        list.pop(),
        list.pop(),
        list.pop(),
        list.pop(),
    ];
    assert_eq!(rt; found, [Some(7), None, Some(2), Some(7), Some(3), None]);
    assert_eq!(rt; copy.into_vec().as_slice(), [3, 7, 2].as_slice());
    Ok(())
}

#[test]
fn a_queue_gives_what_came_first(rt: HostRuntime) -> Result<(), Fail> {
    let mut queue: Queue<u32> = Queue::new(rt.alloc());
    for item in [3, 1] {
        queue.push(item)?;
    }
    let copy = queue.copy()?;
    let found = [
        queue.front().copied(),
        queue.get(1).copied(),
        queue.pop_front(),
        queue.pop_front(),
        queue.pop_front(),
    ];
    assert_eq!(rt; found, [Some(3), Some(1), Some(3), Some(1), None]);
    assert_eq!(rt; [queue.len(), copy.len()], [0, 2]);
    Ok(())
}

/// How long the bytes of a text are that were copied, and grew by one and by the text.
fn grown(alloc: Global, text: &str) -> Result<usize, Fail> {
    let mut grown = bytes(alloc, text)?.copy()?;
    grown.push(b'!')?;
    grown.extend(text.as_bytes())?;
    Ok(grown.len())
}

#[test]
fn bytes_are_copied_whole_at_each_length(rt: HostRuntime) -> Result<(), Fail> {
    for text in [
        "",
        "a",
        "a.name.of.22.bytes.abc",
        "one.of.twenty-three.abc",
        "and.one.of.twenty-four.a",
    ] {
        let copy = small(rt.alloc(), text)?.copy()?;
        assert_eq!(rt; copy.slice(), text.as_bytes());
        assert_eq!(rt; grown(rt.alloc(), text)?, 2 * text.len() + 1);
    }
    Ok(())
}

#[test]
fn a_writer_puts_texts_and_numbers(rt: HostRuntime) -> Result<(), Fail> {
    let mut out = TextWriter::new(rt.alloc());
    out.text("= posted ")?;
    out.number(340282366920938463463374607431768211455)?;
    out.byte(b' ')?;
    out.signed(-9223372036854775808)?;
    out.bytes(b"!")?;
    out.end_line()?;
    let wanted = b"= posted 340282366920938463463374607431768211455 -9223372036854775808!\n";
    assert_eq!(rt; out.into_bytes().slice(), wanted.as_slice());
    Ok(())
}

fn event(alloc: Global, note: &str) -> Result<Event, Unfit> {
    let mut pairs = Sequence::new(alloc);
    pairs.push((
        PlainName::of(alloc, b"note")?,
        Value::Text(bytes(alloc, note)?),
    ))?;
    Ok(Event {
        number: 9,
        name: Name::of(alloc, b"door.open")?,
        kind: Kind::External,
        sendid: small(alloc, "1")?,
        origin: small(alloc, "#_scxml_s")?,
        origintype: small(alloc, "scxml")?,
        invokeid: SharedBytes::empty(),
        payload: Data::Pairs(pairs),
    })
}

fn chart(alloc: Global, text: &str) -> Result<Chart, NoMemory> {
    let mut members = Sequence::new(alloc);
    let code = Member::Code(Expr::Text(bytes(alloc, text)?));
    members.push((bytes(alloc, "expr")?, code))?;
    let mut kids = Sequence::new(alloc);
    kids.push(Node {
        tag: Tag::Log,
        members,
        kids: Sequence::new(alloc),
    })?;
    Ok(Chart {
        root: Node {
            tag: Tag::Scxml,
            members: Sequence::new(alloc),
            kids,
        },
    })
}

/// Whether a copy equals what it copies, and no other value.
fn is_told_apart<T: Plain + PartialEq>(value: T, other: T) -> Result<bool, NoMemory> {
    let copy = value.copy()?;
    Ok(copy == value && copy != other)
}

#[test]
fn a_copy_of_an_event_equals_it(rt: HostRuntime) -> Result<(), Fail> {
    let value = event(rt.alloc(), "a")?;
    let other = event(rt.alloc(), "b")?;
    assert!(rt; is_told_apart(value, other)?);
    Ok(())
}

#[test]
fn an_attribute_is_found_by_its_name(rt: HostRuntime) -> Result<(), Fail> {
    let copy = chart(rt.alloc(), "a")?.copy()?;
    for log in copy.root.kids.slice() {
        let found = [
            log.has(Attribute::Expr),
            log.expr(Attribute::Expr).is_some(),
            log.text(Attribute::Label).is_some(),
            !log.words(Attribute::Event).is_empty(),
        ];
        assert_eq!(rt; found, [true, true, false, false]);
    }
    Ok(())
}
