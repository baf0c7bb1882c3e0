use crate::told::tells;
use sc_hints::{run_hint, script_hint};
use std::alloc::Global;
use std::process::Abort;
use std::test::Fail;

fn is_told(alloc: Global, text: &[u8], pieces: &str) -> Result<bool, Fail> {
    Ok(tells(&script_hint(alloc, text)?, pieces))
}

#[test]
fn the_faulty_word_is_told(rt: HostRuntime) -> Result<(), Fail> {
    let rows: [(&[u8], &str); 14] = [
        (b"tick 1\n\xff", "line 2, column 1|UTF-8"),
        (b"  walk s", "line 1, column 3|'walk'"),
        (b"pots s e", "'pots'|the nearest is 'post'"),
        (b"post\ts", "tab"),
        (b"# note", "comments"),
        (b"{\"tag\":1}", "chart NAME JSON"),
        (b"start s", "line 1, column 8|start SESSION NAME"),
        (b"tick 1 2", "line 1, column 8|'2'|tick NUMBER"),
        (b"client a", "line 1, column 8|'a'"),
        (b"start s# m", "line 1, column 7|'s#'"),
        (b"post s e a=1 b c=2", "line 1, column 14|'b'|NAME=VALUE"),
        (
            b"post s e a='x y' b=[1, 2] c=x",
            "line 1, column 27|'c'|quotes",
        ),
        (b"post s e 1a=1", "line 1, column 10|'1a'"),
        (b"tick 01", "line 1, column 6|'01'"),
    ];
    for (text, pieces) in rows {
        assert!(rt; is_told(rt.alloc(), text, pieces)?, "{pieces}");
    }
    Ok(())
}

const DOOR: &str =
    "chart door {\"tag\":\"scxml\",\"kids\":[{\"tag\":\"state\",\"id\":\"shut\",\"kids\":[\
    {\"tag\":\"transition\",\"event\":\"push pull.*\",\"target\":\"shut\"}]}]}\n";

#[test]
fn what_a_script_does_not_make_is_told(rt: HostRuntime) -> Result<(), Fail> {
    let rows = [
        ("start s dor", "line 2, column 9|'dor'|'door'"),
        ("start s door\npost t push", "line 3, column 6|'t'"),
        (
            "start front door\npost fornt push",
            "line 3, column 6|'fornt'|'front'",
        ),
        ("start s door\n  cancel t", "line 3, column 10|'t'"),
        ("post s push\nstart s door", "line 2, column 6|'s'|line 3"),
        ("start s/1 door", "line 2, column 7|'s/1'|/"),
        ("chart door {}", "line 2, column 7|line 1|'door'"),
        ("start s door\nstart s door", "line 3, column 7|line 2|'s'"),
        ("chart m {\"tag\":1}", "line 2, column 9|'tag'|'m'"),
        (
            "chart m   {\"tag\":\"scxml\"}",
            "line 2, column 11|scxml|'m'",
        ),
        (
            "start s door\npost s pusch",
            "line 3, column 8|'door'|'pusch'|'push'",
        ),
        ("start s door\npost s pushed", "line 3, column 8|'pushed'"),
        ("client\nstart s door\nclient\npost t push", "line 5"),
    ];
    let mut words = Vec::new(rt.alloc());
    words.push(String::from_str(rt.alloc(), "run")?)?;
    for (script, pieces) in rows {
        let text = format!(in rt.alloc(); "{DOOR}{script}\n")?;
        let told = run_hint(rt.alloc(), words.as_slice(), text.as_bytes())?;
        assert!(rt; tells(&told, pieces), "{script}");
    }
    Ok(())
}

#[test]
fn nothing_is_told_of_what_may_be_meant(rt: HostRuntime) -> Result<(), Fail> {
    let rows = [
        "start s door \r\npost s push\r",
        "start s door\npost s pull\npost s pull.hard\npost s/1 sent\ncancel s",
        "client\npost s push\nclient\nstart s door",
        "chart m {\"tag\":\"scxml\",\"kids\":[{\"tag\":\"state\",\"kids\":[{\"tag\":\"invoke\",\"src\":\"door\",\
         \"autoforward\":\"true\"}]}]}\nstart s m\npost s push",
        "chart m {\"tag\":\"scxml\",\"kids\":[{\"tag\":\"state\",\"kids\":[{\"tag\":\"transition\",\
         \"cond\":\"_event.name == 'push'\"}]}]}\nstart s m\npost s push",
        "chart m {\"tag\":\"scxml\",\"kids\":[{\"tag\":\"state\",\"kids\":[{\"tag\":\"transition\",\"event\":\"*\"}\
         ]}]}\nstart s m\npost s push",
    ];
    let mut words = Vec::new(rt.alloc());
    words.push(String::from_str(rt.alloc(), "run")?)?;
    for script in rows {
        let text = format!(in rt.alloc(); "{DOOR}{script}\n")?;
        assert!(rt;
            run_hint(rt.alloc(), words.as_slice(), text.as_bytes())?.is_none(),
            "{script}"
        );
    }
    let later = b"start s m\npost t push\ncancel u\n";
    assert!(rt; run_hint(rt.alloc(), words.as_slice(), later)?.is_none());
    Ok(())
}

#[test]
fn ticks_before_steps_are_told(rt: HostRuntime) -> Result<(), Fail> {
    let mut words = Vec::new(rt.alloc());
    words.push(String::from_str(rt.alloc(), "run")?)?;
    let told = run_hint(rt.alloc(), words.as_slice(), b"post s e\n tick 1\n")?;
    assert!(rt; tells(&told, "before any step"));
    assert!(rt; run_hint(rt.alloc(), words.as_slice(), b"tick 1\nclient\n")?.is_none());
    assert!(rt; run_hint(rt.alloc(), words.as_slice(), b"post tick 1\n")?.is_none());
    words.push(String::from_str(rt.alloc(), "--workers=0")?)?;
    assert!(rt; run_hint(rt.alloc(), words.as_slice(), b"tick 1\n")?.is_none());
    Ok(())
}
