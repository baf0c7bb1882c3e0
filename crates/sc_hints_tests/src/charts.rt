use crate::told::tells;
use sc_hints::chart_hint;
use std::alloc::Global;
use std::process::Abort;
use std::test::Fail;

fn is_told(alloc: Global, text: &str, pieces: &str) -> Result<bool, Fail> {
    Ok(tells(&chart_hint(alloc, text.as_bytes())?, pieces))
}

#[test]
fn the_place_of_what_is_no_json_is_told(rt: HostRuntime) -> Result<(), Fail> {
    let rows = [
        ("", "empty"),
        (" \n", "empty"),
        ("<scxml/>", "line 1, column 1|XML"),
        ("{\"tag\":\n'a'}", "line 2, column 1|double quotes"),
        ("{\"tag\":\"scxml\",}", "line 1, column 16|comma"),
        (
            "{\"tag\":\"scxml\"\n \"kids\":[]}",
            "line 2, column 2|comma",
        ),
        ("{\"tag\":\"scxml\" // a\n}", "line 1, column 16|comments"),
        ("{\"tag\":\"scxml\"} {}", "line 1, column 17|nothing"),
        (
            "{\"tag\":\"scxml\"\n",
            "line 1, column 15|the { of line 1, column 1",
        ),
        (
            "{\"kids\":[\n{\"tag\":\"log\"]}",
            "line 2, column 13|this ]|the { of line 2, column 1",
        ),
        (
            "{\"kids\":[{\"tag\":\"]\"}},{\"tag\":\"log\"}]}",
            "line 1, column 21|this }|the [ of line 1, column 9",
        ),
        ("{\"tag\":\"a\nb\"}", "line 1, column 8|line feed"),
        ("{\"tag\":\"a\\c\"}", "line 1, column 8|\\\\"),
        ("{\"tag\":\"scxml}", "line 1, column 8|no quote"),
        ("{\"tag\" \"scxml\"}", "line 1, column 8|a :"),
    ];
    for (text, pieces) in rows {
        assert!(rt; is_told(rt.alloc(), text, pieces)?, "{text}");
    }
    Ok(())
}

#[test]
fn the_element_is_told(rt: HostRuntime) -> Result<(), Fail> {
    let rows = [
        ("[]", "line 1, column 1|'tag'"),
        ("{\"tag\":\"html\"}", "html"),
        (
            "{\"tag\":\"scxml\",\"kids\":[\n{\"tag\":\"stat\"}]}",
            "line 2, column 1|'stat'|'state'",
        ),
        (
            "{\"tag\":\"state\",\"id\":\"a\",\"initail\":\"b\"}",
            "state 'a'|'initail'|'initial'",
        ),
        ("{\"tag\":\"scxml\",\"limit\":\"01\"}", "'limit'|'01'"),
        (
            "{\"tag\":\"scxml\",\"values\":\"3\"}",
            "'values'|'3'|to be 1",
        ),
        ("{\"tag\":\"scxml\",\"version\":\"1\"}", "'version'|1.0"),
        ("{\"tag\":\"scxml\",\"kids\":{}}", "'kids'|array"),
        ("{\"tag\":\"raise\"}", "raise|'event'|missing"),
        ("{\"tag\":\"param\",\"name\":\"a\"}", "'expr'|'location'"),
        (
            "{\"tag\":\"scxml\",\"kids\":[{\"tag\":\"log\",\"expr\":\"1 +\"}]}",
            "log|'expr'|1 +",
        ),
        (
            "{\"tag\":\"scxml\",\"kids\":[{\"tag\":\"log\",\"expr\":\"1\\n+\"}]}",
            "log|'expr'|1 +",
        ),
    ];
    for (text, pieces) in rows {
        assert!(rt; is_told(rt.alloc(), text, pieces)?, "{text}");
    }
    Ok(())
}

#[test]
fn what_is_not_legal_is_told(rt: HostRuntime) -> Result<(), Fail> {
    let rows = [
        ("{\"tag\":\"scxml\"}", "no state"),
        ("{\"tag\":\"state\"}", "no state"),
        (
            "{\"tag\":\"state\",\"kids\":[{\"tag\":\"state\"}]}",
            "root|scxml",
        ),
        (
            "{\"tag\":\"scxml\",\"kids\":[{\"tag\":\"state\",\"id\":\"open\",\"kids\":[{\"tag\":\"transition\",\
            \"target\":\"opne\"}]}]}",
            "transition of state 'open'|'opne'|the nearest is 'open'",
        ),
        (
            "{\"tag\":\"scxml\",\"kids\":[{\"tag\":\"state\",\"kids\":[{\"tag\":\"onentry\",\"kids\":[\
            {\"tag\":\"send\"}]}]}]}",
            "send|'event'|'eventexpr'",
        ),
        (
            "{\"tag\":\"scxml\",\"kids\":[{\"tag\":\"state\",\"kids\":[{\"tag\":\"log\"}]}]}",
            "log|may not stand in state",
        ),
        (
            "{\"tag\":\"scxml\",\"kids\":[{\"tag\":\"state\",\"kids\":[{\"tag\":\"onentry\",\"kids\":[\
            {\"tag\":\"log\",\"kids\":[{\"tag\":\"raise\",\"event\":\"e\"}]}]}]}]}",
            "raise|may not stand in log|no child elements",
        ),
        (
            "{\"tag\":\"scxml\",\"kids\":[{\"tag\":\"state\",\"kids\":[{\"tag\":\"onexit\",\"kids\":[\
            {\"tag\":\"send\",\"event\":\"e\",\"kids\":[{\"tag\":\"log\"}]}]}]}]}",
            "log|may not stand in send|content param",
        ),
    ];
    for (text, pieces) in rows {
        assert!(rt; is_told(rt.alloc(), text, pieces)?, "{text}");
    }
    Ok(())
}

#[test]
fn nothing_is_told_of_a_legal_chart(rt: HostRuntime) -> Result<(), Fail> {
    let text = "{\"tag\":\"scxml\",\"kids\":[{\"tag\":\"state\"}]}";
    assert!(rt; chart_hint(rt.alloc(), text.as_bytes())?.is_none());
    Ok(())
}
