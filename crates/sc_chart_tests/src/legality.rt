use crate::charts::told;
use crate::legality_of_content::{CHILDREN, DATA, SENDS};
use crate::legality_of_states::{HISTORIES, IDS, INITIALS, TRANSITIONS};
use crate::recipes::large;
use sc_chart_json::{print_chart, read_chart};
use sc_types::{Chart, ChartRefusal};
use sc_valid::validate;
use std::alloc::Global;
use std::test::Fail;

// A chart in short is `tag@id;member=value{kid,kid}`, where each part but the tag may be missing.

/// Each line is a chart in short with several faults, and the outcome: one of them is told.
const ORDER: &str = r#"scxml{state@a{transition;target=zz},state@a} => chart 21 0.0
scxml{state@a,state@a{transition;target=zz}} => chart 20 1
scxml{state@a{transition;target=zz},state;initial=b} => chart 21 0.0
scxml{state@a;initial=a,state@b{transition;target=zz}} => chart 22 0
scxml{state@a,state@a;initial=zz} => chart 20 1
scxml{state@a,state@a;initial=a} => chart 20 1
scxml{state@b,state@a;initial=b zz} => chart 21 1
scxml{state@a{state@b,history@b}} => chart 20 0.1
scxml{state@a{transition;target=a a zz}} => chart 21 0.0
scxml{state@a{history{transition;target=zz zz},state@b}} => chart 21 0.0.0
scxml{state@a{history{transition;target=a zz},state@b}} => chart 23 0.0
scxml{state@a{initial{transition;target=a zz},state@b}} => chart 22 0.0
scxml{state@a{initial{transition;target=b zz},state@b}} => chart 21 0.0.0
scxml{initial,history,state@a} => chart 22 0
scxml{history,initial,state@a} => chart 23 0
scxml{log{log},initial,state} => chart 26 0
scxml{state{transition{state}},state{transition}} => chart 25 0.0
scxml{state{transition{state,transition}}} => chart 25 0.0
scxml{state@a{transition;target=a a,transition}} => chart 24 0.0
scxml{state@a{transition,transition;target=a a}} => chart 25 0.0
scxml;limit=0 => chart 22 -
scxml;limit=0;initial=zz{state} => chart 21 -
scxml;limit=0;initial=a a{state@a} => chart 22 -
scxml;limit=0;datamodel=null{datamodel{data@x},state} => chart 27 -
scxml;limit=0{log} => chart 22 -
state;initial=zz => chart 21 -
state@a;initial=a => chart 22 -
scxml{state@a,state@b{scxml;initial=a zz,state@a}} => chart 21 1.0
scxml{state@a,state@b{scxml;initial=a b,state@a}} => chart 22 1.0
scxml{state{send}} => chart 26 0.0
scxml{state{onentry{log{send}}}} => chart 26 0.0.0.0
scxml{state{invoke;src=c{finalize{send,raise;event=e}}}} => chart 26 0.0.0.0
scxml{state{invoke;src=c{finalize{log,send;event=e;eventexpr=x}}}} => chart 26 0.0.0.1
scxml{state{onentry{invoke@i;src=c;idlocation=x}}} => chart 26 0.0.0
scxml;datamodel=null{state{invoke@i;src=c;idlocation=x}} => chart 29 0.0
scxml;datamodel=null{state{onentry{send@i;event=e;idlocation=x}}} => chart 28 0.0.0
scxml;datamodel=null{state{transition;cond=true;target=zz}} => chart 21 0.0
scxml;datamodel=null{state@a{transition;cond=true;target=a a}} => chart 24 0.0
scxml;datamodel=null{final{transition;cond=true}} => chart 26 0.0
scxml;datamodel=null{state{datamodel,datamodel{data@x}}} => chart 26 0.1
scxml;datamodel=null{final{donedata{content;expr=1,param;name=p;expr=1}}} => chart 30 0.0.0
scxml{final{donedata{content;expr=1,param;name=p;expr=1,content;expr=1}}} => chart 26 0.0.1
scxml{state{data@_x}} => chart 26 0.0
scxml{state{data@x},state{datamodel{data@x}}} => chart 26 0.0
scxml{datamodel{data@_x,data@_x},state} => chart 30 0.0
scxml{datamodel{data@x,data@x,data@_y},state} => chart 30 0.1
scxml{state{finalize}} => chart 26 0.0
scxml{state{invoke;src=c{finalize{log},finalize}}} => chart 26 0.0.1
scxml{state{invoke;src=c{finalize,finalize}}} => chart 31 0.0.0
scxml{state{invoke@i;src=c;idlocation=x{finalize}}} => chart 29 0.0
scxml{state{onentry{send{send}}}} => chart 28 0.0.0
scxml{state{onentry{send{content;expr=1,content;expr=1}}}} => chart 28 0.0.0
scxml{state{onentry{send;event=e{log,content;expr=1,param;name=p;expr=1}}}} => chart 28 0.0.0
scxml{state{onentry{send,raise;event=e{log}},onexit{send}},final{log}} => chart 28 0.0.0
scxml{state{onentry{invoke@i;src=c}},state{invoke@i;src=c}} => chart 26 0.0.0
scxml{state@a,final{state@a}} => chart 20 1.0
scxml{state@a,state{onentry{history@a}}} => chart 20 1.0.0
scxml{final{state@a},state@a} => chart 26 0.0
scxml{final{state@a},state@b{transition;target=a}} => chart 26 0.0
scxml{state@b{onentry{parallel@p{state@c,state@d}}},state@a{transition;target=c d}} => chart 26 0.0.0
scxml{state@a{transition;target=c d},final{parallel@p{state@c,state@d}}} => chart 26 1.0
scxml{state@a{transition;target=c d},final{onentry{state@c,state@d}}} => chart 24 0.0
scxml{state@a;initial=b{onentry{state@b}}} => chart 22 0
scxml{state@a;initial=b{final{state@b}}} => chart 26 0.0.0
scxml{state@a{history{transition;target=b},final{state@b}}} => chart 23 0.0
scxml{state@a{history;type=deep{transition;target=b},final{state@b}}} => chart 26 0.1.0
scxml{state@a{history;type=deep{transition;target=a},state@a}} => chart 23 0.0
scxml{state@a{transition;target=b c},parallel@b,parallel{state@b,state@c}} => chart 24 0.0
scxml{state{transition;event=e},state{transition},state{transition;target=zz},state@a,state@a} => chart 25 1.0
scxml{state,state{state,state{state@a,state{state}},state@a},state{transition}} => chart 20 1.2
scxml{state,state{state,state{state@a,state{state@a}},state@a},state{transition}} => chart 20 1.1.1.0"#;

/// The same for legal charts of all kinds.
const LEGAL: &str = r#"scxml{state} => ok 1
scxml{parallel} => ok 1
scxml{final} => ok 1
scxml{final@f} => ok 1
scxml{parallel@p} => ok 1
scxml{state{parallel,final}} => ok 3
scxml{state@a{onentry{log;expr='hi'}}} => ok 1
scxml;name=n;binding=late;version=1.0;limit=7;datamodel=whole;initial=b{state@a,state@b} => ok 2
scxml{parallel@p{transition;event=f;target=x,state@r1{state@a{transition;event=e;target=x}},state@r2{state@b{transition;event=e f;target=c},state@c}},state@x} => ok 7
scxml{state@o{transition;event=in;target=h,transition;event=go;target=a},state@s{history@h{transition;target=b{log;expr='default'}},state@a{transition;event=e;target=h},state@b}} => ok 5
scxml{parallel@p{history@hs{transition;target=r1 r2},history@hd;type=deep{transition;target=a1 b1},transition;event=out;target=o,state@r1{state@a1{transition;event=e;target=a2},state@a2},state@r2{state@b1,state@b2}},state@o{transition;event=s;target=hs,transition;event=d;target=hd}} => ok 10
scxml{datamodel{data@v;expr=0},state@w{invoke@i;src=k;autoforward=true{finalize{assign;location=v;expr=_event.data.q}},transition;event=got;cond=v;target=z},state@z} => ok 2
scxml{state@a{onentry{send;event=x;delay=10ms,send;event=y;delay=10ms,send@k;event=z;delay=10ms,cancel;sendid=k}}} => ok 1
scxml;name=order{state@open{history@interrupted;type=deep{transition;target=handling},transition;event=timeout;target=hold,transition;event=done.state.handling;target=shipping,parallel@handling{state@payment{state@unpaid{onentry{send@reminder;event=timeout;delay=1800s},onexit{cancel;sendid=reminder},transition;event=paid;target=payment-received},final@payment-received},state@stock{state@checking{transition;event=stocked;target=stock-reserved},final@stock-reserved}}},state@hold{transition;event=retry;target=interrupted},state@shipping{invoke@shipment;src=shipping,transition;event=done.invoke.shipment;target=done},final@done} => ok 12
scxml;name=shipping{state@packing{transition;event=sent;target=on-its-way},final@on-its-way} => ok 2
scxml{state,state,state,state,state,state,state,state,state,state,state,state{state}} => ok 13"#;

/// Each line tells how a large chart is put together, how often and what, and the outcome.
const RECIPES: &str =
    r#"{"tag":"scxml","kids":[ 38 {"tag":"state","kids":[ {"tag":"state"} 38 ]} ]} => ok 39
{"tag":"scxml","kids":[ 38 {"tag":"state","kids":[ {"tag":"log"} 38 ]} ]} => chart 26 0.0.0.0.0.0.0.0.0.0.0.0.0.0.0.0.0.0.0.0.0.0.0.0.0.0.0.0.0.0.0.0.0.0.0.0.0.0.0
{"tag":"scxml","initial":"a","kids":[ 38 {"tag":"state","kids":[ {"tag":"final","id":"a"} 38 ]} ]} => ok 39
{"tag":"scxml","initial":"b","kids":[ 38 {"tag":"parallel","kids":[ {"tag":"state","id":"a"} 38 ]} ]} => chart 21 -
{"tag":"scxml","kids":[ 37 {"tag":"parallel","kids":[ {"tag":"state","kids":[{"tag":"transition"}]} 37 ]} ]} => chart 25 0.0.0.0.0.0.0.0.0.0.0.0.0.0.0.0.0.0.0.0.0.0.0.0.0.0.0.0.0.0.0.0.0.0.0.0.0.0.0
{"tag":"scxml","kids":[{"tag":"state","id":"a"}, 37 {"tag":"state","kids":[ {"tag":"state","id":"b"},{"tag":"final","id":"a"} 37 ]} ]} => chart 20 1.0.0.0.0.0.0.0.0.0.0.0.0.0.0.0.0.0.0.0.0.0.0.0.0.0.0.0.0.0.0.0.0.0.0.0.0.1
{"tag":"scxml","kids":[{"tag":"state","kids":[{"tag":"onentry","kids":[ 36 {"tag":"if","cond":"x","kids":[ {"tag":"send"} 36 ]} ]}]}]} => chart 28 0.0.0.0.0.0.0.0.0.0.0.0.0.0.0.0.0.0.0.0.0.0.0.0.0.0.0.0.0.0.0.0.0.0.0.0.0.0.0
{"tag":"scxml","kids":[ 4095 {"tag":"state"}, {"tag":"state"} ]} => ok 4096
{"tag":"scxml","kids":[{"tag":"state","id":"a"}, 4094 {"tag":"state"}, {"tag":"state","id":"a"} ]} => chart 20 4095
{"tag":"scxml","kids":[ 4095 {"tag":"state"}, {"tag":"state","id":"a"} ],"initial":"a"} => ok 4096
{"tag":"scxml","kids":[ 4095 {"tag":"final"}, {"tag":"final","kids":[{"tag":"log"}]} ]} => chart 26 4095.0
{"tag":"scxml","kids":[{"tag":"state","kids":[{"tag":"onentry","kids":[ 65536 {"tag":"log"}, {"tag":"else"}]}]}]} => chart 26 0.0.65536"#;

/// Each line is the tag of an element, and what it has in short.
const ELEMENTS: &str = "scxml:{state}
state:
parallel:
final:
history:{transition;target=z}
initial:{transition;target=z}
transition:;target=z
onentry:
onexit:
finalize:{log}
datamodel:
data:@x
donedata:
content:;expr=1
param:;name=p;expr=1
invoke:;src=c
raise:;event=e
if:;cond=true
elseif:;cond=true
else:
foreach:;array=x;item=y
log:
assign:;location=x;expr=1
send:;event=e
cancel:;sendid=i";

/// Each line is a chart with a place for one more element, and the tags of those that may stand there, if any.
const CONTEXTS: &str = "scxml{state@z,?} => state parallel final datamodel
scxml{state{state@z,?}} => state parallel final history initial transition onentry onexit datamodel invoke
scxml{parallel{state@z,?}} => state parallel history transition onentry onexit datamodel invoke
scxml{state@z,final{?}} => onentry onexit donedata
scxml{state{state@z,history{?}}} => transition
scxml{state{state@z,history{transition;target=z,?}}}
scxml{state{state@z,initial{?}}} => transition
scxml{state{initial{transition;target=z,?},state@z}}
scxml{state@z{transition;event=e{?}}} => raise if foreach log assign send cancel
scxml{state@z{onentry{?}}} => raise if foreach log assign send cancel
scxml{state@z{onexit{log,?}}} => raise if foreach log assign send cancel
scxml{state@z{invoke;src=c{finalize{log,?}}}} => if foreach log assign cancel
scxml{datamodel{?},state@z} => data
scxml{datamodel{data@y{?}},state@z}
scxml{final@z{donedata{?}}} => content param
scxml{final@z{donedata{content;expr=1{?}}}}
scxml{final@z{donedata{param;name=p;expr=1{?}}}}
scxml{state@z{invoke;src=c{?}}} => finalize param
scxml{state@z{onentry{raise;event=e{?}}}}
scxml{state@z{onentry{if;cond=true{?}}}} => raise if elseif else foreach log assign send cancel
scxml{state@z{onentry{if;cond=true{elseif;cond=true{?}}}}}
scxml{state@z{onentry{if;cond=true{else{?}}}}}
scxml{state@z{onentry{if;cond=true{else,?}}}} => raise if foreach log assign send cancel
scxml{state@z{onentry{foreach;array=x;item=y{?}}}} => raise if foreach log assign send cancel
scxml{state@z{onentry{log{?}}}}
scxml{state@z{onentry{assign;location=x;expr=1{?}}}}
scxml{state@z{onentry{send;event=e{?}}}} => content param
scxml{state@z{onentry{cancel;sendid=i{?}}}}";

/// A chart of which nothing is in short, with all that a chart may hold.
const WHOLE: &str =
    r#"{"tag":"scxml","name":"n","limit":"7","initial":"b c","kids":[{"tag":"datamodel","kids":[{"tag":"data","id":"x","expr":"1 + 2"}]},{"tag":"parallel","id":"a","kids":[{"tag":"state","id":"b","kids":[{"tag":"transition","event":"e f","cond":"x < 3","target":"b c","type":"internal","kids":[{"tag":"log","label":"l","expr":"[x, 'y']"}]}]},{"tag":"state","id":"c"}]}]}"#;

/// The JSON text of a chart in short.
fn spelled_out(alloc: Global, short: &str) -> Result<Vec<u8>, Fail> {
    let mut text = Vec::from_slice(alloc, br#"{"tag":""#)?;
    let mut is_closed = false;
    for byte in short.as_bytes() {
        if matches!(*byte, b',' | b'}') && !is_closed {
            text.extend_from_slice(br#""}"#)?;
        }
        put_spelled_out(&mut text, *byte)?;
        is_closed = *byte == b'}';
    }
    if !is_closed {
        text.extend_from_slice(br#""}"#)?;
    }
    Ok(text)
}

/// Writes what a byte of a chart in short stands for.
fn put_spelled_out(text: &mut Vec<u8>, byte: u8) -> Result<(), Fail> {
    match byte {
        b'@' => text.extend_from_slice(br#"","id":""#)?,
        b';' => text.extend_from_slice(br#"",""#)?,
        b'=' => text.extend_from_slice(br#"":""#)?,
        b'{' => text.extend_from_slice(br#"","kids":[{"tag":""#)?,
        b',' => text.extend_from_slice(br#",{"tag":""#)?,
        b'}' => text.extend_from_slice(b"]}")?,
        other => text.push(other)?,
    }
    Ok(())
}

fn legal_chart(alloc: Global, text: &[u8]) -> Result<Chart, ChartRefusal> {
    let legal = validate(alloc, read_chart(alloc, text)?)?;
    Ok(legal.into_chart())
}

/// The number of states of the legal chart of a text, or its first fault.
fn outcome(alloc: Global, text: &[u8]) -> Result<Vec<u8>, Fail> {
    told(alloc, legal_chart(alloc, text))
}

#[test]
fn charts_are_legal_or_their_first_fault_is_told(rt: HostRuntime) -> Result<(), Fail> {
    for table in [
        IDS,
        INITIALS,
        HISTORIES,
        TRANSITIONS,
        CHILDREN,
        SENDS,
        DATA,
        ORDER,
        LEGAL,
    ] {
        for line in table.lines() {
            let (short, wanted) = line.split_once(" => ").unwrap_or((line, ""));
            let found = outcome(rt.alloc(), &spelled_out(rt.alloc(), short)?)?;
            assert_eq!(rt; found.as_slice(), wanted.as_bytes(), "{short}");
        }
    }
    Ok(())
}

#[test]
fn large_charts_are_legal_or_their_first_fault_is_told(rt: HostRuntime) -> Result<(), Fail> {
    for line in RECIPES.lines() {
        let (recipe, wanted) = line.split_once(" => ").unwrap_or((line, ""));
        let found = outcome(rt.alloc(), &large(rt.alloc(), recipe)?)?;
        assert_eq!(rt; found.as_slice(), wanted.as_bytes(), "{recipe}");
    }
    Ok(())
}

/// A chart in short with an element in the place that is left for it.
fn with_element(alloc: Global, context: &str, tag: &str, rest: &str) -> Result<Vec<u8>, Fail> {
    let (start, end) = context.split_once('?').unwrap_or((context, ""));
    let mut short = String::new(alloc);
    for part in [start, tag, rest, end] {
        short.push_str(part)?;
    }
    spelled_out(alloc, &short)
}

#[test]
fn each_element_may_hold_its_child_elements_and_no_others(rt: HostRuntime) -> Result<(), Fail> {
    for line in CONTEXTS.lines() {
        let (context, tags) = line.split_once(" => ").unwrap_or((line, ""));
        for element in ELEMENTS.lines() {
            let (tag, rest) = element.split_once(':').unwrap_or((element, ""));
            let text = with_element(rt.alloc(), context, tag, rest)?;
            let found = outcome(rt.alloc(), &text)?;
            let may_stand = tags.split_whitespace().any(|word| word == tag);
            assert_eq!(rt;
                found.starts_with(b"ok "),
                may_stand,
                "{element} in {context}"
            );
        }
    }
    Ok(())
}

#[test]
fn a_legal_chart_is_the_chart_that_was_given(rt: HostRuntime) -> Result<(), Fail> {
    let given = read_chart(rt.alloc(), WHOLE.as_bytes())?;
    let legal = validate(rt.alloc(), read_chart(rt.alloc(), WHOLE.as_bytes())?)?;
    let printed = print_chart(rt.alloc(), &given)?;
    assert!(rt; print_chart(rt.alloc(), legal.chart())? == printed);
    assert!(rt; print_chart(rt.alloc(), &legal.into_chart())? == printed);
    Ok(())
}
