use crate::charts::outcome;
use crate::recipes::large;
use std::test::Fail;

/// Each line tells how a text is put together, how often and what, and the outcome of its reading.
const RECIPES: &str =
    r#"{"tag":"scxml","kids":[ 38 {"tag":"state","kids":[ {"tag":"state"} 38 ]} ]} => ok 39
{"tag":"scxml","kids":[ 39 {"tag":"state","kids":[ {"tag":"state"} 39 ]} ]} => chart 7 0.0.0.0.0.0.0.0.0.0.0.0.0.0.0.0.0.0.0.0.0.0.0.0.0.0.0.0.0.0.0.0.0.0.0.0.0.0.0.0
{"tag":"scxml","kids":[ 38 {"tag":"state","kids":[ {"tag":"html"} 38 ]} ]} => chart 3 0.0.0.0.0.0.0.0.0.0.0.0.0.0.0.0.0.0.0.0.0.0.0.0.0.0.0.0.0.0.0.0.0.0.0.0.0.0.0
{"tag":"scxml","kids":[ 39 {"tag":"state","kids":[ {"tag":"html"} 39 ]} ]} => chart 7 0.0.0.0.0.0.0.0.0.0.0.0.0.0.0.0.0.0.0.0.0.0.0.0.0.0.0.0.0.0.0.0.0.0.0.0.0.0.0.0
{"tag":"scxml","kids":[ 39 {"tag":"state","kids":[ null 39 ]} ]} => chart 2 0.0.0.0.0.0.0.0.0.0.0.0.0.0.0.0.0.0.0.0.0.0.0.0.0.0.0.0.0.0.0.0.0.0.0.0.0.0.0.0
{"tag":"scxml","kids":[ 39 {"tag":"state","kids":[ {"id":"a"} 39 ]} ]} => chart 2 0.0.0.0.0.0.0.0.0.0.0.0.0.0.0.0.0.0.0.0.0.0.0.0.0.0.0.0.0.0.0.0.0.0.0.0.0.0.0.0
{"tag":"scxml","kids":[ 39 {"tag":"state","kids":[ {"tag":"state","y":"1"} 39 ]} ]} => chart 7 0.0.0.0.0.0.0.0.0.0.0.0.0.0.0.0.0.0.0.0.0.0.0.0.0.0.0.0.0.0.0.0.0.0.0.0.0.0.0.0
{"tag":"scxml","kids":[ 39 {"tag":"state","kids":[ {"tag":"state","id":""} 39 ]} ]} => chart 7 0.0.0.0.0.0.0.0.0.0.0.0.0.0.0.0.0.0.0.0.0.0.0.0.0.0.0.0.0.0.0.0.0.0.0.0.0.0.0.0
{"tag":"scxml","kids":[ 39 {"tag":"state","kids":[ {"tag":"log","expr":"("} 39 ]} ]} => chart 7 0.0.0.0.0.0.0.0.0.0.0.0.0.0.0.0.0.0.0.0.0.0.0.0.0.0.0.0.0.0.0.0.0.0.0.0.0.0.0.0
{"tag":"scxml","kids":[ 39 {"tag":"state","kids":[ {"tag":"log"} 39 ]} ]} => chart 7 0.0.0.0.0.0.0.0.0.0.0.0.0.0.0.0.0.0.0.0.0.0.0.0.0.0.0.0.0.0.0.0.0.0.0.0.0.0.0.0
{"tag":"scxml","kids":[ 38 {"tag":"state","kids":[ {"tag":"log","kids":[{"tag":"else"}]} 38 ]} ]} => chart 7 0.0.0.0.0.0.0.0.0.0.0.0.0.0.0.0.0.0.0.0.0.0.0.0.0.0.0.0.0.0.0.0.0.0.0.0.0.0.0.0
{"tag":"scxml","kids":[ 62 {"tag":"state","kids":[ {"tag":"state"} 62 ]} ]} => chart 7 0.0.0.0.0.0.0.0.0.0.0.0.0.0.0.0.0.0.0.0.0.0.0.0.0.0.0.0.0.0.0.0.0.0.0.0.0.0.0.0
{"tag":"scxml","kids":[ 63 {"tag":"state","kids":[ {"tag":"state"} 63 ]} ]} => chart 1 -
{"tag":"scxml","kids":[ 4095 {"tag":"state"}, {"tag":"state"} ]} => ok 4096
{"tag":"scxml","kids":[ 4096 {"tag":"state"}, {"tag":"state"} ]} => chart 8 4096
{"tag":"scxml","kids":[ 4096 {"tag":"state"}, {"tag":"transition"} ]} => ok 4096
{"tag":"scxml","kids":[ 4096 {"tag":"state"}, {"tag":"parallel"} ]} => chart 8 4096
{"tag":"scxml","kids":[ 4096 {"tag":"state"}, {"tag":"final"} ]} => chart 8 4096
{"tag":"scxml","kids":[ 4096 {"tag":"state"}, {"tag":"history"} ]} => chart 8 4096
{"tag":"scxml","kids":[ 4096 {"tag":"state"}, {"tag":"transition","kids":[{"tag":"state"}]} ]} => chart 8 4096.0
{"tag":"scxml","kids":[ 4096 {"tag":"state"}, {"tag":"state","kids":[1]} ]} => chart 8 4096
{"tag":"scxml","kids":[ 4096 {"tag":"state"}, {"tag":"state"},1 ]} => chart 8 4096
{"tag":"scxml","kids":[ 4095 {"tag":"state"}, {"tag":"state","kids":[{"tag":"state"}]} ]} => chart 8 4095.0
{"tag":"scxml","kids":[ 4096 {"tag":"state"}, {"tag":"state","id":""} ]} => chart 5 4096
{"tag":"scxml","kids":[ 4096 {"tag":"state"}, {"tag":"state","y":"1"} ]} => chart 4 4096
{"tag":"scxml","kids":[ 4096 {"tag":"state"}, {"tag":"html"} ]} => chart 3 4096
{"tag":"scxml","kids":[ 4096 {"tag":"state"}, null ]} => chart 2 4096
{"tag":"scxml","kids":[ 1365 {"tag":"parallel","kids":[{"tag":"final"},{"tag":"history"}]}, {"tag":"state"} ]} => ok 4096
{"tag":"scxml","kids":[ 1365 {"tag":"parallel","kids":[{"tag":"final"},{"tag":"history"}]}, {"tag":"state","kids":[{"tag":"state"}]} ]} => chart 8 1365.0
{"tag":"onentry","kids":[ 5000 {"tag":"log"}, {"tag":"log"} ]} => ok 0
{"tag":"onentry","kids":[ 65536 {"tag":"log"}, [] ]} => chart 2 65536
127 [ 127 ] => chart 2 -
128 [ 128 ] => chart 1 -
127 [ => chart 1 -
128 [ => chart 1 -
{"tag":"scxml","kids": 126 [ 126 ] } => chart 2 0
{"tag":"scxml","kids": 127 [ 127 ] } => chart 1 -
{"tag":"log","expr": 126 [ 126 ] } => chart 5 -
{"tag":"log","expr": 400 9 } => chart 1 -
{"tag":"log","expr": 300 9 } => chart 1 -
{"tag":"scxml","kids":[{"tag":"state","kids":[{"tag":"transition","cond":" 255 ! true"}]}]} => ok 1
{"tag":"scxml","kids":[{"tag":"state","kids":[{"tag":"transition","cond":" 256 ! true"}]}]} => chart 6 0.0 cond
{"tag":"state","id":" 128 a "} => ok 1
{"tag":"state","id":" 129 a "} => chart 5 -
{"tag":"parallel","id":" 128 a "} => ok 1
{"tag":"parallel","id":" 129 a "} => chart 5 -
{"tag":"final","id":" 128 a "} => ok 1
{"tag":"final","id":" 129 a "} => chart 5 -
{"tag":"history","id":" 128 a "} => ok 1
{"tag":"history","id":" 129 a "} => chart 5 -
{"tag":"send","id":" 128 a "} => ok 0
{"tag":"send","id":" 129 a "} => chart 5 -
{"tag":"invoke","src":"c","id":" 128 a "} => ok 0
{"tag":"invoke","src":"c","id":" 129 a "} => chart 5 -
{"tag":"cancel","sendid":" 128 a "} => ok 0
{"tag":"cancel","sendid":" 129 a "} => chart 5 -
{"tag":"state","id":" 64 é "} => ok 1
{"tag":"state","id":" 65 é "} => chart 5 -
{"tag":"state","id":" 128 \u0061 "} => ok 1
{"tag":"state","id":" 129 \u0061 "} => chart 5 -
{"tag":"scxml","initial":"x\t 128 a \tx"} => ok 0
{"tag":"scxml","initial":"x\t 129 a \tx"} => chart 5 -
{"tag":"state","initial":"x\t 128 a \tx"} => ok 1
{"tag":"state","initial":"x\t 129 a \tx"} => chart 5 -
{"tag":"transition","target":"x\t 128 a \tx"} => ok 0
{"tag":"transition","target":"x\t 129 a \tx"} => chart 5 -
{"tag":"transition","target":" 5000 a\n a"} => ok 0
{"tag":"transition","target":" 5000 a\n "} => chart 5 -
{"tag":"transition","event":" 5000 a \tb"} => ok 0
{"tag":"transition","event":" 5000 a\t\t b"} => ok 0
{"tag":"raise","event":" 256 a "} => ok 0
{"tag":"raise","event":" 257 a "} => chart 5 -
{"tag":"send","event":" 256 a "} => ok 0
{"tag":"send","event":" 257 a "} => chart 5 -
{"tag":"send","target":" 512 a "} => ok 0
{"tag":"send","target":" 513 a "} => chart 5 -
{"tag":"send","target":" 256 é "} => ok 0
{"tag":"send","target":" 256 é a"} => chart 5 -
{"tag":"send","type":" 256 a "} => ok 0
{"tag":"send","type":" 257 a "} => chart 5 -
{"tag":"invoke","src":"c","type":" 256 a "} => ok 0
{"tag":"invoke","src":"c","type":" 257 a "} => chart 5 -
{"tag":"invoke","src":" 64 a "} => ok 0
{"tag":"invoke","src":" 65 a "} => chart 5 -
{"tag":"log","label":" 4096 a "} => ok 0
{"tag":"log","label":" 4097 a "} => chart 5 -
{"tag":"log","label":" 2048 é "} => ok 0
{"tag":"log","label":" 2048 é a"} => chart 5 -
{"tag":"scxml","name":" 4096 a "} => ok 0
{"tag":"scxml","name":" 4097 a "} => chart 5 -
{"tag":"scxml","name":" 2048 é "} => ok 0
{"tag":"scxml","name":" 2048 é a"} => chart 5 -
{"tag":"assign","expr":"1","location":" 128 a "} => ok 0
{"tag":"assign","expr":"1","location":" 129 a "} => chart 5 -
{"tag":"param","name":"x","location":" 128 a "} => ok 0
{"tag":"param","name":"x","location":" 129 a "} => chart 5 -
{"tag":"foreach","array":"x","item":" 128 a "} => ok 0
{"tag":"foreach","array":"x","item":" 129 a "} => chart 5 -
{"tag":"foreach","array":"x","item":"y","index":" 128 a "} => ok 0
{"tag":"foreach","array":"x","item":"y","index":" 129 a "} => chart 5 -
{"tag":"send","idlocation":" 128 a "} => ok 0
{"tag":"send","idlocation":" 129 a "} => chart 5 -
{"tag":"invoke","src":"c","idlocation":" 128 a "} => ok 0
{"tag":"invoke","src":"c","idlocation":" 129 a "} => chart 5 -
{"tag":"data","id":" 128 a "} => ok 0
{"tag":"data","id":" 129 a "} => chart 5 -
{"tag":"param","expr":"1","name":" 128 a "} => ok 0
{"tag":"param","expr":"1","name":" 129 a "} => chart 5 -
{"tag":"send","namelist":"x\t 128 a \tx"} => ok 0
{"tag":"send","namelist":"x\t 129 a \tx"} => chart 5 -
{"tag":"invoke","src":"c","namelist":"x\t 128 a \tx"} => ok 0
{"tag":"invoke","src":"c","namelist":"x\t 129 a \tx"} => chart 5 -"#;

#[test]
fn charts_have_limits(rt: HostRuntime) -> Result<(), Fail> {
    for line in RECIPES.lines() {
        let (recipe, wanted) = line.split_once(" => ").unwrap_or((line, ""));
        let text = large(rt.alloc(), recipe)?;
        let found = outcome(rt.alloc(), &text)?;
        assert_eq!(rt; found.as_slice(), wanted.as_bytes(), "{recipe}");
    }
    Ok(())
}
