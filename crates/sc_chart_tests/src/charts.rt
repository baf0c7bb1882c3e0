use sc_chart_json::{print_chart, read_chart};
use sc_expr::print_expr;
use sc_types::{Bytes, Chart, ChartFault, ChartRefusal, Member, NoMemory, Node};
use std::alloc::Global;
use std::test::Fail;

/// Each line is a text, and the outcome of its reading.
const TEXTS: &str = r#" => chart 1 -
  => chart 1 -
{ => chart 1 -
{} => chart 2 -
[] => chart 2 -
1 => chart 2 -
null => chart 2 -
true => chart 2 -
"scxml" => chart 2 -
{"tag":1} => chart 2 -
{"tag":null} => chart 2 -
{"tag":["scxml"]} => chart 2 -
{"Tag":"scxml"} => chart 2 -
{"tag":"scxml"} => ok 0
  {"tag":"scxml"}   => ok 0
{ "tag" : "scxml" , "kids" : [ ] } => ok 0
{"kids":[],"tag":"scxml"} => ok 0
{"tag":"scxml"} {"tag":"scxml"} => chart 1 -
{"tag":"scxml"}] => chart 1 -
{"tag":"scxml",} => chart 1 -
{"tag":"scxml" "kids":[]} => chart 1 -
{"tag":"scxml","kids":[{"tag":"state"},]} => chart 1 -
{"tag":"scxml","kids":[{"tag":"state"}} => chart 1 -
{'tag':'scxml'} => chart 1 -
{tag:"scxml"} => chart 1 -
{"tag":"scxml"} // scxml => chart 1 -
{"tag":"scxml","kids":[{"tag":"state","id":"a","kids":[{"tag":"onentry","kids":[{"tag":"log","expr":"'hi'"}]}]}]} => ok 1
{"tag":"scxml","kids":[{"tag":"state"},{"tag":"parallel"},{"tag":"final"},{"tag":"history"},{"tag":"initial"}]} => ok 4
{"tag":"scxml","kids":[{"tag":"scxml","kids":[{"tag":"scxml"}]},{"tag":"else","kids":[{"tag":"state"}]}]} => ok 1
{"tag":"log","expr":nul} => chart 1 -
{"tag":"log","expr":01} => chart 1 -
{"tag":"log","expr":-} => chart 1 -
{"tag":"log","expr":1.} => chart 1 -
{"tag":"log","expr":1e400} => chart 1 -
{"tag":"log","expr":1e-400} => chart 5 -
{"tag":"log","expr":NaN} => chart 1 -
{"tag":"log","expr":"1} => chart 1 -
{"tag":"state","id":"\u0061"} => ok 1
{"tag":"state","id":"\u00e9"} => ok 1
{"tag":"state","id":"é€"} => ok 1
{"tag":"state","id":"\ud83d\ude00"} => ok 1
{"tag":"state","id":"\ud83d"} => chart 1 -
{"tag":"state","id":"\ude00"} => chart 1 -
{"tag":"state","id":"\ud83d\u0061"} => chart 1 -
{"tag":"state","id":"\u006"} => chart 1 -
{"tag":"state","id":"\x61"} => chart 1 -
{"tag":"state","id":"\/"} => ok 1
{"tag":"state","id":"\""} => chart 5 -
{"tag":"state","id":"\\"} => chart 5 -
{"t\u0061g":"st\u0061te","i\u0064":"a"} => ok 1
{"tag":"state\u0000"} => chart 3 -
{"tag":"html","tag":"scxml"} => ok 0
{"tag":"scxml","tag":"html"} => chart 3 -
{"tag":1,"tag":"scxml"} => ok 0
{"tag":"scxml","tag":1} => chart 2 -
{"tag":"scxml","t\u0061g":"html"} => chart 3 -
{"tag":"scxml","kids":[1],"kids":[{"tag":"state"}]} => ok 1
{"tag":"scxml","kids":[{"tag":"state"}],"kids":[1]} => chart 2 0
{"tag":"scxml","kids":1,"kids":[]} => ok 0
{"tag":"scxml","kids":[],"kids":1} => chart 5 -
{"tag":"state","id":"","id":"a"} => ok 1
{"tag":"state","id":"a","id":""} => chart 5 -
{"tag":"state","id":"a","i\u0064":""} => chart 5 -
{"tag":"state","id":"a","id":null} => chart 5 -
{"tag":"log","expr":"(","expr":"1"} => ok 0
{"tag":"log","expr":"1","expr":"("} => chart 6 - expr
{"tag":"state","y":"1","y":"2"} => chart 4 -"#;

/// The same for trees with faults at several places. A `~` stands for a state without members.
const PLACES: &str =
    r#"{"tag":"scxml","kids":[{"tag":"state","kids":[~,~,~]},{"tag":"state","kids":[~,~,~]},{"tag":"state","kids":[~,~,~]}]} => ok 12
{"tag":"scxml","kids":[{"tag":"state","kids":[1,~,~]},{"tag":"state","kids":[~,~,~]},{"tag":"state","kids":[~,~,~]}]} => chart 2 0.0
{"tag":"scxml","kids":[{"tag":"state","kids":[~,~,~]},{"tag":"state","kids":[~,1,~]},{"tag":"state","kids":[~,~,~]}]} => chart 2 1.1
{"tag":"scxml","kids":[{"tag":"state","kids":[~,~,~]},{"tag":"state","kids":[~,~,~]},{"tag":"state","kids":[~,~,1]}]} => chart 2 2.2
{"tag":"scxml","kids":[{"tag":"state","kids":[{"id":"a"},~,~]},{"tag":"state","kids":[~,~,~]},{"tag":"state","kids":[~,~,~]}]} => chart 2 0.0
{"tag":"scxml","kids":[{"tag":"state","kids":[~,~,~]},{"tag":"state","kids":[~,{"id":"a"},~]},{"tag":"state","kids":[~,~,~]}]} => chart 2 1.1
{"tag":"scxml","kids":[{"tag":"state","kids":[~,~,~]},{"tag":"state","kids":[~,~,~]},{"tag":"state","kids":[~,~,{"id":"a"}]}]} => chart 2 2.2
{"tag":"scxml","kids":[{"tag":"state","kids":[{"tag":"html"},~,~]},{"tag":"state","kids":[~,~,~]},{"tag":"state","kids":[~,~,~]}]} => chart 3 0.0
{"tag":"scxml","kids":[{"tag":"state","kids":[~,~,~]},{"tag":"state","kids":[~,{"tag":"html"},~]},{"tag":"state","kids":[~,~,~]}]} => chart 3 1.1
{"tag":"scxml","kids":[{"tag":"state","kids":[~,~,~]},{"tag":"state","kids":[~,~,~]},{"tag":"state","kids":[~,~,{"tag":"html"}]}]} => chart 3 2.2
{"tag":"scxml","kids":[{"tag":"state","kids":[{"tag":"state","y":"1"},~,~]},{"tag":"state","kids":[~,~,~]},{"tag":"state","kids":[~,~,~]}]} => chart 4 0.0
{"tag":"scxml","kids":[{"tag":"state","kids":[~,~,~]},{"tag":"state","kids":[~,{"tag":"state","y":"1"},~]},{"tag":"state","kids":[~,~,~]}]} => chart 4 1.1
{"tag":"scxml","kids":[{"tag":"state","kids":[~,~,~]},{"tag":"state","kids":[~,~,~]},{"tag":"state","kids":[~,~,{"tag":"state","y":"1"}]}]} => chart 4 2.2
{"tag":"scxml","kids":[{"tag":"state","kids":[{"tag":"state","id":"a b"},~,~]},{"tag":"state","kids":[~,~,~]},{"tag":"state","kids":[~,~,~]}]} => chart 5 0.0
{"tag":"scxml","kids":[{"tag":"state","kids":[~,~,~]},{"tag":"state","kids":[~,{"tag":"state","id":"a b"},~]},{"tag":"state","kids":[~,~,~]}]} => chart 5 1.1
{"tag":"scxml","kids":[{"tag":"state","kids":[~,~,~]},{"tag":"state","kids":[~,~,~]},{"tag":"state","kids":[~,~,{"tag":"state","id":"a b"}]}]} => chart 5 2.2
{"tag":"scxml","kids":[{"tag":"state","kids":[{"tag":"log","expr":"1 +"},~,~]},{"tag":"state","kids":[~,~,~]},{"tag":"state","kids":[~,~,~]}]} => chart 6 0.0 expr
{"tag":"scxml","kids":[{"tag":"state","kids":[~,~,~]},{"tag":"state","kids":[~,{"tag":"log","expr":"1 +"},~]},{"tag":"state","kids":[~,~,~]}]} => chart 6 1.1 expr
{"tag":"scxml","kids":[{"tag":"state","kids":[~,~,~]},{"tag":"state","kids":[~,~,~]},{"tag":"state","kids":[~,~,{"tag":"log","expr":"1 +"}]}]} => chart 6 2.2 expr
{"tag":"html","kids":[{"tag":"state","kids":[~,~,~]},{"tag":"state","kids":[~,~,~]},{"tag":"state","kids":[~,~,~]}]} => chart 3 -
{"tag":"scxml","kids":[{"tag":"html","kids":[~,~,~]},{"tag":"state","kids":[~,~,~]},{"tag":"state","kids":[~,~,~]}]} => chart 3 0
{"tag":"scxml","kids":[{"tag":"state","kids":[~,~,~]},{"tag":"html","kids":[~,~,~]},{"tag":"state","kids":[~,~,~]}]} => chart 3 1
{"tag":"scxml","kids":[{"tag":"state","kids":[~,~,~]},{"tag":"state","kids":[~,~,~]},{"tag":"html","kids":[~,~,~]}]} => chart 3 2
{"tag":"transition","cond":"1 +","kids":[{"tag":"state","kids":[~,~,~]},{"tag":"state","kids":[~,~,~]},{"tag":"state","kids":[~,~,~]}]} => chart 6 - cond
{"tag":"scxml","kids":[{"tag":"transition","cond":"1 +","kids":[~,~,~]},{"tag":"state","kids":[~,~,~]},{"tag":"state","kids":[~,~,~]}]} => chart 6 0 cond
{"tag":"scxml","kids":[{"tag":"state","kids":[~,~,~]},{"tag":"transition","cond":"1 +","kids":[~,~,~]},{"tag":"state","kids":[~,~,~]}]} => chart 6 1 cond
{"tag":"scxml","kids":[{"tag":"state","kids":[~,~,~]},{"tag":"state","kids":[~,~,~]},{"tag":"transition","cond":"1 +","kids":[~,~,~]}]} => chart 6 2 cond
{"tag":"scxml","kids":[{"tag":"state","kids":[~,{"tag":"log","expr":"1 +"},~]},{"tag":"state","kids":[~,1,~]},~]} => chart 6 0.1 expr
{"tag":"scxml","kids":[{"tag":"state","kids":[~,1,~]},{"tag":"state","kids":[~,{"tag":"log","expr":"1 +"},~]},~]} => chart 2 0.1
{"tag":"scxml","kids":[{"tag":"state","kids":[~,{"tag":"state","id":""},~]},{"tag":"state","kids":[~,{"tag":"html"},~]},~]} => chart 5 0.1
{"tag":"scxml","kids":[{"tag":"state","kids":[~,{"tag":"html"},~]},{"tag":"state","kids":[~,{"tag":"state","id":""},~]},~]} => chart 3 0.1
{"tag":"scxml","kids":[{"tag":"state","kids":[~,{"tag":"state","y":"1"},~]},{"tag":"state","kids":[~,{"tag":"state","y":"1"},~]},~]} => chart 4 0.1
{"tag":"scxml","kids":[{"tag":"state","kids":[{"tag":"transition","cond":"1 +"}]}]} => chart 6 0.0 cond
{"tag":"scxml","kids":[{"tag":"state","kids":[~,{"tag":"log","expr":"1 +"}]},1]} => chart 6 0.1 expr
{"tag":"scxml","kids":[{"tag":"state","id":"","kids":[1]},1]} => chart 5 0
{"tag":"scxml","kids":[{"tag":"if","cond":"1 +","kids":[1]},1]} => chart 6 0 cond
{"tag":"html","kids":[1]} => chart 3 -
{"tag":"scxml","y":"1","kids":[{"tag":"zz"}]} => chart 4 -
{"tag":"scxml","kids":[~,~,~,~,~,~,~,~,~,~,~,{"tag":"state","kids":[~,{"tag":"html"}]}]} => chart 3 11.1"#;

/// The same for elements with several faults, of which one is told.
const ORDER: &str = r#"{"tag":"html","y":"1"} => chart 3 -
{"tag":"html","kids":1} => chart 3 -
{"tag":"html","cond":"1 +"} => chart 3 -
{"tag":null,"y":"1"} => chart 2 -
{"tag":1,"kids":1} => chart 2 -
{"id":"a","cond":"1 +"} => chart 2 -
{"tag":"state","y":1} => chart 4 -
{"tag":"state","":"1"} => chart 4 -
{"tag":"state","Id":"a"} => chart 4 -
{"tag":"state","id":"","y":"1"} => chart 4 -
{"tag":"state","kids":1,"y":"1"} => chart 4 -
{"tag":"log","expr":"1 +","y":"1"} => chart 4 -
{"tag":"data","expr":"1 +","y":"1"} => chart 4 -
{"tag":"transition","cond":"1 +","type":"x"} => chart 5 -
{"tag":"log","expr":"1 +","kids":1} => chart 5 -
{"tag":"log","expr":"1 +","label":"\u0000"} => chart 5 -
{"tag":"assign","expr":"1 +"} => chart 5 -
{"tag":"param","name":"x","expr":"1 +","location":"x"} => chart 5 -
{"tag":"cancel","sendid":"a","sendidexpr":"1 +"} => chart 5 -
{"tag":"log","expr":1} => chart 5 -
{"tag":"send","eventexpr":"1 +","delayexpr":"("} => chart 6 - delayexpr
{"tag":"send","delayexpr":"1","eventexpr":"("} => chart 6 - eventexpr
{"tag":"send","delayexpr":"(","eventexpr":1} => chart 5 -"#;

/// The same for each element with the members that it may have, and without those that it must have.
const TAGS: &str = r#"{"tag":"html"} => chart 3 -
{"tag":""} => chart 3 -
{"tag":"SCXML"} => chart 3 -
{"tag":"scxml "} => chart 3 -
{"tag":"scxml","binding":"early","datamodel":"whole","initial":"a","limit":"1","name":"n","version":"1.0","xmlns":"http://www.w3.org/2005/07/scxml"} => ok 0
{"tag":"state","id":"a","initial":"b"} => ok 1
{"tag":"parallel","id":"a"} => ok 1
{"tag":"final","id":"a"} => ok 1
{"tag":"history","id":"a","type":"deep"} => ok 1
{"tag":"initial"} => ok 0
{"tag":"transition","cond":"true","event":"e","target":"a","type":"internal"} => ok 0
{"tag":"transition"} => ok 0
{"tag":"onentry"} => ok 0
{"tag":"onexit"} => ok 0
{"tag":"finalize"} => ok 0
{"tag":"datamodel"} => ok 0
{"tag":"data","id":"x","expr":"1"} => ok 0
{"tag":"data","id":"x"} => ok 0
{"tag":"donedata"} => ok 0
{"tag":"content","expr":"1"} => ok 0
{"tag":"param","name":"x","expr":"1"} => ok 0
{"tag":"param","name":"x","location":"y"} => ok 0
{"tag":"invoke","autoforward":"true","id":"i","idlocation":"x","namelist":"x y","src":"c","type":"t"} => ok 0
{"tag":"invoke","src":"c"} => ok 0
{"tag":"raise","event":"e"} => ok 0
{"tag":"if","cond":"true"} => ok 0
{"tag":"elseif","cond":"true"} => ok 0
{"tag":"else"} => ok 0
{"tag":"foreach","array":"[1]","index":"i","item":"x"} => ok 0
{"tag":"foreach","array":"[1]","item":"x"} => ok 0
{"tag":"log","expr":"1","label":"l"} => ok 0
{"tag":"log"} => ok 0
{"tag":"assign","expr":"1","location":"x"} => ok 0
{"tag":"send","delay":"1s","delayexpr":"'1s'","event":"e","eventexpr":"'e'","id":"i","idlocation":"x","namelist":"x","target":"t","type":"t"} => ok 0
{"tag":"send"} => ok 0
{"tag":"cancel","sendid":"i"} => ok 0
{"tag":"cancel","sendidexpr":"'i'"} => ok 0
{"tag":"data","expr":"1"} => chart 5 -
{"tag":"content"} => chart 5 -
{"tag":"param","expr":"1"} => chart 5 -
{"tag":"param","location":"y"} => chart 5 -
{"tag":"param","name":"x"} => chart 5 -
{"tag":"param","name":"x","expr":"1","location":"y"} => chart 5 -
{"tag":"invoke","type":"t"} => chart 5 -
{"tag":"raise"} => chart 5 -
{"tag":"if"} => chart 5 -
{"tag":"elseif"} => chart 5 -
{"tag":"foreach","item":"x"} => chart 5 -
{"tag":"foreach","array":"[1]"} => chart 5 -
{"tag":"assign","expr":"1"} => chart 5 -
{"tag":"assign","location":"x"} => chart 5 -
{"tag":"cancel"} => chart 5 -
{"tag":"cancel","sendid":"i","sendidexpr":"'i'"} => chart 5 -
{"tag":"transition","cond":"1 +"} => chart 6 - cond
{"tag":"data","id":"x","expr":""} => chart 6 - expr
{"tag":"content","expr":"a b"} => chart 6 - expr
{"tag":"param","name":"x","expr":"("} => chart 6 - expr
{"tag":"if","cond":"1 +"} => chart 6 - cond
{"tag":"elseif","cond":"'"} => chart 6 - cond
{"tag":"foreach","array":"[","item":"x"} => chart 6 - array
{"tag":"log","expr":"_event"} => chart 6 - expr
{"tag":"assign","expr":"x =","location":"x"} => chart 6 - expr
{"tag":"send","eventexpr":"a.b"} => chart 6 - eventexpr
{"tag":"send","delayexpr":"1s"} => chart 6 - delayexpr
{"tag":"cancel","sendidexpr":"1a"} => chart 6 - sendidexpr
{"tag":"log","expr":" 'a'\t\n"} => ok 0"#;

/// The same for the form of each member.
const FORMS: &str = r#"{"tag":"scxml","kids":{}} => chart 5 -
{"tag":"scxml","kids":null} => chart 5 -
{"tag":"scxml","kids":"a"} => chart 5 -
{"tag":"scxml","kids":1} => chart 5 -
{"tag":"scxml","kids":true} => chart 5 -
{"tag":"scxml","kids":[]} => ok 0
{"tag":"scxml","kids":[1]} => chart 2 0
{"tag":"scxml","kids":[[]]} => chart 2 0
{"tag":"scxml","kids":[null]} => chart 2 0
{"tag":"scxml","kids":["state"]} => chart 2 0
{"tag":"scxml","kids":[{"tag":"state"},{}]} => chart 2 1
{"tag":"state","id":"a"} => ok 1
{"tag":"state","id":"a.b-c_1"} => ok 1
{"tag":"state","id":""} => chart 5 -
{"tag":"state","id":" "} => chart 5 -
{"tag":"state","id":"a b"} => chart 5 -
{"tag":"state","id":"a#b"} => chart 5 -
{"tag":"state","id":"\u0023"} => chart 5 -
{"tag":"state","id":" a"} => chart 5 -
{"tag":"state","id":"a\n"} => chart 5 -
{"tag":"state","id":"a\u0000"} => chart 5 -
{"tag":"state","id":"a\u007f"} => chart 5 -
{"tag":"state","id":"\u00a0"} => ok 1
{"tag":"state","id":1} => chart 5 -
{"tag":"state","id":null} => chart 5 -
{"tag":"state","id":true} => chart 5 -
{"tag":"state","id":["a"]} => chart 5 -
{"tag":"state","id":{}} => chart 5 -
{"tag":"parallel","id":"a.b"} => ok 1
{"tag":"parallel","id":"a#b"} => chart 5 -
{"tag":"parallel","id":""} => chart 5 -
{"tag":"final","id":"a.b"} => ok 1
{"tag":"final","id":"a#b"} => chart 5 -
{"tag":"final","id":""} => chart 5 -
{"tag":"history","id":"a.b"} => ok 1
{"tag":"history","id":"a#b"} => chart 5 -
{"tag":"history","id":""} => chart 5 -
{"tag":"send","id":"a.b"} => ok 0
{"tag":"send","id":"a#b"} => chart 5 -
{"tag":"send","id":""} => chart 5 -
{"tag":"invoke","src":"c","id":"a.b"} => ok 0
{"tag":"invoke","src":"c","id":"a#b"} => chart 5 -
{"tag":"invoke","src":"c","id":""} => chart 5 -
{"tag":"cancel","sendid":"a.b"} => ok 0
{"tag":"cancel","sendid":"a#b"} => chart 5 -
{"tag":"cancel","sendid":""} => chart 5 -
{"tag":"cancel","sendid":null} => chart 5 -
{"tag":"scxml","initial":"a b"} => ok 0
{"tag":"scxml","initial":"a  b\tc\nd\re"} => ok 0
{"tag":"scxml","initial":" a"} => chart 5 -
{"tag":"scxml","initial":"a "} => chart 5 -
{"tag":"scxml","initial":""} => chart 5 -
{"tag":"scxml","initial":" "} => chart 5 -
{"tag":"scxml","initial":"a #b"} => chart 5 -
{"tag":"state","initial":"a b"} => ok 1
{"tag":"state","initial":"a  b\tc\nd\re"} => ok 1
{"tag":"state","initial":" a"} => chart 5 -
{"tag":"state","initial":"a "} => chart 5 -
{"tag":"state","initial":""} => chart 5 -
{"tag":"state","initial":" "} => chart 5 -
{"tag":"state","initial":"a #b"} => chart 5 -
{"tag":"transition","target":"a b"} => ok 0
{"tag":"transition","target":"a  b"} => ok 0
{"tag":"transition","target":"a\t\tb"} => ok 0
{"tag":"transition","target":"a\r\nb"} => ok 0
{"tag":"transition","target":" a"} => chart 5 -
{"tag":"transition","target":"a "} => chart 5 -
{"tag":"transition","target":"\ta"} => chart 5 -
{"tag":"transition","target":"a\n"} => chart 5 -
{"tag":"transition","target":"\ra"} => chart 5 -
{"tag":"transition","target":""} => chart 5 -
{"tag":"transition","target":" "} => chart 5 -
{"tag":"transition","target":"a a"} => ok 0
{"tag":"transition","target":"a b#"} => chart 5 -
{"tag":"transition","target":"a,b"} => ok 0
{"tag":"transition","target":"a\u00a0b"} => ok 0
{"tag":"transition","target":"a\u000bb"} => chart 5 -
{"tag":"transition","target":["a"]} => chart 5 -
{"tag":"transition","target":null} => chart 5 -
{"tag":"transition","event":"*"} => ok 0
{"tag":"transition","event":"a.* b"} => ok 0
{"tag":"transition","event":"a  b"} => ok 0
{"tag":"transition","event":"a\tb"} => ok 0
{"tag":"transition","event":" a"} => chart 5 -
{"tag":"transition","event":"a\t"} => chart 5 -
{"tag":"transition","event":""} => chart 5 -
{"tag":"transition","event":"error. x"} => ok 0
{"tag":"transition","event":"a #b"} => chart 5 -
{"tag":"transition","event":"."} => ok 0
{"tag":"raise","event":"a.b"} => ok 0
{"tag":"raise","event":"a b"} => chart 5 -
{"tag":"raise","event":""} => chart 5 -
{"tag":"raise","event":"a#b"} => chart 5 -
{"tag":"raise","event":"*"} => ok 0
{"tag":"send","event":"a.b"} => ok 0
{"tag":"send","event":"a b"} => chart 5 -
{"tag":"send","event":""} => chart 5 -
{"tag":"send","event":"a#b"} => chart 5 -
{"tag":"send","event":"*"} => ok 0
{"tag":"send","namelist":"x"} => ok 0
{"tag":"send","namelist":"x y"} => ok 0
{"tag":"send","namelist":"x \t y"} => ok 0
{"tag":"send","namelist":" x"} => chart 5 -
{"tag":"send","namelist":"x "} => chart 5 -
{"tag":"send","namelist":""} => chart 5 -
{"tag":"send","namelist":"x 1y"} => chart 5 -
{"tag":"send","namelist":"x true"} => chart 5 -
{"tag":"send","namelist":"x,y"} => chart 5 -
{"tag":"invoke","src":"c","namelist":"x y"} => ok 0
{"tag":"invoke","src":"c","namelist":"x "} => chart 5 -
{"tag":"invoke","src":"c","namelist":""} => chart 5 -
{"tag":"invoke","src":"c","namelist":"x.y"} => chart 5 -
{"tag":"send","target":""} => ok 0
{"tag":"send","target":"\u0023_parent"} => ok 0
{"tag":"send","target":" a b "} => ok 0
{"tag":"send","target":"\u0000\u007f"} => ok 0
{"tag":"send","target":null} => chart 5 -
{"tag":"send","type":""} => ok 0
{"tag":"send","type":"a b#\u0000"} => ok 0
{"tag":"invoke","src":"c","type":""} => ok 0
{"tag":"invoke","src":"c","type":"a b#\u0000"} => ok 0
{"tag":"invoke","src":"c.1"} => ok 0
{"tag":"invoke","src":""} => chart 5 -
{"tag":"invoke","src":"a b"} => chart 5 -
{"tag":"invoke","src":"a#b"} => chart 5 -
{"tag":"transition","type":"external"} => ok 0
{"tag":"transition","type":"internal"} => ok 0
{"tag":"transition","type":"Internal"} => chart 5 -
{"tag":"transition","type":"internal "} => chart 5 -
{"tag":"transition","type":""} => chart 5 -
{"tag":"transition","type":"deep"} => chart 5 -
{"tag":"history","type":"shallow"} => ok 1
{"tag":"history","type":"deep"} => ok 1
{"tag":"history","type":"Deep"} => chart 5 -
{"tag":"history","type":""} => chart 5 -
{"tag":"history","type":"internal"} => chart 5 -
{"tag":"scxml","datamodel":"whole"} => ok 0
{"tag":"scxml","datamodel":"null"} => ok 0
{"tag":"scxml","datamodel":"ecmascript"} => chart 5 -
{"tag":"scxml","datamodel":""} => chart 5 -
{"tag":"scxml","datamodel":null} => chart 5 -
{"tag":"scxml","binding":"early"} => ok 0
{"tag":"scxml","binding":"late"} => ok 0
{"tag":"scxml","binding":"Late"} => chart 5 -
{"tag":"scxml","binding":""} => chart 5 -
{"tag":"invoke","src":"c","autoforward":"false"} => ok 0
{"tag":"invoke","src":"c","autoforward":"true"} => ok 0
{"tag":"invoke","src":"c","autoforward":"True"} => chart 5 -
{"tag":"invoke","src":"c","autoforward":"1"} => chart 5 -
{"tag":"invoke","src":"c","autoforward":""} => chart 5 -
{"tag":"invoke","src":"c","autoforward":true} => chart 5 -
{"tag":"scxml","version":"1.0"} => ok 0
{"tag":"scxml","version":"1"} => chart 5 -
{"tag":"scxml","version":"1.00"} => chart 5 -
{"tag":"scxml","version":"1.1"} => chart 5 -
{"tag":"scxml","version":""} => chart 5 -
{"tag":"scxml","version":1.0} => chart 5 -
{"tag":"scxml","xmlns":"http://www.w3.org/2005/07/scxml"} => ok 0
{"tag":"scxml","xmlns":"http:\/\/www.w3.org\/2005\/07\/scxml"} => ok 0
{"tag":"scxml","xmlns":"http://www.w3.org/2005/07/scxml/"} => chart 5 -
{"tag":"scxml","xmlns":"https://www.w3.org/2005/07/scxml"} => chart 5 -
{"tag":"scxml","xmlns":""} => chart 5 -
{"tag":"scxml","limit":"0"} => ok 0
{"tag":"scxml","limit":"1"} => ok 0
{"tag":"scxml","limit":"10001"} => ok 0
{"tag":"scxml","limit":"999999999"} => ok 0
{"tag":"scxml","limit":"4294967295"} => ok 0
{"tag":"scxml","limit":"4294967296"} => chart 5 -
{"tag":"scxml","limit":"9999999999"} => chart 5 -
{"tag":"scxml","limit":"10000000000"} => chart 5 -
{"tag":"scxml","limit":"12345678901"} => chart 5 -
{"tag":"scxml","limit":"-1"} => chart 5 -
{"tag":"scxml","limit":"+1"} => chart 5 -
{"tag":"scxml","limit":""} => chart 5 -
{"tag":"scxml","limit":"00"} => chart 5 -
{"tag":"scxml","limit":"01"} => chart 5 -
{"tag":"scxml","limit":"007"} => chart 5 -
{"tag":"scxml","limit":"0000000001"} => chart 5 -
{"tag":"scxml","limit":" 1"} => chart 5 -
{"tag":"scxml","limit":"1 "} => chart 5 -
{"tag":"scxml","limit":"1e3"} => chart 5 -
{"tag":"scxml","limit":"0x1"} => chart 5 -
{"tag":"scxml","limit":"1.0"} => chart 5 -
{"tag":"scxml","limit":"a"} => chart 5 -
{"tag":"scxml","limit":1} => chart 5 -
{"tag":"scxml","limit":null} => chart 5 -
{"tag":"send","delay":"0s"} => ok 0
{"tag":"send","delay":"10ms"} => ok 0
{"tag":"send","delay":"1.5s"} => ok 0
{"tag":"send","delay":".5s"} => ok 0
{"tag":"send","delay":"1.5ms"} => chart 5 -
{"tag":"send","delay":"1.s"} => chart 5 -
{"tag":"send","delay":"1.2345s"} => chart 5 -
{"tag":"send","delay":"10"} => chart 5 -
{"tag":"send","delay":""} => chart 5 -
{"tag":"send","delay":"s"} => chart 5 -
{"tag":"send","delay":"-1s"} => chart 5 -
{"tag":"send","delay":" 1s"} => chart 5 -
{"tag":"send","delay":"1000000000s"} => ok 0
{"tag":"send","delay":"1000000001s"} => chart 5 -
{"tag":"send","delay":1} => chart 5 -
{"tag":"log","label":""} => ok 0
{"tag":"log","label":"a b#"} => ok 0
{"tag":"log","label":"\n\t"} => ok 0
{"tag":"log","label":"\r"} => chart 5 -
{"tag":"log","label":"\u0000"} => chart 5 -
{"tag":"log","label":"\u001f"} => chart 5 -
{"tag":"log","label":"\u007f"} => chart 5 -
{"tag":"log","label":"\u0080é"} => ok 0
{"tag":"scxml","name":""} => ok 0
{"tag":"scxml","name":"a b#"} => ok 0
{"tag":"scxml","name":"\n\t"} => ok 0
{"tag":"scxml","name":"\r"} => chart 5 -
{"tag":"scxml","name":"\u0000"} => chart 5 -
{"tag":"scxml","name":"\u001f"} => chart 5 -
{"tag":"scxml","name":"\u007f"} => chart 5 -
{"tag":"scxml","name":"\u0080é"} => ok 0
{"tag":"assign","expr":"1","location":"x_1"} => ok 0
{"tag":"assign","expr":"1","location":"1x"} => chart 5 -
{"tag":"assign","expr":"1","location":"true"} => chart 5 -
{"tag":"assign","expr":"1","location":""} => chart 5 -
{"tag":"param","name":"x","location":"x_1"} => ok 0
{"tag":"param","name":"x","location":"1x"} => chart 5 -
{"tag":"param","name":"x","location":"true"} => chart 5 -
{"tag":"param","name":"x","location":""} => chart 5 -
{"tag":"foreach","array":"x","item":"x_1"} => ok 0
{"tag":"foreach","array":"x","item":"1x"} => chart 5 -
{"tag":"foreach","array":"x","item":"true"} => chart 5 -
{"tag":"foreach","array":"x","item":""} => chart 5 -
{"tag":"foreach","array":"x","item":"y","index":"x_1"} => ok 0
{"tag":"foreach","array":"x","item":"y","index":"1x"} => chart 5 -
{"tag":"foreach","array":"x","item":"y","index":"true"} => chart 5 -
{"tag":"foreach","array":"x","item":"y","index":""} => chart 5 -
{"tag":"send","idlocation":"x_1"} => ok 0
{"tag":"send","idlocation":"1x"} => chart 5 -
{"tag":"send","idlocation":"true"} => chart 5 -
{"tag":"send","idlocation":""} => chart 5 -
{"tag":"invoke","src":"c","idlocation":"x_1"} => ok 0
{"tag":"invoke","src":"c","idlocation":"1x"} => chart 5 -
{"tag":"invoke","src":"c","idlocation":"true"} => chart 5 -
{"tag":"invoke","src":"c","idlocation":""} => chart 5 -
{"tag":"data","id":"x_1"} => ok 0
{"tag":"data","id":"1x"} => chart 5 -
{"tag":"data","id":"true"} => chart 5 -
{"tag":"data","id":""} => chart 5 -
{"tag":"param","expr":"1","name":"x_1"} => ok 0
{"tag":"param","expr":"1","name":"1x"} => chart 5 -
{"tag":"param","expr":"1","name":"true"} => chart 5 -
{"tag":"param","expr":"1","name":""} => chart 5 -
{"tag":"data","id":"_x"} => ok 0
{"tag":"data","id":"_"} => ok 0
{"tag":"data","id":"x.y"} => chart 5 -
{"tag":"data","id":"x y"} => chart 5 -
{"tag":"data","id":" x"} => chart 5 -
{"tag":"data","id":"é"} => chart 5 -
{"tag":"data","id":"x-y"} => chart 5 -
{"tag":"data","id":"false"} => chart 5 -
{"tag":"data","id":"In"} => chart 5 -
{"tag":"data","id":"len"} => chart 5 -
{"tag":"data","id":"text"} => chart 5 -
{"tag":"data","id":"Text"} => ok 0
{"tag":"data","id":"_event"} => ok 0
{"tag":"data","id":"_sessionid"} => ok 0"#;

/// Each line is the tag of an element, and the members that it may have.
const KNOWN: &str = "scxml: binding datamodel initial limit name version xmlns
state: id initial
parallel: id
final: id
history: id type
initial:
transition: cond event target type
onentry:
onexit:
finalize:
datamodel:
data: expr id
donedata:
content: expr
param: expr location name
invoke: autoforward id idlocation namelist src type
raise: event
if: cond
elseif: cond
else:
foreach: array index item
log: expr label
assign: expr location
send: delay delayexpr event eventexpr id idlocation namelist target type
cancel: sendid sendidexpr";

/// All names of members, and some that no element has.
const NAMES: &str =
    "array autoforward binding cond datamodel delay delayexpr event eventexpr expr id idlocation
index initial item label limit location name namelist sendid sendidexpr src target
type version xmlns Id data exmode idref profile srcexpr targetexpr typeexpr";

/// Each line is a text, and the tree that is read from it: expressions in braces, the words of lists in brackets.
const TREES: &str = r#"{"tag":"scxml"} => <scxml></>
{"xmlns":"http://www.w3.org/2005/07/scxml","version":"1.0","name":"a b","limit":"7","initial":"b\t a","datamodel":"whole","binding":"late","tag":"scxml"} => <scxml binding="late" datamodel="whole" initial=[b][a] limit="7" name="a b"></>
{"tag":"state","initial":"a","id":"s\u0061","kids":[{"tag":"initial"},{"tag":"history","type":"deep","id":"h"}]} => <state id="sa" initial=[a]><initial></><history id="h" type="deep"></></>
{"tag":"transition","type":"internal","target":"a \r\n b","event":"e  f.*\tg","cond":"1+x"} => <transition cond={(1 + x)} event=[e][f.*][g] target=[a][b] type="internal"></>
{"tag":"invoke","type":"t","src":"c","namelist":"x  y","idlocation":"z","id":"i","autoforward":"true","kids":[{"tag":"param","name":"p","location":"x"},{"tag":"finalize"}]} => <invoke autoforward="true" id="i" idlocation="z" namelist=[x][y] src="c" type="t"><param location="x" name="p"></><finalize></></>
{"tag":"send","type":"","target":" a  b ","namelist":"x","idlocation":"z","id":"i","eventexpr":"'e' + x","event":"e","delayexpr":"text( 1 )","delay":".50s"} => <send delay=".50s" delayexpr={text(1)} event="e" eventexpr={('e' + x)} id="i" idlocation="z" namelist=[x] target=" a  b " type=""></>
{"tag":"onentry","kids":[{"tag":"if","cond":"!true","kids":[{"tag":"raise","event":"e"},{"tag":"elseif","cond":"In(a)"},{"tag":"cancel","sendid":"i"},{"tag":"else"},{"tag":"cancel","sendidexpr":"\"i\""}]},{"tag":"foreach","item":"x","index":"i","array":"[1, 2]","kids":[{"tag":"log","label":"l m","expr":"x"}]}]} => <onentry><if cond={(!true)}><raise event="e"></><elseif cond={In('a')}></><cancel sendid="i"></><else></><cancel sendidexpr={'i'}></></><foreach array={[1,2]} index="i" item="x"><log expr={x} label="l m"></></></>
{"tag":"parallel","kids":[{"tag":"datamodel","kids":[{"tag":"data","id":"x","expr":"-1"},{"tag":"data","id":"y"}]},{"tag":"onexit","kids":[{"tag":"assign","location":"x","expr":"y[0]"}]},{"tag":"final","kids":[{"tag":"donedata","kids":[{"tag":"content","expr":"x"}]}]}]} => <parallel><datamodel><data expr={(-1)} id="x"></><data id="y"></></><onexit><assign expr={y[0]} location="x"></></><final><donedata><content expr={x}></></></></>
{"tag":"scxml","version":"2.0","version":"1.0","name":"a","name":"b","kids":[{"tag":"state","id":"a"}],"kids":[{"tag":"state","id":"b"}]} => <scxml name="b"><state id="b"></></>"#;

/// Each line is a text, and what is printed of the chart that it spells.
const PRINTED: &str = r##"{"tag":"scxml"} => {"tag":"scxml"}
{ "xmlns": "http://www.w3.org/2005/07/scxml", "version": "1.0", "tag": "scxml", "name": "a\u00e9\n\"", "kids": [] } => {"name":"aé\n\"","tag":"scxml"}
{"tag":"state","initial":"a \t b","id":"s","kids":[{"tag":"final","id":"f","kids":[]}]} => {"id":"s","initial":"a b","kids":[{"id":"f","tag":"final"}],"tag":"state"}
{"tag":"transition","type":"internal","target":"x\ny","event":"a.b  c.*","cond":"a || b && !In(c)","kids":[{"tag":"log","label":"\u0041","expr":"\"hi\" + text(1)"}]} => {"cond":"(a || (b && (!In('c'))))","event":"a.b c.*","kids":[{"expr":"('hi' + text(1))","label":"A","tag":"log"}],"tag":"transition","target":"x y","type":"internal"}
{"tag":"send","namelist":"a b\rc","id":"i","event":"e","delay":"1.50s","target":"#_parent"} => {"delay":"1.50s","event":"e","id":"i","namelist":"a b c","tag":"send","target":"#_parent"}
{"tag":"if","cond":"x[0] == 'q'","kids":[{"tag":"elseif","cond":"true"},{"tag":"else"},{"tag":"raise","event":"e"}]} => {"cond":"(x[0] == 'q')","kids":[{"cond":"true","tag":"elseif"},{"tag":"else"},{"event":"e","tag":"raise"}],"tag":"if"}"##;

/// What the reading of a text comes to: the number of states of the chart, or its first fault.
pub(crate) fn outcome(alloc: Global, text: &[u8]) -> Result<Vec<u8>, Fail> {
    told(alloc, read_chart(alloc, text))
}

/// A chart is told by the number of its states, a refusal by its fault.
pub(crate) fn told(alloc: Global, answer: Result<Chart, ChartRefusal>) -> Result<Vec<u8>, Fail> {
    let mut line = Vec::new(alloc);
    match answer {
        Ok(chart) => {
            line.extend_from_slice(b"ok ")?;
            put_number(alloc, &mut line, states_in(&chart.root))?;
        }
        Err(ChartRefusal::Fault(fault)) => put_fault(alloc, &mut line, &fault)?,
        Err(ChartRefusal::NoMemory) => return Err(Fail::from(NoMemory)),
    }
    Ok(line)
}

#[cycle(states)]
fn states_in(node: &Node) -> u32 {
    let below = states_below(node.kids.slice());
    if node.tag.is_numbered() {
        below.saturating_add(1)
    } else {
        below
    }
}

#[cycle(states)]
fn states_below(kids: &[Node]) -> u32 {
    let mut states: u32 = 0;
    for kid in kids {
        states = states.saturating_add(states_in(kid));
    }
    states
}

fn put_number(alloc: Global, out: &mut Vec<u8>, number: u32) -> Result<(), Fail> {
    out.extend_from_slice(number.to_string(alloc)?.as_bytes())?;
    Ok(())
}

fn put_fault(alloc: Global, out: &mut Vec<u8>, fault: &ChartFault) -> Result<(), Fail> {
    out.extend_from_slice(b"chart ")?;
    put_number(alloc, out, u32::from(fault.number))?;
    out.push(b' ')?;
    put_path(alloc, out, fault.path.slice())?;
    if !fault.member.is_empty() {
        out.push(b' ')?;
        out.extend_from_slice(fault.member.slice())?;
    }
    Ok(())
}

fn put_path(alloc: Global, out: &mut Vec<u8>, path: &[u32]) -> Result<(), Fail> {
    if path.is_empty() {
        out.push(b'-')?;
    }
    for i in 0..path.len() {
        if i > 0 {
            out.push(b'.')?;
        }
        put_number(alloc, out, path[i])?;
    }
    Ok(())
}

/// Writes an element with its members, and then its child elements.
#[cycle(put)]
fn put_node(alloc: Global, out: &mut Vec<u8>, node: &Node) -> Result<(), Fail> {
    out.push(b'<')?;
    out.extend_from_slice(node.tag.text().as_bytes())?;
    for member in node.members.slice() {
        put_member(alloc, out, member)?;
    }
    out.push(b'>')?;
    put_nodes(alloc, out, node.kids.slice())?;
    out.extend_from_slice(b"</>")?;
    Ok(())
}

#[cycle(put)]
fn put_nodes(alloc: Global, out: &mut Vec<u8>, nodes: &[Node]) -> Result<(), Fail> {
    for node in nodes {
        put_node(alloc, out, node)?;
    }
    Ok(())
}

/// Writes a member; a list with each of its words in brackets.
fn put_member(alloc: Global, out: &mut Vec<u8>, member: &(Bytes, Member)) -> Result<(), Fail> {
    out.push(b' ')?;
    out.extend_from_slice(member.0.slice())?;
    out.push(b'=')?;
    match &member.1 {
        Member::Plain(text) => put_between(out, b'"', text.slice(), b'"'),
        Member::Items(words) => put_words(out, words.slice()),
        Member::Code(code) => put_between(out, b'{', print_expr(alloc, code)?.slice(), b'}'),
    }
}

fn put_words(out: &mut Vec<u8>, words: &[Bytes]) -> Result<(), Fail> {
    for word in words {
        put_between(out, b'[', word.slice(), b']')?;
    }
    Ok(())
}

fn put_between(out: &mut Vec<u8>, first: u8, text: &[u8], last: u8) -> Result<(), Fail> {
    out.push(first)?;
    out.extend_from_slice(text)?;
    out.push(last)?;
    Ok(())
}

/// The tree that is read from a text.
fn tree(alloc: Global, text: &[u8]) -> Result<Vec<u8>, Fail> {
    let chart = read_chart(alloc, text)?;
    let mut out = Vec::new(alloc);
    put_node(alloc, &mut out, &chart.root)?;
    Ok(out)
}

/// The text with states in the places that are left for them.
fn with_states(alloc: Global, text: &str) -> Result<Vec<u8>, Fail> {
    let mut out = Vec::new(alloc);
    for byte in text.as_bytes() {
        match *byte {
            b'~' => out.extend_from_slice(br#"{"tag":"state"}"#)?,
            other => out.push(other)?,
        }
    }
    Ok(out)
}

#[test]
fn charts_are_read_or_their_first_fault_is_told(rt: HostRuntime) -> Result<(), Fail> {
    for table in [TEXTS, PLACES, ORDER, TAGS, FORMS] {
        for line in table.lines() {
            let (text, wanted) = line.split_once(" => ").unwrap_or((line, ""));
            let found = outcome(rt.alloc(), &with_states(rt.alloc(), text)?)?;
            assert_eq!(rt; found.as_slice(), wanted.as_bytes(), "{text}");
        }
    }
    Ok(())
}

#[test]
fn trees_have_the_members_and_kids_of_their_texts(rt: HostRuntime) -> Result<(), Fail> {
    for line in TREES.lines() {
        let (text, wanted) = line.split_once(" => ").unwrap_or((line, ""));
        let found = tree(rt.alloc(), text.as_bytes())?;
        assert_eq!(rt; found.as_slice(), wanted.as_bytes(), "{text}");
    }
    Ok(())
}

/// An element with one member.
fn with_member(alloc: Global, tag: &str, name: &str) -> Result<Vec<u8>, Fail> {
    let mut text = Vec::from_slice(alloc, br#"{"tag":""#)?;
    text.extend_from_slice(tag.as_bytes())?;
    text.extend_from_slice(br#"",""#)?;
    text.extend_from_slice(name.as_bytes())?;
    text.extend_from_slice(br#"":"x"}"#)?;
    Ok(text)
}

#[test]
fn each_element_has_its_members_and_no_others(rt: HostRuntime) -> Result<(), Fail> {
    for line in KNOWN.lines() {
        let (tag, known) = line.split_once(':').unwrap_or((line, ""));
        for name in NAMES.split_whitespace() {
            let found = outcome(rt.alloc(), &with_member(rt.alloc(), tag, name)?)?;
            let is_known = known.split_whitespace().any(|word| word == name);
            let is_refused = found.as_slice() == b"chart 4 -".as_slice();
            assert_eq!(rt; is_refused, !is_known, "{name} of {tag}");
        }
    }
    Ok(())
}

/// A state whose id has these bytes.
fn with_id(alloc: Global, id: &[u8]) -> Result<Vec<u8>, Fail> {
    let mut text = Vec::from_slice(alloc, br#"{"tag":"state","id":""#)?;
    text.extend_from_slice(id)?;
    text.extend_from_slice(br#""}"#)?;
    Ok(text)
}

#[test]
fn a_text_is_utf_8_and_has_no_control_byte(rt: HostRuntime) -> Result<(), Fail> {
    for (id, wanted) in [
        (b"\xc3\xa9".as_slice(), "ok 1"),
        (b"a\xff", "chart 1 -"),
        (b"a\xc3", "chart 1 -"),
        (b"\xed\xa0\x80", "chart 1 -"),
        (b"\xc0\x80", "chart 1 -"),
        (b"a\tb", "chart 1 -"),
        (b"a\nb", "chart 1 -"),
        (b"\x00", "chart 1 -"),
        (b"a\x7f", "chart 5 -"),
    ] {
        let found = outcome(rt.alloc(), &with_id(rt.alloc(), id)?)?;
        assert_eq!(rt; found.as_slice(), wanted.as_bytes(), "{id:?}");
    }
    for text in [
        b"\xef\xbb\xbf{\"tag\":\"scxml\"}".as_slice(),
        b"{\"tag\":\"scxml\"}\xff",
        b"{\"tag\":\"scxml\"}\x00",
        b"{\"tag\":\"scxml\",\"\xff\":1}",
    ] {
        let found = outcome(rt.alloc(), text)?;
        assert_eq!(rt; found.as_slice(), b"chart 1 -".as_slice(), "{text:?}");
    }
    let found = outcome(rt.alloc(), b"\r\n\t{\"tag\":\r\n\t\"scxml\"}\r\n\t")?;
    assert_eq!(rt; found.as_slice(), b"ok 0".as_slice());
    Ok(())
}

#[test]
fn charts_are_printed_as_compact_json(rt: HostRuntime) -> Result<(), Fail> {
    for line in PRINTED.lines() {
        let (text, wanted) = line.split_once(" => ").unwrap_or((line, ""));
        let chart = read_chart(rt.alloc(), text.as_bytes())?;
        let printed = print_chart(rt.alloc(), &chart)?;
        assert_eq!(rt; printed.slice(), wanted.as_bytes(), "{text}");
        let again = read_chart(rt.alloc(), printed.slice())?;
        assert!(rt; print_chart(rt.alloc(), &again)? == printed);
    }
    Ok(())
}
