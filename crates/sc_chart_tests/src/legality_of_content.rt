// Charts in short, as `legality` spells them out, with the faults of child elements, of the root's limit, of sends and
// invokes, and of the data model.

/// Each line is a chart in short, and the outcome: elements in places where they may not stand.
pub(crate) const CHILDREN: &str = r#"state{state} => chart 26 -
state => chart 22 -
state@a{state@b} => chart 26 -
parallel{state} => chart 26 -
final => chart 22 -
log => chart 22 -
state;initial=a{state@a} => chart 26 -
send => chart 22 -
scxml{scxml{state},state} => chart 26 0
scxml{state,scxml{state}} => chart 26 1
scxml{state,onentry,state} => chart 26 1
scxml{log,state} => chart 26 0
scxml{state,data@x} => chart 26 1
scxml{state,initial{transition;target=a},state@a} => chart 26 1
scxml{state,invoke;src=c,state} => chart 26 1
scxml{state{scxml}} => chart 26 0.0
scxml{state{log}} => chart 26 0.0
scxml{state,state{state,raise;event=e,state},state} => chart 26 1.1
scxml{state{state{state{send;event=e}}}} => chart 26 0.0.0.0
scxml{state{data@x}} => chart 26 0.0
scxml{state{donedata}} => chart 26 0.0
scxml{state{finalize{log}}} => chart 26 0.0
scxml{state{param;name=p;expr=1}} => chart 26 0.0
scxml{parallel{final}} => chart 26 0.0
scxml{parallel{state,final,state}} => chart 26 0.1
scxml{parallel{initial{transition;target=a},state@a}} => chart 26 0.0
scxml{parallel{donedata}} => chart 26 0.0
scxml{final{state}} => chart 26 0.0
scxml{final{final}} => chart 26 0.0
scxml{final{datamodel}} => chart 26 0.0
scxml{final{invoke;src=c}} => chart 26 0.0
scxml{final{transition;event=e}} => chart 26 0.0
scxml{final{onentry,onexit,log}} => chart 26 0.2
scxml{state{history{transition;target=a,onentry},state@a}} => chart 26 0.0.1
scxml{state{history{log,transition;target=a},state@a}} => chart 26 0.0.0
scxml{state{initial{transition;target=a,log},state@a}} => chart 26 0.0.1
scxml{state@a{transition;event=e{log,transition;event=e,log}}} => chart 26 0.0.1
scxml{state@a{transition;event=e{else}}} => chart 26 0.0.0
scxml{state{onentry{state}}} => chart 26 0.0.0
scxml{state{onentry{onentry}}} => chart 26 0.0.0
scxml{state{onentry{param;name=p;expr=1}}} => chart 26 0.0.0
scxml{state{onentry{elseif;cond=true}}} => chart 26 0.0.0
scxml{state{onexit{log,log,else}}} => chart 26 0.0.2
scxml{state{onexit{invoke;src=c}}} => chart 26 0.0.0
scxml{datamodel{state},state} => chart 26 0.0
scxml{datamodel{data@x,data@y,datamodel},state} => chart 26 0.2
scxml{datamodel{data@x{log}},state} => chart 26 0.0.0
scxml{final{donedata{log}}} => chart 26 0.0.0
scxml{final{donedata{data@x}}} => chart 26 0.0.0
scxml{final{donedata{content;expr=1{log}}}} => chart 26 0.0.0.0
scxml{final{donedata{param;name=p;expr=1{param;name=p;expr=1}}}} => chart 26 0.0.0.0
scxml{state{invoke;src=c{content;expr=1}}} => chart 26 0.0.0
scxml{state{invoke;src=c{finalize{log},log}}} => chart 26 0.0.1
scxml{state{onentry{raise;event=e{log}}}} => chart 26 0.0.0.0
scxml{state{onentry{if;cond=true{log,param;name=p;expr=1}}}} => chart 26 0.0.0.1
scxml{state{onentry{if;cond=true{elseif;cond=true{log}}}}} => chart 26 0.0.0.0.0
scxml{state{onentry{if;cond=true{else{log}}}}} => chart 26 0.0.0.0.0
scxml{state{onentry{foreach;array=x;item=y{log,else}}}} => chart 26 0.0.0.1
scxml{state{onentry{foreach;array=x;item=y{data@x}}}} => chart 26 0.0.0.0
scxml{state{onentry{log{log}}}} => chart 26 0.0.0.0
scxml{state{onentry{assign;location=x;expr=1{log}}}} => chart 26 0.0.0.0
scxml{state{onentry{send;event=e{log}}}} => chart 26 0.0.0.0
scxml{state{onentry{send;event=e{finalize{log}}}}} => chart 26 0.0.0.0
scxml{state{onentry{cancel;sendid=i{log}}}} => chart 26 0.0.0.0
scxml{datamodel,datamodel,state} => chart 26 1
scxml{datamodel,state,state,datamodel} => chart 26 3
scxml{datamodel,datamodel,datamodel,state} => chart 26 1
scxml{state{datamodel,datamodel}} => chart 26 0.1
scxml{state,state{datamodel,onentry,datamodel},state} => chart 26 1.2
scxml{parallel{datamodel,state,datamodel}} => chart 26 0.2
scxml{state{initial{transition;target=a},state@a,initial{transition;target=a}}} => chart 26 0.2
scxml{state,state{initial{transition;target=a},initial{transition;target=b},state@a,state@b}} => chart 26 1.1
scxml{final{donedata,donedata}} => chart 26 0.1
scxml{state,final{donedata{content;expr=1},onentry,donedata}} => chart 26 1.2
scxml{final{donedata{content;expr=1,content;expr=1}}} => chart 26 0.0.1
scxml{final{donedata{content;expr=1,content;expr=1,content;expr=1}}} => chart 26 0.0.1
scxml{state{onentry{send;event=e{content;expr=1,content;expr=1}}}} => chart 26 0.0.0.1
scxml{state{onentry{send;event=e{content;expr=1,content;expr=2,content;expr=3}}}} => chart 26 0.0.0.1
scxml{state{invoke;src=c{finalize{log},finalize{log}}}} => chart 26 0.0.1
scxml{state{invoke;src=c{finalize{log},param;name=p;expr=1,finalize}}} => chart 26 0.0.2
scxml{final{donedata{content;expr=1,param;name=p;expr=1}}} => chart 26 0.0.1
scxml{final{donedata{param;name=p;expr=1,content;expr=1}}} => chart 26 0.0.0
scxml{final{donedata{param;name=p;expr=1,param;name=q;location=x,content;expr=1}}} => chart 26 0.0.0
scxml{state,state,final{onentry,donedata{content;expr=1,content;expr=1,param;name=p;expr=1}}} => chart 26 2.1.1
scxml{state{invoke;src=c{finalize{raise;event=e}}}} => chart 26 0.0.0.0
scxml{state{invoke;src=c{finalize{send;event=e}}}} => chart 26 0.0.0.0
scxml{state{invoke;src=c{finalize{log,log,raise;event=e}}}} => chart 26 0.0.0.2
scxml{state{invoke;src=c{finalize{if;cond=true{send;event=e}}}}} => chart 26 0.0.0.0.0
scxml{state{invoke;src=c{finalize{if;cond=true{raise;event=e}}}}} => chart 26 0.0.0.0.0
scxml{state{invoke;src=c{finalize{if;cond=true{log,else,raise;event=e}}}}} => chart 26 0.0.0.0.2
scxml{state{invoke;src=c{finalize{foreach;array=x;item=y{send;event=e}}}}} => chart 26 0.0.0.0.0
scxml{state{invoke;src=c{finalize{foreach;array=x;item=y{log,if;cond=true{if;cond=true{log,send;event=e}}}}}}} => chart 26 0.0.0.0.1.0.1
scxml{state,state{invoke;src=c,invoke;src=d{param;name=p;expr=1,finalize{log,if;cond=true{log,elseif;cond=true,raise;event=e}}}}} => chart 26 1.1.1.1.2
scxml{state{onentry{if;cond=true{else,else}}}} => chart 26 0.0.0.1
scxml{state{onentry{if;cond=true{else,elseif;cond=true}}}} => chart 26 0.0.0.1
scxml{state{onentry{if;cond=true{else,log,log,else}}}} => chart 26 0.0.0.3
scxml{state{onentry{if;cond=true{elseif;cond=true,else,log,elseif;cond=true}}}} => chart 26 0.0.0.3
scxml{state{onentry{if;cond=true{log,elseif;cond=true,log,elseif;cond=true,log,else,log,else,log}}}} => chart 26 0.0.0.7
scxml{state{onentry{if;cond=true{log,if;cond=true{else,log,else},else}}}} => chart 26 0.0.0.1.2
scxml{state,state{transition;event=e{log,if;cond=true{else,if;cond=true{else},elseif;cond=true}}}} => chart 26 1.0.1.2
scxml{state{onentry{if;cond=true{if;cond=true{else},else,if;cond=true{else,elseif;cond=true}}}}} => chart 26 0.0.0.2.1
scxml{datamodel{data@x,data@y;expr=1},state{datamodel,state{datamodel{data@z}}},parallel{datamodel}} => ok 3
scxml{state,datamodel} => ok 1
scxml{state{onentry,onentry,onexit,onexit,invoke;src=c,invoke;src=c}} => ok 1
scxml{final{donedata{param;name=p;expr=1,param;name=p;location=x}}} => ok 1
scxml{final{donedata{content;expr=1}}} => ok 1
scxml{final{donedata}} => ok 1
scxml{final{onentry{raise;event=e},donedata,onexit{send;event=e}}} => ok 1
scxml{state{onentry{send;event=e{param;name=p;expr=1,param;name=q;location=x}}}} => ok 1
scxml{state{onentry{if;cond=true,if;cond=true}}} => ok 1
scxml{state{onentry{if;cond=true,if;cond=true{else},if;cond=true{else,log}}}} => ok 1
scxml{state{onentry{if;cond=true{log,elseif;cond=true,log,elseif;cond=true,else,log,if;cond=true{elseif;cond=true,else}}}}} => ok 1
scxml{state{onentry{foreach;array=x;item=y{raise;event=e,send;event=e,if;cond=true,foreach;array=x;item=z,log,assign;location=x;expr=1,cancel;sendid=i}}}} => ok 1
scxml{state{invoke;src=c{finalize{log,assign;location=x;expr=1,cancel;sendid=i,foreach;array=x;item=y,if;cond=true{log,else,log}},param;name=p;expr=1}}} => ok 1"#;

/// The same for the limit of the root, for sends and for invokes.
pub(crate) const SENDS: &str = r#"scxml;limit=0{state@a} => chart 27 -
scxml;limit=10001{state@a} => chart 27 -
scxml;limit=10010{state@a} => chart 27 -
scxml;limit=20000{state@a} => chart 27 -
scxml;limit=99999{state@a} => chart 27 -
scxml;limit=100000{state@a} => chart 27 -
scxml;limit=4294967295{state@a} => chart 27 -
scxml;limit=4294967196{state@a} => chart 27 -
scxml;limit=0{state@a{transition;target=zz}} => chart 27 -
scxml;limit=1{state@a} => ok 1
scxml;limit=2{state@a} => ok 1
scxml;limit=9{state@a} => ok 1
scxml;limit=10{state@a} => ok 1
scxml;limit=1000{state@a} => ok 1
scxml;limit=9999{state@a} => ok 1
scxml;limit=10000{state@a} => ok 1
scxml{state@a,scxml;limit=0{state@b}} => chart 26 1
scxml{state{onentry{send}}} => chart 28 0.0.0
scxml{state{onentry{send;event=e;eventexpr='e'}}} => chart 28 0.0.0
scxml{state{onentry{send{content;expr=1}}}} => chart 28 0.0.0
scxml{state{onentry{send;namelist=x}}} => chart 28 0.0.0
scxml{state{onentry{send@i;target=t;type=t;delay=1s}}} => chart 28 0.0.0
scxml{state{onentry{send@i;event=e;idlocation=x}}} => chart 28 0.0.0
scxml{state{onentry{send@i;eventexpr='e';idlocation=x}}} => chart 28 0.0.0
scxml{state{onentry{send;event=e;delay=1s;delayexpr='1s'}}} => chart 28 0.0.0
scxml{state{onentry{send;event=e;delay=0s;delayexpr=x}}} => chart 28 0.0.0
scxml{state{onentry{send;event=e;namelist=x{content;expr=1}}}} => chart 28 0.0.0
scxml{state{onentry{send;event=e{content;expr=1,param;name=p;expr=1}}}} => chart 28 0.0.0
scxml{state{onentry{send;event=e{param;name=p;expr=1,content;expr=1}}}} => chart 28 0.0.0
scxml{state{onentry{send;event=e;namelist=x y{param;name=p;expr=1,content;expr=1}}}} => chart 28 0.0.0
scxml{state{onentry{send;event=e;target=#_internal;delay=1s}}} => chart 28 0.0.0
scxml{state{onentry{send;event=e;target=#_internal;delay=0s}}} => chart 28 0.0.0
scxml{state{onentry{send;event=e;target=#_internal;delayexpr='1s'}}} => chart 28 0.0.0
scxml{state{onentry{send;eventexpr='e';target=#_internal;type=t;delayexpr=x}}} => chart 28 0.0.0
scxml{state,state{onentry,transition;event=e{log,send,log}},state} => chart 28 1.1.1
scxml{state{state{state{onentry,onexit{log,if;cond=true{log,foreach;array=x;item=y{log,send}}}}}}} => chart 28 0.0.0.1.1.1.1
scxml{state,final{onentry{send;event=e},onexit{send;eventexpr=x,send;event=e;eventexpr=x}}} => chart 28 1.1.1
scxml{state{history{transition;target=a{send}},state@a}} => chart 28 0.0.0.0
scxml{state{initial{transition;target=a{send;event=e;delay=1s;target=#_internal}},state@a}} => chart 28 0.0.0.0
scxml{state{onentry{raise;event=e{send}}},state{onentry{send}}} => chart 26 0.0.0.0
scxml{state{onentry{send;event=e{content;expr=1,content;expr=1,param;name=p;expr=1}}}} => chart 28 0.0.0
scxml{state{onentry{send;event=e}}} => ok 1
scxml{state{onentry{send;eventexpr='e'}}} => ok 1
scxml{state{onentry{send;event=e{content;expr=1}}}} => ok 1
scxml{state{onentry{send;eventexpr=x{content;expr=1}}}} => ok 1
scxml{state{onentry{send@i;event=e,send;event=e;idlocation=x}}} => ok 1
scxml{state{onentry{send;event=e;delay=1s,send;event=e;delayexpr='1s'}}} => ok 1
scxml{state{onentry{send;event=e;namelist=x y{param;name=p;expr=1}}}} => ok 1
scxml{state{onentry{send;event=e;target=#_internal}}} => ok 1
scxml{state{onentry{send;event=e;target=#_internal2;delay=1s,send;event=e;target=#_Internal;delay=1s}}} => ok 1
scxml{state{onentry{send;event=e;target=#_parent;delay=1s,send;event=e;target=;delay=1s}}} => ok 1
scxml{state{onentry{send@i;event=e;target=#_internal;type=t{param;name=p;location=x}}}} => ok 1
scxml{state{invoke@i;src=c;idlocation=x}} => chart 29 0.0
scxml{parallel{invoke@i;src=c;idlocation=x;autoforward=true{param;name=p;expr=1}}} => chart 29 0.0
scxml{state{invoke@i;src=c,invoke@i;src=c}} => chart 29 0.1
scxml{state{invoke@i;src=c,invoke@j;src=c,invoke;src=c,invoke@j;src=d}} => chart 29 0.3
scxml{state{invoke@i;src=c},state,parallel{state{invoke@i;src=d}}} => chart 29 2.0.0
scxml{state{state{state{invoke@i;src=c}},invoke@i;src=c},state{invoke@j;src=c}} => chart 29 0.1
scxml{state{invoke@i;src=c,invoke@i;src=c;idlocation=x}} => chart 29 0.1
scxml{state,state{onentry,invoke@i;src=c;idlocation=x,onexit},state} => chart 29 1.1
scxml{state{invoke@i;src=c,invoke@j;src=c,invoke@I;src=c}} => ok 1
scxml{state{invoke;src=c,invoke;src=c,invoke;src=c;idlocation=x,invoke;src=c;idlocation=x}} => ok 1
scxml{state@i{onentry{send@i;event=e},invoke@i;src=i;type=t;autoforward=false;namelist=x y}} => ok 1"#;

/// The same for the data model, and for finalizes.
pub(crate) const DATA: &str = r#"scxml{datamodel{data@_},state} => chart 30 0.0
scxml{datamodel{data@_x},state} => chart 30 0.0
scxml{datamodel{data@_event},state} => chart 30 0.0
scxml{datamodel{data@_sessionid;expr=1},state} => chart 30 0.0
scxml{datamodel{data@x,data@__},state} => chart 30 0.1
scxml{datamodel{data@x,data@x},state} => chart 30 0.1
scxml{datamodel{data@x,data@y,data@z,data@y;expr=1},state} => chart 30 0.3
scxml{datamodel{data@x},state{datamodel{data@x}}} => chart 30 1.0.0
scxml{datamodel{data@x},state{datamodel{data@y}},parallel{state,state{datamodel{data@z,data@y}}}} => chart 30 2.1.0.1
scxml{state{state{datamodel{data@x}},datamodel{data@x}},datamodel{data@x}} => chart 30 0.1.0
scxml{state,state{datamodel{data@_x,data@y}},state} => chart 30 1.0.0
scxml;datamodel=whole{datamodel{data@x,data@x},state} => chart 30 0.1
scxml;datamodel=null{datamodel{data@x},state} => chart 30 0.0
scxml;datamodel=null{state,state{datamodel{data@x;expr=1}},state} => chart 30 1.0.0
scxml;datamodel=null{state{onentry{assign;location=x;expr=1}}} => chart 30 0.0.0
scxml;datamodel=null{state{onentry{foreach;array=x;item=y}}} => chart 30 0.0.0
scxml;datamodel=null{state{onentry{foreach;array=x;item=y;index=i{log}}}} => chart 30 0.0.0
scxml;datamodel=null{state{onentry{send;event=e{param;name=p;expr=1}}}} => chart 30 0.0.0.0
scxml;datamodel=null{state{onentry{send;event=e{param;name=p;location=x}}}} => chart 30 0.0.0.0
scxml;datamodel=null{state{onentry{send;event=e{content;expr=1}}}} => chart 30 0.0.0.0
scxml;datamodel=null{state{onentry{send;event=e{content;expr=In('a')}}}} => chart 30 0.0.0.0
scxml;datamodel=null{final{donedata{content;expr=1}}} => chart 30 0.0.0
scxml;datamodel=null{state,final{onentry,donedata{param;name=p;location=x}}} => chart 30 1.1.0
scxml;datamodel=null{state{invoke;src=c{param;name=p;location=x}}} => chart 30 0.0.0
scxml;datamodel=null{state{onentry{log;expr=1}}} => chart 30 0.0.0
scxml;datamodel=null{state{onentry{log;expr=In('a')}}} => chart 30 0.0.0
scxml;datamodel=null{state{onentry{send;eventexpr='e'}}} => chart 30 0.0.0
scxml;datamodel=null{state{onentry{send;event=e;delayexpr='1s'}}} => chart 30 0.0.0
scxml;datamodel=null{state{onentry{cancel;sendidexpr='i'}}} => chart 30 0.0.0
scxml;datamodel=null{state{onentry{send;event=e;namelist=x}}} => chart 30 0.0.0
scxml;datamodel=null{state{onentry{send;event=e;idlocation=x}}} => chart 30 0.0.0
scxml;datamodel=null{state{invoke;src=c;namelist=x}} => chart 30 0.0
scxml;datamodel=null{state{invoke;src=c;idlocation=x}} => chart 30 0.0
scxml;datamodel=null{state{transition;cond=true}} => chart 30 0.0
scxml;datamodel=null{state{transition;event=e;cond=x}} => chart 30 0.0
scxml;datamodel=null{state{transition;cond=!In('a')}} => chart 30 0.0
scxml;datamodel=null{state{transition;cond=In('a') && In('b')}} => chart 30 0.0
scxml;datamodel=null{state{transition;cond=In('a') || In('b')}} => chart 30 0.0
scxml;datamodel=null{state{transition;cond='a'}} => chart 30 0.0
scxml;datamodel=null{state{transition;cond=-1}} => chart 30 0.0
scxml;datamodel=null{state{transition;cond=len(x)}} => chart 30 0.0
scxml;datamodel=null{state{transition;cond=_event.name}} => chart 30 0.0
scxml;datamodel=null{state{transition;cond=[In('a')]}} => chart 30 0.0
scxml;datamodel=null{state{onentry{if;cond=true}}} => chart 30 0.0.0
scxml;datamodel=null{state{onentry{if;cond=In('a'){elseif;cond=!In('a')}}}} => chart 30 0.0.0.0
scxml;datamodel=null{state{transition;cond=In('a')},state,state{state,transition;cond=In('a'),transition;cond=true}} => chart 30 2.2
scxml;datamodel=null{state{invoke;src=c{finalize{log,if;cond=In('a'){log;expr=x}}}}} => chart 30 0.0.0.1.0
scxml{datamodel{data@x_,data@x__y,data@X,data@xx,data@x},state} => ok 1
scxml{datamodel{data@x;expr=x},state@x{datamodel{data@y},invoke@x;src=c,onentry{send@x;event=e}}} => ok 1
scxml;datamodel=null{state} => ok 1
scxml;datamodel=null{state@a{transition;cond=In('a')}} => ok 1
scxml;datamodel=null{state@a{transition;cond=In(a)}} => ok 1
scxml;datamodel=null{state@a{transition;cond=(In(a))}} => ok 1
scxml;datamodel=null{state@a{transition;cond= ( ( In ( 'a' ) ) ) }} => ok 1
scxml;datamodel=null{state@a{transition;cond=In('zz')}} => ok 1
scxml;datamodel=null{state@a{transition;event=e;cond=In('b');target=b},state@b{onentry{if;cond=In('a'){log;label=l,elseif;cond=In(b),raise;event=e,else,cancel;sendid=i}}}} => ok 2
scxml;datamodel=null{datamodel,state{datamodel,onentry{log,log;label=l,send@i;event=e;delay=1s;target=t;type=t}},final{donedata}} => ok 2
scxml;datamodel=null{state{invoke@i;src=c;type=t;autoforward=true{finalize{log}}}} => ok 1
scxml;datamodel=whole{datamodel{data@x;expr=1},state{transition;cond=x;event=e}} => ok 1
state;initial=a{state@a{transition;cond=true}} => chart 26 -
scxml{state{invoke;src=c{finalize}}} => chart 31 0.0.0
scxml{state{invoke;src=c{finalize}},state{log}} => chart 31 0.0.0
scxml{parallel{invoke@i;src=c{param;name=p;expr=1,finalize}}} => chart 31 0.0.1
scxml{state,state{invoke;src=c{finalize{log}},invoke;src=c{finalize},invoke;src=c},state} => chart 31 1.1.0
scxml;datamodel=null{state,parallel{state{invoke;src=c{finalize}}}} => chart 31 1.0.0.0
scxml{state{onentry{finalize}}} => chart 26 0.0.0
finalize => chart 22 -
finalize{state} => chart 26 -
scxml{state{invoke;src=c{finalize{log}}}} => ok 1
scxml{state{invoke;src=c{finalize{cancel;sendid=i}}}} => ok 1
scxml{state{invoke;src=c{finalize{if;cond=true}}}} => ok 1"#;
