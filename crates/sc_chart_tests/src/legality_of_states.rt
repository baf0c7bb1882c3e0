// Charts in short, as `legality` spells them out, with the faults of ids, of the places where states begin, of
// histories and of transitions.

/// Each line is a chart in short, and the outcome: an id twice, and targets that are no state's.
pub(crate) const IDS: &str = r#"scxml{state@a,state@a} => chart 20 1
scxml{state@a,parallel@a} => chart 20 1
scxml{state@a,final@a} => chart 20 1
scxml{state@b{state@a,history@a{transition;target=a}}} => chart 20 0.1
scxml{parallel@a,state@a} => chart 20 1
scxml{parallel@a,parallel@a} => chart 20 1
scxml{parallel@a,final@a} => chart 20 1
scxml{parallel@b{parallel@a,history@a{transition;target=a}}} => chart 20 0.1
scxml{final@a,state@a} => chart 20 1
scxml{final@a,parallel@a} => chart 20 1
scxml{final@a,final@a} => chart 20 1
scxml{state@b{final@a,history@a{transition;target=a}}} => chart 20 0.1
scxml{state@b{history@a{transition;target=c},state@c,state@a}} => chart 20 0.2
scxml{state@b{history@a{transition;target=c},state@c,parallel@a}} => chart 20 0.2
scxml{state@b{history@a{transition;target=c},state@c,final@a}} => chart 20 0.2
scxml{state@b{history@a{transition;target=c},state@c,history@a{transition;target=c}}} => chart 20 0.2
scxml{state@a{state@a}} => chart 20 0.0
scxml{state@a{state@b{state@c{state@a}}}} => chart 20 0.0.0.0
scxml{state{state@a},state{state@a},state{state@a}} => chart 20 1.0
scxml{state@a,state@b,state@c,state@b,state@a} => chart 20 3
scxml{state@b,state@c,state@d{state,final@b}} => chart 20 2.1
scxml{state@a,state@A,state@a.a,state@a-a,state@a.a} => chart 20 4
scxml{state@b,state@a{onentry,transition;event=e;target=a,parallel{state{state@b}}},state@a} => chart 20 1.2.0.0
scxml{state@a,state@A,state@aa,state@a.a} => ok 4
scxml{state{state},state{state},state} => ok 5
scxml{state@a{onentry{send@a;event=e},invoke@a;src=c},datamodel{data@a}} => ok 1
scxml{datamodel{data@a},state@a{onentry{send@a;event=e,send@a;event=e,cancel;sendid=a},invoke@a;src=c}} => ok 1
scxml{state@a{transition;event=e;target=zz}} => chart 21 0.0
scxml{state@a{transition;target=A}} => chart 21 0.0
scxml{state@a{transition;target=aa}} => chart 21 0.0
scxml{state@aa{transition;target=a}} => chart 21 0.0
scxml{state@a{transition;target=a zz}} => chart 21 0.0
scxml{state@a{transition;target=zz a}} => chart 21 0.0
scxml{state@a{transition;target=a zz a}} => chart 21 0.0
scxml{state@a,state@b{transition;event=e},state@c{transition;target=b},state@d{transition;event=e;target=a,transition;event=f;target=zz}} => chart 21 3.1
scxml{state@a,state@b{transition;target=zz},state@c} => chart 21 1.0
scxml{parallel@a{transition;target=zz}} => chart 21 0.0
scxml{parallel@a{state@b{state@c,state@d},state@e{state@f{transition;target=c zz}}}} => chart 21 0.1.0.0
scxml{state@a{history{transition;target=zz},state@b}} => chart 21 0.0.0
scxml{state@a{state@b,history;type=deep{transition;target=b zz}}} => chart 21 0.1.0
scxml{state@a{initial{transition;target=zz},state@b}} => chart 21 0.0.0
scxml{state@a{onentry{send@s;event=e},transition;target=s}} => chart 21 0.1
scxml{state@a{invoke@i;src=c,transition;target=i}} => chart 21 0.1
scxml{datamodel{data@x},state@a{transition;target=x}} => chart 21 1.0
scxml;name=n{state@a{transition;target=n}} => chart 21 0.0
scxml;initial=zz{state@a} => chart 21 -
scxml;initial=a zz{state@a} => chart 21 -
scxml;initial=zz a{state@a} => chart 21 -
scxml{state@a;initial=zz{state@b}} => chart 21 0
scxml{state@a;initial=b zz{state@b}} => chart 21 0
scxml{state@a,state@b{state@c{state@d},state@e;initial=zz{state@f}}} => chart 21 1.1
scxml{state{transition;target=state}} => chart 21 0.0
scxml;initial=zz => chart 21 -
scxml{state;initial=zz} => chart 21 0
scxml{final@f,state@a{onexit{log},transition;event=e{log},transition;target=g}} => chart 21 1.2
scxml{state@a{transition;target=b},parallel@c{transition;target=a},final@b,state@d{transition;target=c}} => ok 4
scxml{state@a{transition;target=a}} => ok 1"#;

/// The same for the places where a chart or a state begins.
pub(crate) const INITIALS: &str = r#"scxml => chart 22 -
scxml;name=n{datamodel{data@x}} => chart 22 -
scxml{history{transition;target=a}} => chart 22 -
scxml;datamodel=null;limit=7 => chart 22 -
scxml;initial=a b{state@a,state@b} => chart 22 -
scxml;initial=a a{state@a} => chart 22 -
scxml;initial=a b{state@a{state@b}} => chart 22 -
scxml;initial=b a{state@a{state@b}} => chart 22 -
scxml;initial=b c{state@a{state@b,state@c}} => chart 22 -
scxml;initial=b c d{parallel@a{state@b,state@c},state@d} => chart 22 -
scxml;initial=h b{parallel@a{history@h{transition;target=b c},state@b,state@c}} => chart 22 -
scxml;initial=b c{parallel@a{state{state@b,state@c}}} => chart 22 -
scxml{state@a;initial=a} => chart 22 0
scxml{state@a,state@b;initial=a,state@c} => chart 22 1
scxml{state@a,state@b,state@c;initial=b{history@h{transition;target=d}}} => chart 22 2
scxml{state@a;initial=h{history@h{transition;target=a},onentry}} => chart 22 0
scxml{state@a;initial=b{initial{transition;target=b},state@b}} => chart 22 0
scxml{state@a;initial=b{state@b,initial{transition;target=b}}} => chart 22 0
scxml{state@a;initial=b{state@b,initial}} => chart 22 0
scxml{state@a;initial=a{state@b}} => chart 22 0
scxml{state@a;initial=b a{state@b}} => chart 22 0
scxml{state@b,state@a;initial=b{state@c}} => chart 22 1
scxml{state@b{state@d},state@a;initial=d{state@c}} => chart 22 1
scxml{state@b{state@a;initial=b{state@c}}} => chart 22 0.0
scxml{state@b{state@a;initial=d{state@c},state@d}} => chart 22 0.0
scxml{state@a;initial=b c{state@b,state@c}} => chart 22 0
scxml{state@a;initial=b b{state@b}} => chart 22 0
scxml{state@a;initial=b c{state@b{state@c}}} => chart 22 0
scxml{state@a;initial=c b{state@b{state@c}}} => chart 22 0
scxml{state@a;initial=c d{parallel{state@b{state@c,state@d},state}}} => chart 22 0
scxml{state@a;initial=h b{parallel{history@h{transition;target=b c},state@b,state@c}}} => chart 22 0
scxml{state@a;initial=b h{parallel{history@h{transition;target=b c},state@b,state@c}}} => chart 22 0
scxml{state@a;initial=p b{parallel@p{state@b,state@c}}} => chart 22 0
scxml{state,state{state,state{state},state@a;initial=c b{state@b,state@c}}} => chart 22 1.2
scxml{state@a{initial{transition;target=a}}} => chart 22 0.0
scxml{state@a{initial}} => chart 22 0.0
scxml{state,state@a{onentry,initial{transition;target=a}},state} => chart 22 1.1
scxml{state,state,state@a{initial{transition;target=h},history@h{transition;target=a}}} => chart 22 2.0
scxml{final@a{initial{transition;target=a}}} => chart 22 0.0
scxml{final@a{initial}} => chart 22 0.0
scxml{state,final@a{onentry,initial{transition;target=a}}} => chart 22 1.1
scxml{state@a{initial,state@b}} => chart 22 0.0
scxml{state@a{state@b,initial}} => chart 22 0.1
scxml{state@a{initial{transition;target=b,transition;target=b},state@b}} => chart 22 0.0
scxml{state@a{initial{transition;target=b,transition;target=c},state@b,state@c}} => chart 22 0.0
scxml{state@a{initial{transition;target=b;event=e},state@b}} => chart 22 0.0
scxml{state@a{initial{transition;target=b;event=*},state@b}} => chart 22 0.0
scxml{state@a{initial{transition;target=b;cond=true},state@b}} => chart 22 0.0
scxml{state@a{initial{transition;target=b;cond=In('a')},state@b}} => chart 22 0.0
scxml{state@a{initial{transition;event=e},state@b}} => chart 22 0.0
scxml{state@a{initial{transition;cond=true},state@b}} => chart 22 0.0
scxml{state@a{initial{transition},state@b}} => chart 22 0.0
scxml{state@a{initial{transition;type=internal},state@b}} => chart 22 0.0
scxml{state@a{initial{transition{log}},state@b}} => chart 22 0.0
scxml{state@a{initial{transition;target=a},state@b}} => chart 22 0.0
scxml{state@a{initial{transition;target=c},state@b},state@c} => chart 22 0.0
scxml{state@c{state@a{initial{transition;target=c},state@b}}} => chart 22 0.0.0
scxml{state@a{initial{transition;target=c},state@b},state{state@c}} => chart 22 0.0
scxml{state@a{initial{transition;target=b c},state@b},state@c} => chart 22 0.0
scxml{state@a{initial{transition;target=b c},state@b,state@c}} => chart 22 0.0
scxml{state@a{initial{transition;target=b b},state@b}} => chart 22 0.0
scxml{state@a{initial{transition;target=b c},state@b{state@c}}} => chart 22 0.0
scxml{state@a{initial{transition;target=c b},state@b{state@c}}} => chart 22 0.0
scxml{state@a{initial{transition;target=b c},parallel{state{state@b,state@c}}}} => chart 22 0.0
scxml{state@a{initial{transition;target=h c},parallel{history@h{transition;target=b c},state@b,state@c}}} => chart 22 0.0
scxml{state,state{state},state{state,state{state@b,onexit,initial{transition;target=b;event=e}}}} => chart 22 2.1.2
scxml{initial,state@b} => chart 22 0
scxml{initial{transition;target=b b},state@b} => chart 22 0
scxml{parallel@a{initial{transition;target=c},state@b},state@c} => chart 22 0.0
initial{transition;target=a} => chart 22 -
state;initial=a{initial,state@a} => chart 22 -
state;initial=s@s{state@a} => chart 22 -
scxml{state@a;initial=zz{initial,state@b}} => chart 21 0
scxml;initial=a{state@b,state@a} => ok 2
scxml;initial=c{state@b,state@a{state@c}} => ok 3
scxml;initial=f{state@b,final@f} => ok 2
scxml;initial=b c{parallel@a{state@b,state@c}} => ok 3
scxml;initial=d e{state{parallel@a{state@b{state@d},state@c{state,state@e}}}} => ok 7
scxml;initial=h{state@a{history@h{transition;target=b},state@b}} => ok 3
scxml{state@a;initial=b{state@c,state@b}} => ok 3
scxml{state@a;initial=e{state@b,state@c{state@d{state@e}}}} => ok 5
scxml{state@a;initial=d e f{parallel{state@b{state@d},state@c{state@e},state@f}}} => ok 7
scxml{state@a;initial=d c{parallel{state@b{state@d},state@c{state@e}}}} => ok 6
scxml{state@a;initial=h{history@h{transition;target=b},state@b}} => ok 3
scxml{state@a;initial=f{final@f}} => ok 2
scxml{state@a{initial{transition;target=b},state@b}} => ok 2
scxml{state@a{state@b,state@c,initial{transition;target=c}}} => ok 3
scxml{state@a{initial{transition;type=internal;target=b{log,raise;event=e}},state@b}} => ok 2
scxml{state@a{initial{transition;target=d},state@b,state@c{state@d}}} => ok 4
scxml{state@a{initial{transition;target=d e},parallel{state@b{state@d},state@c{state@e}}}} => ok 6
scxml{state@a{initial{transition;target=h},state@b{history@h{transition;target=c},state@c}}} => ok 4
scxml{state@a;initial=h k{parallel{state@b{history@h{transition;target=d},state@d},state@c{history@k{transition;target=e},state@e}}}} => ok 8"#;

/// The same for histories.
pub(crate) const HISTORIES: &str = r#"scxml{state@a{history,state@b}} => chart 23 0.0
scxml{state@a{history@h,state@b}} => chart 23 0.0
scxml{state@a{state@b,history;type=deep}} => chart 23 0.1
scxml{state@a{history{transition;target=b,transition;target=b},state@b}} => chart 23 0.0
scxml{state@a{history{transition;target=b,transition;target=c},state@b,state@c}} => chart 23 0.0
scxml{state@a{history{transition;target=b,transition},state@b}} => chart 23 0.0
scxml{state@a{history{transition;target=b;event=e},state@b}} => chart 23 0.0
scxml{state@a{history{transition;target=b;cond=true},state@b}} => chart 23 0.0
scxml{state@a{history{transition;target=b;cond=In('b')},state@b}} => chart 23 0.0
scxml{state@a{history{transition;event=e},state@b}} => chart 23 0.0
scxml{state@a{history{transition;cond=true},state@b}} => chart 23 0.0
scxml{state@a{history{transition},state@b}} => chart 23 0.0
scxml{state@a{history{transition;type=internal},state@b}} => chart 23 0.0
scxml{state@a{history{transition{log}},state@b}} => chart 23 0.0
scxml{state@a{history@h{transition;target=h},state@b}} => chart 23 0.0
scxml{state@a{history@h{transition;target=k},history@k{transition;target=b},state@b}} => chart 23 0.0
scxml{state@a{history@h;type=deep{transition;target=k},state@b{history@k{transition;target=c},state@c}}} => chart 23 0.0
scxml{state@a{history@h;type=deep{transition;target=h},state@b}} => chart 23 0.0
scxml{state@a{history{transition;target=a},state@b}} => chart 23 0.0
scxml{state@a{history;type=deep{transition;target=a},state@b}} => chart 23 0.0
scxml{state@a{history{transition;target=c},state@b},state@c} => chart 23 0.0
scxml{state@a{history;type=deep{transition;target=c},state@b},state@c} => chart 23 0.0
scxml{state@c{state@a{history;type=deep{transition;target=c},state@b}}} => chart 23 0.0.0
scxml{state@a{history{transition;target=c},state@b},state{state@c}} => chart 23 0.0
scxml{state@a{history;type=deep{transition;target=c},state@b},state{state@c}} => chart 23 0.0
scxml{state@a{history{transition;target=c},state@b{state@c}}} => chart 23 0.0
scxml{state@a{history;type=shallow{transition;target=c},state@b{state@c}}} => chart 23 0.0
scxml{parallel@a{history{transition;target=c d},state@b{state@c},state@d}} => chart 23 0.0
scxml{parallel@a{history{transition;target=d c},state@b{state@c},state@d}} => chart 23 0.0
scxml{state@a{history{transition;target=b c},state@b,state@c}} => chart 23 0.0
scxml{state@a{history{transition;target=b b},state@b}} => chart 23 0.0
scxml{state@a{history;type=deep{transition;target=b c},state@b,state@c}} => chart 23 0.0
scxml{state@a{history;type=deep{transition;target=b c},state@b{state@c}}} => chart 23 0.0
scxml{state@a{history;type=deep{transition;target=c b},state@b{state@c}}} => chart 23 0.0
scxml{parallel@a{history;type=deep{transition;target=c d e},state@b{state@c},state{state@d,state@e}}} => chart 23 0.0
scxml{parallel@a{history{transition;target=b c b},state@b,state@c}} => chart 23 0.0
history{transition;target=a,state@a} => chart 23 -
history;type=deep{transition;target=a,state{state@a}} => chart 23 -
history{state@a} => chart 23 -
scxml{state@b,history;type=deep,state@c} => chart 23 1
scxml{final@a{history@h{transition;target=a}}} => chart 23 0.0
scxml{state@a{history@h{transition;target=a}}} => chart 23 0.0
scxml{state@a{onentry{history}}} => chart 23 0.0.0
scxml{state,state{state,state{state@b,history{transition;target=b;event=e}},state},state} => chart 23 1.1.1
scxml{state,state{state,parallel{state@b,history,state}}} => chart 23 1.1.1
scxml{state@b,parallel{state,state,history{transition;target=b}}} => chart 23 1.2
scxml{state@a{history{transition;target=b},state@b}} => ok 3
scxml{state@a{history;type=shallow{transition;target=b},state@b}} => ok 3
scxml{state@a{history;type=deep{transition;target=b},state@b}} => ok 3
scxml{state@a{history;type=deep{transition;target=e},state@b{state@c{state@d{state@e}}}}} => ok 6
scxml{state@a{history{transition;target=b},history;type=deep{transition;target=c},state@b{state@c}}} => ok 5
scxml{parallel@a{history{transition;target=b c},state@b,state@c}} => ok 4
scxml{parallel@a{history{transition;target=c},state@b,state@c}} => ok 4
scxml{parallel@a{history;type=deep{transition;target=e d},state@b{state@d},state@c{state@e}}} => ok 6
scxml{state@a{history;type=deep{transition;target=d e},state@b,parallel@c{state@d,state@e}}} => ok 6
scxml{state@a{history{transition;type=internal;target=f{log,send;event=e}},final@f}} => ok 3
scxml{state@a{history@h{transition;target=b},state@b},state@c{transition;target=h}} => ok 4
scxml{state@a{transition;target=h,history@h{transition;target=b},state@b{transition;target=h}}} => ok 3
scxml{history{transition;target=b},state@b} => chart 26 0
scxml{state@b,history;type=deep{transition;target=c},state{state@c}} => chart 26 1
history@h{transition;target=h} => chart 22 -
history => chart 22 -"#;

/// The same for the transitions of states and parallels.
pub(crate) const TRANSITIONS: &str =
    r#"scxml{state@a{transition;target=a b},state@b} => chart 24 0.0
scxml{state@a{transition;target=a a}} => chart 24 0.0
scxml{state@a{transition;event=e;target=b b},state@b} => chart 24 0.0
scxml{state@a{transition;target=a b,state@b}} => chart 24 0.0
scxml{state@a{transition;target=b a,state@b}} => chart 24 0.0
scxml{state@a,parallel@p{transition;event=e;target=b c,state@b{state@c},state@d}} => chart 24 1.0
scxml{state@a{transition;target=p b},parallel@p{state@b,state@c}} => chart 24 0.0
scxml{state@a{transition;target=b p},parallel@p{state@b,state@c}} => chart 24 0.0
scxml{state@a{transition;target=d e},parallel@p{state@b{state@d,state@e},state@c}} => chart 24 0.0
scxml{state@a{transition;target=d c e},parallel@p{state@b{state@d,state@e},state@c}} => chart 24 0.0
scxml{state@a{transition;target=d c d},parallel@p{state@b{state@d,state@e},state@c}} => chart 24 0.0
scxml{state@a{transition;target=h b},parallel@p{history@h{transition;target=b},state@b,state@c}} => chart 24 0.0
scxml{state@a{transition;target=b h},parallel@p{history@h{transition;target=b},state@b,state@c}} => chart 24 0.0
scxml{state@a{transition;target=h d},parallel@p{history@h{transition;target=b},state@b{state@d},state@c}} => chart 24 0.0
scxml{state@a{transition;target=h p},parallel@p{history@h{transition;target=b},state@b,state@c}} => chart 24 0.0
scxml{state@a{transition;target=h k},parallel@p{history@h{transition;target=b},history@k{transition;target=c},state@b,state@c}} => chart 24 0.0
scxml{state@a{transition;target=h h},parallel@p{history@h{transition;target=b},state@b}} => chart 24 0.0
scxml{state@a{transition;target=h k},parallel@p{history@h{transition;target=b},state@b{history@k{transition;target=d},state@d}}} => chart 24 0.0
scxml{state@a{transition;target=h d},parallel@p{state@b{history@h{transition;target=d},state@d},state@c}} => chart 24 0.0
scxml{state@a{transition;target=a c},parallel@p{state@b,state@c}} => chart 24 0.0
scxml{state@a{state@b{state@c{transition;event=e,transition;event=f;target=c a}}}} => chart 24 0.0.0.1
scxml{state,state,state@a{state,state@b{onentry,transition;target=b a}}} => chart 24 2.1.1
scxml{parallel{state,state@a{transition;target=b c},state{parallel{state,state@b,state{state@d,state@c,transition;event=e;target=c d}}}}} => chart 24 0.2.0.2.2
scxml{state@a{transition;target=b c},parallel@p{state@b,state@c}} => ok 4
scxml{state@a{transition;target=c b},parallel@p{state@b,state@c}} => ok 4
scxml{state@a{transition;event=e;cond=true;target=d c},parallel@p{state@b{state@d,state@e},state@c}} => ok 6
scxml{state@a{transition;target=d f},parallel@p{state@b{state@d,state@e},state@c{final@f}}} => ok 7
scxml{state@a{transition;target=b c d},parallel@p{state@b,state@c,parallel@d}} => ok 5
scxml{state@a{transition;target=e b c},parallel@p{state@b,state@c,parallel@d{state@e}}} => ok 6
scxml{state@a{transition;target=e c d},parallel@p{state@c,parallel@d{state@e}}} => chart 24 0.0
scxml{state@a{transition;target=e c f},parallel@p{state@b,state@c,parallel@d{state@e,state@f}}} => ok 7
scxml{state@a{transition;target=h c},parallel@p{state@b{history@h{transition;target=d},state@d},state@c}} => ok 6
scxml{state@a{transition;target=h k},parallel@p{state@b{history@h{transition;target=d},state@d},state@c{history@k;type=deep{transition;target=e},state@e}}} => ok 8
scxml{parallel@p{state@b{transition;target=d e,state@d},state@c{state@e}}} => ok 5
scxml{state@a{transition}} => chart 25 0.0
scxml{state@a{transition;type=internal}} => chart 25 0.0
scxml{state@a{transition;type=external}} => chart 25 0.0
scxml{state@a{transition{log}}} => chart 25 0.0
scxml{state@a{transition;type=internal{raise;event=e}}} => chart 25 0.0
scxml{parallel@a{transition}} => chart 25 0.0
scxml{parallel@a{state,state,transition;type=internal}} => chart 25 0.2
scxml{state,state{transition;event=e,transition,transition;event=e},state} => chart 25 1.1
scxml{state,state{state},parallel{state,state{transition;cond=true,transition{log}}}} => chart 25 2.1.1
scxml{state@a{transition;cond=true}} => ok 1
scxml{state@a{transition;event=e}} => ok 1
scxml{state@a{transition;event=*}} => ok 1
scxml{state@a{transition;target=a;type=internal}} => ok 1
scxml{parallel@a{transition;cond=true}} => ok 1
scxml{final@a{transition}} => chart 26 0.0
scxml{final@a{transition;target=a a}} => chart 26 0.0
scxml{transition,state@a} => chart 26 0
scxml{transition;target=a b,state@a,state@b} => chart 26 0
scxml{state@a{onentry{transition;target=a a}}} => chart 26 0.0.0
scxml{state@a{onentry{transition}}} => chart 26 0.0.0
transition => chart 22 -
transition{state} => chart 26 -
transition;target=a{state@a} => chart 26 -"#;
