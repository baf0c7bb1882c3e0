use crate::recipes::large;
use sc_expr::{ExprFault, print_expr, print_value, read_delay, read_expr, read_value};
use sc_types::{Bytes, Profile};
use std::alloc::Global;
use std::test::Fail;

/// Each line is a text, and how the expression that it spells is printed.
const EXPRESSIONS: &str = r#" => refused
a || b && c => (a || (b && c))
a && b || c => ((a && b) || c)
a || b || c => ((a || b) || c)
a && b && c => ((a && b) && c)
a && b == c => (a && (b == c))
a == b && c => ((a == b) && c)
a || b != c => (a || (b != c))
a == b < c => refused
a < b < c => refused
a < b + c => (a < (b + c))
a + b < c => ((a + b) < c)
a >= b - c => (a >= (b - c))
a - b <= c => ((a - b) <= c)
a > b * c => (a > (b * c))
a + b * c => (a + (b * c))
a * b + c => ((a * b) + c)
a - b / c => (a - (b / c))
a % b - c => ((a % b) - c)
a - b - c => ((a - b) - c)
a + b - c => ((a + b) - c)
a - b + c => ((a - b) + c)
a / b * c => ((a / b) * c)
a % b / c => ((a % b) / c)
a * b % c => ((a * b) % c)
a - (b - c) => (a - (b - c))
(a || b) && c => ((a || b) && c)
a || (b || c) => (a || (b || c))
(a < b) == (c < d) => ((a < b) == (c < d))
a = b => refused
a & b => refused
a <= = b => refused
a<=b => (a <= b)
a! = b => refused
a !=!b => (a != (!b))
!a == b => ((!a) == b)
!(a == b) => (!(a == b))
!-!x => (!(-(!x)))
--a => (-(-a))
- -1 => (-(-1))
-a * b => ((-a) * b)
a * -b => (a * (-b))
a - -b => (a - (-b))
a--b => (a - (-b))
-a[b] => (-a[b])
(-a)[b] => (-a)[b]
!len(a) < 2 => ((!len(a)) < 2)
a + * b => refused
a + => refused
+ a => refused
a[b][c] => a[b][c]
a[b + 1] => a[(b + 1)]
a[[0][b]] => a[[0][b]]
a[] => refused
a[b => refused
a] => refused
(a + b)[c] => (a + b)[c]
'x'[0] => 'x'[0]
len(a)[0] => len(a)[0]
[] => []
[ ] => []
[][a] => [][a]
[1,] => refused
[,1] => refused
[1 2] => refused
[1, 'x', a] => [1,'x',a]
[[1, [true]], !a, a || b] => [[1,[true]],(!a),(a || b)]
In(a) => In('a')
In('a') => In('a')
In ( "a b" ) => In('a b')
In('it\'s') => In('it\'s')
In => refused
In a => refused
In() => refused
In(1) => refused
In(true) => refused
In((a)) => refused
In(a.b) => refused
In(_event) => In('_event')
Inn => Inn
In1(a) => refused
_event => refused
_event. => refused
_event.name => _event.name
_event.type => _event.type
_event.sendid => _event.sendid
_event.origin => _event.origin
_event.origintype => _event.origintype
_event.invokeid => _event.invokeid
_event.data => _event.data
_event.data.x => _event.data.x
_event.data.name => _event.data.name
_event.data.data => _event.data.data
_event.data.true => refused
_event.data._event => _event.data._event
_event.data.x.y => refused
_event.data. => refused
_event.data[0] => _event.data[0]
_event.data.1 => refused
_event.dataa => refused
_event.Name => refused
_event . data . x => _event.data.x
_event['name'] => refused
_events => _events
_sessionid => _sessionid
_name => _name
_x => _x
a.b => refused
len(a) => len(a)
len => refused
len(a, b) => refused
len() => refused
length => length
lens => lens
text(1) => text(1)
text (-1) => text((-1))
text => refused
texts => texts
true => true
false => false
trueish => trueish
True => True
falsey && false => (falsey && false)
9223372036854775807 => 9223372036854775807
9223372036854775808 => refused
-9223372036854775807 => (-9223372036854775807)
-9223372036854775808 => refused
99999999999999999999 => refused
01 => refused
00 => refused
0 => 0
-0 => (-0)
1a => refused
1_0 => refused
1.5 => refused
0x10 => refused
'' => ''
"" => ''
'it\'s' => 'it\'s'
"it's" => 'it\'s'
'say "x"' => 'say "x"'
"\"\\\n\t'" => '"\\\n\t\''
'\x' => refused
'\r' => refused
'\ => refused
'a => refused
'a" => refused
"a' => refused
'a' 'b' => refused
'é€' => 'é€'
((a)) => a
() => refused
(a => refused
a) => refused
(a] => refused
a b => refused
a,b => refused
a; => refused
a ? b => refused
a | b => refused
a || | b => refused
# => refused
$a => refused
é => refused
 a  => a
  (  a+b  )   => (a + b)
    => refused"#;

/// Each line is a text, and how the value that it writes is printed.
const VALUES: &str = r#" => refused
true => true
false => false
True => refused
truer => refused
true false => refused
0 => 0
5 => 5
-5 => -5
- 5 => refused
-0 => refused
00 => refused
-01 => refused
+5 => refused
5. => refused
1e3 => refused
--5 => refused
9223372036854775807 => 9223372036854775807
9223372036854775808 => refused
-9223372036854775808 => -9223372036854775808
-9223372036854775809 => refused
'' => ''
'a b' => 'a b'
"it's" => 'it\'s'
'it\'s \\ \n\t' => 'it\'s \\ \n\t'
"é" => 'é'
'a => refused
'a' 'b' => refused
'\a' => refused
a => refused
null => refused
[] => []
[ ] => []
[1, 'x'] => [1,'x']
[ -1 , "y" ] => [-1,'y']
[1] => [1]
[true] => refused
[a] => refused
[[]] => [[]]
[[1]] => [[1]]
[ [ 1 , 'x' ] , [] , 2 ] => [[1,'x'],[],2]
[[[[[[[[1]]]]]]]] => [[[[[[[[1]]]]]]]]
[[[[[[[[[1]]]]]]]]] => refused
[[true]] => refused
[[1],] => refused
[[1] => refused
[[1]]] => refused
[1,] => refused
[,] => refused
[1 2] => refused
[1 => refused
1] => refused
[- 1] => refused
[-0] => refused
[] [] => refused
{} => refused
 5 => refused
5  => refused
 [1] => refused
[1]  => refused"#;

/// Each line is a text, and the milliseconds of the delay that it writes.
const DELAYS: &str = r#" => refused
0ms => 0
10ms => 10
007ms => 7
10s => 10000
0s => 0
1.5s => 1500
.5s => 500
.05s => 50
.005s => 5
0.250s => 250
1.0005s => refused
1.5ms => refused
1.s => refused
.s => refused
s => refused
ms => refused
.ms => refused
. => refused
10 => refused
1m => refused
1h => refused
1MS => refused
1S => refused
1 s => refused
 1s => refused
1s  => refused
+1s => refused
-1s => refused
1,5s => refused
1..5s => refused
1.5.5s => refused
1.5ss => refused
1e3s => refused
0001s => 1000
999999999.999s => 999999999999
1000000000s => 1000000000000
1000000000.001s => refused
1000000001s => refused
1000000000000ms => 1000000000000
1000000000001ms => refused
0000000000001ms => 1
00000000000001ms => refused
0000000000001s => 1000
00000000000001s => refused
0000000000001.5s => 1500
00000000000001.5s => refused"#;

/// Each line tells how a text is put together: how often, and what.
const LARGE_EXPRESSIONS: &str = r#"256 ( 1 a 256 ) => read
257 ( 1 a 257 ) => refused
255 a[ 1 a 255 ] => read
256 a[ 1 a 256 ] => refused
255 [ 1 a 255 ] => read
256 [ 256 ] => read
257 [ 257 ] => refused
255 len( 1 a 255 ) => read
256 len( 1 a 256 ) => refused
256 ( 1 In(a) 256 ) => refused
255 ( 1 In(a) 255 ) => read
255 ! 1 a => read
256 ! 1 a => refused
20000 ! 1 a => refused
255 - 1 a => read
256 -! 1 a => refused
1 a 255 +a => read
1 a 256 +a => refused
1 a 255 ||a => read
1 a 256 ||a => refused
1 a 255 [a] => read
1 a 256 [a] => refused
254 ! 1 ( 1 a 1 +b 1 ) => read
255 ! 1 ( 1 a 1 +b 1 ) => refused
1 [ 1000 a, 1 a] => read
1 a 600 +( 1 a 600 ) => refused
128 ( 255 - 1 a 128 ) => read
1 ' 4096 x 1 ' => read
1 ' 4097 x 1 ' => refused
1 ' 4096 \n 1 ' => read
1 ' 4097 \n 1 ' => refused
1 ' 1365 € 1 ' => read
1 ' 1366 € 1 ' => refused
5000 a => refused"#;

/// The same for expressions of the nested profile.
const LONG_EXPRESSIONS: &str = r#"1 ' 4097 x 1 ' => read
1 ' 65536 x 1 ' => read
1 ' 65537 x 1 ' => refused
1 [ 255 [a], 1 [a]] => read
256 [ 256 ] => read
257 [ 257 ] => refused"#;

/// The same for the texts of values.
const LARGE_VALUES: &str = r#"1 [ 255 -1, 1 -1] => read
1 [ 256 -1, 1 -1] => refused
1 ' 65536 x 1 ' => read
1 ' 65537 x 1 ' => refused
1 [ 1 ' 65536 x 1 '] => read
1 [ 1 ' 65537 x 1 '] => refused
8 [ 8 ] => read
9 [ 9 ] => refused
300 [ 300 ] => refused
1 1, 1 -1 => refused"#;

fn refused(alloc: Global) -> Result<Bytes, Fail> {
    Ok(Bytes::from_slice(alloc, b"refused")?)
}

/// How the expression of a text is printed; `refused` where it spells none.
fn expression(alloc: Global, text: &[u8], profile: Profile) -> Result<Bytes, Fail> {
    match read_expr(alloc, text, profile) {
        Err(ExprFault::NotExpr) => refused(alloc),
        read => Ok(print_expr(alloc, &read?)?),
    }
}

/// How the value of a text is printed; `refused` where it writes none.
fn value(alloc: Global, text: &[u8]) -> Result<Bytes, Fail> {
    match read_value(alloc, text) {
        Err(ExprFault::NotExpr) => refused(alloc),
        read => Ok(print_value(alloc, &read?)?),
    }
}

/// The milliseconds of a delay; `refused` where the text writes none.
fn delay(alloc: Global, text: &[u8]) -> Result<Bytes, Fail> {
    match read_delay(text) {
        Some(delay) => Ok(Bytes::from_slice(alloc, delay.to_string(alloc)?.as_bytes())?),
        None => refused(alloc),
    }
}

fn outcome(printed: &[u8]) -> &'static str {
    if printed == b"refused".as_slice() {
        "refused"
    } else {
        "read"
    }
}

#[test]
fn expressions_are_read_and_printed(rt: HostRuntime) -> Result<(), Fail> {
    for line in EXPRESSIONS.lines() {
        let (text, wanted) = line.split_once(" => ").unwrap_or((line, ""));
        let found = expression(rt.alloc(), text.as_bytes(), Profile::Flat)?;
        assert_eq!(rt; found.slice(), wanted.as_bytes(), "{text}");
    }
    Ok(())
}

#[test]
fn values_are_read_and_printed(rt: HostRuntime) -> Result<(), Fail> {
    for line in VALUES.lines() {
        let (text, wanted) = line.split_once(" => ").unwrap_or((line, ""));
        let found = value(rt.alloc(), text.as_bytes())?;
        assert_eq!(rt; found.slice(), wanted.as_bytes(), "{text}");
    }
    Ok(())
}

#[test]
fn delays_are_read(rt: HostRuntime) -> Result<(), Fail> {
    for line in DELAYS.lines() {
        let (text, wanted) = line.split_once(" => ").unwrap_or((line, ""));
        let found = delay(rt.alloc(), text.as_bytes())?;
        assert_eq!(rt; found.slice(), wanted.as_bytes(), "{text}");
    }
    Ok(())
}

#[test]
fn expressions_have_limits(rt: HostRuntime) -> Result<(), Fail> {
    for line in LARGE_EXPRESSIONS.lines() {
        let (recipe, wanted) = line.split_once(" => ").unwrap_or((line, ""));
        let text = large(rt.alloc(), recipe)?;
        let found = expression(rt.alloc(), &text, Profile::Flat)?;
        assert_eq!(rt; outcome(found.slice()), wanted, "{recipe}");
    }
    for line in LONG_EXPRESSIONS.lines() {
        let (recipe, wanted) = line.split_once(" => ").unwrap_or((line, ""));
        let text = large(rt.alloc(), recipe)?;
        let found = expression(rt.alloc(), &text, Profile::Nested)?;
        assert_eq!(rt; outcome(found.slice()), wanted, "nested: {recipe}");
    }
    Ok(())
}

#[test]
fn values_have_limits(rt: HostRuntime) -> Result<(), Fail> {
    for line in LARGE_VALUES.lines() {
        let (recipe, wanted) = line.split_once(" => ").unwrap_or((line, ""));
        let text = large(rt.alloc(), recipe)?;
        let found = value(rt.alloc(), &text)?;
        assert_eq!(rt; outcome(found.slice()), wanted, "{recipe}");
    }
    Ok(())
}

#[test]
fn a_text_takes_no_control_byte_and_is_utf_8(rt: HostRuntime) -> Result<(), Fail> {
    for text in [
        b"'\x7f'".as_slice(),
        b"'\n'",
        b"'\t'",
        b"'\\\n'",
        b"'\xff'",
        b"a\x0c",
    ] {
        assert_eq!(rt;
            expression(rt.alloc(), text, Profile::Flat)?.slice(),
            b"refused".as_slice(),
            "{text:?}"
        );
        assert_eq!(rt;
            value(rt.alloc(), text)?.slice(),
            b"refused".as_slice(),
            "{text:?}"
        );
    }
    let around = expression(rt.alloc(), b"\r\n\ta\r\n\t", Profile::Flat)?;
    assert_eq!(rt; around.slice(), b"a".as_slice());
    Ok(())
}

#[test]
fn a_mebibyte_of_one_byte_spells_nothing(rt: HostRuntime) -> Result<(), Fail> {
    for (byte, before_a) in [(b' ', "a"), (b'9', "refused"), (b'(', "refused")] {
        let mut text = Vec::new(rt.alloc());
        for _ in 0..1024 {
            text.extend_from_slice(&[byte; 1024])?;
        }
        assert_eq!(rt;
            expression(rt.alloc(), &text, Profile::Flat)?.slice(),
            b"refused".as_slice()
        );
        assert_eq!(rt; value(rt.alloc(), &text)?.slice(), b"refused".as_slice());
        assert!(rt; read_delay(&text).is_none());
        text.push(b'a')?;
        assert_eq!(rt;
            expression(rt.alloc(), &text, Profile::Flat)?.slice(),
            before_a.as_bytes()
        );
    }
    Ok(())
}
