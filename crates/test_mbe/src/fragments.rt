//! Patterns with fragments of Rust's grammar, each with an input and in how many ways it is an instance of the pattern.
use crate::texts::holds;
use crate::ways::are_ways;
use std::test::Fail;

// A pattern, an input, and in how many ways the input is an instance. Each of these fragments takes as much as the grammar
// allows, and no less, so it leaves no choice. If brackets contain something else than they must, it takes nothing; the compiler ends with
// an error there.
const PIECES: [(&str, &str, usize); 63] = [
    ("$e:expr", "a + b * c", 1),
    ("$e:expr", "a b", 0),
    ("$e:expr", "", 0),
    ("$e:expr", "a +", 0),
    ("$($e:expr),*", "a + 1, f(x), if a { b } else { c }", 1),
    ("$($e:expr),*", "", 1),
    ("$e:expr => $t:tt", "a || b => c", 1),
    ("$e:expr + b", "a + b", 0),
    ("$($x:tt)* $e:expr", "a b", 1),
    ("$($x:tt)* $e:expr", "- b", 2),
    ("$e:expr_2021;", "a.b(c)?;", 1),
    ("$e:expr_2021", "a, b", 0),
    ("$($e:expr_2021)*", "1 2", 1),
    ("$t:ty", "Vec<Vec<u8>>", 1),
    ("$t:ty $x:ident", "&'a mut [u8] x", 1),
    ("$t:ty", "a b", 0),
    ("$t:ty", "1", 0),
    ("$($n:ident: $t:ty),*", "a: u8, b: &dyn A", 1),
    ("$p:pat => $e:expr", "Some(x) | None => 1", 1),
    ("$p:pat", "1..=2", 1),
    ("$p:pat | $q:pat", "1 | 2", 0),
    ("$($p:pat)|*", "1 | 2", 1),
    ("$p:pat", "+", 0),
    ("$p:pat_param | $q:pat_param", "1 | 2", 1),
    ("$p:pat_param", "1 | 2", 0),
    ("$($p:pat_param)|*", "1 | 2", 1),
    ("$p:path;", "a::b<c>;", 1),
    ("$p:path", "a + b", 0),
    ("$p:path ! $t:tt", "a::b!(c)", 1),
    ("$p:path", "(a)", 0),
    ("$($s:stmt;)*", "let a = 1; f();", 1),
    ("$s:stmt", "let a = 1;", 0),
    ("$s:stmt", "struct A;", 1),
    ("$s:stmt $t:tt", "; a", 1),
    ("$($i:item)*", "fn f() {} struct A(u8); mod a { }", 1),
    ("$i:item", "pub const A: u8 = 1;", 1),
    ("$i:item", "let a = 1;", 0),
    ("$v:vis $i:item", "pub struct A;", 1),
    ("#[$m:meta]", "#[derive(Debug, Clone)]", 1),
    ("#[$m:meta]", "#[doc = \"a\"]", 1),
    ("#[$m:meta]", "#[(a)]", 0),
    ("$(#[$m:meta])* struct", "#[a] #[b(c)] struct", 1),
    ("$(#[$m:meta])* $i:item", "#[a] struct A;", 2),
    ("$($e:expr)? $t:ty", "a", 1),
    ("$($e:expr)? $($t:ty)?", "a", 2),
    ("($e:expr) $x:tt", "(a - 1) b", 1),
    ("$e:expr", "(1 + 2)", 1),
    ("$e:expr", "(1 +)", 0),
    ("$e:expr", "f([a, (b +)])", 0),
    ("$e:expr", "m!(1 +)", 1),
    ("$t:ty", "[u8; 1 +]", 0),
    ("$t:ty", "fn((A, B)) -> [C]", 1),
    ("$p:pat", "(a b)", 0),
    ("$p:pat", "A { b: [c, ..], .. }", 1),
    ("$s:stmt", "let a = { b c }", 0),
    ("$s:stmt", "let a = { b; c }", 1),
    ("$i:item", "fn f() { let = 1; }", 0),
    ("$i:item", "mod a { fn b() { c! { 1 + } } }", 1),
    ("#[$m:meta]", "#[a(1 +)]", 1),
    ("$b:block", "{ 1 2, }", 0),
    ("$b:block", "{ let a = 1; a }", 1),
    ("$b:block", "{ #![a] }", 0),
    ("$b:block", "{ { 1 + } }", 0),
];

#[test]
fn pieces_of_rust_are_taken_in_so_many_ways(rt: HostRuntime) -> Result<(), Fail> {
    holds(are_ways(rt.alloc(), &PIECES))
}
