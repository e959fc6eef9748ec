//! Texts, and the number of trees that a fragment takes of each. The compiler takes the same number.
use crate::reach::{Row, all_are_taken};
use mbe_pattern::GrammarFragment;
use std::test::Fail;

// A list of arguments that `>>` closes, and one with `>=` after it; a comparison; a struct literal, but not after `if`; an operator
// without an operand; what follows a block as a statement; operators with another after them; `_` and `const` blocks, with which no
// `expr_2021` begins; calls after jumps and closures.
const ROWS: [Row; 9] = [
    Row {
        fragment: GrammarFragment::Expr,
        texts: &[
            ("a < b", 3),
            ("a < b, c > (d)", 3),
            ("f::<A<B>>(x)", 10),
            ("if S {} {} b", 3),
            ("match x { _ => 1 } + 2, y", 5),
            ("|x: u8| x + 1; z", 8),
            ("&mut a.b[0]? as Vec<u8> >> 1", 15),
            ("a +", 0),
            ("..=b", 4),
            ("'a: loop {} + c", 7),
            ("return", 1),
            ("let x = 1", 0),
            ("fn", 0),
            ("x = y..", 5),
            ("if let A = b && c {} else {}", 11),
            ("async move {} => d", 3),
            ("m!{} .. e", 6),
            ("r#if + true", 3),
            ("a => b", 1),
            ("-1.0 - -x.0", 7),
            ("_", 1),
            ("const {} + 1", 4),
            ("&raw const a", 4),
            ("return (a).b", 4),
            ("|| {}(a)", 4),
            ("a.b::<c>(d)", 9),
        ],
    },
    Row {
        fragment: GrammarFragment::Expr2021,
        texts: &[
            ("_", 0),
            ("const {}", 0),
            ("a = _", 3),
            ("a + const {}", 4),
            ("1 + 2 => x", 3),
        ],
    },
    Row {
        fragment: GrammarFragment::Ty,
        texts: &[
            ("A<B<C>>, d", 7),
            ("A<B<C<D>>>= e", 10),
            ("&'a mut dyn F + G", 0),
            ("for<'a> fn(&'a u8) -> u8 = f", 10),
            ("<T as A>::B<C> {}", 11),
            ("impl A + 'static", 5),
            ("[u8; 4] => x", 1),
            ("(A)", 1),
            ("A<1, -1, true, {x}, K = V, L: M>", 19),
            ("'a + B", 4),
            ("mut T", 0),
            ("dyn", 1),
            ("A + !B", 4),
            ("where", 0),
        ],
    },
    Row {
        fragment: GrammarFragment::Pat,
        texts: &[
            ("A | B if c", 3),
            ("x @ 1..=2 | 3 => y", 9),
            ("&mut (a, b) = c", 3),
            ("ref mut a", 3),
            ("<T>::A { .. }, b", 7),
            ("a::B::<C>(d) => e", 10),
            ("|| a", 0),
            ("..", 2),
            ("-1 | _", 4),
            ("a | &!", 4),
            ("true..=false", 5),
            ("A(b) ..", 2),
            ("mut", 0),
            ("union", 1),
            ("yield", 0),
            ("become", 0),
            ("typeof", 0),
            ("priv", 0),
            ("abstract", 0),
            ("override", 0),
            ("unsized", 0),
            ("virtual", 0),
            ("final", 0),
            ("do", 0),
            ("try", 0),
            ("box", 0),
        ],
    },
    Row {
        fragment: GrammarFragment::PatParam,
        texts: &[
            ("A | B", 1),
            ("1.. => a", 3),
            ("x: u8", 1),
            ("| A", 0),
            ("!", 0),
            ("m!(1) + 2", 3),
        ],
    },
    Row {
        fragment: GrammarFragment::Path,
        texts: &[
            ("a::b<C>::D", 10),
            ("Fn(A) -> B + C", 5),
            ("::a::{b}", 3),
            ("Vec<Vec<u8>>", 7),
            ("a < b c", 0),
            ("self !", 1),
            ("a::", 0),
        ],
    },
    Row {
        fragment: GrammarFragment::Stmt,
        texts: &[
            ("let (a, b): C = d else {}; e", 8),
            ("{} + 1", 1),
            ("{}.a() + 1", 6),
            ("if a {} b", 3),
            ("m!{} c", 3),
            ("m!() + 1", 5),
            ("fn f() {} a", 4),
            ("union + 1", 3),
            ("x = 1; y", 3),
            ("#[a] struct A;", 5),
            (";", 1),
            ("let", 0),
            ("async {} + 1", 4),
            ("default;", 1),
        ],
    },
    Row {
        fragment: GrammarFragment::Item,
        texts: &[
            ("pub(crate) fn f<'a, T: A>(x: u8) -> T where T: B, {} a", 22),
            ("impl<T> !A for [u8; 2] {} c", 9),
            ("use a::{b} as c;", 0),
            ("use a::{b, c};", 6),
            ("m! {} d", 3),
            ("m![];", 4),
            ("extern \"C\" {}", 3),
            ("trait A: B + C {}", 7),
            ("const fn", 0),
            ("let x = 1;", 0),
            ("#[a] macro_rules! b { }", 6),
            ("const A: &str = \"b\";", 8),
            ("unsafe impl A for B {}", 6),
            ("enum A {}", 3),
            ("type A<T> = B<T>; c", 11),
            ("impl ! {}", 3),
            ("type A where B: C = D;", 9),
        ],
    },
    Row {
        fragment: GrammarFragment::Meta,
        texts: &[
            ("a::b = 1 + 2, c", 8),
            ("unsafe(a) b", 2),
            ("a(b) c", 2),
            ("crate::a", 4),
            ("1", 0),
        ],
    },
];

#[test]
fn fragments_reach_so_far(rt: HostRuntime) -> Result<(), Fail> {
    if all_are_taken(rt.alloc(), &ROWS) {
        Ok(())
    } else {
        Err(Fail::new("a fragment reaches otherwise"))
    }
}
