//! Runs of small programs, and programs of small patterns.
use crate::counting::part_numbers;
use crate::part::part_in;
use crate::{Answer, Found, Instruction, Matcher, Part, program_of, run, waiting};
use mbe_pattern::{Fragment, RepeatKind, Variable};
use std::alloc::{AllocError, Global};
use std::test::Fail;
use tt::{
    Delimiter, DelimiterKind, ErasedFileAstId, FileId, Ident, IdentIsRaw, Leaf, Punct, Spacing,
    Span, SpanAnchor, Symbol, SyntaxContext, TextRange, TextSize, TopSubtree, TopSubtreeBuilder,
    TtFault,
};

// A span of no byte.
fn span() -> Span {
    Span {
        range: TextRange::empty(TextSize::new(0)),
        anchor: SpanAnchor {
            file_id: FileId(0),
            ast_id: ErasedFileAstId(0),
        },
        ctx: SyntaxContext(0),
    }
}

// A punct.
fn punct(char: char) -> Leaf {
    Leaf::Punct(Punct {
        char,
        spacing: Spacing::Alone,
        span: span(),
    })
}

// The instruction that takes one tree.
fn take(alloc: Global) -> Result<Instruction, TtFault> {
    Ok(Instruction::Take(Variable {
        name: Symbol::new(alloc, "x")?,
        fragment: Fragment::Tt,
    }))
}

// What a run answers: `none` with the farthest place, `one` with the number of marks, or `two`.
#[derive(Debug, Clone, Copy, PartialEq, Eq)]
enum Said {
    None(usize),
    One(usize),
    Two,
}

// What an answer says.
fn said_of(answer: &Answer<'_>) -> Said {
    match answer {
        Answer::NoRun(at) => Said::None(*at),
        Answer::OneRun(marks) => Said::One(marks.len()),
        Answer::TwoRuns => Said::Two,
    }
}

// What a run of the program through these puncts answers.
fn answer_to<const N: usize>(
    alloc: Global,
    program: &[Instruction],
    puncts: [Leaf; N],
) -> Result<Said, TtFault> {
    let tree = TopSubtree::invisible_from_leaves(alloc, span(), puncts)?;
    let answer = run(alloc, program, tree.token_trees().iter())?;
    Ok(said_of(&answer))
}

// `$x:tt ,` has one run through a tree and a comma, and stops at any other token.
#[test]
fn a_run_ends_or_stops(rt: HostRuntime) -> Result<(), Fail> {
    let alloc = rt.alloc();
    let program = vec![in alloc;
        take(alloc)?,
        Instruction::Pass(vec![in alloc; punct(',')]?),
        Instruction::Leave,
    ]?;
    assert_eq!(rt;
        answer_to(alloc, &program, [punct(';'), punct(',')])?,
        Said::One(1)
    );
    assert_eq!(rt;
        answer_to(alloc, &program, [punct(';'), punct(';')])?,
        Said::None(1)
    );
    assert_eq!(rt; answer_to(alloc, &program, [punct(';')])?, Said::None(1));
    assert_eq!(rt; answer_to(alloc, &program, [])?, Said::None(0));
    assert_eq!(rt;
        answer_to(alloc, &program, [punct(';'), punct(','), punct(',')])?,
        Said::None(2)
    );
    Ok(())
}

// `$($x:tt)* $($y:tt)*` has one run through nothing, and several through one tree.
#[test]
fn runs_are_counted(rt: HostRuntime) -> Result<(), Fail> {
    let alloc = rt.alloc();
    let program = vec![in alloc;
        Instruction::Begin(RepeatKind::ZeroOrMore, 6, 4),
        take(alloc)?,
        Instruction::Close(RepeatKind::ZeroOrMore, 6),
        Instruction::Begin(RepeatKind::ZeroOrMore, 3, 1),
        take(alloc)?,
        Instruction::Close(RepeatKind::ZeroOrMore, 3),
        Instruction::Leave,
    ]?;
    assert_eq!(rt; answer_to(alloc, &program, [])?, Said::One(2));
    assert_eq!(rt; answer_to(alloc, &program, [punct(';')])?, Said::Two);
    Ok(())
}

// The numbers of the parts that wait at that place of these puncts.
fn wait_at<const N: usize>(
    alloc: Global,
    program: &[Instruction],
    puncts: [Leaf; N],
    at: usize,
) -> Result<Vec<usize>, TtFault> {
    let tree = TopSubtree::invisible_from_leaves(alloc, span(), puncts)?;
    Ok(waiting(alloc, program, tree.token_trees().iter(), at)?)
}

// Of `$($x:tt),* .` the variable, part 0, and the `.`, part 2, wait at the end of nothing, the `.` at a `;`, and the `,`, part 1,
// and the `.` behind it.
#[test]
fn parts_wait(rt: HostRuntime) -> Result<(), Fail> {
    let alloc = rt.alloc();
    let program = vec![in alloc;
        Instruction::Begin(RepeatKind::ZeroOrMore, 4, 2),
        Instruction::Pass(vec![in alloc; punct(',')]?),
        take(alloc)?,
        Instruction::Close(RepeatKind::ZeroOrMore, 5),
        Instruction::Pass(vec![in alloc; punct('.')]?),
        Instruction::Leave,
    ]?;
    assert_eq!(rt; wait_at(alloc, &program, [], 0)?, vec![in alloc; 0, 2]?);
    assert_eq!(rt;
        wait_at(alloc, &program, [punct(';'), punct(';')], 0)?,
        vec![in alloc; 2]?
    );
    assert_eq!(rt;
        wait_at(alloc, &program, [punct(';'), punct(';')], 1)?,
        vec![in alloc; 1, 2]?
    );
    assert_eq!(rt;
        wait_at(alloc, &program, [punct(';'), punct(';')], 3)?,
        Vec::new(alloc)
    );
    Ok(())
}

// The leaf of a word.
fn leaf_of(alloc: Global, word: &str) -> Result<Leaf, TtFault> {
    match word.chars().next() {
        Some(char) if !char.is_ascii_alphabetic() => Ok(punct(char)),
        _ => Ok(Leaf::Ident(Ident {
            sym: Symbol::new(alloc, word)?,
            span: span(),
            is_raw: IdentIsRaw::No,
        })),
    }
}

// Adds what a word spells: a parenthesis or a brace opens or closes a subtree, and any other word is a leaf.
fn add_word(alloc: Global, builder: &mut TopSubtreeBuilder, word: &str) -> Result<(), TtFault> {
    match word {
        "(" => builder.open(DelimiterKind::Parenthesis, span()),
        "{" => builder.open(DelimiterKind::Brace, span()),
        ")" | "}" => {
            if builder.is_open() {
                builder.close(span())?;
            }
            Ok(())
        }
        _ => Ok(builder.push(leaf_of(alloc, word)?)?),
    }
}

// The tree of words with spaces between them.
fn tree_of(alloc: Global, text: &str) -> Result<TopSubtree, TtFault> {
    let mut builder = TopSubtreeBuilder::new(alloc, Delimiter::invisible_spanned(span()))?;
    for word in text.split_whitespace() {
        add_word(alloc, &mut builder, word)?;
    }
    if builder.is_open() {
        return Err(TtFault::NotOneSubtree);
    }
    Ok(builder.build()?)
}

// The sign of a repetition.
fn sign(kind: RepeatKind) -> char {
    match kind {
        RepeatKind::ZeroOrMore => '*',
        RepeatKind::OneOrMore => '+',
        RepeatKind::ZeroOrOne => '?',
    }
}

// The bracket that opens a subtree.
fn bracket(kind: DelimiterKind) -> char {
    match kind {
        DelimiterKind::Parenthesis => '(',
        DelimiterKind::Brace => '{',
        DelimiterKind::Bracket => '[',
        DelimiterKind::Invisible | DelimiterKind::InvisibleOpaque => '<',
    }
}

// Writes leaves behind a text.
fn write_leaves(text: &mut String, leaves: &[Leaf]) -> Result<(), AllocError> {
    for leaf in leaves {
        write!(text, "{leaf}")?;
    }
    Ok(())
}

// Writes behind a text that a variable takes trees.
fn write_take(text: &mut String, variable: &Variable) -> Result<(), AllocError> {
    write!(text, "take {}; ", variable.name)
}

// Writes behind a text that a token of these leaves is passed.
fn write_pass(text: &mut String, leaves: &[Leaf]) -> Result<(), AllocError> {
    write!(text, "pass ")?;
    write_leaves(text, leaves)?;
    write!(text, "; ")
}

// Writes an instruction behind a text.
fn write_instruction(text: &mut String, instruction: &Instruction) -> Result<(), AllocError> {
    match instruction {
        Instruction::Take(variable) => write_take(text, variable),
        Instruction::Pass(leaves) => write_pass(text, leaves),
        Instruction::Enter(kind) => write!(text, "enter {}; ", bracket(*kind)),
        Instruction::Leave => write!(text, "leave; "),
        Instruction::Begin(kind, first, behind) => {
            write!(text, "begin{} {first} {behind}; ", sign(*kind))
        }
        Instruction::Close(kind, again) => write!(text, "close{} {again}; ", sign(*kind)),
    }
}

// The text of the program of a pattern.
fn program_text(alloc: Global, pattern: &str) -> Result<String, TtFault> {
    let tree = tree_of(alloc, pattern)?;
    let mut text = String::new(alloc);
    for instruction in &program_of(alloc, tree.token_trees().iter())? {
        write_instruction(&mut text, instruction)?;
    }
    Ok(text)
}

// Patterns and their programs. The numbers of a beginning say how many instructions are left at its first round and behind all rounds, and
// the number of a close how many are left at another round.
const PROGRAMS: [(&str, &str); 7] = [
    ("", "leave; "),
    ("$ x : tt ,", "take x; pass ,; leave; "),
    ("( $ x : tt ) a", "enter (; take x; leave; pass a; leave; "),
    ("$ ( $ x : tt ) +", "begin+ 3 1; take x; close+ 3; leave; "),
    (
        "$ ( $ x : tt ) , * ;",
        "begin* 4 2; pass ,; take x; close* 5; pass ;; leave; ",
    ),
    (
        "{ $ ( a ) * b } c",
        "enter {; begin* 6 4; pass a; close* 6; pass b; leave; pass c; leave; ",
    ),
    (
        "$ ( $ ( $ x : tt ) , * ; ) ?",
        "begin? 7 1; begin* 5 3; pass ,; take x; close* 6; pass ;; close? 7; leave; ",
    ),
];

#[test]
fn patterns_have_programs(rt: HostRuntime) -> Result<(), Fail> {
    for (pattern, wanted) in PROGRAMS {
        let text = program_text(rt.alloc(), pattern)?;
        assert_eq!(rt; text.as_str(), wanted);
    }
    Ok(())
}

// The text of the parts of a pattern, by their numbers.
fn parts_text(alloc: Global, pattern: &str) -> Result<String, TtFault> {
    let tree = tree_of(alloc, pattern)?;
    let mut text = String::new(alloc);
    let program = program_of(alloc, tree.token_trees().iter())?;
    let numbers = part_numbers(alloc, &program)?;
    for number in 0..=program.len() {
        match part_in(&program, &numbers, number) {
            Some(Part::Take(variable)) => write_take(&mut text, variable)?,
            Some(Part::Same(leaves)) => write_pass(&mut text, leaves)?,
            Some(Part::Enter(kind)) => write!(text, "enter {}; ", bracket(kind))?,
            Some(Part::Leave) => write!(text, "leave; ")?,
            None => {}
        }
    }
    Ok(text)
}

// A separator comes after its round, and the end of the input is the last part.
#[test]
fn parts_have_numbers(rt: HostRuntime) -> Result<(), Fail> {
    let alloc = rt.alloc();
    assert_eq!(rt; parts_text(alloc, "")?.as_str(), "leave; ");
    assert_eq!(rt;
        parts_text(alloc, "$ ( $ x : tt ) , * ;")?.as_str(),
        "take x; pass ,; pass ;; leave; "
    );
    assert_eq!(rt;
        parts_text(alloc, "{ $ ( a ) * b } c")?.as_str(),
        "enter {; pass a; pass b; leave; pass c; leave; "
    );
    Ok(())
}

// What the matcher of a pattern answers to an input; none if the pattern has a fault.
fn said_by(alloc: Global, pattern: &str, input: &str) -> Result<Option<Said>, TtFault> {
    let pattern = tree_of(alloc, pattern)?;
    let Ok(matcher) = Matcher::new(alloc, pattern.token_trees().iter()) else {
        return Ok(None);
    };
    let input = tree_of(alloc, input)?;
    let found = matcher.read(alloc, input.token_trees().iter())?;
    Ok(Some(match found {
        Found::Nothing(at) => Said::None(at),
        Found::One(binding) => Said::One(binding.marks().len()),
        Found::Many => Said::Two,
    }))
}

// `$($x:tt),*` reads trees with commas between them: it notes each tree, each round, and that there is no further one.
#[test]
fn patterns_read_inputs(rt: HostRuntime) -> Result<(), Fail> {
    let alloc = rt.alloc();
    let list = "$ ( $ x : tt ) , *";
    assert_eq!(rt; said_by(alloc, list, "")?, Some(Said::One(1)));
    assert_eq!(rt; said_by(alloc, list, "a , ( b c )")?, Some(Said::One(5)));
    assert_eq!(rt; said_by(alloc, list, "a , ( b c ) d")?, Some(Said::None(5)));
    assert_eq!(rt;
        said_by(alloc, "$ ( $ x : tt ) * $ ( $ y : tt ) *", "a")?,
        Some(Said::Two)
    );
    assert_eq!(rt; said_by(alloc, "$ x : nothing", "a")?, None);
    Ok(())
}
