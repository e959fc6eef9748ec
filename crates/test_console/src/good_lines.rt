//! Lines, each with the command that it means.
use app_language::Command;
use std::alloc::Global;
use std::test::Fail;
use tt_base::TtFault;

// Lines, each with an equals sign and the Debug text of its command, which has all fields. One text for each topic, with the number
// of its lines and a line feed between them.
const LINES: [(u32, &[u8]); 7] = [
    // Slots, and commands that take only a slot, a number or a character.
    (
        37,
        b"clear=Clear\n\
      list 0=List(Slot { number: 0 })\n\
      list 15=List(Slot { number: 15 })\n\
      append 0=Append(Slot { number: 0 })\n\
      alone 15=Alone(Slot { number: 15 })\n\
      unwrap=Unwrap\n\
      point=Point\n\
      restore 0=Restore(0)\n\
      restore 18446744073709551615=Restore(18446744073709551615)\n\
      expected=Expected\n\
      counts=Counts\n\
      build 0=Build(Slot { number: 0 })\n\
      skip 15=Skip(Slot { number: 15 })\n\
      copy 0 15=Copy(Slot { number: 0 }, Slot { number: 15 })\n\
      show 15=View(Show, Slot { number: 15 })\n\
      pretty 0=View(Pretty, Slot { number: 0 })\n\
      debug 15=View(Debug, Slot { number: 15 })\n\
      flat 15=View(Flat, Slot { number: 15 })\n\
      siblings 0=View(Siblings, Slot { number: 0 })\n\
      walk 15=View(Walk, Slot { number: 15 })\n\
      glue 0=View(Glue, Slot { number: 0 })\n\
      bytes 0=View(Bytes, Slot { number: 0 })\n\
      parts 0=View(Parts, Slot { number: 0 })\n\
      symbols 0=View(Symbols, Slot { number: 0 })\n\
      split 0 ;=Split(Slot { number: 0 }, ';')\n\
      split 15  =Split(Slot { number: 15 }, ' ')\n\
      split 15 \xe2\x86\x92=Split(Slot { number: 15 }, '\xe2\x86\x92')\n\
      expand 15 0 15 0=Expand(Slot { number: 15 }, Slot { number: 0 }, Slot { number: 15 }, Slot { number: 0 })\n\
      arms 0 15 0=Arms(Slot { number: 0 }, Slot { number: 15 }, Slot { number: 0 })\n\
      equal 0 15=Equal(Slot { number: 0 }, Slot { number: 15 })\n\
      equal 15 0=Equal(Slot { number: 15 }, Slot { number: 0 })\n\
      save 15=Save(Slot { number: 15 })\n\
      load 0 =Load(Slot { number: 0 }, [])\n\
      load 15 00ff7a=Load(Slot { number: 15 }, [0, 255, 122])\n\
      read 0 =Read(Slot { number: 0 }, \"\")\n\
      read 15  \xc3\xa9 \" =Read(Slot { number: 15 }, \" \xc3\xa9 \\\" \")\n\
      text 15=Text(Slot { number: 15 })",
    ),
    // The builder.
    (
        4,
        b"new brace 1:2@3..3#4 4294967295:4294967295@4294967295..4294967295#4294967295=New(Delimiter { open_span: 1:2@3..3#4, close: 4294967295:4294967295@4294967295..4294967295#4294967295, kind: Brace })\n\
      open bracket 1:2@3..3#4=Open(Bracket, 1:2@3..3#4)\n\
      push punct joint 1:2@3..3#4 ,=Push(Punct(Punct { char: ',', spacing: Joint, span: 1:2@3..3#4 }))\n\
      close 1:2@3..3#4=Close(1:2@3..3#4)",
    ),
    // Changed trees.
    (
        9,
        b"kind 15 bracket=Kind(Slot { number: 15 }, Bracket)\n\
      kind 15 opaque=Kind(Slot { number: 15 }, InvisibleOpaque)\n\
      spans 0 1:2@3..3#4 4294967295:4294967295@4294967295..4294967295#4294967295=Spans(Slot { number: 0 }, 1:2@3..3#4, 4294967295:4294967295@4294967295..4294967295#4294967295)\n\
      set 0 4294967295 punct joint 1:2@3..3#4 ,=Set(Slot { number: 0 }, 4294967295, Punct(Punct { char: ',', spacing: Joint, span: 1:2@3..3#4 }))\n\
      ids 15=Ids(Slot { number: 15 }, [])\n\
      ids 15 5=Ids(Slot { number: 15 }, [5])\n\
      ids 15 4294967295 0 7=Ids(Slot { number: 15 }, [4294967295, 0, 7])\n\
      rewrite 0 keep put:15 remove put:0=Rewrite(Slot { number: 0 }, [Keep, Put(Slot { number: 15 }), Remove, Put(Slot { number: 0 })])\n\
      rewrite 15=Rewrite(Slot { number: 15 }, [])",
    ),
    // Headers.
    (
        6,
        b"item sub paren 1:2@3..3#4 1:2@3..3#4 0=Item(Subtree(Subtree { delimiter: Delimiter { open_span: 1:2@3..3#4, close: 1:2@3..3#4, kind: Parenthesis }, len: 0 }))\n\
      item sub brace 1:2@3..3#4 1:2@3..3#4 10=Item(Subtree(Subtree { delimiter: Delimiter { open_span: 1:2@3..3#4, close: 1:2@3..3#4, kind: Brace }, len: 10 }))\n\
      item sub bracket 1:2@3..3#4 1:2@3..3#4 1=Item(Subtree(Subtree { delimiter: Delimiter { open_span: 1:2@3..3#4, close: 1:2@3..3#4, kind: Bracket }, len: 1 }))\n\
      item sub invisible 1:2@3..3#4 1:2@3..3#4 1=Item(Subtree(Subtree { delimiter: Delimiter { open_span: 1:2@3..3#4, close: 1:2@3..3#4, kind: Invisible }, len: 1 }))\n\
      item sub opaque 1:2@3..3#4 1:2@3..3#4 1=Item(Subtree(Subtree { delimiter: Delimiter { open_span: 1:2@3..3#4, close: 1:2@3..3#4, kind: InvisibleOpaque }, len: 1 }))\n\
      item sub paren 1:2@3..3#4 4294967295:4294967295@4294967295..4294967295#4294967295 4294967295=Item(Subtree(Subtree { delimiter: Delimiter { open_span: 1:2@3..3#4, close: 4294967295:4294967295@4294967295..4294967295#4294967295, kind: Parenthesis }, len: 4294967295 }))",
    ),
    // Puncts.
    (
        4,
        b"item punct alone 1:2@3..3#4 ;=Item(Leaf(Punct(Punct { char: ';', spacing: Alone, span: 1:2@3..3#4 })))\n\
      item punct joint 1:2@3..3#4  =Item(Leaf(Punct(Punct { char: ' ', spacing: Joint, span: 1:2@3..3#4 })))\n\
      item punct hidden 1:2@3..3#4 \xe2\x86\x92=Item(Leaf(Punct(Punct { char: '\xe2\x86\x92', spacing: JointHidden, span: 1:2@3..3#4 })))\n\
      item punct alone 1:2@3..3#4 \r=Item(Leaf(Punct(Punct { char: '\\r', spacing: Alone, span: 1:2@3..3#4 })))",
    ),
    // Idents.
    (
        6,
        b"item ident plain 1:2@3..3#4 a=Item(Leaf(Ident(Ident { sym: \"a\", span: 1:2@3..3#4, is_raw: No })))\n\
      item ident raw 1:2@3..3#4 type=Item(Leaf(Ident(Ident { sym: \"type\", span: 1:2@3..3#4, is_raw: Yes })))\n\
      item ident plain 1:2@3..3#4 r#a=Item(Leaf(Ident(Ident { sym: \"r#a\", span: 1:2@3..3#4, is_raw: No })))\n\
      item ident plain 1:2@3..3#4 =Item(Leaf(Ident(Ident { sym: \"\", span: 1:2@3..3#4, is_raw: No })))\n\
      item ident plain 1:2@3..3#4  a b =Item(Leaf(Ident(Ident { sym: \" a b \", span: 1:2@3..3#4, is_raw: No })))\n\
      item ident plain 1:2@3..3#4 a\r=Item(Leaf(Ident(Ident { sym: \"a\\r\", span: 1:2@3..3#4, is_raw: No })))",
    ),
    // Literals.
    (
        11,
        b"item lit byte 0 1:2@3..3#4 x=Item(Leaf(Literal(Literal { symbol: \"x\", span: 1:2@3..3#4, kind: Byte, suffix_len: 0 })))\n\
      item lit char 0 1:2@3..3#4 \xe2\x86\x92=Item(Leaf(Literal(Literal { symbol: \"\xe2\x86\x92\", span: 1:2@3..3#4, kind: Char, suffix_len: 0 })))\n\
      item lit int 3 1:2@3..3#4 12u32=Item(Leaf(Literal(Literal { symbol: \"12u32\", span: 1:2@3..3#4, kind: Integer, suffix_len: 3 })))\n\
      item lit float 0 1:2@3..3#4 1.5=Item(Leaf(Literal(Literal { symbol: \"1.5\", span: 1:2@3..3#4, kind: Float, suffix_len: 0 })))\n\
      item lit str 0 1:2@3..3#4 =Item(Leaf(Literal(Literal { symbol: \"\", span: 1:2@3..3#4, kind: Str, suffix_len: 0 })))\n\
      item lit bstr 0 1:2@3..3#4 a=Item(Leaf(Literal(Literal { symbol: \"a\", span: 1:2@3..3#4, kind: ByteStr, suffix_len: 0 })))\n\
      item lit cstr 1 1:2@3..3#4 a=Item(Leaf(Literal(Literal { symbol: \"a\", span: 1:2@3..3#4, kind: CStr, suffix_len: 1 })))\n\
      item lit err 2 1:2@3..3#4 \xc3\xa9=Item(Leaf(Literal(Literal { symbol: \"\xc3\xa9\", span: 1:2@3..3#4, kind: Err(()), suffix_len: 2 })))\n\
      item lit rstr:255 0 1:2@3..3#4 a b=Item(Leaf(Literal(Literal { symbol: \"a b\", span: 1:2@3..3#4, kind: StrRaw(255), suffix_len: 0 })))\n\
      item lit rbstr:0 0 1:2@3..3#4 a=Item(Leaf(Literal(Literal { symbol: \"a\", span: 1:2@3..3#4, kind: ByteStrRaw(0), suffix_len: 0 })))\n\
      item lit rcstr:17 0 1:2@3..3#4 a=Item(Leaf(Literal(Literal { symbol: \"a\", span: 1:2@3..3#4, kind: CStrRaw(17), suffix_len: 0 })))",
    ),
];

// Returns the Debug text of the command that the line means.
fn told(alloc: Global, line: &[u8]) -> Result<String, TtFault> {
    match Command::parse(alloc, line)? {
        Some(command) => Ok(format!(in alloc; "{command:?}")?),
        None => Ok(String::new(alloc)),
    }
}

// Returns whether the line means the command with this text.
fn stands_for(alloc: Global, line: &[u8], command: &[u8]) -> Result<bool, TtFault> {
    Ok(told(alloc, line)?.as_bytes() == command)
}

// Returns whether the row's line means its command.
fn is_right(alloc: Global, row: &[u8]) -> Result<bool, TtFault> {
    let mut parts = row.split(|byte| *byte == b'=');
    match (parts.next(), parts.next()) {
        (Some(line), Some(command)) => stands_for(alloc, line, command),
        _ => Ok(false),
    }
}

// Returns how many of the rows of a text are right, up to the first that is not.
fn right_rows(alloc: Global, text: &[u8]) -> Result<u32, TtFault> {
    let mut found = 0u32;
    for row in text.split(|byte| *byte == b'\n') {
        if !is_right(alloc, row)? {
            return Ok(found);
        }
        found = found.saturating_add(1);
    }
    Ok(found)
}

// Returns the index of the first text in which a row is not right.
fn first_wrong(alloc: Global) -> Result<usize, TtFault> {
    let mut index = 0usize;
    for (rows, text) in &LINES {
        if right_rows(alloc, text)? != *rows {
            return Ok(index);
        }
        index = index.saturating_add(1);
    }
    Ok(index)
}

#[test]
fn stand_for_commands(rt: HostRuntime) -> Result<(), Fail> {
    assert_eq!(rt; first_wrong(rt.alloc())?, LINES.len());
    Ok(())
}
