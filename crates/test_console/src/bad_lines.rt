//! Lines that are no command.
use crate::holds::holds;
use app_language::Command;
use std::alloc::Global;
use std::test::Fail;
use tt_base::TtFault;

// Lines that are no command, each for one rule of `docs/CONSOLE.md`: one text for each topic, with the number
// of its lines and a line feed between them.
const BAD_LINES: [(u32, &[u8]); 13] = [
    // No command.
    (
        13,
        b"\n\
      \x20\n\
      item\n\
      item \n\
      list\n\
      Item ident plain 0:0@0..1#0 a\n\
      LIST 0\n\
      lists 0\n\
      clear \n\
      clear 0\n\
      clears\n\
      pretty 16\n\
      \x20list 0",
    ),
    // Rust text.
    (
        7,
        b"read\n\
      read 0\n\
      read 16 a\n\
      read 0 \xff\n\
      text\n\
      text 16\n\
      text 0 ",
    ),
    // Trees as bytes.
    (
        11,
        b"save\n\
      save 16\n\
      save 0 \n\
      load\n\
      load 0\n\
      load 16 ff\n\
      load 0 7\n\
      load 0 7g\n\
      load 0 FF\n\
      load 0 ff \n\
      load 0  ff",
    ),
    // Changed trees.
    (
        37,
        b"kind 0\n\
      kind 16 paren\n\
      kind 0 round\n\
      kind 0 Opaque\n\
      kind 0 opaque \n\
      kind 0 invisibleopaque\n\
      kind 0 paren \n\
      spans 0 0:0@0..1#0\n\
      spans 0 0:0@0..1#0 0:0@1..0#0\n\
      spans 0 0:0@0..1#0 0:0@3..4#0 0:0@4..5#0\n\
      set 0 0\n\
      set 0 -1 punct alone 0:0@0..1#0 ;\n\
      set 0 4294967296 punct alone 0:0@0..1#0 ;\n\
      set 0 0 sub paren 0:0@0..1#0 0:0@3..4#0 0\n\
      ids\n\
      ids 0 \n\
      ids 0 01\n\
      ids 0 1  2\n\
      ids 0 4294967296\n\
      rewrite\n\
      rewrite 0 \n\
      rewrite 0 put\n\
      rewrite 0 put:\n\
      rewrite 0 put:16\n\
      rewrite 0 put:01\n\
      rewrite 0 put: 1\n\
      rewrite 0 Keep\n\
      rewrite 0 keep  remove\n\
      rewrite 0 keep \n\
      expand 0 1 2\n\
      expand 0 1 2 16\n\
      expand 0 1 2 3 \n\
      expand 0 1 2 3 4\n\
      arms 0 1\n\
      arms 0 1 16\n\
      arms 0 1 2 \n\
      arms 0 1 2 3",
    ),
    // Slots.
    (
        30,
        b"list \n\
      list 16\n\
      list 00\n\
      list 07\n\
      list +1\n\
      list -1\n\
      list 1a\n\
      list  1\n\
      list 1 \n\
      list 1\r\n\
      list 1 2\n\
      show 99999999999999999999\n\
      equal 1\n\
      equal 1  2\n\
      equal 1 2 \n\
      equal 1 2 3\n\
      equal 16 0\n\
      equal 0 16\n\
      copy 0\n\
      copy 0 16\n\
      copy 0 1 2\n\
      flat\n\
      siblings 0 0\n\
      bytes 16\n\
      parts 0 \n\
      symbols\n\
      split 0\n\
      split 0 \n\
      split 0 ;;\n\
      split 16 ;",
    ),
    // Commands of the builder.
    (
        22,
        b"new paren 0:0@0..0#0\n\
      new round 0:0@0..0#0 0:0@0..0#0\n\
      new paren 0:0@0..0#0 0:0@0..0#0 0\n\
      open paren\n\
      open paren 0:0@1..0#0\n\
      push sub paren 0:0@0..1#0 0:0@3..4#0 2\n\
      push\n\
      close\n\
      close \n\
      append 16\n\
      alone\n\
      unwrap \n\
      point 0\n\
      restore\n\
      restore 18446744073709551616\n\
      restore 99999999999999999999\n\
      restore 100000000000000000000\n\
      restore 00\n\
      restore +1\n\
      expected 0\n\
      build 16\n\
      skip 0 1",
    ),
    // Spans.
    (
        11,
        b"item ident plain 0:0@1..0#0 a\n\
      item ident plain 00:0@0..1#0 a\n\
      item ident plain 0:01@0..1#0 a\n\
      item ident plain 0:0@+0..1#0 a\n\
      item ident plain 4294967296:0@0..1#0 a\n\
      item ident plain 0:0@0..4294967296#0 a\n\
      item ident plain 0:0@0.1#0 a\n\
      item ident plain 0:0@0...1#0 a\n\
      item ident plain 0:0@0..1 a\n\
      item ident plain 0:0@0..1# a\n\
      item ident plain 0@0..1#0 a",
    ),
    // Heads.
    (
        6,
        b"item sub round 0:0@0..1#0 0:0@3..4#0 2\n\
      item sub Paren 0:0@0..1#0 0:0@3..4#0 2\n\
      item sub paren 0:0@0..1#0 0:0@3..4#0\n\
      item sub paren 0:0@0..1#0 0:0@3..4#0 4294967296\n\
      item sub paren 0:0@0..1#0 0:0@3..4#0 2 \n\
      item sub paren 0:0@0..1#0  0:0@3..4#0 2",
    ),
    // Puncts.
    (
        4,
        b"item punct alone 0:0@0..1#0\n\
      item punct alone 0:0@0..1#0 \n\
      item punct alone 0:0@0..1#0 ;;\n\
      item punct single 0:0@0..1#0 ;",
    ),
    // Idents.
    (
        2,
        b"item ident plain 0:0@0..1#0\n\
      item ident r# 0:0@0..1#0 a",
    ),
    // Literals.
    (
        9,
        b"item lit int 0 0:0@0..1#0\n\
      item lit int 1 0:0@0..1#0 \xc3\xa9\n\
      item lit int 3 0:0@0..1#0 \xc3\xa9\n\
      item lit int 256 0:0@0..1#0 \xc3\xa9\n\
      item lit int 01 0:0@0..1#0 1u\n\
      item lit rstr 0 0:0@0..1#0 a\n\
      item lit rstr: 0 0:0@0..1#0 a\n\
      item lit rbstr:256 0 0:0@0..1#0 a\n\
      item lit str:1 0 0:0@0..1#0 a",
    ),
    // Exactly one space separates words.
    (
        6,
        b"show\t0\n\
      show 0\r\n\
      show  0\n\
      show \n\
      item punct alone 0:0@0..1#0 ;\r\n\
      item ident Raw 0:0@0..1#0 a",
    ),
    // UTF-8.
    (
        5,
        b"\xff\n\
      show \xff\n\
      item ident plain 0:0@0..1#0 \xff\n\
      item punct alone 0:0@0..1#0 \xff\n\
      item lit str 0 0:0@0..1#0 a\xc3",
    ),
];

// Returns how many of the lines of a text are no command, up to the first that is one.
fn no_commands(alloc: Global, text: &[u8]) -> Result<u32, TtFault> {
    let mut found = 0u32;
    for line in text.split(|byte| *byte == b'\n') {
        if Command::parse(alloc, line)?.is_some() {
            return Ok(found);
        }
        found = found.saturating_add(1);
    }
    Ok(found)
}

// Returns the index of the first text in which a line is a command.
fn first_wrong(alloc: Global) -> Result<usize, TtFault> {
    let mut index = 0usize;
    for (rows, text) in &BAD_LINES {
        if no_commands(alloc, text)? != *rows {
            return Ok(index);
        }
        index = index.saturating_add(1);
    }
    Ok(index)
}

#[test]
fn stand_for_nothing(rt: HostRuntime) -> Result<(), Fail> {
    assert_eq!(rt; first_wrong(rt.alloc())?, BAD_LINES.len());
    Ok(())
}

// A line feed ends a line, in a text too.
const OF_TWO_LINES: [&[u8]; 4] = [
    b"item ident plain 0:0@0..1#0 a\nb",
    b"item punct alone 0:0@0..1#0 \n",
    b"show 0\n",
    b"\nshow 0",
];

// Returns whether none of the texts is a command.
fn are_no_commands(alloc: Global) -> Result<bool, TtFault> {
    for text in &OF_TWO_LINES {
        if Command::parse(alloc, text)?.is_some() {
            return Ok(false);
        }
    }
    Ok(true)
}

#[test]
fn a_line_feed_is_in_no_command(rt: HostRuntime) -> Result<(), Fail> {
    holds(are_no_commands(rt.alloc()))
}
