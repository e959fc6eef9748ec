//! Diffs of small texts, as `diff -u` writes them.
use crate::unified_diff;
use std::test::Fail;

// An old text, a new one, and how they differ.
const DIFFS: [(&str, &str, &str); 9] = [
    ("a\nb\n", "a\nb\n", ""),
    (
        "a\nb\nc\n",
        "a\nx\nc\n",
        "--- f\n+++ f\n@@ -1,3 +1,3 @@\n a\n-b\n+x\n c\n",
    ),
    (
        "a\nb",
        "a\nc\n",
        "--- f\n+++ f\n@@ -1,2 +1,2 @@\n a\n-b\n\\ No newline at end of file\n+c\n",
    ),
    ("", "a\n", "--- f\n+++ f\n@@ -0,0 +1 @@\n+a\n"),
    ("a\nb\n", "", "--- f\n+++ f\n@@ -1,2 +0,0 @@\n-a\n-b\n"),
    (
        "1\n2\n3\n4\n5\n6\n7\n8\n",
        "1\n2\n3\n4\n5\n6\nx\n7\n8\n",
        "--- f\n+++ f\n@@ -4,5 +4,6 @@\n 4\n 5\n 6\n+x\n 7\n 8\n",
    ),
    (
        "1\n2\n3\n4\n5\n6\n7\n8\n9\n",
        "x\n2\n3\n4\n5\n6\n7\n8\ny\n",
        "--- f\n+++ f\n@@ -1,4 +1,4 @@\n-1\n+x\n 2\n 3\n 4\n@@ -6,4 +6,4 @@\n 6\n 7\n 8\n-9\n+y\n",
    ),
    (
        "1\n2\n3\n4\n5\n6\n7\n8\n",
        "x\n2\n3\n4\n5\n6\n7\ny\n",
        "--- f\n+++ f\n@@ -1,8 +1,8 @@\n-1\n+x\n 2\n 3\n 4\n 5\n 6\n 7\n-8\n+y\n",
    ),
    (
        "a\nb\nc\nd\ne\n",
        "a\nc\nd\ne\n",
        "--- f\n+++ f\n@@ -1,5 +1,4 @@\n a\n-b\n c\n d\n e\n",
    ),
];

#[test]
fn texts_differ_as_diff_shows(rt: HostRuntime) -> Result<(), Fail> {
    for (old, new, expected) in DIFFS {
        let diff = unified_diff(rt.alloc(), "f", old, new)?;
        assert_eq!(rt; diff.as_str(), expected);
    }
    Ok(())
}
