// Functions that are passed over, and what is no function.

use crate::rows::{Row, rows};

pub const SKIPS: &[Row] = rows![
    "empty file": Clean ["saturn_check", "a.c"] [("a.c", "")] => "total functions 0 skipped 0 rows 0 reports 0\n",
    "two words are no declaration": Clean ["saturn_check", "a.c"]
        [("a.c", "foo bar;")] => "note a.c:1:1 grammar\ntotal functions 0 skipped 0 rows 0 reports 0\n",
    "semicolon missing": Clean ["saturn_check", "a.c"] [("a.c", "void f(void){int x;x=1}")] => "\
function f at a.c:1:6
  skipped grammar 1:13
total functions 1 skipped 1 rows 0 reports 0
",
    "float is unsupported": Clean ["saturn_check", "a.c"] [("a.c", "void g(char*q){double x;x=0;}")] => "\
function g at a.c:1:6
  skipped unsupported float 1:23
total functions 1 skipped 1 rows 0 reports 0
",
    "member of a number": Clean ["saturn_check", "a.c"] [("a.c", "int f(int p){return p.x;}")] => "\
function f at a.c:1:5
  skipped illtyped operand 1:23
total functions 1 skipped 1 rows 0 reports 0
",
];
