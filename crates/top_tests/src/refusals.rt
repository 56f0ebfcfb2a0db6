// Refusals, and two files.

use crate::rows::{Row, rows};

pub const REFUSALS: &[Row] = rows![
    "unbalanced brackets": Refused ["saturn_check", "a.c"] [("a.c", "void f(void){if(1)")] => "saturn_check: a.c:1:13: unbalanced\n",
    "bracket never closed": Refused ["saturn_check", "a.c"] [("a.c", "int a[;")] => "saturn_check: a.c:1:6: unbalanced\n",
    "byte that begins no token": Refused ["saturn_check", "a.c"] [("a.c", "int x=@;")] => "saturn_check: a.c:1:7: lexical\n",
    "machine without states": Refused ["saturn_check", "--machine", "m", "a.c"]
        [("a.c", "struct h{int x;};\n"), ("m", "machine irq\nop irq_on void off>on on>nested nested>!\nop irq_off void off>! on>off nested>on\n")] => "saturn_check: machine 2\n",
    "one name in two files": Refused ["saturn_check", "a.c", "b.c"] [("a.c", "void f(void){}"), ("b.c", "void f(void){}")] => "saturn_check: duplicate f\n",
    "one name twice in a file": Refused ["saturn_check", "a.c"] [("a.c", "void f(void){}void f(void){}")] => "saturn_check: duplicate f\n",
    "file that is missing": ReadFault ["saturn_check", "a.c", "b.c"] [("a.c", "")] => "saturn_check: cannot read b.c\n",
    "static name in two files": Clean ["saturn_check", "a.c", "b.c"] [("a.c", "static void f(void){}"), ("b.c", "static void f(void){}")] => "\
function f at a.c:1:13
  entry -
  exits
    - -> -
function f at b.c:1:13
  entry -
  exits
    - -> -
total functions 2 skipped 0 rows 2 reports 0
",
];
