// Objects that are made, freed and lost.

use crate::rows::{Row, rows};

pub const MEMORY: &[Row] = rows![
    "parameter freed": Clean ["saturn_check", "a.c"] [("a.c", "void f(char*p){kfree(p);}")] => "\
function f at a.c:1:6
  entry p
  exits
    0 -> -
    1 -> -
  param p
    1 -> - freed
total functions 1 skipped 0 rows 3 reports 0
",
    "leak where the condition is false": Reports ["saturn_check", "a.c"] [("a.c", "void f(_Bool c){char*p=kmalloc(8,0);if(c)kfree(p);}")] => "\
function f at a.c:1:6
  entry c
  exits
    0 -> -
    1 -> -
  report leak 1:24
    choice 400
    1:24 call kmalloc
    1:37 if 0
    1:51 end
total functions 1 skipped 0 rows 2 reports 1
",
    "out parameter kept": Clean ["saturn_check", "a.c"] [("a.c", "void m(char**o,_Bool c){if(c)*o=0;}")] => "\
function m at a.c:1:6
  entry o c
  exits
    00 -> -
    10 -> -
    11 -> -
  out o
    10 -> - same
    11 -> - null
  writes *o
total functions 1 skipped 0 rows 5 reports 0
",
    "leak of an out parameter": Reports ["saturn_check", "a.c"]
        [("a.c", "void mk(char**o){*o=kmalloc(4,0);}\nvoid use(_Bool c){char*p;mk(&p);if(c)kfree(p);}")] => "\
function mk at a.c:1:6
  entry o
  exits
    1 -> -
  out o
    1 -> - null
    1 -> - fresh
  writes *o
function use at a.c:2:6
  entry c
  exits
    0 -> -
    1 -> -
  report leak 2:26
    choice 200
    2:26 call mk
    2:33 if 0
    2:47 end
total functions 2 skipped 0 rows 5 reports 1
",
];
