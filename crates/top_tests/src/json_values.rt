// Whole checks as JSON. The values were worked out from `docs/JSON.md` and the texts of the same checks.

use crate::rows::{Row, rows};

pub const JSON: &[Row] = rows![
    "lock taken at exit": Clean ["saturn_check", "--format", "json", "a.c"]
        [("a.c", "typedef struct{int v;}spinlock_t;\nvoid f(_Bool c,spinlock_t*l){spin_lock(l);}")] => "\
{\"format\":\"nalvegop verdicts\",\"version\":1,\"options\":{\"depth\":2,\"reach\":2,\"model\":\"ilp32\",\"machine\":\"lock\",\"states\":[\"U\",\"L\"]},\"files\":[{\"name\":\"a.c\",\
\"source\":\"a.c\"}],\"notes\":[],\"functions\":[{\"name\":\"f\",\"place\":{\"file\":\"a.c\",\"line\":2,\"column\":6,\"source\":{\"file\":\"a.c\",\"line\":2}},\"in_header\":false,\
\"skipped\":null,\"entry\":[{\"name\":\"c\",\"type\":\"_Bool\"},{\"name\":\"l\",\"type\":\"pointer\"}],\"bits\":2,\"items\":[{\"item\":\"end\",\"rows\":[{\"entry\":[false,true],\
\"before\":null,\"result\":\"none\",\"after\":null},{\"entry\":[true,true],\"before\":null,\"result\":\"none\",\"after\":null}]},{\"item\":\"state\",\"path\":{\"text\":\"*l\",\
\"root\":{\"kind\":\"parameter\",\"number\":1,\"name\":\"l\"},\"steps\":[\"target\"]},\"rows\":[{\"entry\":[false,true],\"before\":{\"state\":\"U\"},\"result\":\"none\",\
\"after\":{\"state\":\"L\"}},{\"entry\":[false,true],\"before\":{\"state\":\"L\"},\"result\":\"none\",\"after\":\"error\"},{\"entry\":[true,true],\"before\":{\"state\":\"U\"},\
\"result\":\"none\",\"after\":{\"state\":\"L\"}},{\"entry\":[true,true],\"before\":{\"state\":\"L\"},\"result\":\"none\",\"after\":\"error\"}]}],\"writes\":[],\"reports\":[]}],\
\"totals\":{\"functions\":1,\"skipped\":0,\"rows\":6,\"reports\":0}}",
    "double lock under a condition": Reports ["saturn_check", "--format", "json", "a.c"]
        [("a.c", "typedef struct{int v;}spinlock_t;\nvoid f(_Bool c,spinlock_t*l){spin_lock(l);if(c)spin_lock(l);}")] => "\
{\"format\":\"nalvegop verdicts\",\"version\":1,\"options\":{\"depth\":2,\"reach\":2,\"model\":\"ilp32\",\"machine\":\"lock\",\"states\":[\"U\",\"L\"]},\"files\":[{\"name\":\"a.c\",\
\"source\":\"a.c\"}],\"notes\":[],\"functions\":[{\"name\":\"f\",\"place\":{\"file\":\"a.c\",\"line\":2,\"column\":6,\"source\":{\"file\":\"a.c\",\"line\":2}},\"in_header\":false,\
\"skipped\":null,\"entry\":[{\"name\":\"c\",\"type\":\"_Bool\"},{\"name\":\"l\",\"type\":\"pointer\"}],\"bits\":2,\"items\":[{\"item\":\"end\",\"rows\":[{\"entry\":[false,true],\
\"before\":null,\"result\":\"none\",\"after\":null}]},{\"item\":\"state\",\"path\":{\"text\":\"*l\",\"root\":{\"kind\":\"parameter\",\"number\":1,\"name\":\"l\"},\"steps\":[\"target\"]},\
\"rows\":[{\"entry\":[false,true],\"before\":{\"state\":\"U\"},\"result\":\"none\",\"after\":{\"state\":\"L\"}},{\"entry\":[false,true],\"before\":{\"state\":\"L\"},\"result\":\"none\",\
\"after\":\"error\"},{\"entry\":[true,true],\"before\":{\"state\":\"U\"},\"result\":\"none\",\"after\":\"error\"},{\"entry\":[true,true],\"before\":{\"state\":\"L\"},\"result\":\"none\",\
\"after\":\"error\"}]}],\"writes\":[],\"reports\":[{\"kind\":\"double\",\"path\":{\"text\":\"*l\",\"root\":{\"kind\":\"parameter\",\"number\":1,\"name\":\"l\"},\"steps\":[\"target\"]},\
\"runs\":[{\"choice\":\"c\",\"location\":\"*l\",\"events\":[{\"place\":{\"file\":\"a.c\",\"line\":2,\"column\":30,\"source\":{\"file\":\"a.c\",\"line\":2}},\"kind\":\"call\",\
\"callee\":\"spin_lock\"},{\"place\":{\"file\":\"a.c\",\"line\":2,\"column\":43,\"source\":{\"file\":\"a.c\",\"line\":2}},\"kind\":\"if\",\"holds\":true},{\"place\":{\"file\":\"a.c\",\
\"line\":2,\"column\":48,\"source\":{\"file\":\"a.c\",\"line\":2}},\"kind\":\"call\",\"callee\":\"spin_lock\"},{\"place\":{\"file\":\"a.c\",\"line\":2,\"column\":48,\
\"source\":{\"file\":\"a.c\",\"line\":2}},\"kind\":\"error\"}],\"says\":[{\"kind\":\"cell\",\"location\":\"c\",\"value\":{\"number\":\"1\"}},{\"kind\":\"cell\",\"location\":\"l\",\
\"value\":{\"object\":\"*l\"}},{\"kind\":\"state\",\"location\":\"*l\",\"value\":{\"state\":\"U\"}}]},{\"choice\":\"e\",\"location\":\"*l\",\"events\":[{\"place\":{\"file\":\"a.c\",\
\"line\":2,\"column\":30,\"source\":{\"file\":\"a.c\",\"line\":2}},\"kind\":\"call\",\"callee\":\"spin_lock\"},{\"place\":{\"file\":\"a.c\",\"line\":2,\"column\":30,\
\"source\":{\"file\":\"a.c\",\"line\":2}},\"kind\":\"error\"}],\"says\":[{\"kind\":\"cell\",\"location\":\"c\",\"value\":{\"number\":\"1\"}},{\"kind\":\"cell\",\"location\":\"l\",\
\"value\":{\"object\":\"*l\"}},{\"kind\":\"state\",\"location\":\"*l\",\"value\":{\"state\":\"L\"}}]}]}]}],\"totals\":{\"functions\":1,\"skipped\":0,\"rows\":5,\"reports\":1}}",
    "leak where the condition is false": Reports ["saturn_check", "a.c", "--format=json"] [("a.c", "void f(_Bool c){char*p=kmalloc(8,0);if(c)kfree(p);}")] => "\
{\"format\":\"nalvegop verdicts\",\"version\":1,\"options\":{\"depth\":2,\"reach\":2,\"model\":\"ilp32\",\"machine\":\"lock\",\"states\":[\"U\",\"L\"]},\"files\":[{\"name\":\"a.c\",\
\"source\":\"a.c\"}],\"notes\":[],\"functions\":[{\"name\":\"f\",\"place\":{\"file\":\"a.c\",\"line\":1,\"column\":6,\"source\":{\"file\":\"a.c\",\"line\":1}},\"in_header\":false,\
\"skipped\":null,\"entry\":[{\"name\":\"c\",\"type\":\"_Bool\"}],\"bits\":1,\"items\":[{\"item\":\"end\",\"rows\":[{\"entry\":[false],\"before\":null,\"result\":\"none\",\"after\":null},\
{\"entry\":[true],\"before\":null,\"result\":\"none\",\"after\":null}]}],\"writes\":[],\"reports\":[{\"kind\":\"leak\",\"place\":{\"file\":\"a.c\",\"line\":1,\"column\":24,\
\"source\":{\"file\":\"a.c\",\"line\":1}},\"runs\":[{\"choice\":\"400\",\"location\":\"\",\"events\":[{\"place\":{\"file\":\"a.c\",\"line\":1,\"column\":24,\"source\":{\"file\":\"a.c\",\
\"line\":1}},\"kind\":\"call\",\"callee\":\"kmalloc\"},{\"place\":{\"file\":\"a.c\",\"line\":1,\"column\":37,\"source\":{\"file\":\"a.c\",\"line\":1}},\"kind\":\"if\",\"holds\":false},\
{\"place\":{\"file\":\"a.c\",\"line\":1,\"column\":51,\"source\":{\"file\":\"a.c\",\"line\":1}},\"kind\":\"end\"}],\"says\":[{\"kind\":\"cell\",\"location\":\"c\",\
\"value\":{\"number\":\"0\"}},{\"kind\":\"cell\",\"location\":\"call@1:24\",\"value\":{\"number\":\"0\"}},{\"kind\":\"call\",\"place\":{\"file\":\"a.c\",\"line\":1,\"column\":24,\
\"source\":{\"file\":\"a.c\",\"line\":1}},\"turn\":0,\"value\":{\"object\":\"call@1:24\"}}]}]}]}],\"totals\":{\"functions\":1,\"skipped\":0,\"rows\":2,\"reports\":1}}",
    "a known call in two turns of a loop": Reports ["saturn_check", "--format", "json", "a.c"]
        [("a.c", "typedef struct{int v;}spinlock_t;\nvoid t(spinlock_t*l,int*n){*n=1;spin_lock(l);}\nvoid f(spinlock_t*l,int c){int n;do{t(l,&n);}while(c==-2);}")] => "\
{\"format\":\"nalvegop verdicts\",\"version\":1,\"options\":{\"depth\":2,\"reach\":2,\"model\":\"ilp32\",\"machine\":\"lock\",\"states\":[\"U\",\"L\"]},\"files\":[{\"name\":\"a.c\",\
\"source\":\"a.c\"}],\"notes\":[],\"functions\":[{\"name\":\"t\",\"place\":{\"file\":\"a.c\",\"line\":2,\"column\":6,\"source\":{\"file\":\"a.c\",\"line\":2}},\"in_header\":false,\
\"skipped\":null,\"entry\":[{\"name\":\"l\",\"type\":\"pointer\"},{\"name\":\"n\",\"type\":\"pointer\"}],\"bits\":2,\"items\":[{\"item\":\"end\",\"rows\":[{\"entry\":[true,true],\
\"before\":null,\"result\":\"none\",\"after\":null}]},{\"item\":\"state\",\"path\":{\"text\":\"*l\",\"root\":{\"kind\":\"parameter\",\"number\":0,\"name\":\"l\"},\"steps\":[\"target\"]},\
\"rows\":[{\"entry\":[true,true],\"before\":{\"state\":\"U\"},\"result\":\"none\",\"after\":{\"state\":\"L\"}},{\"entry\":[true,true],\"before\":{\"state\":\"L\"},\"result\":\"none\",\
\"after\":\"error\"}]}],\"writes\":[{\"path\":{\"text\":\"*n\",\"root\":{\"kind\":\"parameter\",\"number\":1,\"name\":\"n\"},\"steps\":[\"target\"]},\"width\":32}],\"reports\":[]},\
{\"name\":\"f\",\"place\":{\"file\":\"a.c\",\"line\":3,\"column\":6,\"source\":{\"file\":\"a.c\",\"line\":3}},\"in_header\":false,\"skipped\":null,\"entry\":[{\"name\":\"l\",\
\"type\":\"pointer\"},{\"name\":\"c\",\"type\":\"int\"}],\"bits\":2,\"items\":[{\"item\":\"end\",\"rows\":[{\"entry\":[true,false],\"before\":null,\"result\":\"none\",\"after\":null},\
{\"entry\":[true,true],\"before\":null,\"result\":\"none\",\"after\":null}]},{\"item\":\"state\",\"path\":{\"text\":\"*l\",\"root\":{\"kind\":\"parameter\",\"number\":0,\"name\":\"l\"},\
\"steps\":[\"target\"]},\"rows\":[{\"entry\":[true,false],\"before\":{\"state\":\"U\"},\"result\":\"none\",\"after\":{\"state\":\"L\"}},{\"entry\":[true,false],\"before\":{\"state\":\"L\"},\
\"result\":\"none\",\"after\":\"error\"},{\"entry\":[true,true],\"before\":{\"state\":\"U\"},\"result\":\"none\",\"after\":{\"state\":\"L\"}},{\"entry\":[true,true],\
\"before\":{\"state\":\"U\"},\"result\":\"none\",\"after\":\"error\"},{\"entry\":[true,true],\"before\":{\"state\":\"L\"},\"result\":\"none\",\"after\":\"error\"}]}],\"writes\":[],\
\"reports\":[{\"kind\":\"double\",\"path\":{\"text\":\"*l\",\"root\":{\"kind\":\"parameter\",\"number\":0,\"name\":\"l\"},\"steps\":[\"target\"]},\
\"runs\":[{\"choice\":\"ffffffff100000000800000000\",\"location\":\"*l\",\"events\":[{\"place\":{\"file\":\"a.c\",\"line\":3,\"column\":37,\"source\":{\"file\":\"a.c\",\"line\":3}},\
\"kind\":\"call\",\"callee\":\"t\"},{\"place\":{\"file\":\"a.c\",\"line\":3,\"column\":34,\"source\":{\"file\":\"a.c\",\"line\":3}},\"kind\":\"loop\",\"holds\":true},\
{\"place\":{\"file\":\"a.c\",\"line\":3,\"column\":37,\"source\":{\"file\":\"a.c\",\"line\":3}},\"kind\":\"call\",\"callee\":\"t\"},{\"place\":{\"file\":\"a.c\",\"line\":3,\"column\":37,\
\"source\":{\"file\":\"a.c\",\"line\":3}},\"kind\":\"error\"}],\"says\":[{\"kind\":\"cell\",\"location\":\"l\",\"value\":{\"object\":\"*l\"}},{\"kind\":\"cell\",\"location\":\"c\",\
\"value\":{\"number\":\"-2\"}},{\"kind\":\"state\",\"location\":\"*l\",\"value\":{\"state\":\"U\"}},{\"kind\":\"item\",\"place\":{\"file\":\"a.c\",\"line\":3,\"column\":37,\
\"source\":{\"file\":\"a.c\",\"line\":3}},\"turn\":0,\"item\":\"state\",\"path\":{\"text\":\"*l\",\"root\":{\"kind\":\"parameter\",\"number\":0,\"name\":\"l\"},\"steps\":[\"target\"]},\
\"value\":{\"state\":\"L\"}},{\"kind\":\"write\",\"place\":{\"file\":\"a.c\",\"line\":3,\"column\":37,\"source\":{\"file\":\"a.c\",\"line\":3}},\"turn\":0,\"path\":{\"text\":\"*n\",\
\"root\":{\"kind\":\"parameter\",\"number\":1,\"name\":\"n\"},\"steps\":[\"target\"]},\"value\":{\"number\":\"0\"}},{\"kind\":\"item\",\"place\":{\"file\":\"a.c\",\"line\":3,\"column\":37,\
\"source\":{\"file\":\"a.c\",\"line\":3}},\"turn\":1,\"item\":\"state\",\"path\":{\"text\":\"*l\",\"root\":{\"kind\":\"parameter\",\"number\":0,\"name\":\"l\"},\"steps\":[\"target\"]},\
\"value\":\"error\"},{\"kind\":\"write\",\"place\":{\"file\":\"a.c\",\"line\":3,\"column\":37,\"source\":{\"file\":\"a.c\",\"line\":3}},\"turn\":1,\"path\":{\"text\":\"*n\",\
\"root\":{\"kind\":\"parameter\",\"number\":1,\"name\":\"n\"},\"steps\":[\"target\"]},\"value\":{\"number\":\"0\"}}]},{\"choice\":\"80000000e00000000000000000\",\"location\":\"*l\",\
\"events\":[{\"place\":{\"file\":\"a.c\",\"line\":3,\"column\":37,\"source\":{\"file\":\"a.c\",\"line\":3}},\"kind\":\"call\",\"callee\":\"t\"},{\"place\":{\"file\":\"a.c\",\"line\":3,\
\"column\":37,\"source\":{\"file\":\"a.c\",\"line\":3}},\"kind\":\"error\"}],\"says\":[{\"kind\":\"cell\",\"location\":\"l\",\"value\":{\"object\":\"*l\"}},{\"kind\":\"cell\",\
\"location\":\"c\",\"value\":{\"number\":\"1\"}},{\"kind\":\"state\",\"location\":\"*l\",\"value\":{\"state\":\"L\"}},{\"kind\":\"item\",\"place\":{\"file\":\"a.c\",\"line\":3,\"column\":37,\
\"source\":{\"file\":\"a.c\",\"line\":3}},\"turn\":0,\"item\":\"state\",\"path\":{\"text\":\"*l\",\"root\":{\"kind\":\"parameter\",\"number\":0,\"name\":\"l\"},\"steps\":[\"target\"]},\
\"value\":\"error\"},{\"kind\":\"write\",\"place\":{\"file\":\"a.c\",\"line\":3,\"column\":37,\"source\":{\"file\":\"a.c\",\"line\":3}},\"turn\":0,\"path\":{\"text\":\"*n\",\
\"root\":{\"kind\":\"parameter\",\"number\":1,\"name\":\"n\"},\"steps\":[\"target\"]},\"value\":{\"number\":\"0\"}},{\"kind\":\"item\",\"place\":{\"file\":\"a.c\",\"line\":3,\"column\":37,\
\"source\":{\"file\":\"a.c\",\"line\":3}},\"turn\":1,\"item\":\"state\",\"path\":{\"text\":\"*l\",\"root\":{\"kind\":\"parameter\",\"number\":0,\"name\":\"l\"},\"steps\":[\"target\"]},\
\"value\":{\"state\":\"U\"}},{\"kind\":\"write\",\"place\":{\"file\":\"a.c\",\"line\":3,\"column\":37,\"source\":{\"file\":\"a.c\",\"line\":3}},\"turn\":1,\"path\":{\"text\":\"*n\",\
\"root\":{\"kind\":\"parameter\",\"number\":1,\"name\":\"n\"},\"steps\":[\"target\"]},\"value\":{\"number\":\"0\"}}]}]}]}],\"totals\":{\"functions\":2,\"skipped\":0,\"rows\":10,\
\"reports\":1}}",
    "parameter freed": Clean ["saturn_check", "--format", "json", "a.c"] [("a.c", "void f(char*p){kfree(p);}")] => "\
{\"format\":\"nalvegop verdicts\",\"version\":1,\"options\":{\"depth\":2,\"reach\":2,\"model\":\"ilp32\",\"machine\":\"lock\",\"states\":[\"U\",\"L\"]},\"files\":[{\"name\":\"a.c\",\
\"source\":\"a.c\"}],\"notes\":[],\"functions\":[{\"name\":\"f\",\"place\":{\"file\":\"a.c\",\"line\":1,\"column\":6,\"source\":{\"file\":\"a.c\",\"line\":1}},\"in_header\":false,\
\"skipped\":null,\"entry\":[{\"name\":\"p\",\"type\":\"pointer\"}],\"bits\":1,\"items\":[{\"item\":\"end\",\"rows\":[{\"entry\":[false],\"before\":null,\"result\":\"none\",\"after\":null},\
{\"entry\":[true],\"before\":null,\"result\":\"none\",\"after\":null}]},{\"item\":\"object\",\"parameter\":0,\"name\":\"p\",\"rows\":[{\"entry\":[true],\"before\":null,\"result\":\"none\",\
\"after\":\"freed\"}]}],\"writes\":[],\"reports\":[]}],\"totals\":{\"functions\":1,\"skipped\":0,\"rows\":3,\"reports\":0}}",
    "fresh result": Clean ["saturn_check", "--format", "json", "a.c"] [("a.c", "char*f(int n){return malloc(n);}")] => "\
{\"format\":\"nalvegop verdicts\",\"version\":1,\"options\":{\"depth\":2,\"reach\":2,\"model\":\"ilp32\",\"machine\":\"lock\",\"states\":[\"U\",\"L\"]},\"files\":[{\"name\":\"a.c\",\
\"source\":\"a.c\"}],\"notes\":[],\"functions\":[{\"name\":\"f\",\"place\":{\"file\":\"a.c\",\"line\":1,\"column\":6,\"source\":{\"file\":\"a.c\",\"line\":1}},\"in_header\":false,\
\"skipped\":null,\"entry\":[{\"name\":\"n\",\"type\":\"int\"}],\"bits\":1,\"items\":[{\"item\":\"end\",\"rows\":[{\"entry\":[false],\"before\":null,\"result\":\"zero\",\"after\":\"null\"},\
{\"entry\":[false],\"before\":null,\"result\":\"nonzero\",\"after\":\"fresh\"},{\"entry\":[true],\"before\":null,\"result\":\"zero\",\"after\":\"null\"},{\"entry\":[true],\"before\":null,\
\"result\":\"nonzero\",\"after\":\"fresh\"}]}],\"writes\":[],\"reports\":[]}],\"totals\":{\"functions\":1,\"skipped\":0,\"rows\":4,\"reports\":0}}",
    "out parameter kept": Clean ["saturn_check", "--model", "lp64", "--depth", "3", "--reach", "1", "--format", "json", "a.c"]
        [("a.c", "void m(char**o,_Bool c){if(c)*o=0;}")] => "\
{\"format\":\"nalvegop verdicts\",\"version\":1,\"options\":{\"depth\":3,\"reach\":1,\"model\":\"lp64\",\"machine\":\"lock\",\"states\":[\"U\",\"L\"]},\"files\":[{\"name\":\"a.c\",\
\"source\":\"a.c\"}],\"notes\":[],\"functions\":[{\"name\":\"m\",\"place\":{\"file\":\"a.c\",\"line\":1,\"column\":6,\"source\":{\"file\":\"a.c\",\"line\":1}},\"in_header\":false,\
\"skipped\":null,\"entry\":[{\"name\":\"o\",\"type\":\"pointer\"},{\"name\":\"c\",\"type\":\"_Bool\"}],\"bits\":2,\"items\":[{\"item\":\"end\",\"rows\":[{\"entry\":[false,false],\
\"before\":null,\"result\":\"none\",\"after\":null},{\"entry\":[true,false],\"before\":null,\"result\":\"none\",\"after\":null},{\"entry\":[true,true],\"before\":null,\"result\":\"none\",\
\"after\":null}]},{\"item\":\"pointer\",\"parameter\":0,\"name\":\"o\",\"rows\":[{\"entry\":[true,false],\"before\":null,\"result\":\"none\",\"after\":\"same\"},{\"entry\":[true,true],\
\"before\":null,\"result\":\"none\",\"after\":\"null\"}]}],\"writes\":[{\"path\":{\"text\":\"*o\",\"root\":{\"kind\":\"parameter\",\"number\":0,\"name\":\"o\"},\"steps\":[\"target\"]},\
\"width\":0}],\"reports\":[]}],\"totals\":{\"functions\":1,\"skipped\":0,\"rows\":5,\"reports\":0}}",
    "header and passed over function behind line markers": Clean ["saturn_check", "--format", "json", "a.c"]
        [("a.c", "# 1 \"src/\\\"a\\\".c\"\n# 1 \"lock.h\" 1\ntypedef struct{int v;}spinlock_t;\nvoid g(spinlock_t*l){spin_lock(l);}\n# 9 \"src/\\\"a\\\".c\" 2\nvoid h(char*q){double x;x=0;}\nfoo bar;\n")] => "\
{\"format\":\"nalvegop verdicts\",\"version\":1,\"options\":{\"depth\":2,\"reach\":2,\"model\":\"ilp32\",\"machine\":\"lock\",\"states\":[\"U\",\"L\"]},\"files\":[{\"name\":\"a.c\",\
\"source\":\"src/\\\"a\\\".c\"}],\"notes\":[{\"reason\":\"grammar\",\"place\":{\"file\":\"a.c\",\"line\":7,\"column\":1,\"source\":{\"file\":\"src/\\\"a\\\".c\",\"line\":10}}}],\
\"functions\":[{\"name\":\"g\",\"place\":{\"file\":\"a.c\",\"line\":4,\"column\":6,\"source\":{\"file\":\"lock.h\",\"line\":2}},\"in_header\":true,\"skipped\":null,\
\"entry\":[{\"name\":\"l\",\"type\":\"pointer\"}],\"bits\":1,\"items\":[{\"item\":\"end\",\"rows\":[{\"entry\":[true],\"before\":null,\"result\":\"none\",\"after\":null}]},\
{\"item\":\"state\",\"path\":{\"text\":\"*l\",\"root\":{\"kind\":\"parameter\",\"number\":0,\"name\":\"l\"},\"steps\":[\"target\"]},\"rows\":[{\"entry\":[true],\"before\":{\"state\":\"U\"},\
\"result\":\"none\",\"after\":{\"state\":\"L\"}},{\"entry\":[true],\"before\":{\"state\":\"L\"},\"result\":\"none\",\"after\":\"error\"}]}],\"writes\":[],\"reports\":[]},{\"name\":\"h\",\
\"place\":{\"file\":\"a.c\",\"line\":6,\"column\":6,\"source\":{\"file\":\"src/\\\"a\\\".c\",\"line\":9}},\"in_header\":false,\"skipped\":{\"reason\":\"unsupported\",\"kind\":\"float\",\
\"place\":{\"file\":\"a.c\",\"line\":6,\"column\":23,\"source\":{\"file\":\"src/\\\"a\\\".c\",\"line\":9}}}}],\"totals\":{\"functions\":2,\"skipped\":1,\"rows\":3,\"reports\":0}}",
    "one name in two files is refused as in text": Refused ["saturn_check", "--format", "json", "a.c", "b.c"]
        [("a.c", "void f(void){}"), ("b.c", "void f(void){}")] => "saturn_check: duplicate f\n",
    "text by its name": Clean ["saturn_check", "--format", "text", "a.c"] [("a.c", "")] => "total functions 0 skipped 0 rows 0 reports 0\n",
];
