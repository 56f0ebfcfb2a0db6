//! Programs of a generator of random ones, over machines of their own.

use crate::programs::{GENERATED, Machined, all_hold_over, rows};

const MACHINES: &[Machined] = &[
    Machined {
        spelled: "machine lock\nstates L off _\nop rcu_in zero L>off off>_ _>!\nop spin_unlock void L>L off>L _>off\n",
        rows: rows![
            [[1056, 56, 136]; 3] =>
                "char*give(int n);struct pair*find(void);void spin_unlock(void*p);spinlock_t gl;_Bool f0(_Bool p0,spinlock_t*p1){char arr[3]={1,2};rcu_in(p1);return ask();}\
                char*f1(spinlock_t*p0){_Bool*v0;{spin_unlock(p0);}ext(malloc(1));f0(128,&gl);return 0;}",
        ],
    },
    Machined {
        spelled: "machine out\nstates held x1 U\nop irq_off zero held>U x1>U U>!\nop pthread_mutex_lock zero held>held x1>U U>U\nop rcu_in zero held>! x1>held U>held\n",
        rows: rows![
            [[272, 36, 72]; 3] =>
                "char*give(int n);struct pair*find(void);void irq_off(spinlock_t*l){ext(l);}\
                _Bool f0(spinlock_t*p0,_Bool p1,spinlock_t*p2){int v0;struct pair nd={};if(++(p1)){if(p1){irq_off(p2);{char x1=++(v0);rcu_in(&nd.m);}while(((7<v0)<rcu_in(p0))){\
                irq_off(p2);}}rcu_in(p2);pthread_mutex_lock(p2);}else{irq_off(p2);}((v0)--- -1);return ask();}void f1(spinlock_t*p0){pthread_mutex_lock(p0);}",
        ],
    },
    Machined {
        spelled: "machine irq\nstates on U\nop down zero on>U U>!\nop spin_unlock void on>U U>on\n",
        rows: rows![
            [[160, 16, 40]; 3] => "void f0(spinlock_t*p0,_Bool p1,struct pair*p2){spin_unlock(p0);}_Bool f1(_Bool p0,spinlock_t*p1,spinlock_t*p2){down(p2);;down(p1);if(p0);f0(0,p0,0);return p0;}",
        ],
    },
    Machined {
        spelled: "machine m2\nstates U L\nop up zero U>! L>!\nop rcu_in void U>L L>!",
        rows: rows![
            [[28, 9, 1]; 3] => "void f0(spinlock_t*p0){rcu_in(p0);;}void f1(_Bool p0,_Bool p1){if(p0)f0(0);}_Bool f2(_Bool p0){p0;;f0(0);return(p0^p0);}",
        ],
    },
    Machined {
        spelled: "machine ref\nstates held L U off\nop irq_off zero held>L L>U U>off off>!\nop spin_lock void held>! L>held U>L off>U\nop mutex_trylock void held>L L>held U>off off>!\n",
        rows: rows![
            [[264, 6, 52]; 3] =>
                "void f0(spinlock_t*p0){mutex_trylock(p0);irq_off(p0);{if(0x80000000){{spin_lock(p0);255;}irq_off(p0);spin_lock(p0);}irq_off(p0);irq_off(p0);}(~(('a'||128)));}\
                void f1(_Bool p0,spinlock_t*p1){_Bool*v0=&p0;_Bool*v1;f0(p1);mutex_trylock(p1);}void f2(_Bool p0,spinlock_t*p1){mutex_trylock(p1);p0=128;f1(p0,p1);}",
        ],
    },
    Machined {
        spelled: "machine m2\nstates off held U _\nop rcu_in zero off>held held>U U>! _>!\nop irq_on void off>! held>off U>held _>U",
        rows: rows![
            [[200, 26, 10]; 3] => "void f0(spinlock_t*p0){irq_on(p0);rcu_in(p0);}_Bool f1(spinlock_t*p0,spinlock_t*p1){irq_on(p0);return(-(7));}void f2(_Bool p0){;f0(0);f0(0);}",
        ],
    },
    Machined {
        spelled: "machine ref\nstates x1 _ U\nop mutex_trylock zero x1>_ _>x1 U>!\nop up void x1>! _>x1 U>_",
        rows: rows![
            [[328, 96, 32]; 3] => "void f0(spinlock_t*p0,struct pair*p1){up(&p1->m);}void f1(spinlock_t*p0){-1;f0(p0,0);}void f2(_Bool p0,_Bool p1,_Bool p2){f1(0);p2;}",
        ],
    },
    Machined {
        spelled: "machine irq\nstates _ L U off\nop spin_lock zero _>L L>U U>L off>!\nop mutex_lock void _>! L>off U>L off>off",
        rows: rows![
            [[640, 219, 80]; 3] => "void f0(struct pair*p0,spinlock_t*p1,spinlock_t*p2){mutex_lock(p1);}void f1(spinlock_t*p0,_Bool p1){_Bool v0=p1;mutex_lock(p0);if(p1)f0(0,p0,p0);}",
        ],
    },
    Machined {
        spelled: "machine m2\nstates held _ U\nop mutex_lock zero held>! _>! U>!\nop spin_unlock void held>! _>U U>_",
        rows: rows![
            [[112, 48, 8]; 3] => "void f0(_Bool*p0,_Bool p1){;*p0;}_Bool f1(_Bool*p0){f0(p0,*p0);;return*p0;}_Bool f2(spinlock_t*p0,spinlock_t*p1){if(7)spin_unlock(p1);return('a'&&128);}",
        ],
    },
    Machined {
        spelled: "machine ref\nstates off _ L\nop irq_on zero off>! _>off L>_\nop up zero off>_ _>L L>!\n",
        rows: rows![
            [[176, 97, 6]; 3] => "_Bool f0(_Bool*p0,_Bool p1){;return p1;}void f1(spinlock_t*p0){up(p0);up(p0);if(3)f0(0,0x80000000);}_Bool f2(spinlock_t*p0,_Bool*p1){return(unsigned char)*p1;}",
        ],
    },
    Machined {
        spelled: "machine m2\nstates on x1 L\nop pthread_mutex_lock zero on>! x1>on L>x1\nop up void on>x1 x1>L L>!",
        rows: rows![
            [[176, 41, 10]; 3] =>
                "void f0(spinlock_t*p0,_Bool p1){p1=(ask()>=p1);;}_Bool f1(spinlock_t*p0,_Bool p1){f0(p0,(p1||p1));pthread_mutex_lock(p0);f0(p0,0);return p1;}\
                _Bool f2(spinlock_t*p0){_Bool v0;struct pair nd;f1(p0,nd.on);do{if(((nd.on/sizeof(int))||(v0|v0))){{up(p0);}if(!v0){v0=(v0>nd.on);up(&nd.m);up(p0);}else{up(p0);}\
                nd.on=128;}}while(v0);pthread_mutex_lock(&nd.m);up(&nd.m);out:up(p0);return(char)0x80000000;}",
        ],
    },
    Machined {
        spelled: "machine ref\nstates off x1 on\nop spin_lock zero off>! x1>! on>!\nop up void off>off x1>! on>!\nop irq_on void off>! x1>! on>!\nop mutex_lock zero off>! x1>on on>off\n",
        rows: rows![
            [[576, 72, 320]; 3] =>
                "int irq_on();spinlock_t gl;void f0(_Bool*p0){_Bool v0=(0>ask());if(ask()){up(&gl);}out:up(&gl);}\
                char*f1(spinlock_t*p0,spinlock_t*p1){irq_on(p0);irq_on(p1);ext(0);return 0;}void f2(struct pair*p0){f0(0);}",
        ],
    },
    Machined {
        spelled: "machine ref\nstates off on\nop irq_on zero off>! on>off\nop pthread_mutex_lock void off>on on>!\nop irq_off zero off>! on>!\nop down void off>! on>!\n",
        rows: rows![
            [[200, 112, 0]; 3] =>
                "void f0(_Bool*p0){;ext(p0);}struct pair*f1(_Bool*p0){ask();if(((2<=*p0)?300:!*p0))f0(p0);return(7?kmalloc(sizeof(struct pair)):0);}\
                struct pair*f2(spinlock_t*p0,spinlock_t*p1){2;if(128)f0(0);return 0;}",
        ],
    },
    Machined {
        spelled: "machine irq\nstates on L\nop mutex_trylock zero on>! L>!\nop down void on>L L>on\nop spin_lock zero on>L L>!\n",
        rows: rows![
            [[384, 32, 112]; 3] =>
                "void down(void*p);void f0(struct pair*p0,_Bool p1,_Bool p2){if(p1)p0->on=1;if(p0->on)mutex_trylock(&p0->m);;}\
                void f1(struct pair*p0,_Bool p1){struct pair*v0=(p1?p0:p0);f0(p0,v0->on,p0->on);}",
        ],
    },
    Machined {
        spelled: "machine out\nstates nested L\nop up zero nested>! L>nested\nop down void nested>! L>nested\n",
        rows: rows![
            [[36, 17, 1]; 3] => "int down();_Bool f0(spinlock_t*p0){;down(p0);return 0x80000000;}_Bool f1(_Bool p0,_Bool p1){if((p0<!p0))f0((p0?(spinlock_t*)0:0));p1;return p0;}",
        ],
    },
    Machined {
        spelled: "machine irq\nstates _ x1 nested\nop down zero _>x1 x1>nested nested>_\nop rcu_in void _>x1 x1>nested nested>!\n",
        rows: rows![
            [[258, 10, 48]; 3] => "_Bool f0(_Bool p0){return(unsigned)p0;}_Bool f1(spinlock_t*p0,spinlock_t*p1){f0((0x80000000<-1));rcu_in(p1);rcu_in(p1);if(2)f0(1);return(255==-1);}",
        ],
    },
    Machined {
        spelled: "machine out\nstates _ on off\nop up zero _>! on>_ off>on\nop spin_unlock void _>! on>off off>!",
        rows: rows![
            [[648, 257, 51], [648, 257, 67], [648, 257, 67]] =>
                "void f0(_Bool p0,spinlock_t*p1,struct pair*p2){}_Bool f1(spinlock_t*p0,struct pair*p1){{if(p1->on){for(;p1->on;){ext(p1);spin_unlock(p0);}}}f0(0x80000000,p0,p1);\
                return((p1->on&p1->on)==(p1->on-=p1->on));}void f2(spinlock_t*p0){spin_unlock(p0);}",
        ],
    },
    Machined {
        spelled: "machine m2\nstates U on\nop pthread_mutex_lock zero U>on on>U\nop up void U>! on>U\nop irq_off void U>! on>!\n",
        rows: rows![
            [[136, 24, 28]; 3] =>
                "spinlock_t gl;void f0(spinlock_t*p0,_Bool p1){if(!p1)irq_off(p0);irq_off(p0);if((300&&p1))irq_off(p0);}\
                _Bool f1(spinlock_t*p0,spinlock_t*p1){up(p0);(-1<1);if(0)f0(p1,128);return('a'||0);}\
                void f2(spinlock_t*p0,struct pair*p1,spinlock_t*p2){pthread_mutex_lock(p0);up(p2);}",
        ],
    },
    Machined {
        spelled: "machine m2\nstates U x1\nop mutex_trylock zero U>x1 x1>U\nop down void U>! x1>x1\nop spin_unlock zero U>x1 x1>!\n",
        rows: rows![
            [[258, 3, 68]; 3] => "struct pair*f0(_Bool p0){return 0;}void f1(spinlock_t*p0,spinlock_t*p1){down(p0);f0(0);down(p1);if(300)f0(0x80000000);}",
        ],
    },
    Machined {
        spelled: "machine irq\nstates L on x1\nop irq_on zero L>on on>on x1>!\nop spin_lock void L>on on>x1 x1>!",
        rows: rows![
            [[132, 20, 32]; 3] => "spinlock_t gl;void f0(_Bool p0,_Bool p1){;;}void f1(spinlock_t*p0,_Bool*p1){spin_lock(p0);*p1=!*p1;if(*p1)f0(*p1,*p1);}",
        ],
    },
    Machined {
        spelled: "machine lock\nstates L x1\nop pthread_mutex_lock zero L>x1 x1>!\nop mutex_trylock zero L>! x1>L",
        rows: rows![
            [[18, 3, 5]; 3] => "void f0(_Bool p0){!300;;}_Bool f1(spinlock_t*p0,spinlock_t*p1){pthread_mutex_lock(p0);mutex_trylock(p1);if(7)f0(2);return 1;}",
        ],
    },
    Machined {
        spelled: "machine m2\nstates L nested on _\nop down zero L>! nested>L on>nested _>on\nop up zero L>! nested>L on>nested _>L\nop spin_lock void L>nested nested>on on>_ _>!\nop irq_off void L>nested nested>on on>on _>!",
        rows: rows![
            [[1026, 130, 256]; 3] => "void f0(_Bool p0){;}void f1(struct pair*p0,spinlock_t*p1){spin_lock(p1);irq_off(p1);if(p0->on)irq_off(p1);if(ask())f0(p0->on);}",
        ],
    },
    Machined {
        spelled: "machine out\nstates held nested\nop mutex_lock zero held>nested nested>nested\nop spin_unlock void held>nested nested>!\n",
        rows: rows![
            [[580, 0, 218]; 3] =>
                "void f0(spinlock_t*p0){if(sizeof(int)){{if(-1){;1;}else{!(~(0));spin_unlock(p0);}}}spin_unlock(p0);spin_unlock(p0);spin_unlock(p0);}\
                void f1(spinlock_t*p0,struct pair*p1,spinlock_t*p2){spin_unlock(p2);spin_unlock(p0);spin_unlock(p2);f0(&p1->m);}\
                _Bool f2(spinlock_t*p0){spin_unlock(p0);if(7)f1(0,0,p0);return 1;}",
        ],
    },
    Machined {
        spelled: "machine lock\nstates on _ x1\nop pthread_mutex_lock zero on>x1 _>on x1>_\nop up zero on>_ _>x1 x1>!\n",
        rows: rows![
            [[152, 104, 16]; 3] =>
                "void up(spinlock_t*l){ext(l);}void f0(spinlock_t*p0,spinlock_t*p1){_Bool v0=1;if(ask()){{up(p1);v0=v0;}}}\
                void f1(_Bool p0){_Bool*v0=&p0;{int x1=((*v0>*v0)&2);*v0;}(*v0-*v0);if(!*v0){f0(0,0);{7;}}else{(p0<=7);}out:;}",
        ],
    },
    Machined {
        spelled: "machine irq\nstates nested on x1\nop up zero nested>on on>x1 x1>x1\nop irq_on zero nested>! on>nested x1>nested\n",
        rows: rows![
            [[520, 451, 1]; 3] =>
                "void f0(spinlock_t*p0){irq_on(p0);ext(0);}void f1(_Bool p0,_Bool*p1,spinlock_t*p2){}\
                void f2(_Bool p0,_Bool*p1,spinlock_t*p2){if((128?(128>>p0):irq_on(p2)))f1((p0&&p0),p1,p2);if(!p0)f1(*p1,p1,p2);}",
        ],
    },
    Machined {
        spelled: "machine out\nstates U nested held\nop spin_unlock zero U>nested nested>held held>!\nop up void U>! nested>! held>!\nop mutex_lock zero U>! nested>held held>nested\nop rcu_in void U>held nested>U held>nested\n",
        rows: rows![
            [[530, 2, 130]; 3] =>
                "void f0(_Bool p0){(!p0<(p0||128));}void f1(spinlock_t*p0,_Bool p1){int v0=(~(mutex_lock(p0)));char*v1=0;char arr[3]={1,2};struct pair nd;f0(++(*v1));rcu_in(p0);}\
                _Bool f2(spinlock_t*p0,_Bool p1,struct pair*p2){unsigned char v0=p1;_Bool*v1;char arr[3]={};for(;p1<1;){up(p0);f0(p1);rcu_in(&p2->m);}f0((p1/ *v1));*v1=v0;\
                spin_unlock(p0);return arr[arr[2]];}",
        ],
    },
    Machined {
        spelled: "machine out\nstates on x1 U\nop mutex_lock zero on>on x1>on U>x1\nop down void on>x1 x1>! U>!\nop mutex_trylock void on>! x1>on U>!\nop spin_unlock void on>! x1>U U>!\n",
        rows: rows![
            [[416, 192, 0]; 3] =>
                "struct pair*f0(_Bool p0,_Bool*p1){_Bool*v0=p1;unsigned char v1;struct pair nd;goto out;out:;return 0;}\
                _Bool f1(spinlock_t*p0,spinlock_t*p1){mutex_lock(p0);f0(3,0);return(~(0));}\
                _Bool f2(spinlock_t*p0){struct pair nd={};if(((-(nd.on)),(nd.on)++)){goto out;{int x1=nd.on;f1(p0,p0);}}else{nd.on=nd.on;}out:spin_unlock(&nd.m);\
                return(nd.on<=(255||nd.on));}",
        ],
    },
    Machined {
        spelled: "machine out\nstates on off x1 held\nop spin_unlock zero on>! off>on x1>off held>x1\nop irq_off void on>! off>on x1>off held>x1\n",
        rows: rows![
            [[514, 154, 72]; 3] =>
                "_Bool f0(_Bool p0){;;return(p0-p0);}void f1(spinlock_t*p0,_Bool*p1,_Bool p2){;if(*p1)spin_unlock(p0);}\
                void f2(spinlock_t*p0){char v0=1;if(spin_unlock(p0)){if(v0){if((f0(v0)>>(~(v0)))){spin_unlock(p0);{int x1=(short)(v0*v0);v0;}}else{if(ask()){spin_unlock(p0);}else{\
                spin_unlock(p0);v0=(v0==(unsigned)v0);}v0;irq_off(p0);}spin_unlock(p0);}}v0=spin_unlock(p0);if(v0)f1(p0,0,v0);}",
        ],
    },
];

#[test]
fn generated_programs_over_machines(rt: HostRuntime) {
    all_hold_over(&rt, rt.alloc(), GENERATED, MACHINES);
}
