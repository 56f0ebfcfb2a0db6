//! Programs of a generator of random ones: objects that are made, freed and given, pointers as results, and unknown calls that
//! let objects escape.

use crate::programs::{GENERATED, Row, all_hold, rows};

const OBJECTS: &[Row] = rows![
    [[128, 16, 16]; 3] =>
        "char*give(int n);struct pair*find(void);char*gp;char*f0(_Bool*,char*);char*f1(spinlock_t*p0,struct pair*p1){char*v0=0;for(;p1->on;){((*v0&&7)&&*v0);}goto out;\
        out:pthread_mutex_unlock(&p1->m);return v0;}",
    [[32, 32, 0]; 3] => "char*give(int n);struct pair*find(void);struct pair*gq;struct pair*f0(_Bool*,_Bool);struct pair*f0(_Bool*p0,_Bool p1){if(7);ext(p0);p1;return find();}",
    [[25, 25, 0]; 3] =>
        "char*give(int n);struct pair*find(void);void f1(spinlock_t*,_Bool);void f1(spinlock_t*p0,_Bool p1){kfree(malloc(8,0));;}_Bool f2(void){return 1;}\
        struct pair*f3(struct node*p0){;return malloc(1);}",
    [[1057, 1057, 0]; 3] => "void f0(spinlock_t*p0,struct pair*p1){}void f1(char*p0){}char*f2(void){return(255?(char*)0:0);}void f3(_Bool p0,_Bool*p1){if(p0)f0(0,0);}",
    [[17, 9, 0]; 3] => "char*f1(_Bool*);_Bool f0(void){if(0x80000000)(('a'||0x80000000)<=1u);if(1);return 1;}char*f1(_Bool*p0){ext(p0);f0();return 0;}",
    [[592, 224, 64]; 3] =>
        "void f0(_Bool*p0,struct pair*p1){ask();if(p1->on)spin_lock(&p1->m);}char*f1(spinlock_t*p0){f0(0,0);return\"ab\";}\
        _Bool f2(struct pair*p0){p0->on=(p0->on=p0->on);return mutex_trylock(&p0->m);}",
    [[20, 10, 0]; 3] => "_Bool f1(_Bool p0,_Bool*p1){;if(p0)sizeof(int);*p1;*p1=1;return(*p1!=*p1);}void f2(void){_Bool v0=1;_Bool*v1=&v0;((v0+*v1)^2);if(++(v0)){*v1;128;f1((*v1!=1u),v1);}}",
    [[82, 0, 16]; 3] =>
        "void f2(struct pair*);struct pair*f0(void){if((3%-1));if((128+(255<<'a')));return(255?kmalloc(sizeof(struct pair)):0);}\
        char f1(spinlock_t*p0){if(2)f0();spin_lock(p0);return('a',7);}void f2(struct pair*p0){unsigned char v0;struct pair nd;spin_lock(&p0->m);{int x1=(1u&&ask());kfree(p0);}\
        spin_lock(&nd.m);out:f2(f0());}",
    [[164, 70, 1]; 3] =>
        "char*f1(spinlock_t*);struct pair*f0(spinlock_t*p0,struct pair*p1){char*v0=0;struct pair nd={};{if(ask()){{for(;(*v0?(1u?p1->on:128):(nd.on<=nd.on));){mutex_lock(p0);}\
        nd=(*p1);}}};return p1;}char*f1(spinlock_t*p0){spin_lock(p0);return\"ab\";}void f2(void){char*v0;_Bool*v1;struct pair nd;{f0(&nd.m,malloc(1));}spin_lock(&nd.m);}",
    [[531, 327, 0]; 3] =>
        "_Bool gf;char*f0(_Bool*p0,_Bool p1,_Bool*p2){char*v0;((unsigned)gf?(0*3):gf);if(!p1){for(int k2=0;!*p0;){{;ext(0);;}}}gf;return v0;}_Bool f1(_Bool p0){;return(p0?p0:p0);}\
        void f2(void){if(((~(128))||(7==0)))!7;}char*f3(struct pair*p0,_Bool p1){f1((0x80000000%p1));return 0;}",
    [[56, 22, 6]; 3] =>
        "spinlock_t gl;struct pair*f0(_Bool p0,_Bool p1){if(2)p0;;return kmalloc(1);}_Bool f1(_Bool*p0){if(((*p0&&*p0)?(short)*p0:(*p0-*p0)))f0((*p0&&*p0),*p0);return*p0;}\
        _Bool f2(_Bool p0,spinlock_t*p1){unsigned v0=p0;spinlock_t own;{pthread_mutex_lock(p1);if(!p0){while(p0){pthread_mutex_lock(&gl);}{int x1=p0;;};}else{spin_unlock(p1);\
        mutex_unlock(p1);spin_unlock(&own);}};;return(_Bool)p1;}",
    [[88, 18, 2], [152, 18, 2], [280, 18, 2]] =>
        "_Bool ga[2];void f0(void){struct pair*v0;_Bool*v1=&v0->on;spinlock_t own;;if(255){if((0&&*v1)){{spin_lock(&v0->m);}while(((*v1>*v1)%(ga[2]||ga[1]))){mutex_lock(&v0->m);\
        mutex_lock(&v0->m);*v1=ask();}free(v0);}else{v0->on;}v1=ga;}free(v0);spin_lock(&v0->m);}void f1(_Bool p0,_Bool*p1){}\
        void f2(struct pair*p0){f1(('a'>1),0);spin_lock(&p0->m);}",
    [[208, 58, 0]; 3] =>
        "struct pair*f0(struct pair*,spinlock_t*);struct pair*f0(struct pair*p0,spinlock_t*p1){return p0;}_Bool f1(_Bool p0){;f0(kmalloc(1),0);return(p0&&p0);}\
        char f2(struct node*p0,_Bool*p1){*p1=1;;return p0->flag;}",
    [[264, 136, 0]; 3] => "_Bool f2(char**,spinlock_t*);void f1(spinlock_t*p0){if(0)f2(0,p0);}void f3(struct node*p0,_Bool*p1,struct pair*p2){f1(&p0->lock);;}",
    [[136, 64, 0]; 3] => "_Bool f0(_Bool*,struct pair*);_Bool f1(void);_Bool f0(_Bool*p0,struct pair*p1){return pthread_mutex_trylock(&p1->m);}_Bool f1(void){2;return f0(0,0);}",
    [[1057, 513, 16], [1057, 513, 24], [1057, 513, 24]] =>
        "spinlock_t gl;_Bool f0(void);_Bool f0(void){return 3;}void f1(spinlock_t*p0){struct node*v0=calloc(1);char*v1;spin_lock(&gl);for(;++(v0->flag);){\
        pthread_mutex_lock(&v0->lock);}if(v0->flag){if(v0->flag){f0();spin_lock(&gl);if(!v0->flag){spin_lock(p0);spin_unlock(&gl);spin_lock(p0);}}}}_Bool f2(char*p0){return*p0;}",
];

#[test]
fn generated_programs_of_objects(rt: HostRuntime) {
    all_hold(&rt, rt.alloc(), GENERATED, "", OBJECTS);
}
