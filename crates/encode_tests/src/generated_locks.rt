//! Programs of a generator of random ones: operations of locks, and calls by summaries of them.

use crate::programs::{GENERATED, Row, all_hold, rows};

const LOCKS: &[Row] = rows![
    [[80, 16, 16], [80, 16, 32], [80, 16, 32]] =>
        "spinlock_t gl;void f0(spinlock_t*p0,_Bool p1){int v0;spinlock_t own;goto out;;if(p1){goto out;spin_lock(p0);if((p1)++){switch(pthread_mutex_lock(&gl)){\
        case 255:spin_unlock(&gl);case 2:spin_lock(p0);case 1:spin_unlock(&gl);}if(p1){(v0>=(0x80000000==v0));}}else{ask();}}else{spin_unlock(p0);mutex_unlock(&own);;}\
        spin_unlock(p0);out:spin_lock(p0);}_Bool f1(_Bool p0,spinlock_t*p1){struct pair nd;{do{{int x1=!(nd.on=nd.on);spin_unlock(&nd.m);}}while(0x80000000);if(128){\
        nd.on=(nd.on<=(nd.on?nd.on:p0));if(p0){for(int k0=0;p0;){spin_unlock(&gl);}nd.on=(p1==p1);}}}return p0;}\
        _Bool f2(struct pair*p0){char v0=p0->on;_Bool v1;spin_lock(&gl);if(255){;}}",
    [[72, 11, 9]; 3] => "_Bool ga[2];_Bool f0(spinlock_t*);_Bool f0(spinlock_t*p0){if(ask())spin_unlock(p0);return(0x80000000>='a');}void f1(struct pair*p0){f0(&p0->m);}",
    [[537, 69, 132]; 3] =>
        "_Bool gf;_Bool f0(_Bool*p0){char*v0;spinlock_t own;char arr[3]={1,2,};struct pair nd={};arr[*v0]=(*v0>=(_Bool)nd.on);return*p0;}\
        void f1(struct pair*p0,_Bool p1){;spin_unlock(&p0->m);}_Bool f2(struct node*p0,spinlock_t*p1,_Bool p2,spinlock_t*p3){spin_lock(p3);return p0->flag;}void f3(void){2;}",
    [[400, 90, 98]; 3] =>
        "_Bool gf;void f0(_Bool,struct pair*);void f0(_Bool p0,struct pair*p1){if(p0)spin_lock(&p1->m);ext(p1);}\
        void f1(spinlock_t*p0){{mutex_lock(p0);}{if((gf,gf)){7;f0(--(gf),0);gf=(unsigned char)7;}}}void f2(spinlock_t*p0,_Bool p1){;spin_lock(p0);f0(p1,0);}",
    [[18, 5, 4]; 3] =>
        "void f0(spinlock_t*,_Bool);void f0(spinlock_t*p0,_Bool p1){spin_lock(p0);}void f1(_Bool p0){;(unsigned char)(p0*sizeof(int));}\
        void f2(spinlock_t*p0,_Bool p1){spin_lock(p0);f1((p1/p1));}",
    [[81, 27, 16]; 3] =>
        "char f1(_Bool*);void f0(void){if((-((3<'a'))))(2,7);}char f1(_Bool*p0){_Bool v0=*p0;*p0;{for(;v0<1;){f0();v0=(1<v0);}}f0();v0;return v0;}\
        char f2(_Bool p0,struct pair*p1){p1->on=1;if(pthread_mutex_lock(&p1->m))f0();return(p1->on?p1->on:p1->on);}char f3(spinlock_t*p0,_Bool p1){return 1;}",
    [[264, 264, 0]; 3] => "void f1(char);void f0(_Bool*p0){}void f1(char p0){;f0(0);}",
    [[517, 13, 160]; 3] => "void f0(struct pair*p0){ext(p0);}void f1(void){}void f2(spinlock_t*p0,struct pair*p1,_Bool p2,_Bool p3){if(7)spin_lock(&p1->m);spin_lock(p0);;f0(p1);}",
    [[544, 536, 0]; 3] =>
        "_Bool*gb;_Bool ga[2];void f0(_Bool*p0){}_Bool f1(void){_Bool v0=((unsigned char)3&&0);char*v1=0;goto out;if(ga[0]){;while(*gb){{f0(&v0);}}};ga[(-(255))]=(ga[2]<=*gb);out:;\
        return ga[!1];}_Bool f2(_Bool p0,spinlock_t*p1){;return p0;}char f3(_Bool*p0,_Bool p1){;((sizeof(int)||*p0)||(p1&&2));if((*p0<=(-(*p0))))f0(p0);ext(p0);return(*p0<p1);}",
    [[1090, 1058, 0]; 3] =>
        "void f0(struct pair*,char);void f0(struct pair*p0,char p1){;}_Bool f1(struct pair*p0,spinlock_t*p1){f0(0,300);ext(p0);if(p0->on)p0->on=p0->on;return(p0->on|=p0->on);}\
        void f2(_Bool p0){if(((p0*p0)&&p0))((p0+=p0)&(p0%p0));if(!p0)f0((p0?(struct pair*)0:0),!p0);}",
    [[1096, 132, 320]; 3] =>
        "_Bool f0(struct pair*p0,_Bool*p1,struct pair*p2,_Bool p3){spin_lock(&p0->m);;*p1=!*p1;ext(p2);return 1;}\
        void f1(void){spinlock_t own;spin_lock(&own);while(1u){spin_lock(&own);}out:f0(0,0,0,300);}void f2(_Bool*p0){*p0=1;}",
    [[786, 300, 34]; 3] =>
        "spinlock_t gl;struct pair*gq;void f0(spinlock_t*);void f0(spinlock_t*p0){if(gq->on){gq->on=(!gq->on,spin_trylock(p0));spin_lock(&gl);mutex_unlock(&gl);}}\
        void f1(_Bool p0){short v0;char v1=v0;spinlock_t own;struct pair nd={};{int x1=v0;nd.on=v0;}}char f2(spinlock_t*p0,_Bool p1){if(p1)pthread_mutex_unlock(p0);;return ask();}\
        void f3(struct pair*p0,struct pair*p1){short v0;char v1;char arr[3]={};f1(++(p1->on));}",
    [[592, 130, 14]; 3] =>
        "void f0(spinlock_t*p0,_Bool p1,_Bool*p2,_Bool*p3){int v0=*p3;*p2=((p1<p1)<=255);{((*p2**p3)<(p1<p1));}}void f1(spinlock_t*p0,_Bool p1){spin_lock(p0);}\
        _Bool f2(void){f1(0,(7==128));if(((0?255:7)+'a')){if('a'){{_Bool x1=((7,255)?(7<=1u):(1u>=0));f0(0,1u,0,(2?(_Bool*)0:0));}}else{2;;;};};out:;return(3||sizeof(int));}\
        void f3(spinlock_t*p0,spinlock_t*p1){struct pair nd={};f1(p1,300);if(nd.on){{if(nd.on){spin_unlock(&nd.m);}}mutex_lock(p1);}spin_lock(p1);}",
    [[192, 24, 56]; 3] =>
        "void f0(_Bool,_Bool,_Bool,struct node*);void f1(spinlock_t*,_Bool,spinlock_t*);\
        void f0(_Bool p0,_Bool p1,_Bool p2,struct node*p3){char v0=p0;if(((p2)--|v0)){goto out;}out:spin_lock(&p3->lock);}\
        void f1(spinlock_t*p0,_Bool p1,spinlock_t*p2){spin_lock(p0);f0(!p1,p1,!3,0);spin_lock(p2);}",
    [[609, 73, 144], [609, 73, 152], [609, 73, 152]] =>
        "void f2(void);_Bool f0(struct node*p0,_Bool p1){_Bool*v0;char arr[3]={1,2};while(p0->flag){{{spin_lock(&p0->lock);}}}{;}spin_lock(&p0->lock);;return arr[0];}\
        char f1(spinlock_t*p0){f0(0,(300*255));return 0;}void f2(void){if(1);}_Bool f3(spinlock_t*p0,spinlock_t*p1,struct node*p2,_Bool*p3){spin_lock(p0);ext(p3);\
        return(*p3!=0x80000000);}",
    [[328, 146, 18]; 3] => "void f0(struct pair*p0){spin_unlock(&p0->m);}void f1(_Bool p0,struct pair*p1){;p0;p1->up=0;;}_Bool f2(struct pair*p0,_Bool p1){spin_unlock(&p0->m);;return!p0->on;}",
    [[260, 36, 64]; 3] =>
        "_Bool ga[2];void f1(_Bool,_Bool);void f1(_Bool p0,_Bool p1){_Bool*v0;p0;f1('a',(_Bool)p0);}\
        char f2(spinlock_t*p0){{if(spin_trylock(p0)){if(ga[2]){for(int k3=0;pthread_mutex_lock(p0);){f1(!ga[2],ga[1]);spin_lock(p0);}}}}ga[(ga[1]&&ga[1])];\
        out:pthread_mutex_lock(p0);return ga[1];}",
    [[577, 9, 24]; 3] =>
        "void f0(struct pair*,_Bool);void f0(struct pair*p0,_Bool p1){;spin_unlock(&p0->m);if((unsigned)(1u==p0->on))spin_unlock(&p0->m);}\
        char f1(_Bool*p0,_Bool p1,_Bool p2,spinlock_t*p3){f0(0,('a'<=p2));;return p1;}char f2(void){if(-1);return 255;}",
    [[332, 145, 9]; 3] =>
        "_Bool f0(spinlock_t*p0,_Bool p1,struct pair*p2,_Bool*p3){p3=p3;p1=*p3;return(p1&&*p3);}void f1(struct pair*p0,spinlock_t*p1){p0->on=p0->on;p0->on=1;spin_lock(p1);}\
        void f2(spinlock_t*p0){spin_lock(p0);}void f3(_Bool*p0){ext(p0);}",
    [[517, 133, 0]; 3] =>
        "_Bool*gb;char f2(void);_Bool f0(struct pair*p0){_Bool*v0;struct pair*v1=p0;*gb=(v1->on+=v1->on);return ask();}void f1(_Bool p0,_Bool p1){;}\
        char f2(void){f1(7,'a');return 3;}",
    [[80, 16, 8]; 3] =>
        "void f0(_Bool*);char f2(_Bool*);void f0(_Bool*p0){struct pair*v0=0;unsigned v1=*p0;char arr[3];{v1=ask();}spin_lock(&v0->m);}\
        void f1(struct pair*p0,spinlock_t*p1,_Bool p2){;spin_lock(p1);}char f2(_Bool*p0){*p0=!*p0;if(!*p0)f1(0,0,*p0);return 3;}",
    [[129, 129, 0]; 3] => "void f0(_Bool p0,_Bool*p1,struct pair*p2,_Bool p3){p2=p2;}void f1(void){char v0=300;f0(!v0,0,0,v0);;;;out:f0(v0,0,0,v0);}",
    [[276, 33, 33]; 3] =>
        "char f1(spinlock_t*);void f0(spinlock_t*p0,_Bool*p1,_Bool*p2){*p1=1;spin_lock(p0);ext(0);*p2=!*p2;}char f1(spinlock_t*p0){;spin_lock(p0);return-1;}\
        void f3(spinlock_t*p0,struct pair*p1){}",
    [[32, 4, 4]; 3] =>
        "_Bool gf;void f0(spinlock_t*p0){unsigned v0=7;spinlock_t own;if(!gf){if(gf){if(gf){return;spin_lock(p0);};}else{spin_lock(p0);}spin_unlock(&own);}else{spin_lock(p0);\
        spin_unlock(p0);spin_lock(p0);}spin_lock(&own);}void f1(_Bool p0,_Bool p1){unsigned v0=p0;f0(0);}",
    [[848, 18, 24]; 3] =>
        "_Bool*gb;_Bool f0(_Bool,_Bool);_Bool f0(_Bool p0,_Bool p1){struct pair*v0=0;v0->up=v0;if(*gb){spin_lock(&v0->m);}{if(v0->on){if(v0->on){mutex_unlock(&v0->up->m);\
        pthread_mutex_lock(&v0->m);v0->on=(p1^(-1%*gb));}else{spin_lock(&v0->m);}spin_lock(&v0->m);f0((1u>=*gb),mutex_trylock(&v0->m));}}return ask();}\
        void f1(_Bool*p0){spinlock_t own;struct pair nd;f0(0x80000000,(*p0-nd.on));if(*p0){{pthread_mutex_lock(&own);pthread_mutex_unlock(&nd.m);}}spin_lock(&nd.m);}\
        _Bool f2(struct node*p0,struct node*p1,spinlock_t*p2){spin_lock(p2);;return 7;}\
        _Bool f3(_Bool*p0,spinlock_t*p1){if(*p0)f2((300?(struct node*)0:0),0,p1);if(((-1||300)/ *p0))spin_unlock(p1);spin_lock(p1);return*p0;}",
    [[432, 136, 8]; 3] =>
        "_Bool f1(spinlock_t*,spinlock_t*);_Bool f0(struct node*p0,struct pair*p1,_Bool*p2,_Bool p3){;;*p2=1;return*p2;}\
        _Bool f1(spinlock_t*p0,spinlock_t*p1){ask();spin_lock(p1);return(128*300);}_Bool f2(_Bool p0,_Bool p1){struct pair*v0=0;char arr[3]={};switch((v0->on+p1)){\
        default:spin_lock(&v0->m);break;case 1:spin_lock(&v0->m);case 255:p1=(p1==300);case 2:f0(0,v0->up,&p1,p0);break;}out:return((p0&&7)-(p0&&p0));}\
        void f3(_Bool p0){int v0;char arr[3]={1,2};f1(0,0);{if(f1(0,0)){{if(p0){;}else{;v0=(-(v0));}v0;sizeof(int);}((arr[0]/arr[1])>p0);}};v0;}",
    [[104, 70, 0]; 3] =>
        "_Bool f0(_Bool*,struct node*,_Bool);_Bool f0(_Bool*p0,struct node*p1,_Bool p2){*p0=1;return p2;}void f1(_Bool p0){if(p0)f0(&p0,0,p0);}\
        _Bool f3(struct pair*p0,_Bool p1,_Bool p2,_Bool p3){;return p2;}",
    [[100, 32, 20]; 3] =>
        "_Bool f0(struct node*);void f2(struct pair*,spinlock_t*,struct pair*);_Bool f0(struct node*p0){return 300;}\
        void f2(struct pair*p0,spinlock_t*p1,struct pair*p2){spin_lock(p1);}_Bool f3(struct pair*p0){if(p0->on)spin_lock(&p0->m);return p0->on;}",
    [[88, 24, 0]; 3] => "void f0(struct pair*p0,struct node*p1){;ext(p0);}void f1(_Bool*p0){}void f2(struct pair*p0){struct pair*v0;struct pair*v1=p0;f0(p0,0);if(!v0->on){(*p0)=(*v0);}}",
    [[536, 136, 128]; 3] =>
        "void f0(_Bool*p0,_Bool p1,struct pair*p2){if(p2->on){if(!p2->on){;{if(p1){spin_lock(&p2->m);spin_unlock(&p2->m);spin_unlock(&p2->m);}spin_lock(&p2->m);\
        p0=((*p0<=p1)?(_Bool*)0:0);}spin_unlock(&p2->m);}}spin_lock(&p2->m);}char f1(_Bool p0){_Bool v0=p0;struct pair*v1=(v0?(struct pair*)0:0);struct pair nd;{do{{255;};}\
        while(v1->on);nd=(*v1);f0(&p0,300,0);}ext(\"ab\");v0;return v1->on;}char f2(_Bool p0,_Bool*p1){*p1=!*p1;return p0;}",
    [[290, 10, 36]; 3] =>
        "_Bool f0(spinlock_t*p0,spinlock_t*p1){char arr[3]={};struct pair nd={};{spin_lock(p0);}do{if((255>=(0x80000000?nd.on:nd.on))){continue;switch((arr[2]||arr[0])){\
        case 1:mutex_lock(p0);break;case-1:;break;}}}while((nd.on/nd.on));}_Bool f1(struct pair*p0){f0(&p0->m,&p0->m);return(~(p0->on));}void f2(_Bool p0){if(p0)(p0>(~(p0)));;}\
        _Bool f3(struct node*p0){;return p0->flag;}",
    [[1026, 514, 0]; 3] =>
        "char f0(_Bool p0,char p1){if(!p0);return sizeof(int);}_Bool f1(_Bool p0){;return(p0||p0);}\
        void f2(_Bool p0){_Bool*v0=0;spinlock_t own;{{int x1=((2<*v0)<(7>0x80000000));pthread_mutex_unlock(&own);}if(*v0){if(!*v0){f0(!p0,(p0&&-1));spin_unlock(&own);p0=(p0&p0);}\
        else{spin_unlock(&own);}}spin_lock(&own);}spin_unlock(&own);ext(v0);out:p0;}",
];

#[test]
fn generated_programs_of_locks(rt: HostRuntime) {
    all_hold(&rt, rt.alloc(), GENERATED, "", LOCKS);
}
