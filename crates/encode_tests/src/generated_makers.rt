//! Programs of a generator of random ones: objects that are given through a parameter.

use crate::programs::{GENERATED, Row, all_hold, rows};

const MAKERS: &[Row] = rows![
    [[66, 66, 0]; 3] => "void f0(_Bool p0,_Bool**p1){}void f1(_Bool p0){_Bool*v0;_Bool own;_Bool*w=0;f0(!v0,&w);;;}",
    [[512, 384, 0]; 3] =>
        "_Bool f0(void*p0,void**p1,_Bool p2){void*v0=kmalloc(1);return p2;}_Bool f1(spinlock_t*p0,spinlock_t*p1){void*v0=kmalloc(8,0);void*w;if(!f0(0,&w,p1))return 0;return p1;}\
        void f2(void**p0,_Bool p1){void*v0;struct box*v1=0;void**z=&v0;void*w;if(f0(calloc(8,0),0,!p1))kfree(w);}\
        void*f3(void**p0){void*v0;void*w;if(!f0(w,&w,1))return 0;kfree(v0);return malloc(1);}",
    [[576, 64, 32]; 3] =>
        "void*gw;struct box*gx;void f0(spinlock_t**p0,_Bool p1){spinlock_t*v0;*p0=calloc(1,1);if(!*p0)return;}\
        _Bool f1(_Bool p0){_Bool*v0;spinlock_t*w=0;f0(&w,v0);if(gw)kfree(w);spin_lock(w);if(!gx)spin_lock(w);return v0==v0;}",
    [[144, 56, 0]; 3] =>
        "void f0(_Bool**p0){*p0=calloc(1,1);}_Bool f1(_Bool p0){_Bool*v0;_Bool*w=0;f0(&v0);ext(w);free(v0);if(p0){;};return 1;}\
        _Bool f2(_Bool p0){spinlock_t*v0;_Bool*w;f0(&w);ext(w);p0=f1(!1);kfree(v0);p0=p0;return p0;}\
        _Bool*f3(void){_Bool*v0;_Bool*v1;_Bool*w;f0(&w);free(w);;if(v0!=v0){;}if(w)kfree(w);return kmalloc(1);}",
    [[392, 148, 0]; 3] =>
        "_Bool f0(void*p0,void**p1){void*v0;_Bool own;if(own)*p1=kmalloc(8,0);else*p1=calloc(8,0);return own;}void f1(void**p0){if(!f0(0,p0)){;}}\
        void f2(_Bool p0){void*v0;void*w=0;f1(&w);if(v0)kfree(w);}",
    [[704, 72, 0]; 3] =>
        "void f0(_Bool**p0){if(!1)*p0=kzalloc(1,0);if(*p0)kfree(*p0);*p0=0;if(!*p0){;}}void f1(_Bool p0){_Bool*v0;_Bool*w=0;f0(&w);f0(&w);}\
        void f2(_Bool*p0){_Bool*v0=p0;_Bool*v1;_Bool own;_Bool*w=0;f0(&w);f0(&w);;}",
    [[464, 164, 0]; 3] =>
        "void f0(_Bool**p0){_Bool*v0;_Bool own;_Bool**z=&v0;*p0=kmalloc(8,0);kfree(*p0);;own=!p0;;}\
        _Bool f1(_Bool**p0){_Bool*v0;_Bool*w;f0(&w);if(1)free(w);if(v0){**p0=!1;}else{if(!*p0){;}}return*p0;}\
        _Bool*f2(void){char*v0;_Bool*w;if(f1(&w))free(w);f0(&w);*w=v0;*w=v0;return w?w:w;}\
        _Bool*f3(_Bool p0){char*v0=calloc(1);_Bool**z=0;_Bool*w;f0(&w);;free(w);kfree(v0);if(!f1(&w)){if(v0)return w;}return 0;}",
    [[56, 26, 0]; 3] =>
        "void f0(struct box**p0);void f1(void);void f2(_Bool p0);void f0(struct box**p0){struct box*v0;struct box**z=&v0;*p0=kmalloc(8,0);kfree(*p0);}\
        void f1(void){struct box*v0;struct box*w=0;f0(&w);if(w->on)free(w);}void f2(_Bool p0){struct box*v0;struct box*w;f0(&w);;v0=0;}\
        void f3(_Bool p0){struct box*v0;struct box*v1;struct box**z=&v0;struct box*w;f0(&w);*z=w;}",
    [[312, 142, 0]; 3] =>
        "void f1(_Bool p0);_Bool f0(void**p0,void*p1){_Bool own;struct box**z=0;if(!p1)*p0=calloc(1,1);else*p0=malloc(8,0);return!own;}\
        void f1(_Bool p0){struct box*v0;void*w;if(!f0(&w,v0))return;}void f2(_Bool p0){struct box*v0;void*w=0;if(f0(&w,kzalloc(8,0)))free(w);}\
        void f3(void){struct box*v0;_Bool own;void*w=0;if(f0(&w,w))kfree(w);if(!v0){w=!1?w:w;};;}",
    [[196, 82, 0]; 3] =>
        "void f1(void);void f0(void**p0,void*p1){_Bool*v0;_Bool own;*p0=kmalloc(8,0);if(!own)return;}void f1(void){void*v0;_Bool own;void*w;f0(&w,w);kfree(w);}\
        void f2(void*p0){void*v0;_Bool own;void*w=0;f0(&w,p0);f0(&w,p0);kfree(v0);v0=w;}",
    [[1042, 530, 0]; 3] =>
        "_Bool*gd;void f0(void**p0,void*p1,void**p2){if(*p2)return;}_Bool f1(_Bool p0){void*v0;void*v1;_Bool own;void*w;f0(&w,v1,&w);if(w)kfree(w);return!v0;}\
        _Bool f2(void){void*v0;void*v1;void*w;f0(&w,v0,&w);kfree(w);if(gd)return 1;return v1;}",
    [[672, 118, 0]; 3] =>
        "_Bool f0(_Bool p0,_Bool**p1){if(!p0)*p1=kzalloc(1,0);return p0;}void f1(void){_Bool*v0;_Bool*w;if(!f0(ask(),&w))return;}\
        _Bool f2(void){_Bool*v0;_Bool**z=&v0;_Bool*w;f0(!ask(),&v0);if(!*z)kfree(w);if(f0(!*z,&w)){f1();}return*z;}",
    [[352, 76, 0]; 3] =>
        "spinlock_t*f2(void);spinlock_t*f0(spinlock_t**p0,spinlock_t**p1){*p0=*p1;;return*p1;}\
        spinlock_t*f2(void){void*v0=0;spinlock_t*w;f0(&w,&w);;;v0=malloc(8,0);return kzalloc(1);}void f3(_Bool p0){spinlock_t*v0;spinlock_t*w;f0(&w,&w);;;}",
    [[224, 112, 0]; 3] =>
        "_Bool*gd;void f0(_Bool p0,void**p1){_Bool own;void**z=0;*p1=kzalloc(1,0);if(!*p1)return;}\
        void f1(_Bool p0,void*p1){void*v0=0;_Bool*v1;void**z=&v0;void*w;f0(p1!=*z,&w);if(w)free(w);}_Bool f3(_Bool p0){void*v0;void*w=0;f0(gd,&w);ext(w);return!p0;}",
    [[672, 408, 8]; 3] =>
        "_Bool f1(_Bool p0);_Bool f0(_Bool*p0,_Bool**p1){_Bool*n=calloc(1,1);if(!n)return 0;*p1=n;return p1;}\
        _Bool f1(_Bool p0){_Bool*v0;_Bool own;_Bool*w;if(!f0(&own,&w))return 0;;return!p0;}\
        _Bool f2(spinlock_t*p0){_Bool*v0=calloc(1);_Bool own;_Bool*w=0;if(!f0(w,&w))return 0;spin_lock(p0);if(w!=v0)spin_lock(p0);if(!w)return 1;return!p0;}",
    [[304, 88, 0]; 3] =>
        "struct box*gx;void f0(void**p0){void*v0;*p0=kmalloc(8,0);}_Bool f1(void){_Bool*v0=calloc(1);void*w;f0(&w);;;return gx->on;}\
        void f2(_Bool p0){void*v0=malloc(1);void*v1;void*w=0;f0(&w);if(w)free(w);}",
    [[68, 52, 0]; 3] =>
        "void give(_Bool**o);_Bool f0(void**p0,_Bool p1){void*v0;_Bool own;return*p0;}_Bool f1(_Bool p0){void*v0;void*w=0;if(!f0(&w,p0))return 0;give(0);;return!p0;}\
        void f2(_Bool p0){_Bool*v0;void*w=0;f0(&w,!w);if(ask()){f0(&w,!w);}if(f1(!1)){;}if(v0!=v0){if(p0)return;}}",
    [[580, 226, 0]; 3] =>
        "void f2(void);_Bool f0(void*p0,_Bool p1,void**p2){void*v0;*p2=kmalloc(8,0);if(!*p2)return 0;return p0;}void f1(void**p0,_Bool p1){if(!p1)*p0=kmalloc(8,0);else*p0=*p0;}\
        void f2(void){void*v0;void*w=0;f1(&w,1);if(!w)free(w);}_Bool f3(_Bool p0){void*v0=0;void*w;if(!f0(w,!ask(),&w))return 0;f0(v0,!1,&v0);;return v0;}",
    [[73, 39, 0]; 3] =>
        "void give(_Bool**o);void f0(_Bool p0,void**p1){*p1=calloc(1,1);if(!*p1)return;}void f1(void){void*v0;_Bool*w;give(&w);;}\
        _Bool f2(void){void*v0;spinlock_t*v1;_Bool*w=0;give(&w);give(&w);if(v0){f0(1,&v0);}else{if(!v0)return 1;}return v0;}\
        _Bool f3(void){void*v0;void*w;f0(v0,&w);if(!v0)kfree(w);;;return 1;}",
    [[320, 112, 0]; 3] =>
        "void give(_Bool**o);_Bool f0(_Bool**p0){*p0=malloc(1);if(!*p0)return 0;if(1){**p0=p0;};;return*p0!=*p0;}\
        _Bool f1(_Bool*p0){_Bool*v0;_Bool*v1;_Bool*w=0;give(&w);give(&w);return!f0(&w);}\
        _Bool f2(_Bool p0,_Bool p1){_Bool*v0;_Bool*w;if(f0(&w))free(w);if(1){if(!p0){;}}else{;}v0=v0;return p0;}",
    [[608, 514, 22]; 3] =>
        "_Bool*gd;void f0(spinlock_t**p0){_Bool own;spin_lock(*p0);if(!ask())spin_lock(*p0);free(*p0);}\
        _Bool f1(spinlock_t**p0){spinlock_t*v0=*p0?*p0:*p0;spinlock_t**z=&v0;spinlock_t*w;f0(&w);if(*z)free(w);spin_lock(*p0);if(v0!=w)spin_lock(*p0);return!*p0;}\
        _Bool f2(_Bool p0){spinlock_t*v0=0;void*v1;spinlock_t*w;f0(&w);if(!w){f0(&w);}if(!w){p0=w;}if(w){gd=&p0;}return p0;}",
    [[176, 80, 0]; 3] =>
        "void f0(spinlock_t*p0,spinlock_t**p1){*p1=kmalloc(8,0);ext(*p1);if(p0){if(*p1){;}}}\
        _Bool f1(_Bool p0){_Bool*v0;spinlock_t*v1;spinlock_t*w=0;f0(v1,&w);f0(v1,&w);return v0==v0;}\
        _Bool f2(spinlock_t*p0){spinlock_t*v0;spinlock_t*w=0;f0(p0,&w);ext(w);if(w)return 1;if(!1){;}return 1;}",
    [[1088, 432, 0]; 3] =>
        "_Bool f0(void*p0,void*p1,void**p2){_Bool own;void**z=0;*p2=malloc(1);if(own)return 1;return own;}\
        _Bool f1(void**p0){*p0=kmalloc(8,0);if(!*p0)return 0;if(!*p0){if(!*p0)return 1;}return!f0(kzalloc(8,0),*p0,p0);}\
        void*f2(void*p0){void*v0;void*w;if(!f0(malloc(8,0),w,&w))return 0;while(v0){if(1){kfree(p0);}}if(v0)return w;return v0;}",
    [[432, 416, 0]; 3] =>
        "void*gw;void f0(void**p0,_Bool p1);void f0(void**p0,_Bool p1){void*v0;_Bool own;if(own)*p0=kzalloc(1,0);own=p1;v0=kmalloc(1);}\
        _Bool f1(_Bool**p0){void*v0;void*v1;void*w=0;f0(&w,1);gw=w;return 1;}void f2(void**p0){void*n=kzalloc(1,0);if(!n)return;*p0=n;if(p0){if(!*p0)return;};*p0=*p0;}\
        _Bool f3(void*p0){void*v0;void**z=&v0;void*w=0;f2(&w);if(v0)return 0;*z=*z;;return!v0;}",
    [[544, 280, 0]; 3] =>
        "_Bool f2(_Bool**p0);_Bool f0(spinlock_t**p0){_Bool*v0;_Bool own;spinlock_t*n=malloc(1);if(!n)return 0;*p0=n;if(*p0)return 1;return!p0;}\
        _Bool f1(_Bool*p0,_Bool**p1){if(*p1)return 0;if(!p0)return 1;return*p0;}_Bool f2(_Bool**p0){_Bool own;*p0=kzalloc(1,0);return!f1(0,p0);}\
        _Bool f3(_Bool*p0){_Bool*v0;_Bool*w=0;f2(&w);ext(w);;if(w)kfree(w);kfree(v0);return p0;}",
    [[160, 68, 4]; 3] =>
        "spinlock_t*gk;void f0(void*p0,void**p1){void*v0;_Bool own;*p1=kzalloc(1,0);if(!*p1)return;}\
        void f1(void){void*v0;void*v1;void*w=0;f0(gk,&w);spin_lock(gk);if(!1)spin_lock(gk);;}",
    [[256, 96, 0]; 3] =>
        "_Bool*gd;void f0(struct box**p0,_Bool p1);void f0(struct box**p0,_Bool p1){*p0=calloc(1,1);if(!*p0)return;}\
        _Bool f1(_Bool p0){struct box*v0;struct box*w;f0(&w,!ask());f0(&w,!ask());return p0;}\
        _Bool f2(void){void*v0;struct box**z=0;struct box*w;f0(&w,1);;;if(!v0)return 1;return gd;}",
    [[1028, 516, 0]; 3] => "_Bool f0(_Bool**p0,_Bool**p1){return*p0;}void f2(_Bool p0){_Bool*v0;_Bool*w;f0(&w,&w);ext(w);}",
    [[1032, 1032, 0]; 3] => "void f0(_Bool**p0,_Bool**p1){}_Bool f1(_Bool p0,void*p1){void*v0;_Bool*w=0;f0(&w,&w);;if(p0)return 1;return!p0;}",
    [[112, 18, 0]; 3] =>
        "spinlock_t*gk;_Bool f0(struct box**p0){*p0=kmalloc(8,0);if(!*p0)return 0;while(*p0==*p0){*p0=*p0;}return*p0!=*p0;}\
        void f1(_Bool p0){struct box*v0=0;struct box*v1;struct box*w;if(!f0(&w))return;}\
        void f2(void){spinlock_t*v0;struct box**z=0;struct box*w;if(f0(&w))free(w);if(w!=w)spin_unlock(gk);ext(z);}",
    [[704, 384, 0]; 3] =>
        "_Bool*f0(_Bool**p0){_Bool**z=0;_Bool*n=malloc(1);if(!n)return 0;*p0=n;*p0=kmalloc(8,0);return*p0;}void f1(void){_Bool*v0;_Bool**z=&v0;_Bool*w;f0(&w);ext(w);;*v0=*z;}\
        _Bool f2(_Bool p0){_Bool*v0=&p0;_Bool*v1;_Bool*w;f0(&w);if(v0)free(w);*w=*w;;free(w);return p0;}",
];

#[test]
fn generated_programs_of_makers(rt: HostRuntime) {
    all_hold(&rt, rt.alloc(), GENERATED, "", MAKERS);
}
