//! Statements and declarations (C11 6.8, 6.7).

use crate::programs::{Row, all_hold, rows};

// Selection, jumps and the end of a function (C11 6.8.4, 6.8.6), with the operators that choose what is evaluated.
const CONDITIONS: &[Row] = rows![
    [[4, 4, 0]; 3] => "_Bool f(_Bool a,_Bool b){if(a){if(b)a=0;else b=1;}else if(b)a=1;return a;}",
    [[16, 16, 0]; 3] => "char f(_Bool a,_Bool*p){char r=2;if(p)if(*p)r=a;else;else r=4;return r;}",
    [[8, 8, 0]; 3] => "_Bool ask(void);char f(_Bool a){return a&&ask()?1:ask()||a?2:3;}",
    [[2, 2, 0]; 3] => "void f(_Bool a){if(a)return;a=1;}",
    [[16, 16, 0]; 3] => "_Bool*f(_Bool a,_Bool*p){if(a)return p;}",
    [[4, 4, 0]; 3] => "char f(_Bool a,_Bool b){char r=1;if(a)goto one;if(b)goto two;r=2;one:r+=4;two:three:r*=2;goto four;r=0;four:return r;}",
    [[256, 256, 0]; 3] => "char f(char n){char r=0;switch(n){case 1:r=1;case 2:r=2;break;default:r=3;case 4:r+=4;}return r;}",
    [[256, 256, 0]; 3] => "char f(char n){switch(n){case-1:return 1;case'a':return 2;}return 0;}",
    [[4, 4, 0]; 3] => "char f(_Bool a,_Bool b){switch(a+b){default:return 9;case 0:{a=1;break;}case 2:switch(b){case 1:a=0;break;default:return 8;}b=0;}return a*2+b;}",
    [[4, 4, 0]; 3] => "_Bool ask(void);char f(void){char r=0;switch(ask()+ask()){case 1:r=1;default:r+=2;}return r;}",
];

#[test]
fn conditions_and_jumps(rt: HostRuntime) {
    all_hold(&rt, rt.alloc(), "", "", CONDITIONS);
}

// Iteration (C11 6.8.5), with `break`, `continue` and `goto`.
const LOOPS: &[Row] = rows![
    [[4, 3, 0], [8, 7, 0], [16, 15, 0]] => "_Bool ask(void);char f(void){char r=0;while(ask())r++;return r;}",
    [[8, 6, 0], [16, 14, 0], [32, 30, 0]] => "_Bool ask(void);_Bool f(_Bool a){while(ask()){_Bool b=a;while(b)b=0;a=!a;}return a;}",
    [[256, 130, 0], [256, 131, 0], [256, 132, 0]] => "char f(char n){char i=0;while(i<n)i++;return i;}",
    [[2, 1, 0], [4, 3, 0], [8, 7, 0]] => "_Bool ask(void);_Bool f(void){_Bool a;do a=ask();while(a);return a;}",
    [[8, 5, 0], [32, 27, 0], [128, 119, 0]] => "_Bool ask(void);void f(_Bool a){do{if(a)continue;if(ask())break;}while(ask());}",
    [[16, 12, 0], [64, 56, 0], [256, 240, 0]] => "_Bool ask(void);void f(void){for(ask();ask();ask());}",
    [[2, 0, 0], [2, 2, 0], [2, 2, 0]] => "char f(_Bool a){char s=0;for(char i=0;i<2;i++)for(char j=i;j<2;j++){if(a)continue;s+=j;}return s;}",
    [[2, 1, 0]; 3] => "void f(_Bool a){for(;;)if(a)return;}",
    [[16, 14, 0], [128, 124, 0], [1024, 1016, 0]] => "_Bool ask(void);char f(void){char r=0;while(ask()){if(ask())break;if(ask())continue;r++;}return r;}",
    [[16, 14, 0], [64, 62, 0], [256, 254, 0]] => "_Bool ask(void);char f(_Bool a){char r=0;while(ask()){{if(a)goto next;}r=2;next:r++;if(ask())goto out;}r+=8;out:return r;}",
    [[2, 0, 0], [2, 0, 0], [2, 2, 0]] => "char f(_Bool a){char r=0;for(char i=0;i<3;i++)switch(i){case 0:continue;case 1:if(a)break;r=5;default:r++;}return r;}",
];

#[test]
fn loops(rt: HostRuntime) {
    all_hold(&rt, rt.alloc(), "", "", LOOPS);
}

// Blocks with locals and initialisers (C11 6.7.9), and runs that are set aside for what they read or write.
const OBJECTS: &[Row] = rows![
    [[2, 2, 0]; 3] => "_Bool f(_Bool a){_Bool b=a,c=!b;{_Bool b=c;c=b;}return b+c;}",
    [[2, 2, 0]; 3] => "struct t{_Bool b;char c[2];};struct s{char a;struct t d;};char f(_Bool a){struct s x={1,a,2};return x.a+x.d.b+x.d.c[0]+x.d.c[1];}",
    [[16, 8, 0]; 3] => "struct s{_Bool a;_Bool b;};struct u{struct s x;_Bool c;};_Bool f(struct s*p){struct u y={*p,1};struct u z={};return y.x.a+y.c+z.c;}",
    [[8, 6, 0], [32, 28, 0], [128, 120, 0]] => "_Bool ask(void);char f(void){char r=0;while(ask()){char k=ask();char a[2]={k};r+=a[0]+a[1];}return r;}",
    [[2, 2, 0]; 3] => "char f(_Bool i){char a[3]={'a','b'};char*s=\"xy\";char*t[2]={s};return a[i]+(t[i]!=0);}",
    [[256, 31, 0]; 3] => "char f(char a){char b=12;b/=a;b<<=a;return b;}",
    [[512, 4, 0]; 3] => "_Bool f(char i,_Bool c){_Bool a[2];a[0]=c;a[i]=!c;return a[0];}",
    [[512, 128, 0]; 3] => "struct s{_Bool x;_Bool*p;};_Bool f(struct s*a,_Bool c){struct s b;b=*a;b.x=c;*a=b;return*b.p;}",
    [[128, 32, 0]; 3] => "struct s{struct s*n;};_Bool f(struct s*p){return p->n->n==p;}",
    [[128, 96, 0]; 3] => "_Bool g;_Bool*at;_Bool f(_Bool c){at=c?&g:at;*at=!g;return g;}",
];

#[test]
fn objects(rt: HostRuntime) {
    all_hold(&rt, rt.alloc(), "", "", OBJECTS);
}
