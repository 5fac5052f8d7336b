//! The look of the page of a film, as a text of CSS.

/// The look of the page.
pub(crate) const FILM_STYLE: &[u8] = b"\
*{box-sizing:border-box}\n\
body{margin:0;background:#faf8f1;color:#222;font:16px/1.4 sans-serif}\n\
h1{font-size:1.25em;margin:0}h2{font-size:.85em;font-weight:normal;color:#5c564a;margin:0 0 .2\
em}\n\
header{padding:.5em 1em .3em}header p{margin:0;color:#5c564a;font-size:.9em}\n\
pre,.m{font-family:'Courier Prime','Courier New','Liberation Mono',monospace;margin:0}\n\
#keys{position:sticky;top:0;z-index:3;background:#f2efe4;border:solid #c9c2ae;border-width:1px \
0;padding:.35em 1em;display:flex;flex-wrap:wrap;gap:.3em .5em;align-items:center}\n\
button,select{font:inherit;font-size:.9em;min-height:2.4em;min-width:2.6em;border:1px solid #8\
d8468;border-radius:4px;background:#fff;color:#222;padding:0 .6em;cursor:pointer}\n\
button svg{width:1.1em;height:1.1em;fill:#222;vertical-align:-.15em}button:hover{background:#f\
3e7c4}button:disabled{opacity:.45;cursor:default}\n\
#play{background:#3a6ea5;border-color:#3a6ea5;min-width:3.4em}#play svg{fill:#fff}\n\
:focus-visible{outline:3px solid #3a6ea5;outline-offset:1px}\n\
#place{flex:1 1 12em;min-width:9em;position:relative}#slide{width:100%;margin:0;display:block;\
height:1.5em;accent-color:#3a6ea5}\n\
#marks{display:block;width:100%;height:8px}\n\
#count{min-width:7.5em;text-align:right;font-variant-numeric:tabular-nums}\n\
main{display:grid;grid-template-columns:minmax(20em,38em) minmax(0,1fr);gap:0 1em;padding:.6em \
1em 1em}\n\
#source{position:sticky;top:4.4em;align-self:start;max-height:calc(100vh - 5.2em);overflow:aut\
o;background:#fff;border:1px solid #c9c2ae;scrollbar-gutter:stable}\n\
#source ol{list-style:none;margin:0;padding:.2em 0;width:max-content;min-width:100%}\n\
#source li{font:13px/1.42 'Courier Prime','Courier New','Liberation Mono',monospace;white-spac\
e:pre;padding:0 .6em 0 .3em;border-left:4px solid transparent}\n\
#source li.at{background:#cfe8cf;border-color:#2c6e2c;font-weight:bold}\n\
#source li.next{border-color:#2c6e2c}#source li.todo{cursor:pointer}#source li.todo:hover{back\
ground:#f3e7c4}\n\
#source li i{font-style:normal;color:#5c564a;font-weight:normal}#source li.note{color:#6a6354}\
#source h2{padding:.3em .8em 0}\n\
#work{min-width:0;display:grid;gap:.55em;align-content:start}\n\
section{min-width:0}#all{container-type:inline-size}\n\
#now{background:#fff;border:1px solid #c9c2ae;padding:.35em .7em .45em}\n\
#now .m{font-size:1.5em;line-height:1.25;white-space:pre-wrap;overflow-wrap:anywhere}#now .m b\
{display:inline-block}\n\
#said{min-height:1.45em}#said b{font-weight:bold}#said .bad{color:#a00;font-weight:bold}\n\
#lamps{display:flex;flex-wrap:wrap;gap:.35em}\n\
#lamps div{border:1px solid #c9c2ae;background:#fff;padding:.05em .55em .1em;min-width:4.2em}\n\
#lamps small{display:block;color:#5c564a;font-size:.75em;line-height:1.25}#lamps b{font:bold 1\
.1em/1.2 'Courier Prime','Courier New','Liberation Mono',monospace;white-space:pre}\n\
#lamps .lit{background:#ffe08a;border-color:#8a6a00}#lamps .bad{background:#a00;border-color:#\
700;color:#fff}#lamps .bad small{color:#fff}\n\
#lamps .i{border-left:5px solid #2c6e2c}#lamps .a{border-left:5px solid #2f5f9a}#lamps .b{bord\
er-left:5px solid #9a5b00}\n\
.slot{display:grid;grid-template-columns:1.7em 1fr;border:1px solid #c9c2ae;background:#fff}\n\
.slot+.slot{border-top:0}\n\
.slot>b{grid-row:span 9;color:#fff;display:flex;align-items:center;justify-content:center;font\
-size:1.2em}\n\
.slot.i>b{background:#2c6e2c}.slot.a>b{background:#2f5f9a}.slot.b>b{background:#9a5b00}\n\
.row{display:grid;grid-template-columns:3.4em 1fr;align-items:end;padding:.05em .3em .15em 0}\n\
.row>small{color:#5c564a;font:12px/1 monospace;text-align:right;padding:0 .5em 8px 0}\n\
.cells{display:grid;grid-template-columns:repeat(var(--w),1fr);container-type:inline-size}\n\
.c{position:relative;font:bold clamp(11px,calc(100cqw/var(--w)*1.12),25px)/1 'Courier Prime','\
Courier New','Liberation Mono',monospace;text-align:center;height:2.05em;padding-top:.78em;bor\
der-bottom:4px solid transparent;white-space:pre;background:linear-gradient(#eee9da,#eee9da) 1\
00% 100%/1px 1.25em no-repeat}\n\
.c.w::after{content:\"\";position:absolute;left:8%;right:8%;bottom:-4px;height:4px;background:\
#222}\n\
.c.f{background-color:var(--tint)}.slot.i{--tint:#cfe8cf;--pen:#2c6e2c}.slot.a{--tint:#cfe0f5;\
--pen:#2f5f9a}.slot.b{--tint:#fbe3b3;--pen:#9a5b00}\n\
.c s{position:absolute;left:0;right:0;top:.1em;font-size:.62em;font-weight:normal;color:#5c564\
a;text-decoration:none}\n\
.c.new{color:#a00}\n\
.c.here::before{content:\"\";position:absolute;top:.1em;left:50%;margin-left:-.33em;border:.33\
em solid transparent;border-top:.5em solid var(--pen);border-bottom:0}\n\
.empty{min-height:2em;color:#6a6354;padding:.35em .6em;font-size:.9em}\n\
#papers{display:grid;grid-template-columns:minmax(0,1fr);gap:.55em}\n\
#paper{background:#fdfdf8;border:1px solid #c9c2ae;overflow-x:auto;container-type:inline-size}\
\n\
#paper div{font:clamp(9.5px,calc(100cqw/(var(--columns)*.6 + 5.5)),15px)/1.32 'Courier Prime',\
'Courier New','Liberation Mono',monospace;white-space:pre;width:max-content;min-width:100%;min\
-height:1.32em;padding:0 2.2em;\n\
background:radial-gradient(circle,#777 0 .22em,transparent .26em) .4em 50%/1.1em 1.32em no-rep\
eat,radial-gradient(circle,#777 0 .22em,transparent .26em) calc(100% - .4em) 50%/1.1em 1.32em \
no-repeat}\n\
#paper .g{background-color:#dcefdc}#paper .fold{border-top:1px dashed #8d8468}#paper .last{fon\
t-weight:bold}\n\
#paper .here{box-shadow:inset 0 -2px #a00}\n\
#cards{display:grid;grid-template-columns:1fr 1fr;gap:.55em;align-content:start}\n\
#cards figure{margin:0;min-width:0}#cards svg{display:block;width:100%;height:auto}figcaption{\
font-size:.85em;color:#5c564a}\n\
.none{aspect-ratio:7375/3250;border:1px dashed #8d8468;border-radius:4px;color:#6a6354;display\
:flex;align-items:center;justify-content:center;font-size:.9em}\n\
#core{background:#fff;border:1px solid #c9c2ae;padding:.3em .5em;display:flex;align-items:end;\
flex-wrap:wrap;column-gap:1.2em;font:clamp(8px,calc(100cqw/36),13px)/1.45 'Courier Prime','Cou\
rier New','Liberation Mono',monospace}\n\
#core div{white-space:pre}#core small{font-size:1em;color:#6a6354}\n\
#core .gap{margin-top:.5em}#core .w{box-shadow:inset 0 -2px #222}\n\
#core .i{background:#cfe8cf}#core .a{background:#cfe0f5}#core .b{background:#fbe3b3}#core .new\
{color:#a00;font-weight:bold}\n\
.sr{position:absolute;width:1px;height:1px;overflow:hidden;clip-path:inset(50%)}\n\
#film{padding:1em;white-space:pre-wrap;overflow-wrap:anywhere}\n\
@media(min-width:1000px){#slots{min-height:10em}#papers{grid-template-columns:minmax(0,3fr) mi\
nmax(0,2fr)}#cards{grid-template-columns:1fr}}\n\
@media(min-width:1500px){body{font-size:18px}main{grid-template-columns:minmax(30em,36em) minm\
ax(0,1fr)}#source li{font-size:14px}#core{font-size:clamp(8px,calc(100cqw/70.5),16px)}}\n\
@media(max-width:999px){main{display:block;padding:.5em}#work{margin-bottom:.6em}#source{posit\
ion:static;max-height:21em;margin-bottom:.6em}header{padding:.4em .6em .2em}\n\
#keys{position:fixed;left:0;right:0;top:auto;bottom:0;padding:.3em .4em calc(.3em + env(safe-a\
rea-inset-bottom));border-width:1px 0 0;gap:.3em}\n\
#place{flex-basis:calc(100% - 8em);order:-2}#count{order:-1;min-width:7em}body{padding-bottom:\
11em}#keys button,#keys select{flex:1 0 auto;min-height:44px}}\n\
@media(max-width:600px){body{font-size:15px}#now .m{font-size:1.25em;min-height:2.5em}#source \
li{font-size:11.5px}#source{max-height:15em}#cards{grid-template-columns:1fr}.row{grid-templat\
e-columns:3em 1fr}}\n\
@media print{#keys{display:none}body{background:#fff;padding:0;font-size:11px}main{display:blo\
ck;padding:0 .5em}#source{position:static;max-height:none;overflow:visible;border:0}#source li\
{font-size:8px}#source li:not(.near){display:none}*{-webkit-print-color-adjust:exact;print-col\
or-adjust:exact}#papers{grid-template-columns:minmax(0,3fr) minmax(0,2fr)}#cards{grid-template\
-columns:1fr}#papers,#all{break-inside:avoid}#slots{min-height:0}#paper div{font-size:9px}#cor\
e{font-size:calc(100cqw/71)}}\n";
