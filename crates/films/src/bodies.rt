//! The body of the page of a film.

/// The keys, and the places that the script fills.
pub(crate) const FILM_BODY: &[u8] = b"\
<div id=keys role=group aria-label=\"The film\">\n\
<button id=home title=\"Start (Home)\" aria-label=\"To the start\"><svg viewBox=\"0 0 16 16\">\
<path d=\"M2 2h2v12H2zM14 2v12L5 8z\"/></svg></button\n\
><button id=left title=\"One step back (left arrow)\" aria-label=\"One step back\"><svg viewBo\
x=\"0 0 16 16\"><path d=\"M12 2v12L3 8z\"/></svg></button\n\
><button id=play title=\"Play (space)\" aria-label=\"Play\"><svg viewBox=\"0 0 16 16\"><path d\
=\"M3 1v14l11-7z\"/></svg></button\n\
><button id=right title=\"One step on (right arrow)\" aria-label=\"One step on\"><svg viewBox=\
\"0 0 16 16\"><path d=\"M4 2v12l9-6z\"/></svg></button\n\
><button id=end title=\"To the end (End)\" aria-label=\"To the end\"><svg viewBox=\"0 0 16 16\"\
><path d=\"M12 2h2v12h-2zM2 2v12l9-6z\"/></svg></button>\n\
<div id=place><input id=slide type=range min=0 value=0 aria-label=\"Step\"><canvas id=marks ar\
ia-hidden=true></canvas></div>\n\
<div id=count class=m></div>\n\
<select id=speed aria-label=\"Speed\"><option value=1500>slow<option value=500 selected>2 a se\
cond<option value=120>8 a second<option value=33>30 a second</select>\n\
<button id=program title=\"To the program's first instruction (P)\">Program</button><button id\
=unit title=\"To the next card or line (U)\">Card or line</button><button id=halt>End</button>\
\n\
</div>\n\
<main>\n\
<div id=source tabindex=0 role=region aria-label=\"Program\"><h2 id=which></h2><ol></ol></div>\
\n\
<div id=work>\n\
<section id=now aria-label=\"Instruction\" aria-live=polite aria-atomic=true><h2 id=number>Ins\
truction</h2><div class=m id=done></div><div id=said></div></section>\n\
<section id=lamps aria-label=\"Registers and indicators\"></section>\n\
<section id=slots aria-label=\"Storage at the instruction and at its fields\"></section>\n\
<div id=papers><section aria-label=\"Printer\"><h2 id=form></h2><div id=paper tabindex=0 role=\
region aria-label=\"Paper\"></div></section>\n\
<section id=cards aria-label=\"Cards\"><figure><figcaption id=read></figcaption><div id=reader\
></div></figure><figure><figcaption id=punched></figcaption><div id=punch></div></figure></sec\
tion></div>\n\
<section id=all aria-label=\"All storage\"><h2>Storage: a bar stands under each word mark</h2>\
<div id=core class=m></div></section>\n\
</div></main>\n";
