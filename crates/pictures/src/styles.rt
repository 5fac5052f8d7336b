//! The styles of the pictures, as texts of CSS.

/// The look of a card: its paper, what is printed on it in advance, the holes, and the print.
pub const CARD_STYLE: &[u8] = b"\
.stock{fill:#f3e7c4;stroke:#8d8468;stroke-width:6}\
.face{fill:#b3a67c;font:90px monospace;text-anchor:middle}\
.small{fill:#b3a67c;font:46px monospace;text-anchor:middle}\
.hole{fill:#2a2620}\
.print{fill:#1d2f6f;font:bold 92px monospace;text-anchor:middle;white-space:pre}";

/// How the cards stand on a page, each with its number under it.
pub const FIGURE_STYLE: &[u8] = b"\
figure{display:inline-block;margin:.4em}\
figure svg{width:min(7.375in,96vw);height:auto;display:block}\
figcaption{padding:.1em .3em}\
@media print{figure{break-inside:avoid}}";

/// The look of a form: fourteen and seven eighths by eleven inches, bands of three lines at six to
/// the inch, and 132 columns at ten to the inch, for any letters that are six tenths as wide as
/// they are high. What is an inch on paper is less on a narrow screen, but no less than letters of
/// a size to read need.
pub const FORM_STYLE: &[u8] = b"\
.form{--inch:clamp(.68in,100vw/15.5,1in);position:relative;width:calc(14.875*var(--inch));\
min-height:calc(11*var(--inch));margin:calc(.3*var(--inch)) auto;background:#fdfdf8;\
box-shadow:0 2px 9px #0008}\
.band{position:absolute;left:calc(.5*var(--inch));right:calc(.5*var(--inch));top:0;bottom:0;\
background:repeating-linear-gradient(#dcefdc 0 calc(.5*var(--inch)),#fdfdf8 calc(.5*var(--inch)) \
var(--inch))}\
.strip{position:absolute;top:0;bottom:0;width:calc(.5*var(--inch));\
background:radial-gradient(circle,#777 calc(.078*var(--inch)),transparent calc(.084*var(--inch))) \
0 0/calc(.5*var(--inch)) calc(.5*var(--inch))}\
.strip.r{right:0}\
.form pre{position:relative;margin:0 0 0 calc(.8375*var(--inch));color:#222;\
font:calc(.16*var(--inch))/calc(var(--inch)/6) \
'Courier Prime','Courier New','Liberation Mono',monospace;\
letter-spacing:calc(.004*var(--inch))}\
.no{position:absolute;right:calc(.55*var(--inch));bottom:calc(.02*var(--inch));\
font:calc(.1*var(--inch)) sans-serif;color:#7a9a7a}\
@media print{.form{--inch:1in;margin:0;box-shadow:none;break-after:page}\
.form *{-webkit-print-color-adjust:exact;print-color-adjust:exact}}";

/// The page on which the cards of a deck stand.
pub(crate) const DECK_STYLE: &[u8] = b"\
body{background:#5b5348;margin:1em;font:14px sans-serif;color:#eee}\
h1{font-size:1.3em;overflow-wrap:anywhere}\
@media print{body{background:#fff;color:#000}}";

/// The pages on which the forms of a listing stand; a sheet of paper has the size of a form.
pub(crate) const LISTING_STYLE: &[u8] = b"\
body{margin:0;background:#777}\
@page{size:14.875in 11in;margin:0}\
@media print{body{background:none}}";
