//! The style of the page of a job, as a text of CSS.

/// The page: its head with a table, its listing with code, and behind these forms and cards.
pub(crate) const JOB_STYLE: &[u8] = b"\
body{background:#fff;color:#222;margin:1em;font:15px/1.4 sans-serif}\
table{border-collapse:collapse}\
th{text-align:left;font-weight:normal;color:#666;padding:.15em 1.5em .15em 0;vertical-align:top}\
td{padding:.15em 0}\
code{font:13px monospace;overflow-wrap:anywhere}\
.code{font:12px/1.35 monospace;overflow:auto}\
h1{overflow-wrap:anywhere}\
h2{margin:1.5em 0 .5em}\
.paper{overflow-x:auto}\
@media print{h2{break-before:page}}";
