//! The fixed parts of a page.

/// The head of a page up to its title. The style is within a comment, as a style sheet may have one, so that it shows nothing.
/// (HTML Living Standard, 4.2 Document metadata; CSS Syntax Module Level 3: CDO and CDC tokens.)
pub(crate) static HEAD: &[u8] =
    b"<!DOCTYPE html><html lang=\"en\"><head><meta charset=\"utf-8\"><meta name=\"viewport\" \
content=\"width=device-width, initial-scale=1\"><style><!-- \
body{font:14px/1.4 monospace;margin:1em auto;padding:0 1em;max-width:80em;color:#000;background:#fff} \
h2{font-size:1.1em;margin:1.6em 0 .4em;border-bottom:1px solid #888;break-after:avoid} \
.wide{overflow-x:auto} table{border-collapse:collapse} td{padding:0 .4em 0 0;white-space:nowrap} \
svg{display:block;fill:#000;stroke:none} svg text{font:12px monospace} line{stroke:#777;stroke-width:1} \
.strip{width:100%;height:3em;background:#eee;border:1px solid #888;box-sizing:border-box} \
.scale,.key{display:flex;flex-wrap:wrap;justify-content:space-between} .key{justify-content:start;align-items:center;gap:.3em} \
svg.key{width:12px;height:12px;margin-left:1em;flex:none} .bar{width:100%;height:.5em;margin-bottom:.3em} \
.code{fill:#3b6ea5} .data{fill:#7aa649} .stack{fill:#c4622d} .chain{fill:#c4622d} line.chain{stroke:#c4622d;stroke-width:3} \
.other{fill:#9db8d2} .box{fill:#fff;stroke:#777} .boxchain{fill:#fff;stroke:#c4622d;stroke-width:3} \
svg[width]{max-width:none} \
@media print{body{font-size:9pt;margin:0;padding:0;max-width:none} .wide{overflow:visible} svg[width]{max-width:100%;height:auto} \
tr{break-inside:avoid} *{print-color-adjust:exact;-webkit-print-color-adjust:exact}} \
--></style><title>";

/// What follows a strip of memory: a scale of addresses, and what the colors stand for.
pub(crate) static SCALE: &[u8] =
    b"</svg><div class=\"scale\"><span>0000</span> <span>4000</span> <span>8000</span> \
<span>C000</span> <span>FFFF</span></div>\n<div class=\"key\"><svg class=\"key\"><rect class=\"code\" width=\"12\" \
height=\"12\"/></svg>CODE <svg class=\"key\"><rect class=\"stack\" width=\"12\" height=\"12\"/></svg>STACK \
<svg class=\"key\"><rect class=\"data\" width=\"12\" height=\"12\"/></svg>DATA</div>\n";
