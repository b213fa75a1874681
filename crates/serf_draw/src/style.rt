//! Contains the fixed parts of an SVG file.

/// The first tag, up to the width and the height of the visible area.
pub const OPENING: &[u8] = b"<svg xmlns='http://www.w3.org/2000/svg' role='img' viewBox='-700 0 ";

/// The title, the colours for light and dark, the arrow heads, and the background. Each colour is written twice: first
/// as its light value, for viewers that don't support variables, and then as its variable.
pub const STYLE: &[u8] = b"<title>A run of a cluster, from the top down</title>
<style>
svg{--ink:#1f2328;--paper:#ffffff;--lane:#afb8c1;--t:#1a7f37;--i:#6e7781;--r:#cf222e;font:75px ui-monospace,Menlo,Consolas,monospace}
@media(prefers-color-scheme:dark){svg{--ink:#e6edf3;--paper:#0d1117;--lane:#484f58;--t:#3fb950;--i:#8b949e;--r:#ff7b72}}
.p{fill:#ffffff;fill:var(--paper)}
path{fill:none;stroke-width:8}
.l,.b{stroke:#afb8c1;stroke:var(--lane)}
.w{stroke:#afb8c1;stroke:var(--lane);stroke-width:4;stroke-opacity:.5}
.g{stroke:#ffffff;stroke:var(--paper);stroke-width:20}
path.t{stroke:#1a7f37;stroke:var(--t);marker-end:url(#t)}
path.i{stroke:#6e7781;stroke:var(--i);marker-end:url(#i);stroke-dasharray:24 16}
path.r{stroke:#cf222e;stroke:var(--r);marker-end:url(#r)}
.x{stroke:#6e7781;stroke:var(--i)}
.t circle,text.t,#t path{fill:#1a7f37;fill:var(--t)}.i circle,text.i,.n,#i path{fill:#6e7781;fill:var(--i)}.r circle,text.r,#r path{fill:#cf222e;fill:var(--r)}
text{white-space:pre}
.h{fill:#1f2328;fill:var(--ink);stroke:#ffffff;stroke:var(--paper);stroke-width:24;stroke-linejoin:round;paint-order:stroke;font-weight:bold;text-anchor:middle}
</style>
<defs>
<marker id='t' viewBox='0 0 10 10' refX='12' refY='5' markerWidth='6' markerHeight='6' orient='auto'><path d='M0 0L10 5L0 10z'/></marker>
<marker id='i' viewBox='0 0 10 10' refX='12' refY='5' markerWidth='6' markerHeight='6' orient='auto'><path d='M0 0L10 5L0 10z'/></marker>
<marker id='r' viewBox='0 0 10 10' refX='12' refY='5' markerWidth='6' markerHeight='6' orient='auto'><path d='M0 0L10 5L0 10z'/></marker>
</defs>
<rect class='p' x='-700' y='0' width='100%' height='100%'/>
";

/// The legend, and the end of the group that contains the legend.
pub const LEGEND: &[u8] =
    b"<path class='t' d='M0 0H150'/><text class='t' x='180' y='25'>taken</text>
<path class='i' d='M480 0H630'/><text class='i' x='660' y='25'>ignored</text>
<path class='r' d='M1050 0H1200'/><text class='r' x='1230' y='25'>refused</text>
<path class='x' d='M1620 0H1640M1640-11L1662 11M1640 11L1662-11'/><text class='n' x='1690' y='25'>given to nobody</text>
<path class='b' d='M2430-25H2530M2430 25H2530'/><text class='n' x='2560' y='25'>opened again</text></g>
";

/// A row, which consists of the action's number, the dot and the label.
pub const ROW: &[u8] = b"<text class='n' x='-680' y='~75'>~</text>
<g class='~' transform='translate(~)'>~<text class='~' x='~' y='~75'>~</text>
";

/// A small cross to the right of the place from which a packet was sent.
pub const CROSS: &[u8] =
    b"<path class='x' transform='translate(~)' d='M14 0H27M27-11L49 11M27 11L49-11'/>
";
