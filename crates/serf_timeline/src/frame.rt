//! The fixed parts of the page between its blanks. tools/page_parts.py makes this file from examples/timeline.

/// The page up to the title.
pub const OPENING: &[u8] = b"<!doctype html>
<html lang=\"en\">
<head>
<meta charset=\"utf-8\">
<meta name=\"viewport\" content=\"width=device-width, initial-scale=1\">
<meta http-equiv=\"Content-Security-Policy\" content=\"default-src 'none'; img-src data:; style-src 'unsafe-inline'; script-src 'sha256-Bgl8fAx5xVdFzh8IueLcqmllLs4m1CJf9F6Z04ySYmw='\">
<title>";

/// The page up to the heading.
pub const HEADING: &[u8] = b"</title>
<style>
:root {
  color-scheme: light dark;
  --ink: #1f2328; --soft: #59636e; --paper: #ffffff; --panel: #f6f8fa; --edge: #d1d9e0; --lane: #c3cad1; --focus: #0969da;
  --taken: #1a7f37; --ignored: #6e7781; --bad: #cf222e; --warn: #9a6700; --on: #ddf4ff; --near: #fff8c5;
}
@media (prefers-color-scheme: dark) {
  :root {
    --ink: #e6edf3; --soft: #9198a1; --paper: #0d1117; --panel: #151b23; --edge: #3d444d; --lane: #484f58; --focus: #4493f8;
    --taken: #3fb950; --ignored: #8b949e; --bad: #ff7b72; --warn: #d29922; --on: #12293f; --near: #2e2a14;
  }
}
* { box-sizing: border-box; }
body { margin: 0; font: 15px/1.45 system-ui, sans-serif; color: var(--ink); background: var(--paper); }
body.ready { display: flex; flex-direction: column; height: 100vh; min-height: 640px; }
.ready main, .ready #app { display: flex; flex-direction: column; flex: 1; min-height: 0; }
header { padding: 14px 18px 6px; }
h1 { font-size: 20px; margin: 0 0 8px; overflow-wrap: anywhere; }
h2 { font-size: 16px; margin: 0; }
h3 { font-size: 15px; margin: 0 0 8px; overflow-wrap: anywhere; }
h4 { font-size: 13px; margin: 14px 0 4px; color: var(--soft); }
.note { margin: 0; color: var(--soft); font-size: 13px; }
.verdict { list-style: none; margin: 0; padding: 8px 12px; border-left: 5px solid var(--taken); background: var(--panel); max-height: 30vh; overflow: auto; }
.verdict.bad { border-color: var(--bad); }
.verdict li { padding: 2px 0; overflow-wrap: anywhere; }
.verdict li::before { content: \"\xe2\x9c\x93 \"; color: var(--taken); font-weight: bold; }
.verdict li.bad::before { content: \"\xe2\x9c\x97 \"; color: var(--bad); }
.verdict li.warn::before { content: \"! \"; color: var(--warn); }
.verdict li.note::before { content: \"\xe2\x86\x92 \"; color: var(--soft); }
.verdict li.bad { font-weight: 600; }
.verdict pre { display: inline; }
.verdict pre, #still pre { white-space: pre-wrap; overflow-wrap: anywhere; font: 13px/1.5 ui-monospace, Menlo, Consolas, \"DejaVu Sans Mono\", monospace; }
.verdict button { all: unset; display: inline; cursor: pointer; text-decoration: underline dotted; text-underline-offset: 3px; }
.verdict button:focus-visible { outline: 2px solid var(--focus); }
.toolbar { display: flex; flex-wrap: wrap; gap: 6px 14px; align-items: center; padding: 8px 18px; }
.toolbar input[type=\"search\"] { font: inherit; padding: 4px 8px; width: 15em; color: inherit; background: var(--paper); border: 1px solid var(--edge); border-radius: 6px; }
.chips { display: inline-flex; flex-wrap: wrap; gap: 4px; }
.chips button { font: inherit; font-size: 13px; padding: 2px 9px; border: 1px solid var(--edge); border-radius: 12px; background: none; color: var(--soft); cursor: pointer; text-decoration: line-through; }
.chips button[aria-pressed=\"true\"] { background: var(--panel); color: var(--ink); text-decoration: none; }
.toolbar label { font-size: 13px; cursor: pointer; }
:focus-visible { outline: 2px solid var(--focus); outline-offset: 1px; }
.panes { display: grid; grid-template-columns: minmax(0, 1fr) 26em; grid-template-rows: minmax(0, 1fr); flex: 1; min-height: 0; gap: 0 14px; padding: 0 18px 14px; }
.panes.two { grid-template-columns: minmax(0, 1.2fr) minmax(0, 1fr) 19em; }
.pane { display: flex; flex-direction: column; min-width: 0; min-height: 0; }
.scroll { position: relative; overflow: auto; flex: 1; min-height: 0; margin-top: 6px; border: 1px solid var(--edge); border-radius: 6px; background: var(--paper); }
.heads { position: sticky; top: 0; z-index: 1; height: 28px; background: var(--panel); border-bottom: 1px solid var(--edge); }
.heads span { position: absolute; top: 4px; font-weight: 600; font-size: 13px; overflow: hidden; text-overflow: ellipsis; white-space: nowrap; }
.pane.run .heads span { text-align: center; }
.space { position: relative; overflow: hidden; }
svg.rows { position: absolute; top: 0; left: 0; display: block; }
.rows text { font: 12.1px ui-monospace, Menlo, Consolas, \"DejaVu Sans Mono\", monospace; fill: var(--ink); white-space: pre; }
.rows path { fill: none; }
.rows .lane { stroke: var(--lane); stroke-width: 1.5; }
.rows .guide { stroke: var(--edge); stroke-width: 1; stroke-opacity: 0.6; }
.rows .box.hit { fill: transparent; }
.rows .row { cursor: pointer; }
.rows .row:hover .hit { fill: var(--ink); fill-opacity: 0.06; }
.rows .box.related { fill: var(--near); }
.rows .box.on { fill: var(--on); }
.rows text.gutter { fill: var(--soft); text-anchor: end; }
.rows text.pause { fill: var(--soft); text-anchor: end; font-style: italic; font-size: 11px; }
.rows .mark { fill: var(--taken); stroke: var(--taken); stroke-width: 2; }
.rows .mark.break { stroke: var(--ink); stroke-width: 2.5; fill: none; }
.rows .ignored .mark { fill: var(--paper); stroke: var(--ignored); }
.rows .ignored .label { fill: var(--ignored); }
.rows .refused .mark { fill: var(--bad); stroke: var(--bad); }
.rows .refused .label { fill: var(--bad); }
.rows .again .mark, .rows .before .mark { fill: var(--bad); stroke: var(--bad); }
.rows .again .label { fill: var(--bad); font-weight: 700; }
.rows .before .label { fill: var(--bad); }
.rows .missed .mark { fill: var(--paper); stroke: var(--warn); stroke-dasharray: 3 2; }
.rows .missed .label { fill: var(--warn); font-style: italic; }
.rows .link { stroke: var(--taken); stroke-width: 1.6; marker-end: none; }
.rows .link.ignored { stroke: var(--ignored); stroke-dasharray: 5 4; }
.rows .link.refused { stroke: var(--bad); }
.rows .link.again { stroke: var(--bad); stroke-width: 2.6; }
.rows .link.on { stroke-width: 3.4; }
.detail { border: 1px solid var(--edge); border-radius: 6px; padding: 12px 14px; overflow: auto; background: var(--panel); }
.detail table, #still table { border-collapse: collapse; font-size: 13px; width: 100%; }
.detail th, .detail td, #still th, #still td { text-align: left; vertical-align: top; padding: 2px 8px 2px 0; border-bottom: 1px solid var(--edge); overflow-wrap: anywhere; font-weight: normal; }
.detail th { color: var(--soft); width: 38%; }
.detail tr.changed td, #still td.bad { color: var(--bad); font-weight: 600; }
.detail tr.missing td, #still td.missing { color: var(--warn); font-style: italic; }
.detail ul { margin: 0; padding-left: 1.2em; font-size: 13px; overflow-wrap: anywhere; }
.detail summary { cursor: pointer; font-size: 13px; color: var(--soft); margin-top: 12px; }
.detail pre { white-space: pre-wrap; overflow-wrap: anywhere; font: 12px/1.4 ui-monospace, Menlo, Consolas, \"DejaVu Sans Mono\", monospace; margin: 4px 0; }
.detail pre.hex { color: var(--soft); }
#still { padding: 8px 18px; }
#still img { max-width: 100%; }
#still tr:first-child th { font-weight: 600; }
#still td:not(:last-child) { white-space: nowrap; }
[hidden] { display: none !important; }
@media (max-width: 1150px) {
  body.ready { height: auto; }
  .panes.two { grid-template-columns: minmax(0, 1fr) minmax(0, 1fr); grid-template-rows: auto; }
  .panes.two .detail { grid-column: 1 / -1; margin-top: 12px; }
  .panes.two .scroll { flex: none; height: 50vh; }
}
@media (max-width: 760px) {
  body.ready { height: auto; }
  .panes, .panes.two { grid-template-columns: minmax(0, 1fr); grid-template-rows: auto; gap: 12px 0; padding: 0 10px 10px; }
  .scroll, .panes.two .scroll { flex: none; height: 50vh; min-height: 260px; }
  header, .toolbar { padding-left: 10px; padding-right: 10px; }
}
</style>
</head>
<body>
<header>
<h1>";

/// The page up to the tone of the verdict.
pub const TONE: &[u8] = b"</h1>
<ul id=\"verdict\" class=\"verdict ";

/// The page up to the verdict.
pub const VERDICT: &[u8] = b"\">
";

/// The page up to what is shown without the script.
pub const STILL: &[u8] = b"</ul>
</header>
<main>
<div id=\"app\" hidden></div>
<div id=\"still\">
";

/// The page up to the data.
pub const DATA: &[u8] = b"</div>
</main>
";

/// The page up to the script.
pub const SCRIPT: &[u8] = b"<script>";

/// The page from the script on.
pub const ENDING: &[u8] = b"</script>
</body>
</html>
";
