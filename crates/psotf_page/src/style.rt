//! The style sheet of the page.

/// The style sheet. It follows the system's dark or light mode, and supports printing.
const STYLE: &str = r##"
:root {
  color-scheme: light dark;
  --paper: #fdfdfb; --ink: #1b1b1f; --soft: #5f5f6b; --line: #d9d9de;
  --mark: #0a5bd3; --hot: #b3261e; --band: #0a5bd314; --active: #0a5bd340;
  --p0: #0a5bd3; --p1: #2e7d32; --p2: #b3261e; --p3: #8e5bd0; --p4: #b06f00; --p5: #00838f;
}
@media (prefers-color-scheme: dark) {
  :root {
    --paper: #16161a; --ink: #ececf1; --soft: #a8a8b5; --line: #34343d;
    --mark: #7fb2ff; --hot: #ff8a80; --band: #7fb2ff1c; --active: #7fb2ff55;
    --p0: #7fb2ff; --p1: #81c784; --p2: #ff8a80; --p3: #c7a6ff; --p4: #ffca6b; --p5: #6fd6df;
  }
}

/* Texts and tables. */
* { box-sizing: border-box; }
body { margin: 0; background: var(--paper); color: var(--ink); font: 15px/1.5 system-ui, sans-serif; }
header, main, footer { max-width: 76rem; margin: 0 auto; padding: 0 1rem; }
footer { padding-bottom: 2rem; }
h1 { font-size: 1.7rem; margin: 1.2rem 0 0; overflow-wrap: anywhere; max-height: 12rem; overflow-y: auto; }
h2 { font-size: 1.15rem; margin: 2rem 0 .5rem; border-bottom: 1px solid var(--line); }
h3 { font-size: 1rem; margin: 1rem 0 .3rem; }
p, .soft { color: var(--soft); margin: .3rem 0; }
a { color: var(--mark); }
a[aria-current] { color: var(--ink); font-weight: 600; text-decoration: none; }
table { border-collapse: collapse; width: 100%; }
th, td { text-align: left; vertical-align: top; padding: .15rem .6rem .15rem 0; border-bottom: 1px solid var(--line); }
th, td { overflow-wrap: anywhere; }
td:first-child { min-width: 7rem; }
th { font-weight: 600; }
td.number, th.number { text-align: right; font-variant-numeric: tabular-nums; white-space: nowrap; overflow-wrap: normal; }
.long { max-height: 8rem; overflow-y: auto; }
code, pre, .code { font: 13px/1.45 ui-monospace, monospace; overflow-wrap: anywhere; }
.refused { color: var(--hot); }

/* Inputs, buttons and details. */
input, select, button { font: inherit; color: inherit; background: var(--paper); max-width: 100%; }
input, select, button { border: 1px solid var(--soft); border-radius: 4px; padding: .25rem .5rem; }
input[type=range], input[type=checkbox] { padding: 0; }
input#text { flex: 1; }
button.plain { border: 0; padding: 0; color: var(--mark); background: none; }
button.plain { text-decoration: underline; cursor: pointer; overflow-wrap: anywhere; }
summary { cursor: pointer; padding: .2rem 0; }
details details { margin-left: 1rem; }
:focus-visible { outline: 2px solid var(--mark); outline-offset: 1px; }
.row { display: flex; flex-wrap: wrap; gap: .6rem; align-items: center; margin: .5rem 0; }

/* Strips of parts. */
.strip { width: 100%; height: 2.2rem; display: block; border: 1px solid var(--line); }
.p0 { --own: var(--p0); } .p1 { --own: var(--p1); } .p2 { --own: var(--p2); }
.p3 { --own: var(--p3); } .p4 { --own: var(--p4); } .p5 { --own: var(--p5); }
.strip rect { fill: var(--own); }
.key { display: inline-block; width: .8rem; height: .8rem; margin-right: .4rem; background: var(--own); border-radius: 2px; }

/* The grid of glyphs. */
.grid { display: grid; grid-template-columns: repeat(auto-fill, minmax(5.5rem, 1fr)); grid-auto-rows: 6.6rem; gap: 4px; }
.grid { max-height: 34rem; overflow-y: auto; border: 1px solid var(--line); padding: 4px; margin: 0; list-style: none; }
.grid li { min-width: 0; break-inside: avoid; }
.cell { display: block; width: 100%; height: 100%; padding: 2px; border: 1px solid transparent; background: none; }
.cell { text-align: center; cursor: pointer; overflow: hidden; }
.cell:hover { border-color: var(--mark); }
.cell[aria-current=true] { border-color: var(--mark); background: var(--active); }
.cell svg { width: 100%; height: 4.6rem; display: block; }
.cell span { display: block; font-size: 12px; color: var(--soft); overflow: hidden; text-overflow: ellipsis; white-space: nowrap; }
.cell .why { color: var(--hot); white-space: normal; height: 4.5rem; line-height: 1.25; }

/* One glyph. */
path { fill: var(--ink); }
.view { display: grid; grid-template-columns: minmax(0, 3fr) minmax(0, 2fr); gap: 1rem; }
.view svg { width: 100%; height: 32rem; border: 1px solid var(--line); touch-action: none; display: block; cursor: grab; }
.view path.shape { fill-opacity: .16; stroke: var(--ink); stroke-width: 1.5; vector-effect: non-scaling-stroke; }
.view line, .view rect.box { stroke: var(--soft); fill: none; vector-effect: non-scaling-stroke; }
.view line.handle { stroke: var(--mark); }
.view rect.stem { fill: var(--band); stroke: var(--line); stroke-dasharray: 3 3; vector-effect: non-scaling-stroke; }
.view rect.active { fill: var(--active); stroke: none; }
.view .on { fill: var(--mark); }
.view .off { fill: var(--paper); stroke: var(--mark); vector-effect: non-scaling-stroke; }
.steps { max-height: 22rem; overflow-y: auto; border: 1px solid var(--line); padding: 0; margin: 0; list-style: none; }
.steps li { padding: 0 .5rem; cursor: pointer; border-left: 3px solid transparent; }
.steps li.done { background: var(--band); border-left-color: var(--mark); }
.steps .op { margin-right: .8rem; }
.steps .soft { font-size: 12px; }
.d1 { margin-left: 1rem; } .d2 { margin-left: 2rem; } .d3 { margin-left: 3rem; } .d4 { margin-left: 4rem; } .d5 { margin-left: 5rem; }
.d6 { margin-left: 6rem; } .d7 { margin-left: 7rem; } .d8 { margin-left: 8rem; } .d9 { margin-left: 9rem; } .d10 { margin-left: 10rem; }

/* A line of text, subroutines and codes. */
.line svg { width: 100%; height: 9rem; border: 1px solid var(--line); display: block; }
.listed { max-height: 24rem; overflow-y: auto; }
.traced-in svg { height: 14rem; max-width: 100%; border: 1px solid var(--line); display: block; }
path.faint { fill-opacity: .16; }
path.traced { fill: none; stroke: var(--hot); stroke-width: 2.5; vector-effect: non-scaling-stroke; }
.codes { columns: 8rem; list-style: none; padding: 0; margin: 0; font-size: 13px; overflow-wrap: anywhere; }

@media (max-width: 50rem) {
  th, td { font-size: 13px; padding-right: .4rem; }
  td:first-child { min-width: 5.5rem; }
  .view { grid-template-columns: minmax(0, 1fr); }
  .view svg { height: 20rem; }
}
@media print {
  .grid, .steps, .listed, .long, h1 { max-height: none; overflow: visible; }
  .view { grid-template-columns: minmax(0, 1fr); }
  .strip, .key, .cell, .steps li { print-color-adjust: exact; }
  input, select { display: none; }
}
"##;

/// Returns the style sheet. Only this function has the text in its proof.
pub fn style() -> &'static str {
    STYLE
}
