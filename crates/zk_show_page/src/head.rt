/// What stands before the run: the styles, and the parts that the script fills.
pub const HEAD: &[u8] = br##"<!doctype html>
<html lang="en">
<head>
<meta charset="utf-8">
<meta name="viewport" content="width=device-width, initial-scale=1">
<title>A run</title>
<style>
:root {
  color-scheme: light dark;
  --paper: #ffffff; --shade: #f4f6f8; --line: #d5dbe1; --ink: #1c2127; --soft: #68727d;
  --box: #eaf1f9; --edge: #9db4cc; --bad: #c0182b; --badbox: #fdebec; --chosen: #fff3c4; --rule: #b07a00;
  --run: #2f6fd0; --script: #c2571a; --admission: #2f6fd0; --give: #178245; --message: #8a3fc7;
  --visit: #c2571a; --completion: #0f7f8c; --other: #68727d;
}
@media (prefers-color-scheme: dark) {
  :root {
    --paper: #14181d; --shade: #1c2229; --line: #333c46; --ink: #e2e7ec; --soft: #93a0ac;
    --box: #1f2d3d; --edge: #4c6681; --bad: #ff7b86; --badbox: #3d2026; --chosen: #4a4118; --rule: #e0b040;
    --run: #6ea5f5; --script: #f09a5c; --admission: #6ea5f5; --give: #56c987; --message: #c793f2;
    --visit: #f09a5c; --completion: #52c3cf; --other: #93a0ac;
  }
}
* { box-sizing: border-box; }
html, body { height: 100%; margin: 0; }
body {
  display: flex; flex-direction: column; background: var(--paper); color: var(--ink);
  font: 13px/1.4 system-ui, -apple-system, "Segoe UI", "DejaVu Sans", sans-serif;
}
code, svg text, .mono { font-family: ui-monospace, Menlo, Consolas, "DejaVu Sans Mono", monospace; font-size: 12px; }
#bar {
  display: flex; flex-wrap: wrap; gap: 4px 16px; align-items: center; padding: 5px 10px;
  background: var(--shade); border-bottom: 1px solid var(--line);
}
#bar span.group { display: flex; gap: 4px; align-items: center; white-space: nowrap; }
#ending { font-weight: 700; }
#ending.stuck, #ending.spent { color: var(--bad); }
button, select, input {
  font: inherit; color: inherit; background: var(--paper); border: 1px solid var(--line); border-radius: 4px; padding: 1px 7px;
}
input { width: 9em; }
select { max-width: 11em; padding: 1px 2px; }
button:hover { border-color: var(--soft); }
#body { flex: 1; display: flex; min-height: 0; }
#chart { flex: 1; min-width: 0; overflow: auto; position: relative; outline-offset: -2px; cursor: grab; }
#chart.drawn { cursor: grabbing; user-select: none; }
#heads {
  position: sticky; top: 0; z-index: 3; display: flex; height: 40px; background: var(--shade);
  border-bottom: 1px solid var(--line); width: max-content; min-width: 100%;
}
#heads div { padding: 3px 6px 0 14px; overflow: hidden; white-space: nowrap; text-overflow: ellipsis; flex: none; }
#heads div.corner { position: sticky; left: 0; background: var(--shade); z-index: 1; color: var(--soft); padding-left: 8px; }
#heads b { display: block; overflow: hidden; text-overflow: ellipsis; }
#heads span { color: var(--soft); font-size: 11px; }
#heads .bad span { color: var(--bad); }
#space { position: relative; min-width: 100%; }
#lanes, #gutter { position: absolute; left: 0; display: block; }
#side { position: sticky; left: 0; height: 100%; z-index: 2; background: var(--paper); border-right: 1px solid var(--line); }
svg text { fill: var(--ink); white-space: pre; }
svg .soft { fill: var(--soft); }
svg .bold { font-weight: 700; }
svg .bad { fill: var(--bad); font-weight: 700; }
svg .box { fill: var(--box); stroke: var(--edge); }
svg .box.bad { fill: var(--badbox); stroke: var(--bad); }
#patterns { position: absolute; }
#hatch path { stroke: var(--soft); stroke-width: 1.6; opacity: .6; }
svg .lane { stroke: var(--line); fill: none; }
svg .run { fill: var(--run); }
svg .script { fill: var(--script); }
svg .wait { fill: url(#hatch); pointer-events: none; }
svg .rule { stroke: var(--rule); stroke-dasharray: 7 4; fill: none; }
svg .moment { fill: var(--rule); font-weight: 700; }
svg .cross { stroke: var(--bad); stroke-width: 3; fill: none; }
svg .chosen { fill: var(--chosen); opacity: .75; pointer-events: none; }
svg .dim { opacity: .22; }
[data-kind] { color: var(--other); }
.arrow { stroke: currentColor; stroke-width: 1.3; fill: none; stroke-linejoin: round; }
.arrow.on { stroke-width: 2.6; }
.tip { fill: currentColor; stroke: none; }
[data-kind=admission] { color: var(--admission); }
[data-kind=give] { color: var(--give); stroke-dasharray: 6 3; }
[data-kind=message] { color: var(--message); stroke-dasharray: 2 3; }
[data-kind=visit] { color: var(--visit); stroke-dasharray: 9 3 2 3; }
[data-kind=completion] { color: var(--completion); stroke-dasharray: 4 2 1 2; }
#right {
  width: 31%; min-width: 340px; max-width: 560px; display: flex; flex-direction: column; border-left: 1px solid var(--line);
}
#right h2 {
  font-size: 12px; margin: 0; padding: 3px 10px; background: var(--shade); color: var(--soft);
  border-block: 1px solid var(--line); display: flex; justify-content: space-between;
}
#told { max-height: 22%; overflow: auto; padding: 4px 10px; flex: none; }
#told p { margin: 0 0 3px; }
#trace { flex: 3; min-height: 90px; overflow: auto; position: relative; }
#lines { position: relative; }
#lines div {
  position: absolute; left: 0; height: 18px; line-height: 18px; white-space: pre; min-width: 100%; padding-right: 8px;
}
#lines div { cursor: pointer; }
#lines div:hover { background: var(--shade); }
#lines i, #answers i {
  display: inline-block; width: 3.8em; text-align: right; margin-right: 8px; color: var(--soft); font-style: normal;
}
#lines .head { color: var(--soft); font-weight: 700; background: var(--shade); }
#lines .bad, #answers .bad b, #state .bad { color: var(--bad); }
#lines .dim, #state .dim { opacity: .35; }
#lines .chosen, #lines .chosen:hover, #answers .chosen { background: var(--chosen); }
#state { flex: 4; min-height: 90px; overflow: auto; padding: 2px 10px 6px; }
#state p { margin: 4px 0; overflow-wrap: anywhere; }
#state p.idle { color: var(--soft); }
#state p b { margin-right: 5px; }
#state p.changed { background: var(--chosen); margin-inline: -10px; padding-inline: 10px; }
#state small { color: var(--soft); margin-right: 5px; }
#state .was { margin-left: 8px; }
#answers { flex: 2; min-height: 60px; overflow: auto; padding: 2px 0; }
#answers div { white-space: pre; padding-right: 8px; cursor: pointer; }
#answers .later { opacity: .45; }
#legend {
  padding: 3px 10px; border-top: 1px solid var(--line); background: var(--shade); color: var(--soft);
  display: flex; flex-wrap: wrap; gap: 0 14px;
}
#legend #kinds { display: contents; }
#legend svg { vertical-align: middle; margin-right: 4px; }
@media (max-width: 800px) {
  #body { flex-direction: column; }
  #right { width: 100%; max-width: none; height: 45%; border-left: 0; border-top: 1px solid var(--line); }
}
</style>
</head>
<body>
<svg id="patterns" width="0" height="0"><defs>
  <pattern id="hatch" width="6" height="6" patternUnits="userSpaceOnUse" patternTransform="rotate(45)"><path d="M0 0V6"/></pattern>
</defs></svg>
<div id="bar">
  <span class="group"><b id="ending"></b> <span id="count"></span></span>
  <span class="group">
    <button data-key="Home" title="the first step (Home)">|&lt;</button><button data-key="ArrowUp" title="a step back (Up)">&lt;</button>
    <span id="where"></span>
    <button data-key="ArrowDown" title="a step forth (Down)">&gt;</button><button data-key="End" title="the last step (End)">&gt;|</button>
  </span>
  <span class="group">
    <label>player <select id="player"></select></label> <label>object <select id="object"></select></label>
    <label>word <input id="word" list="words" placeholder="take, busy .." autocomplete="off"></label><datalist id="words"></datalist>
    <button data-key="Escape" title="dims nothing (Escape)">all</button> <span id="bright"></span>
  </span>
  <span class="group">rows <button data-key="-" title="lower (-)">-</button><button data-key="+" title="higher (+)">+</button></span>
</div>
<div id="body">
  <div id="chart" tabindex="0">
    <div id="heads"></div>
    <div id="space"><svg id="lanes"></svg><div id="side"><svg id="gutter"></svg></div></div>
  </div>
  <div id="right">
    <h2>how it ended</h2><div id="told"></div>
    <h2>the trace <span id="place"></span></h2><div id="trace" class="mono"><div id="lines"></div></div>
    <h2>each object after this step <span id="time"></span></h2><div id="state"></div>
    <h2>answers of <span id="whose"></span></h2><div id="answers" class="mono"></div>
  </div>
</div>
<div id="legend">
  <span><svg width="18" height="12"><rect class="box" x=".5" y=".5" width="17" height="11" rx="3"/></svg>call</span>
  <span><svg width="18" height="12"><rect class="box bad" x=".5" y=".5" width="17" height="11" rx="3"/></svg>that failed</span>
  <span><svg width="18" height="12"><rect class="wait" width="18" height="12"/></svg>waits</span>
  <span><svg width="8" height="12"><rect class="run" width="5" height="12"/></svg>handler's run</span>
  <span><svg width="8" height="12"><rect class="script" width="5" height="12"/></svg>listener's script</span>
  <span><svg width="18" height="12"><path class="rule" d="M0 6H18"/></svg>the clock's tick</span>
  <span id="kinds"></span>
  <span>keys: Up, Down; with Shift among the bright; Left, Right of this player; + -</span>
</div>
<script type="application/json" id="run">
"##;
