//! How the page of kept paths looks.

/// The style of the page, in light and in dark, on wide screens and on narrow ones. Its checksum stands in the page's policy.
pub(crate) const STYLE: &str = r#"
:root {
  color-scheme: light dark;
  --back: #ffffff; --raised: #f4f5f7; --line: #d5d9e0; --text: #1b1f26; --soft: #59616e;
  --mark: #1459b8; --bad: #b3261e; --slow: #8a5300; --asked: #1459b8; --other: #4b5563; --chosen: #dce9fb;
}
@media (prefers-color-scheme: dark) {
  :root {
    --back: #15181d; --raised: #1e2229; --line: #363c47; --text: #e8eaee; --soft: #a2aab6;
    --mark: #84b6ff; --bad: #ff938b; --slow: #f0b45c; --asked: #84b6ff; --other: #b6bdc9; --chosen: #24364f;
  }
}
* { box-sizing: border-box; }
html, body { margin: 0; background: var(--back); color: var(--text); font: 14px/1.45 system-ui, sans-serif; }
body { padding: 16px clamp(10px, 2vw, 28px) 40px; }
h1 { font-size: 20px; margin: 0; }
h2 { font-size: 15px; margin: 20px 0 6px; }
p { margin: 4px 0; }
.soft { color: var(--soft); }
.crash { margin: 10px 0 0; padding: 8px 12px; border: 1px solid var(--bad); border-left-width: 5px; border-radius: 4px; }
.crash b { color: var(--bad); }
#reasons { display: flex; flex-wrap: wrap; gap: 6px; margin: 12px 0 0; padding: 0; list-style: none; }
button, input { font: inherit; color: inherit; background: var(--raised); border: 1px solid var(--line); border-radius: 4px; padding: 4px 10px; }
button { cursor: pointer; }
button[aria-pressed="true"] { background: var(--chosen); border-color: var(--mark); font-weight: 600; }
:focus-visible { outline: 2px solid var(--mark); outline-offset: 1px; }
#numbers { display: flex; flex-wrap: wrap; gap: 4px 18px; margin: 10px 0 0; color: var(--soft); }
canvas { display: block; width: 100%; height: 170px; border: 1px solid var(--line); border-radius: 4px; }
#search { display: flex; flex-wrap: wrap; gap: 8px; align-items: baseline; margin-top: 14px; }
#find { flex: 1 1 240px; min-width: 0; }
#both { display: grid; grid-template-columns: minmax(0, 3fr) minmax(0, 2fr); gap: 18px; align-items: start; }
#table { border: 1px solid var(--line); border-radius: 4px; margin-top: 8px; }
.row { display: grid; grid-template-columns: 92px 96px 96px 136px 62px 46px minmax(0, 1fr); gap: 8px; padding: 0 8px; height: 28px; line-height: 28px; white-space: nowrap; }
.row > * { overflow: hidden; text-overflow: ellipsis; }
.row .number { text-align: right; font-variant-numeric: tabular-nums; }
#titles { background: var(--raised); border-bottom: 1px solid var(--line); }
#titles button { border: 0; background: none; padding: 0; line-height: 28px; font-weight: 600; text-align: inherit; }
#rows { height: 420px; overflow-y: auto; position: relative; }
#rows .row { position: absolute; left: 0; right: 0; cursor: pointer; }
#rows .row[aria-selected="true"] { background: var(--chosen); }
.why { font-weight: 600; }
.why-bad { color: var(--bad); }
.why-slow { color: var(--slow); }
.why-asked { color: var(--asked); }
.why-other { color: var(--other); }
#one { border: 1px solid var(--line); border-radius: 4px; margin-top: 8px; padding: 10px 12px; overflow-x: auto; }
#one h2 { margin-top: 0; }
.record { display: grid; grid-template-columns: 96px minmax(0, 1fr); gap: 10px; padding: 2px 0; border-top: 1px solid var(--line); }
.record .offset { text-align: right; color: var(--soft); font-variant-numeric: tabular-nums; }
.record .words { overflow-wrap: anywhere; }
.record .name { font-weight: 600; }
.gap { padding: 2px 0 2px 106px; color: var(--slow); border-top: 1px dashed var(--slow); }
.bars { position: relative; margin: 8px 0 12px; border: 1px solid var(--line); border-radius: 4px; overflow: hidden; }
.bar { position: absolute; height: 18px; line-height: 18px; font-size: 12px; padding: 0 4px; background: var(--chosen);
  border: 1px solid var(--mark); border-radius: 3px; overflow: hidden; white-space: nowrap; min-width: 3px; }
@media (max-width: 1500px) {
  .row { grid-template-columns: 92px 96px 124px 62px minmax(0, 1fr); }
  .row .begin, .row .cut { display: none; }
}
@media (max-width: 1000px) {
  #both { grid-template-columns: minmax(0, 1fr); }
  #rows { height: 300px; }
}
@media (max-width: 640px) {
  .row { grid-template-columns: 86px 72px 58px minmax(0, 1fr); gap: 7px; }
  .row .wide { display: none; }
  .record { grid-template-columns: 76px minmax(0, 1fr); }
  .gap { padding-left: 86px; }
}
"#;
