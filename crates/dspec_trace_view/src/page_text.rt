//! What the page of kept paths has around its style, its data and its script.

/// The head up to the style: with a policy that allows this style and this script, and forbids all else.
pub(crate) const BEFORE_STYLE: &str = r#"<!doctype html>
<html lang="en">
<head>
<meta charset="utf-8">
<meta http-equiv="Content-Security-Policy" content="default-src 'none';
 style-src 'sha256-hewaje9MZP+EfrE0pnCeO96CLXclkqRnH2n8YpI5vlw=';
 script-src 'sha256-P3Zi1IQzhO6HmR8s5/ky2bT/2/nXUoU9bxaLipHPPXM=';
 base-uri 'none'; form-action 'none'">
<meta name="viewport" content="width=device-width, initial-scale=1">
<title>Kept paths</title>
<style>"#;

/// From the style to the data: what is shown, still empty.
pub(crate) const BEFORE_DATA: &str = r#"</style>
</head>
<body>
<main>
<h1 id="title"></h1>
<p class="soft" id="span"></p>
<div id="crashes"></div>
<ul id="reasons" aria-label="reasons, to filter by"></ul>
<div id="numbers"></div>
<div id="search"><label for="find">Filter</label>
<input id="find" type="search" placeholder="words of a path, why:failed, took&gt;1ms" autocomplete="off" spellcheck="false">
<span id="shown" class="soft" role="status"></span></div>
<h2>When each path began, and how long it took</h2>
<p class="soft">✕ failed, crash, signal · △ slow · □ asked, sampled · ○ other</p>
<canvas id="axis" role="img"></canvas>
<div id="both">
<section aria-label="paths"><div id="table"><div id="titles" class="row"></div>
<div id="rows" tabindex="0" role="listbox" aria-label="paths; arrow keys choose one"><div id="space"></div></div></div></section>
<section id="one" aria-label="one path" aria-live="polite"></section>
</div>
</main>
<script id="data" type="application/json">"#;

/// From the data to the script.
pub(crate) const BEFORE_SCRIPT: &str = "</script>\n<script>";

/// From the script to the end.
pub(crate) const AFTER_SCRIPT: &str = "</script>\n</body>\n</html>\n";
