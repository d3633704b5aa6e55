//! The frame of the page.

/// The page up to the hash of the script. The policy allows no network, and only the script and the style with these hashes.
pub const BEFORE_SCRIPT_SUM: &str = r##"<!DOCTYPE html>
<html lang="en">
<head>
<meta charset="utf-8">
<meta name="viewport" content="width=device-width">
<meta http-equiv="Content-Security-Policy" content="default-src 'none';
  script-src '"##;

/// The page between the hashes of the script and of the style.
pub const BEFORE_STYLE_SUM: &str = r##"';
  style-src '"##;

/// The page between the hash of the style and the style.
pub const BEFORE_STYLE: &str = r##"'; base-uri 'none'; form-action 'none'">
<title>psotf report</title>
<style>"##;

/// The page between the style and the block of JSON.
pub const BEFORE_DATA: &str = r##"</style>
</head>
<body>
<header>
<h1 id="title">Font</h1>
<p>Made by psotf. The numbers in this page come from proved calls. The page itself is not proved: it finds subroutine calls and stems by
walking along the charstrings, and compares what it meets with the operations and masks of the proved run.</p>
</header>
<main id="page"></main>
<footer><p>Keys: left and right arrows for the previous and next operation, Home and End for the first and last, n and p for the next and
previous glyph, / to search.</p></footer>
<noscript><p>This page needs its script, which is part of the page and loads nothing.</p></noscript>
<script type="application/json" id="data">
"##;

/// The page between the block of JSON and the script.
pub const BEFORE_SCRIPT: &str = r##"</script>
<script>"##;

/// The end of the page, after the script.
pub const END: &str = r##"</script>
</body>
</html>
"##;
