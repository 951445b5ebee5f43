//! The parts of a page that are the same for all blocks.

/// What stands before the name of the rule in the title.
pub const BEFORE_TITLE: &[u8] =
    b"<!DOCTYPE html>\n<html lang=\"en\">\n<head>\n<meta charset=\"utf-8\">\n<title>";

/// What stands between the title and the name of the rule at the top of the page: how the page looks.
pub const STYLE: &[u8] = b"\
</title>
<style>
body { font: 15px/1.4 system-ui, sans-serif; margin: 2em; color: #222; background: #fff }
h2, td, th { font-family: ui-monospace, monospace; font-size: 15px }
h2 { overflow-wrap: anywhere }
.block { display: flex; gap: 2em; align-items: flex-start }
.stop { margin: 1em 0 3em; color: #a00 }
table { border-collapse: collapse; margin-bottom: 1em }
th { text-align: left; padding: 2px 8px; font-weight: 400; color: #777 }
td { padding: 2px 8px; vertical-align: top }
.bits { flex: none }
.bits td { width: 1.4em; text-align: center; padding: 3px 4px; border: 2px solid #fff; border-width: 2px 0 }
.bits td.first { border-left: 2px solid #555 }
.parts td { border-top: 1px solid #ddd }
.c0 { background: #cfe3f7 }
.c1 { background: #fbe0c3 }
.c2 { background: #d3eecb }
.c3 { background: #f6d0d5 }
.c4 { background: #e2d6f3 }
.c5 { background: #f7f0b5 }
.c6 { background: #cdeeea }
.c7 { background: #e6e0d8 }
.literal { background: #ddd; font-weight: 700 }
.spare, .padding { background: #eee; color: #777 }
.rest { background: #f3ead9 }
.begun { background: #ffe08a }
.refused { background: #c22; color: #fff; font-weight: 700 }
.unread { background: #f8f8f8; color: #aaa }
.on { outline: 2px solid #222 }
</style>
</head>
<body>
<h1>";

/// What stands behind the name of the rule.
pub const BEHIND_TITLE: &[u8] = b"</h1>\n";

/// The end of a page. Where the pointer is over a field, all its cells are shown.
pub const FOOT: &[u8] = b"\
<script>
for (const block of document.querySelectorAll('.block'))
  for (const cell of block.querySelectorAll('[data-part]'))
    for (const on of [true, false])
      cell.addEventListener(on ? 'mouseenter' : 'mouseleave', () => {
        for (const same of block.querySelectorAll(`[data-part=\"${cell.dataset.part}\"]`))
          same.classList.toggle('on', on);
      });
</script>
</body>
</html>
";
