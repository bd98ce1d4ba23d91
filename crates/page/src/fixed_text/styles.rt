//! The style sheet of the page: its colours, by day and by night, and its layout for wide windows
//! and for phones.

/// The texts before it, this one, and those that the further macros add.
macro_rules! styles_text {
    (($next:ident $($rest:ident)*) $($before:literal)*) => {
        $next!(($($rest)*) $($before)* r#"<!doctype html>
<html lang='en'><meta charset='utf-8'>
<meta name='viewport' content='width=device-width,initial-scale=1'>
<title>fpgad</title>
<style>
:root{color-scheme:light dark;
--ink:#1b2733;--soft:#56626f;--paper:#ffffff;--panel:#f2f5f8;--edge:#b4bfca;--accent:#0a5aa8;--on:#ffffff;--bad:#a8001f;
--empty:#dfe4ea;--cluster:#e4edf8;--input:#d8efe3;--output:#fbe6cd;--outline:#74869a;--chosen:#ffe27a;--dim:#d3d9e0;
--picked:#c22f00;--driver:#0a4f9e;--reader:#8a4a00;
--net0:#0072b2;--net1:#d55e00;--net2:#009070;--net3:#a8457f;--net4:#a07800;--net5:#4a5a6a;
--use0:#fff0bd;--use1:#fdcf6f;--use2:#f2953a;--use3:#cf4f2a;--use4:#8c1c22}
@media (prefers-color-scheme:dark){:root{
--ink:#e4eaf0;--soft:#a3b0bd;--paper:#14191f;--panel:#1d242c;--edge:#445260;--accent:#6cb2f5;--on:#0c1116;--bad:#ff8a8a;
--empty:#252d36;--cluster:#22344a;--input:#1f4032;--output:#4b3620;--outline:#7d8fa2;--chosen:#6d5c12;--dim:#333d48;
--picked:#ff8a5c;--driver:#7fbaff;--reader:#ffc46b;
--net0:#5cb3ea;--net1:#f29a55;--net2:#4fc9a4;--net3:#e39ac6;--net4:#dcb84a;--net5:#a9b7c5;
--use0:#2f3f4f;--use1:#5c5434;--use2:#98702f;--use3:#d49a37;--use4:#ffdf7d}}
*{box-sizing:border-box}
body{margin:0;font:14px/1.4 system-ui,sans-serif;color:var(--ink);background:var(--paper);display:flex;flex-direction:column;height:100vh;height:100dvh}
header,nav{padding:6px 10px;background:var(--panel);border-bottom:1px solid var(--edge)}
h1{display:inline;font-size:15px;margin:0 6px 0 0}h2{font-size:15px;margin:10px 0 4px;overflow-wrap:anywhere}
nav{display:flex;flex-wrap:wrap;gap:6px;align-items:center}
button,select,input,summary{font:inherit;color:inherit}
button,select,input{background:var(--paper);border:1px solid var(--edge);border-radius:4px;padding:3px 8px;min-width:0}
button{cursor:pointer}button:disabled{opacity:.5;cursor:default}
button[aria-pressed=true],#device button.strip[aria-pressed=true]{background:var(--accent);color:var(--on)}
:focus-visible{outline:3px solid var(--accent);outline-offset:1px}
#device{position:relative;height:38px;border:1px solid var(--edge);background:var(--paper);margin-top:4px}
#device button,#device i{position:absolute;top:0;bottom:0;border-radius:0;padding:1px 3px;overflow:hidden;white-space:nowrap;text-align:left;text-overflow:ellipsis}
#device button{border:1px dashed var(--soft);background:var(--panel)}
#device button.Routed{border:1px solid var(--accent);background:var(--cluster)}
#device button.Unrouted{border:2px dashed var(--bad)}
#device .fill{position:absolute;left:0;bottom:0;height:5px;background:var(--accent)}
#device button[aria-pressed=true] .fill{background:var(--on)}
#device .guard{background:repeating-linear-gradient(45deg,var(--edge) 0 2px,var(--paper) 2px 6px)}
main{flex:1;display:flex;min-height:0}
#view{flex:1;position:relative;min-width:0;min-height:0}
canvas{position:absolute;inset:0;width:100%;height:100%;touch-action:none;cursor:grab}
#tip{position:absolute;pointer-events:none;background:var(--ink);color:var(--paper);padding:1px 6px;border-radius:3px;font-size:12px;max-width:90%;overflow-wrap:anywhere}
#legend{margin-top:14px;border-top:1px solid var(--edge);padding-top:6px;font-size:12px}
#legend summary{cursor:pointer}#legend p{margin:3px 0;display:flex;gap:6px;align-items:center}
#legend i{flex:none;width:18px;height:14px;border:1px solid var(--outline);font:bold 10px/12px system-ui;text-align:center;color:var(--paper)}
aside{width:320px;overflow:auto;padding:2px 12px 12px;border-left:1px solid var(--edge);font-size:13px}
aside ul{list-style:none;margin:0;padding:0}aside li{overflow-wrap:anywhere}aside p{margin:0}
aside a,aside li button{color:var(--accent);text-decoration:none;border:0;background:none;padding:0;text-align:left}
aside a:hover,aside li button:hover{text-decoration:underline}
.bad{color:var(--bad)}.advice{margin-left:1em}
@media (max-width:720px){
main{flex-direction:column}aside{width:auto;height:34%;flex:none;border-left:0;border-top:1px solid var(--edge)}
header,nav{padding:4px 8px}nav{gap:4px}button,select,input{font-size:13px;padding:3px 6px}
header{overflow:hidden;white-space:nowrap;text-overflow:ellipsis}#summary{font-size:12px}
#q{flex:1 1 120px}#said{flex-basis:100%}#said:empty{display:none}}
@media (pointer:coarse){button,select,input{min-height:40px}aside li a,aside li button{display:block;min-height:32px;padding:5px 0}}
</style>
"#)
    };
}

pub(crate) use styles_text;
