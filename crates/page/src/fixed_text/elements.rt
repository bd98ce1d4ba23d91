//! The elements of the page: its head, its controls, the drawing, the lists beside it and the
//! legend.

/// The texts before it, this one, and those that the further macros add.
macro_rules! elements_text {
    (($next:ident $($rest:ident)*) $($before:literal)*) => {
        $next!(($($rest)*) $($before)* r#"<header><h1>fpgad</h1><span id='summary'></span>
<div id='device' role='group' aria-label='strips of the device'></div></header>
<nav aria-label='tenancy, search and view'>
<select id='tenancy' aria-label='tenancy'></select>
<input id='q' type='search' list='names' placeholder='net, block or BLE' aria-label='search a net, a block or a BLE'
 autocomplete='off' autocapitalize='off' spellcheck='false'><datalist id='names'></datalist>
<button id='heat' aria-pressed='false'>congestion</button>
<button id='closer' aria-label='zoom in'>+</button><button id='farther' aria-label='zoom out'>-</button>
<button id='home'>whole strip</button><button id='framed' disabled>frame</button>
<span id='said' role='status'></span></nav>
<main><div id='view'><canvas id='c' tabindex='0' role='application' aria-label='layout' aria-describedby='keys'></canvas><div id='tip' hidden></div></div>
<aside id='beside' tabindex='0' aria-label='what is shown'><div id='side'></div>
<details id='legend'><summary>legend and keys</summary>
<p><i style='background:var(--cluster)'></i>cluster</p>
<p><i style='border-color:var(--empty)'></i>empty place</p>
<p><i style='background:var(--input)'></i>input pad</p>
<p><i style='background:var(--output);border-style:double;border-width:3px'></i>output pad</p>
<p><i style='border:0;height:3px;background:linear-gradient(90deg,var(--net0),var(--net1),var(--net2),var(--net3))'></i>
nets: colours only tell neighbours apart; the pointer shows a name</p>
<p><i style='border:0;height:5px;background:var(--picked)'></i>the picked net, or the longest path</p>
<p><i style='background:var(--driver)'>D</i>its driver; of the longest path the start</p>
<p><i style='background:var(--reader);border-radius:9px'>R</i>its readers; of the path each further stop, by its number</p>
<p><i style='background:var(--use0)'></i>channel: up to 20 % of its tracks used</p>
<p><i style='background:var(--use1)'></i>up to 40 %</p>
<p><i style='background:var(--use2)'></i>up to 60 %</p>
<p><i style='background:var(--use3)'></i>up to 80 %</p>
<p><i style='background:var(--use4)'></i>above 80 %</p>
<p><i style='background:var(--use4);border:3px solid var(--ink)'></i>full</p>
<p>Far out, channels are shown in place of wires.</p>
<p id='keys'>Arrows move. + and - zoom. 0 shows the whole strip. F frames what is picked. C shows congestion, P the longest path. / searches. Esc picks nothing.</p>
</details></aside></main>
"#)
    };
}

pub(crate) use elements_text;
