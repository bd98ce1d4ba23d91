//! The script on tenancies: it puts their files together, and draws the strips in the head of the
//! page.

/// The texts before it, this one, and those that the further macros add.
macro_rules! tenancies_text {
    (($next:ident $($rest:ident)*) $($before:literal)*) => {
        $next!(($($rest)*) $($before)* r#"
// Where blocks are: of a pad with its place among the pads there.
const placeKey = (x, y, pad) => x + ',' + y + ',' + pad;
// Fills in who drives a routed net and who reads it, its wires, and the use of their channels.
function followNet(t, net) {
  for (const node of net.nodes) {
    if (node.kind === 'SOURCE' || node.kind === 'SINK') {
      const block = t.at.get(placeKey(node.x, node.y, node.isPad ? node.n : ''));
      if (block === undefined) continue;
      if (node.kind === 'SOURCE') net.driver = block; else net.readers.add(block);
    } else if (node.kind === 'CHANX' || node.kind === 'CHANY') {
      const channel = node.kind + ' (' + node.x + ',' + node.y + ')';
      net.wires.add(channel + ' ' + node.n);
      if (!t.use.has(channel)) t.use.set(channel, { kind: node.kind, x: node.x, y: node.y, tracks: new Set() });
      t.use.get(channel).tracks.add(node.n);
      t.tracks = Math.max(t.tracks, node.n + 1);
    }
  }
}
// A tenancy from its three texts.
function readTenancy(name, kinds) {
  const blocks = readNet(kinds.get('net')), size = readPlaces(kinds.get('place') || '', blocks);
  const isPlaced = kinds.has('place'), isRouted = kinds.has('route');
  const nets = isRouted ? readRoutes(kinds.get('route')) : netsOfPins(blocks);
  const t = { name, blocks, size, nets, isPlaced, isRouted, at: new Map(), use: new Map(), tracks: trackCount, pads: 1, pins: 1 };
  for (const [i, block] of blocks.entries()) {
    const isPad = block.kind !== 'clb';
    if (isPad) t.pads = Math.max(t.pads, block.s + 1); else t.pins = Math.max(t.pins, block.pins.length);
    if (isPlaced) t.at.set(placeKey(block.x, block.y, isPad ? block.s : ''), i);
  }
  if (isRouted) for (const net of nets) followNet(t, net);
  t.byName = new Map(nets.map((net, i) => [net.name, i]));
  t.state = stateOf(name);
  t.path = isRouted ? readPath(kinds.get('path') || '') : [];
  t.overuse = lines(kinds.get('overuse') || '').filter(line => line);
  t.clusters = blocks.filter(block => block.kind === 'clb').length;
  return t;
}
const tenancies = [];
for (const [name, kinds] of texts) if (kinds.has('net')) tenancies.push(readTenancy(name, kinds));

// The strips, from the operator's lines and their replies.
function readStrips(text) {
  const found = new Map(), all = lines(text);
  for (let i = 0; i + 1 < all.length; i++) {
    const words = all[i].slice(all[i].indexOf(': ') + 2).split(' ').filter(word => word);
    const reply = all[i + 1].trim().split(' ');
    if (all[i].indexOf(': ') < 1 || words[0] !== 'op' || reply[0] !== 'ok') continue;
    if (words[1] === 'admit') found.set(words[2], { offset: Number(reply[2]), width: Number(words[3]) });
    else if (words[1] === 'evict') found.delete(words[2]);
    else if (words[1] === 'move' && found.has(words[2])) found.get(words[2]).offset = Number(reply[1]);
  }
  return found;
}
const strips = readStrips(general.get('lines') || '');
const lastColumn = Math.max(0, ...[...strips.values()].map(strip => strip.offset + strip.width));
const columns = Math.max(Number(limits.get('columns') || 0), lastColumn);
// Of each column of the device whether it is in a strip, unused beside one, or free.
const columnUse = Array.from({ length: columns }, (_, i) => {
  const column = i + 1, all = [...strips.values()];
  if (all.some(strip => strip.offset < column && column <= strip.offset + strip.width)) return 'used';
  return all.some(strip => column === strip.offset || column === strip.offset + strip.width + 1) ? 'guard' : 'free';
});
// The share of its places for logic blocks that a tenancy takes, in per cent.
const fillOf = t => Math.round(100 * t.clusters / (t.size.columns * t.size.rows));
const columnsText = strip => (strip.width === 1 ? 'column ' : 'columns ' + (strip.offset + 1) + ' to ') + (strip.offset + strip.width);
// The button of a strip: its name, its state, and how full it is.
function stripButton(name, strip) {
  const state = stateOf(name), i = tenancies.findIndex(t => t.name === name), t = tenancies[i];
  const fill = t && t.isPlaced ? fillOf(t) : null;
  const button = make('button', [name, state ? state.word : '', fill === null ? '' : fill + ' %'].filter(part => part).join(' '), 'strip ' + (state ? state.word : ''));
  const full = fill === null ? '' : ', ' + t.clusters + ' of ' + t.size.columns * t.size.rows + ' logic blocks';
  button.title = name + ': ' + columnsText(strip) + (state ? ', ' + stateText(state) : '') + full;
  button.setAttribute('aria-label', button.title);
  button.dataset.name = name;
  button.style.left = 100 * strip.offset / columns + '%';
  button.style.width = 100 * strip.width / columns + '%';
  if (fill !== null) button.append(make('span', '', 'fill'));
  if (fill !== null) button.lastChild.style.width = fill + '%';
  button.onclick = () => (i >= 0 ? go(address(name)) : say(name + ' has no present files'));
  return button;
}
// The head of the page: the device's columns with the strips.
function tellDevice() {
  $('device').hidden = !strips.size;
  if (!strips.size) return;
  columnUse.forEach((use, i) => {
    if (use !== 'guard') return;
    const guard = make('i', '', 'guard');
    guard.style.left = 100 * i / columns + '%';
    guard.style.width = 100 / columns + '%';
    guard.title = 'guard column ' + (i + 1);
    $('device').append(guard);
  });
  for (const [name, strip] of strips) $('device').append(stripButton(name, strip));
  const of = use => columnUse.filter(other => other === use).length + ' ' + use;
  $('summary').textContent = count(strips.size, 'strip') + ' on ' + count(columns, 'column')
    + (limits.has('columns') ? ' (' + of('used') + ', ' + of('guard') + ', ' + of('free') + ')' : '')
    + ', ' + count(tenancies.filter(t => t.isPlaced).length, 'placement');
}
"#)
    };
}

pub(crate) use tenancies_text;
