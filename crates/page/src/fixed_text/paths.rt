//! The script on the longest path of a tenancy: its stops, and the wires between them.

/// The texts before it, this one, and those that the further macros add.
macro_rules! paths_text {
    (($next:ident $($rest:ident)*) $($before:literal)*) => {
        $next!(($($rest)*) $($before)* r#"
// The stops of a longest path, as `fpgad_desk route --path` prints them: each with its word, its name, its place and the wires on the way to it.
function readPath(text) {
  const stops = [];
  let wires = 0;
  for (const line of lines(text)) {
    const words = line.split(' ');
    if (Number(words[1]) >= 0) wires = Number(words[1]);
    else if (words[0] === 'path') {
      stops.push({ word: words[1], name: words[2], place: words.slice(4).map(Number), isPad: words[3] === 'pad', wires });
      wires = 0;
    }
  }
  return stops;
}
// The part of a net's route from its source to the sink of a stop's block; empty if the net doesn't lead there.
function wayTo(net, stop) {
  const before = new Map(), key = node => [node.kind, node.x, node.y, node.n].join();
  let last = null, end = null;
  for (const node of net.nodes) {
    if (!before.has(key(node))) before.set(key(node), last);
    const isThere = node.kind === 'SINK' && node.x === stop.place[0] && node.y === stop.place[1];
    if (isThere && (!stop.isPad || node.n === stop.place[2])) end = node;
    last = node;
  }
  const way = [];
  for (let node = end; node; node = before.get(key(node))) way.push(node);
  return way.reverse();
}
// The ways of a path: of each net on it the part that leads to the next stop.
function waysOf(t) {
  const ways = [];
  let net = null;
  for (const stop of t.path) {
    if (net) ways.push({ name: net.name, nodes: wayTo(net, stop) });
    if (stop.word !== 'to') net = t.nets[t.byName.get(stop.name)] || null;
  }
  return ways.filter(way => way.nodes.length);
}
// The ways of the longest path while it is shown, or null.
let onPath = null;
const isDimmed = () => picked >= 0 || onPath !== null;
const stopBlock = (t, stop) => t.blocks[t.at.get(placeKey(stop.place[0], stop.place[1], stop.isPad ? stop.place[2] : ''))];
const pathAddress = () => address(now.name, 'path', 'longest');
// Its wires; of several ends the one with the most counts.
function pathWires(path) {
  const sum = path.reduce((all, stop) => all + (stop.word === 'to' ? 0 : stop.wires), 0);
  return sum + Math.max(0, ...path.filter(stop => stop.word === 'to').map(stop => stop.wires));
}
const pathText = path => 'longest path: ' + count(path.filter(stop => stop.word === 'table').length, 'table') + ', ' + count(pathWires(path), 'wire');
function showPath() {
  if (!now || !now.path.length) return;
  choose(-1, -1);
  onPath = waysOf(now);
  say('longest path');
  showChosen(true);
}
const togglePath = () => { if (now && now.path.length) go(onPath ? address(now.name) : pathAddress()); };
function pathButton(t) {
  const button = make('button', pathText(t.path));
  button.id = 'path';
  button.setAttribute('aria-pressed', String(onPath !== null));
  button.onclick = togglePath;
  return button;
}
// A stop of the path, with a link to its net and the wires on the way to it.
function stopRow(stop) {
  const row = make('span', stop.word + ' ');
  row.append(now.byName.has(stop.name) ? link(stop.name, netAddress(stop.name)) : stop.name, stop.word === 'from' ? '' : ', ' + count(stop.wires, 'wire'));
  return row;
}
function tellPath(t) {
  if (onPath) list('longest path', 'stop', t.path, stopRow);
}
"#)
    };
}

pub(crate) use paths_text;
