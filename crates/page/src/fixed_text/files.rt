//! The first part of the script: it reads the texts of the page, and what the three files of a
//! tenancy say.

/// The texts before it, this one, and those that the further macros add.
macro_rules! files_text {
    (($next:ident $($rest:ident)*) $($before:literal)*) => {
        $next!(($($rest)*) $($before)* r#"<script>
'use strict';
const $ = id => document.getElementById(id);
const LF = String.fromCharCode(10);
const lines = text => text.split(LF);
const count = (n, word) => n + ' ' + word + (n === 1 ? '' : 's');
// An element with a text, which is never read as markup.
function make(tag, text, kind) {
  const element = document.createElement(tag);
  element.textContent = text;
  if (kind) element.className = kind;
  return element;
}
// The texts of the page, by name and kind; those of the whole device have an empty name.
const texts = new Map();
for (const pre of document.querySelectorAll('pre.data')) {
  const name = pre.dataset.name;
  if (!texts.has(name)) texts.set(name, new Map());
  texts.get(name).set(pre.dataset.kind, pre.textContent);
}
const general = texts.get('') || new Map();
texts.delete('');
const generalLines = kind => lines(general.get(kind) || '').filter(line => line);
const limits = new Map(generalLines('device').map(line => line.split(' ')));
const trackCount = Number(limits.get('tracks') || 0);
// The last state of a name by the replies, and the number of that line.
const states = new Map(generalLines('states').map(text => {
  const [name, line, word] = text.split(' ');
  return [name, { word, line }];
}));
const stateOf = name => states.get(name) || null;
const stateText = state => 'state ' + state.word + ' (line ' + state.line + ')';

// The blocks of a .net file, with the nets at their pins and their BLEs.
function readNet(text) {
  const blocks = [];
  for (const line of lines(text)) {
    const words = line.split(' '), last = blocks[blocks.length - 1];
    if (words[0] === '.input' || words[0] === '.output' || words[0] === '.clb') {
      blocks.push({ kind: words[0].slice(1), name: words[1], pins: [], bles: [], x: 0, y: 0, s: 0 });
    } else if (last && words[0] === 'pinlist:') last.pins.push(...words.slice(1));
    else if (last && words[0] === 'subblock:') last.bles.push(words[1]);
  }
  return blocks;
}
// The size and the places of a .place file.
function readPlaces(text, blocks) {
  const size = { columns: 1, rows: 1 };
  for (const line of lines(text)) {
    const words = line.split(' ').filter(word => word);
    if (words[0] === 'Array' && words[1] === 'size:') {
      size.columns = Number(words[2]);
      size.rows = Number(words[4]);
    } else if (words.length === 5 && words[4][0] === '#') {
      const block = blocks[Number(words[4].slice(1))];
      if (block) [block.x, block.y, block.s] = [Number(words[1]), Number(words[2]), Number(words[3])];
    }
  }
  return size;
}
const newNet = (name, isGlobal) => ({ name, isGlobal, nodes: [], driver: -1, readers: new Set(), wires: new Set() });
const KINDS = { SOURCE: 'SOURCE', OPIN: 'OPIN', CHANX: 'CHANX', CHANY: 'CHANY', IPIN: 'IPIN', SINK: 'SINK' };
// The nets of a .route file: the nodes of each in order, or the blocks on the global network.
function readRoutes(text) {
  const nets = [];
  for (const line of lines(text)) {
    const words = line.split(' '), net = nets[nets.length - 1];
    if (words[0] === 'Net' && words.length > 2) {
      const isGlobal = words.length > 3;
      nets.push(newNet(words[2].slice(1, isGlobal ? -2 : -1), isGlobal));
    } else if (net && words[0] === 'Block') {
      const block = parseInt(line.slice(line.lastIndexOf('(#') + 2), 10);
      if (net.driver < 0) net.driver = block; else net.readers.add(block);
    } else if (net && words.length === 4 && KINDS[words[0]]) {
      const comma = words[1].indexOf(',');
      const x = Number(words[1].slice(1, comma)), y = Number(words[1].slice(comma + 1, -1));
      net.nodes.push({ kind: KINDS[words[0]], x, y, n: Number(words[3]), isPad: words[2] === 'Pad:' });
    }
  }
  return nets;
}
// The nets of blocks without routes, by their pins.
function netsOfPins(blocks) {
  const nets = new Map();
  blocks.forEach((block, i) => {
    for (const name of new Set(block.pins)) {
      if (name === 'open') continue;
      if (!nets.has(name)) nets.set(name, newNet(name, false));
      const net = nets.get(name);
      if (block.kind === 'input' || block.bles.includes(name)) net.driver = i; else net.readers.add(i);
    }
  });
  return [...nets.values()];
}
"#)
    };
}

pub(crate) use files_text;
