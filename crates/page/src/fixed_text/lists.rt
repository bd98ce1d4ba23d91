//! The script on lists: what is beside the drawing, with links to nets and blocks.

/// The texts before it, this one, and those that the further macros add.
macro_rules! lists_text {
    (($next:ident $($rest:ident)*) $($before:literal)*) => {
        $next!(($($rest)*) $($before)* r#"
// The lists beside the drawing. Each net and block in them is a link, each wire a button.
const MOST_ROWS = 200, MOST_REFUSED = 100;
// The address of a tenancy, of a net of it, or of a block.
const address = (...parts) => '#' + parts.map(encodeURIComponent).join('/');
const netAddress = name => address(now.name, name);
const blockAddress = name => address(now.name, 'block', name);
function link(text, target) {
  const found = make('a', text);
  found.href = target;
  return found;
}
const netLink = net => link(net.name, netAddress(net.name));
const blockText = block => (block.kind === 'clb' ? 'cluster ' : block.kind + ' ') + block.name + (now.isPlaced ? ' at (' + block.x + ',' + block.y + ')' : '');
const blockLink = block => link(blockText(block), blockAddress(block.name));
// A button that shows a box of the drawing.
function placeButton(text, area) {
  const button = make('button', text);
  button.onclick = () => {
    spot = area;
    showBox(area[0] - 2, area[1] - 2, area[2] + 2, area[3] + 2, 60);
    redraw();
  };
  return button;
}
const wireArea = (kind, x, y, n) => wireLine(now, { kind, x, y, n });
function wireButton(text) {
  const [kind, place, n] = text.split(' '), [x, y] = place.slice(1, -1).split(',').map(Number);
  return placeButton(text, wireArea(kind, x, y, Number(n)));
}
function channelArea(channel) {
  const first = wireArea(channel.kind, channel.x, channel.y, 0), last = wireArea(channel.kind, channel.x, channel.y, now.tracks - 1);
  return [first[0], first[1], last[2], last[3]];
}
// A heading with the number of items; if not all are shown, with the number of those that are.
function heading(title, kind, all, most) {
  $('side').append(make('h2', title + ' (' + (all > most ? most + ' of ' + all : all) + ')', kind));
}
// A list of the first of these items, each by an element that is made of it.
function list(title, kind, all, toElement) {
  heading(title, kind, all.length, MOST_ROWS);
  const rows = make('ul', '', kind);
  for (const item of all.slice(0, MOST_ROWS)) {
    const row = make('li', '');
    row.append(toElement(item));
    rows.append(row);
  }
  $('side').append(rows);
}
// The first of equally full channels is the first in node order, as `fpgad_desk route` names it.
const isBefore = (a, b) => (a.x !== b.x ? a.x < b.x : a.kind !== b.kind ? a.kind === 'CHANX' : a.y < b.y);
function fullestChannel(t) {
  let most = null;
  for (const channel of t.use.values()) {
    const isFuller = !most || channel.tracks.size > most.tracks.size;
    if (isFuller || channel.tracks.size === most.tracks.size && isBefore(channel, most)) most = channel;
  }
  return most;
}
// What is missing of a tenancy that has no wires, by its state.
function missingText(t) {
  const word = t.state ? t.state.word : '', hasPlaces = ['Placed', 'Routing', 'Routed', 'Unrouted'].includes(word);
  if (t.isPlaced) return word === 'Routed' ? 'routed, but its .route file was not printed' : word ? 'not routed' : 'no .route file';
  return hasPlaces ? 'placed, but its .place file was not printed' : word ? 'not placed' : 'no .place file';
}
function channelText(most) {
  const used = trackCount ? most.tracks.size + ' of ' + count(trackCount, 'track') : count(most.tracks.size, 'track');
  return 'fullest channel ' + most.kind + ' (' + most.x + ',' + most.y + '): ' + used;
}
// The figures of a tenancy.
function tellFigures(t) {
  const rows = make('ul', '', 'figures'), tell = element => rows.appendChild(make('li', '')).append(element);
  if (t.state) tell(stateText(t.state));
  const strip = strips.get(t.name);
  if (strip) tell(columnsText(strip) + ' of the device');
  if (t.isPlaced) tell(count(t.size.columns, 'column') + ', ' + count(t.size.rows, 'row'));
  if (t.isPlaced) tell(t.clusters + '/' + t.size.columns * t.size.rows + ' logic blocks, ' + fillOf(t) + ' %');
  else tell(count(t.clusters, 'logic block'));
  tell(count(t.blocks.length - t.clusters, 'pad'));
  tell(count(t.nets.length, 'net'));
  if (!t.isPlaced || !t.isRouted) tell(missingText(t));
  else {
    const most = fullestChannel(t), wires = [...t.use.values()].reduce((sum, channel) => sum + channel.tracks.size, 0);
    tell('wire length ' + wires);
    tell(most ? placeButton(channelText(most), channelArea(most)) : 'no channel is used');
    if (t.path.length) tell(pathButton(t));
  }
  $('side').append(rows);
}
// A node of an Unrouted tenancy that too many nets use, with links to these nets.
function overusedRow(line) {
  const at = line.lastIndexOf(':') + 1, row = make('li', line.slice(0, at));
  for (const name of line.slice(at + 1).split(' ')) row.append(' ', now.byName.has(name) ? link(name, netAddress(name)) : name);
  return row;
}
// Where the routing of an Unrouted tenancy was left overused.
function tellOveruse(t) {
  if (!t.overuse.length) return;
  const rows = make('ul', '', 'net');
  for (const line of t.overuse.slice(1)) rows.append(overusedRow(line));
  $('side').append(make('h2', t.overuse[0].slice(t.name.length + 1), 'bad'), rows);
}
function tellPicked(t) {
  const net = t.nets[picked], block = t.blocks[chosen];
  if (!net && !block) return;
  const title = make('h2', net ? 'net ' + net.name + (net.isGlobal ? ' (global)' : '') : blockText(block));
  title.id = 'picked';
  $('side').append(title);
  if (net) {
    if (t.blocks[net.driver]) list('driver', 'driver', [t.blocks[net.driver]], blockLink);
    list('readers', 'reader', [...net.readers].filter(i => t.blocks[i]).map(i => t.blocks[i]), blockLink);
    list('wires', 'wire', [...net.wires], wireButton);
  } else {
    list('BLEs', 'ble', block.bles, name => (t.byName.has(name) ? link(name, netAddress(name)) : document.createTextNode(name)));
    list('driven nets', 'net', t.nets.filter(other => other.driver === chosen), netLink);
    list('read nets', 'net', t.nets.filter(other => other.readers.has(chosen)), netLink);
  }
}
// The refused lines: each is four lines, with its number, the line, its reply and what may be done.
function readRefused(text) {
  const found = [], all = lines(text);
  for (let i = 0; i + 3 < all.length; i += 4) found.push({ asked: all[i] + ': ' + all[i + 1], reply: all[i + 2], advice: all[i + 3] });
  return found;
}
const refused = readRefused(general.get('refused') || '');
function tellRefused() {
  if (refused.length) heading('refused', 'bad', refused.length, MOST_REFUSED);
  for (const line of refused.slice(0, MOST_REFUSED)) {
    $('side').append(make('div', line.asked, 'asked'), make('div', line.reply, 'bad'), make('div', line.advice, 'advice'));
  }
}
let found = null;
// What a search found, if it is more than one thing.
function tellFound() {
  if (!found) return;
  if (found.nets.length) list('nets with this text', 'net', found.nets, netLink);
  if (found.blocks.length) list('blocks with this text', 'block', found.blocks, blockLink);
}
function tell() {
  $('side').replaceChildren();
  $('beside').scrollTop = 0;
  if (now) {
    tellFound();
    tellPicked(now);
    tellPath(now);
    $('side').append(make('h2', now.name));
    tellFigures(now);
    tellOveruse(now);
  }
  tellRefused();
}
"#)
    };
}

pub(crate) use lists_text;
