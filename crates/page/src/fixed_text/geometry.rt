//! The script on geometry: where blocks and wires are, what is in each tile, and what is at a
//! point.

/// The texts before it, this one, and those that the further macros add.
macro_rules! geometry_text {
    (($next:ident $($rest:ident)*) $($before:literal)*) => {
        $next!(($($rest)*) $($before)* r#"
// Where things are, in units of a block's side: x to the right, y upwards. Between blocks are the channels' tracks.
const TRACK = 0.08;
const gap = t => (t.tracks + 1) * TRACK;
const pitch = t => 1 + gap(t);
const left = (t, x) => x * pitch(t);
const across = (t, y, n) => y * pitch(t) + 1 + (n + 1) * TRACK;
// A block's left, bottom, width and height.
function box(t, block) {
  if (block.kind === 'clb') return [left(t, block.x), left(t, block.y), 1, 1];
  return [left(t, block.x) + (block.s + 0.05) / t.pads, left(t, block.y), 0.9 / t.pads, 1];
}
function middle(t, block) {
  const [x, y, width, height] = box(t, block);
  return [x + width / 2, y + height / 2];
}
// How far along the side of its block a pin is.
const pinAt = (t, node) => (node.isPad ? (node.n + 0.5) / t.pads : (node.n + 0.5) / Math.max(t.pins, node.n + 1));
const isWire = node => node.kind === 'CHANX' || node.kind === 'CHANY';
const isPin = node => node.kind === 'OPIN' || node.kind === 'IPIN';
// The line of a wire, from its left or lower end.
function wireLine(t, wire) {
  const a = left(t, wire.x), b = left(t, wire.y);
  if (wire.kind === 'CHANX') return [a, across(t, wire.y, wire.n), a + 1, across(t, wire.y, wire.n)];
  return [across(t, wire.x, wire.n), b, across(t, wire.x, wire.n), b + 1];
}
// From a pin to the wire beside its block.
function tracePin(t, pin, wire, shape) {
  const along = pinAt(t, pin), a = left(t, pin.x), b = left(t, pin.y);
  if (wire.kind === 'CHANX') {
    const y = across(t, wire.y, wire.n);
    shape.line(a + along, wire.y < pin.y ? b : b + 1, a + along, y);
    shape.dot(a + along, y);
  } else {
    const x = across(t, wire.x, wire.n);
    shape.line(wire.x < pin.x ? a : a + 1, b + along, x, b + along);
    shape.dot(x, b + along);
  }
}
// From a wire to another one: both are led to the point at which they meet.
function traceSwitch(t, one, other, shape) {
  const a = wireLine(t, one), b = wireLine(t, other);
  if (one.kind !== other.kind) {
    const [flat, steep] = one.kind === 'CHANX' ? [a, b] : [b, a], x = steep[0], y = flat[1];
    shape.line(x < flat[0] ? flat[0] : flat[2], y, x, y);
    shape.line(x, y < steep[1] ? steep[1] : steep[3], x, y);
    shape.dot(x, y);
  } else if (one.kind === 'CHANX') {
    const [first, second] = a[0] < b[0] ? [a, b] : [b, a];
    shape.line(first[2], first[1], second[0], first[1]);
    if (first[1] !== second[1]) shape.line(second[0], first[1], second[0], second[1]);
  } else {
    const [first, second] = a[1] < b[1] ? [a, b] : [b, a];
    shape.line(first[0], first[3], first[0], second[1]);
    if (first[0] !== second[0]) shape.line(first[0], second[1], second[0], second[1]);
  }
}
// The lines of a net, and the dots at which they join. After a sink the path begins again at a node that it has.
function traceNet(t, net, shape) {
  let last = null;
  for (const node of net.nodes) {
    if (isWire(node) && !(last && last.kind === 'SINK')) shape.line(...wireLine(t, node));
    if (last && isWire(last) && isWire(node)) traceSwitch(t, last, node, shape);
    else if (last && isWire(last) && isPin(node)) tracePin(t, node, last, shape);
    else if (last && isPin(last) && isWire(node)) tracePin(t, last, node, shape);
    last = node;
  }
}
// What is in each tile, a block with the channels above and beside it: four numbers and the net's of a line, three of a dot.
function buildGrid(t) {
  const wide = t.size.columns + 2, high = t.size.rows + 2;
  const tiles = Array.from({ length: wide * high }, () => ({ blocks: [], channels: [], lines: [], dots: [] }));
  const tileAt = (x, y) => tiles[Math.min(wide - 1, Math.max(0, x)) + wide * Math.min(high - 1, Math.max(0, y))];
  t.blocks.forEach((block, i) => tileAt(block.x, block.y).blocks.push(i));
  for (const channel of t.use.values()) tileAt(channel.x, channel.y).channels.push(channel);
  const step = pitch(t);
  let number = 0;
  const shape = {
    line(x0, y0, x1, y1) {
      tileAt(Math.floor((x0 + x1) / 2 / step), Math.floor((y0 + y1) / 2 / step))
        .lines.push(Math.min(x0, x1), Math.min(y0, y1), Math.max(x0, x1), Math.max(y0, y1), number);
    },
    dot(x, y) { tileAt(Math.floor(x / step), Math.floor(y / step)).dots.push(x, y, number); },
  };
  t.nets.forEach((net, i) => {
    number = i;
    traceNet(t, net, shape);
  });
  return { wide, high, tileAt };
}
// The net whose line is nearest to a point, within a distance; or -1.
function netAt(t, x, y, within) {
  const tile = t.grid.tileAt(Math.floor(x / pitch(t)), Math.floor(y / pitch(t))), all = tile.lines;
  let found = -1, best = within;
  for (let i = 0; i < all.length; i += 5) {
    const away = Math.max(all[i] - x, x - all[i + 2], all[i + 1] - y, y - all[i + 3], 0);
    if (away < best) [best, found] = [away, all[i + 4]];
  }
  return found;
}
// The block at a point, or -1.
function blockAt(t, x, y) {
  const tile = t.grid.tileAt(Math.floor(x / pitch(t)), Math.floor(y / pitch(t)));
  const found = tile.blocks.find(i => {
    const [a, b, width, height] = box(t, t.blocks[i]);
    return x >= a && x <= a + width && y >= b && y <= b + height;
  });
  return found === undefined ? -1 : found;
}
// The channel at a point, or null.
function channelAt(t, x, y) {
  const tile = t.grid.tileAt(Math.floor(x / pitch(t)), Math.floor(y / pitch(t)));
  const right = x % pitch(t) > 1, above = y % pitch(t) > 1;
  if (right === above) return null;
  return tile.channels.find(channel => channel.kind === (above ? 'CHANX' : 'CHANY')) || null;
}
"#)
    };
}

pub(crate) use geometry_text;
