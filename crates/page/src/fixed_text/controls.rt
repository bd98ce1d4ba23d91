//! The script on controls: the mouse, fingers and keys.

/// The texts before it, this one, and those that the further macros add.
macro_rules! controls_text {
    (($next:ident $($rest:ident)*) $($before:literal)*) => {
        $next!(($($rest)*) $($before)* r#"
// The mouse and fingers: one drags, two pinch, and one that doesn't move picks.
const fingers = new Map();
let moved = 0, wasPinched = false;
const pointAt = (x, y) => [view.x + x / view.zoom, view.y + (canvas.clientHeight - y) / view.zoom];
const REACH = 6;
// The number of the net at pixels of the window, and of the block.
function itemAt(x, y) {
  const [a, b] = pointAt(x, y), block = blockAt(now, a, b);
  const net = block < 0 && showsWires() ? netAt(now, a, b, Math.min(0.3, REACH / view.zoom)) : -1;
  return { net, block };
}
function pickAt(x, y) {
  if (!now || !now.isPlaced) return;
  const item = itemAt(x, y);
  pick(item.net, item.block, false);
}
// The name of what is under the pointer, or how full the channel there is.
function tipText(x, y) {
  if (!now || !now.isPlaced) return '';
  const item = itemAt(x, y), [a, b] = pointAt(x, y);
  if (item.net >= 0) return 'net ' + now.nets[item.net].name;
  if (item.block >= 0) return blockText(now.blocks[item.block]);
  const channel = showsWires() ? null : channelAt(now, a, b);
  return channel ? channel.kind + ' (' + channel.x + ',' + channel.y + '): ' + channel.tracks.size + ' of ' + count(trackCount || now.tracks, 'track') : '';
}
function tip(x, y) {
  const text = tipText(x, y), there = $('tip');
  there.hidden = !text;
  there.textContent = text;
  there.style.left = Math.min(x + 12, canvas.clientWidth - 160) + 'px';
  there.style.top = (y > canvas.clientHeight - 40 ? y - 30 : y + 16) + 'px';
}
// Two fingers: the distance between them zooms, and the point between them moves.
function pinch(before, after) {
  const [a, b] = before, [c, d] = after;
  const apart = (p, q) => Math.max(1, Math.hypot(p.x - q.x, p.y - q.y));
  moveBy((a.x + b.x - c.x - d.x) / 2, (a.y + b.y - c.y - d.y) / 2);
  zoomAt((c.x + d.x) / 2, (c.y + d.y) / 2, apart(c, d) / apart(a, b));
}
canvas.onpointerdown = e => {
  if (e.isTrusted) canvas.setPointerCapture(e.pointerId);
  if (!fingers.size) [moved, wasPinched] = [0, false];
  fingers.set(e.pointerId, { x: e.offsetX, y: e.offsetY });
  if (fingers.size > 1) wasPinched = true;
  $('tip').hidden = true;
};
canvas.onpointermove = e => {
  const old = fingers.get(e.pointerId), place = { x: e.offsetX, y: e.offsetY };
  if (!old) return tip(place.x, place.y);
  const before = [...fingers.values()];
  fingers.set(e.pointerId, place);
  moved += Math.abs(place.x - old.x) + Math.abs(place.y - old.y);
  if (before.length === 2) pinch(before, [...fingers.values()]); else if (before.length === 1) moveBy(old.x - place.x, old.y - place.y);
};
canvas.onpointerup = e => {
  const isClick = fingers.delete(e.pointerId) && moved < 6 && !wasPinched && e.button === 0;
  if (isClick) pickAt(e.offsetX, e.offsetY);
};
canvas.onpointercancel = e => fingers.delete(e.pointerId);
canvas.onpointerleave = () => { $('tip').hidden = true; };
canvas.addEventListener('wheel', e => {
  e.preventDefault();
  const turned = e.deltaMode ? e.deltaY * 30 : e.deltaY;
  zoomAt(e.offsetX, e.offsetY, Math.exp(Math.max(-300, Math.min(300, turned)) * (e.ctrlKey ? -0.01 : -0.0022)));
}, { passive: false });

// The keys.
function toggleHeat() {
  heat = !heat;
  $('heat').setAttribute('aria-pressed', String(heat));
  redraw();
}
const MOVES = { ArrowLeft: [-1, 0], ArrowRight: [1, 0], ArrowUp: [0, -1], ArrowDown: [0, 1] };
const KEYS = {
  '+': () => zoomBy(1.25), '=': () => zoomBy(1.25), '-': () => zoomBy(0.8), 0: whole, f: frameNow, c: toggleHeat, p: togglePath,
  Escape: () => { if (now) pick(-1, -1, false); }, '/': () => $('q').focus(),
};
document.onkeydown = e => {
  if (e.ctrlKey || e.altKey || e.metaKey) return;
  if (e.target === $('q') && e.key === 'Escape') canvas.focus();
  else if (['INPUT', 'SELECT'].includes(e.target.tagName)) return;
  const isFree = e.target === canvas || e.target === document.body, move = MOVES[e.key], act = KEYS[e.key];
  if (move && isFree) moveBy(move[0] * canvas.clientWidth / 8, move[1] * canvas.clientHeight / 8);
  else if (act) act();
  else return;
  e.preventDefault();
};
"#)
    };
}

pub(crate) use controls_text;
