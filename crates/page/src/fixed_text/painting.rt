//! The script on painting: the places, the blocks, the wires or the use of channels, and the picked
//! net.

/// The texts before it, this one, and those that the further macros add.
macro_rules! painting_text {
    (($next:ident $($rest:ident)*) $($before:literal)*) => {
        $next!(($($rest)*) $($before)* r#"
let now = null, picked = -1, chosen = -1, spot = null, heat = false;
// From here on wires are apart on the screen; farther out their channels are shown.
const WIRES_FROM = 10;
const showsWires = () => !heat && view.zoom >= WIRES_FROM;
const useOf = (t, channel) => channel.tracks.size / Math.max(1, trackCount || t.tracks);
// The tiles in the window: the first and the last column and row.
function tilesInWindow(t) {
  const step = pitch(t), inside = (n, most) => Math.max(0, Math.min(most, Math.floor(n)));
  return {
    first: inside(view.x / step - 1, t.grid.wide - 1),
    last: inside((view.x + canvas.clientWidth / view.zoom) / step + 1, t.grid.wide - 1),
    low: inside(view.y / step - 1, t.grid.high - 1),
    high: inside((view.y + canvas.clientHeight / view.zoom) / step + 1, t.grid.high - 1),
  };
}
// Calls visit(tile, x, y) of each of these tiles.
function eachTile(t, range, visit) {
  for (let x = range.first; x <= range.last; x++) for (let y = range.low; y <= range.high; y++) visit(t.grid.tileAt(x, y), x, y);
}
const blockColour = (block, i) => (i === chosen ? ink.chosen : block.kind === 'clb' ? ink.cluster : ink[block.kind]);
function paintBlock(t, i) {
  const block = t.blocks[i], [x, y, width, height] = box(t, block);
  fillBox(x, y, width, height, blockColour(block, i));
  if (view.zoom < 4) return;
  frameBox(x, y, width, height, Math.ceil(ratio()), ink.outline);
  if (block.kind === 'output' && view.zoom * width > 8) {
    const inset = 3 / view.zoom;
    frameBox(x + inset, y + inset, width - 2 * inset, height - 2 * inset, Math.ceil(ratio()), ink.outline);
  }
}
// The blocks of a tile, or the frame of a place without one.
function paintPlace(t, tile, x, y) {
  const isPlace = x > 0 && y > 0 && x <= t.size.columns && y <= t.size.rows;
  if (isPlace && !tile.blocks.length && view.zoom >= 4) frameBox(left(t, x), left(t, y), 1, 1, Math.ceil(ratio()), ink.empty);
  for (const i of tile.blocks) paintBlock(t, i);
}
function paintChannel(t, channel) {
  const share = useOf(t, channel), isPale = isDimmed() && !heat;
  const colour = isPale ? ink.empty : ink.use[Math.min(4, Math.max(0, Math.ceil(share * 5) - 1))];
  const x = left(t, channel.x), y = left(t, channel.y);
  const area = channel.kind === 'CHANX' ? [x, y + 1, 1, gap(t)] : [x + 1, y, gap(t), 1];
  fillBox(...area, colour);
  if (share >= 1 && !isPale) frameBox(...area, Math.ceil(2 * ratio()), ink.ink);
}
function paintWires(t, tile) {
  const width = Math.max(1, Math.round(0.02 * view.zoom * ratio())), all = tile.lines, dots = tile.dots, isDim = isDimmed();
  for (let i = 0; i < all.length; i += 5) {
    const colour = isDim ? ink.dim : ink.nets[all[i + 4] % ink.nets.length];
    drawLine(all[i], all[i + 1], all[i + 2], all[i + 3], width, colour);
  }
  if (view.zoom < 25) return;
  const half = Math.max(1, Math.round(0.022 * view.zoom * ratio()));
  for (let i = 0; i < dots.length; i += 3) {
    const x = pixelX(dots[i]), y = pixelY(dots[i + 1]);
    fillPixels(x - half, y - half, x + half, y + half, isDim ? ink.dim : ink.nets[dots[i + 2] % ink.nets.length]);
  }
}
function paintNet(t, net, width, colour) {
  traceNet(t, net, {
    line(x0, y0, x1, y1) { drawLine(Math.min(x0, x1), Math.min(y0, y1), Math.max(x0, x1), Math.max(y0, y1), width, colour); },
    dot(x, y) { fillPixels(pixelX(x) - width, pixelY(y) - width, pixelX(x) + width, pixelY(y) + width, colour); },
  });
}
// The picked net is at least two pixels wide, however far out, with an edge of the paper's colour.
function paintPicked(t, net) {
  const width = Math.max(Math.ceil(2 * ratio()), Math.round(0.05 * view.zoom * ratio()));
  paintNet(t, net, width + 2 * Math.ceil(ratio()), ink.paper);
  paintNet(t, net, width, ink.picked);
}
// Paints what is in the window: the places, the blocks, the channels or the wires, and the picked net.
function paintScene() {
  const started = performance.now(), t = now;
  sizeScene();
  scene.pixels.fill(ink.paper);
  if (t && t.isPlaced) {
    const range = tilesInWindow(t), hasWires = showsWires();
    eachTile(t, range, (tile, x, y) => paintPlace(t, tile, x, y));
    eachTile(t, range, tile => {
      if (hasWires) paintWires(t, tile); else for (const channel of tile.channels) paintChannel(t, channel);
    });
    if (t.nets[picked]) paintPicked(t, t.nets[picked]);
    for (const way of onPath || []) paintPicked(t, way);
    if (spot) frameBox(spot[0] - 0.06, spot[1] - 0.06, spot[2] - spot[0] + 0.12, spot[3] - spot[1] + 0.12, Math.ceil(2 * ratio()), ink.ink);
  }
  scene.pen.setTransform(1, 0, 0, 1, 0, 0);
  scene.pen.putImageData(scene.image, 0, 0);
  if (t && t.isPlaced) writeNames(t);
  scene.view = { ...view };
  scene.cost = performance.now() - started;
}
"#)
    };
}

pub(crate) use painting_text;
