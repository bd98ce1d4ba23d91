//! The script on names: those of clusters, BLEs and pads, the marks of a net, and the numbers of
//! rows and columns.

/// The texts before it, this one, and those that the further macros add.
macro_rules! names_text {
    (($next:ident $($rest:ident)*) $($before:literal)*) => {
        $next!(($($rest)*) $($before)* r#"
// A name of at most so many letters: the middle is left out, since names of tools often differ at their ends.
function cut(name, most) {
  if (name.length <= most) return name;
  return name.slice(0, Math.ceil((most - 1) / 2)) + '\u2026' + name.slice(name.length - Math.floor((most - 1) / 2));
}
const LETTER = 6.1, LINE = 12;
const windowX = x => (x - view.x) * view.zoom;
const windowY = y => canvas.clientHeight - (y - view.y) * view.zoom;
const isInWindow = (x, y) => x > -20 && y > -20 && x < canvas.clientWidth + 20 && y < canvas.clientHeight + 20;
// The name of a cluster, and from close by those of its BLEs.
function writeCluster(ctx, t, block) {
  const most = Math.floor((view.zoom - 5) / LETTER);
  if (most < 4) return;
  const x = windowX(left(t, block.x)) + 3, y = windowY(left(t, block.y) + 1) + LINE;
  ctx.fillText(cut(block.name, most), x, y);
  if (view.zoom < 90) return;
  const room = Math.floor(view.zoom / LINE) - 1, bles = block.bles.filter(name => name !== block.name);
  bles.slice(0, room).forEach((name, i) => ctx.fillText(cut(name, most), x, y + (i + 1) * LINE));
}
// The name of a pad, upright, outside the blocks.
function writePad(ctx, t, block) {
  const [x, y, width] = box(t, block);
  if (width * view.zoom < 9) return;
  const isAbove = block.y > t.size.rows, name = cut(block.name, 18);
  ctx.save();
  ctx.translate(windowX(x + width / 2) + 4, windowY(isAbove ? y + 1 : y) + (isAbove ? -4 : 4 + name.length * LETTER));
  ctx.rotate(-Math.PI / 2);
  ctx.fillText(name, 0, 0);
  ctx.restore();
}
// How many tracks of a channel are used.
function writeUse(ctx, t, channel) {
  if (view.zoom < 40) return;
  const x = left(t, channel.x), y = left(t, channel.y), text = channel.tracks.size + '/' + (trackCount || t.tracks);
  const at = channel.kind === 'CHANX' ? [x + 0.5, y + 1 + gap(t) / 2] : [x + 1 + gap(t) / 2, y + 0.5];
  const left0 = windowX(at[0]) - text.length * LETTER / 2, base = windowY(at[1]) + 4;
  ctx.fillStyle = paint.paper;
  ctx.fillRect(left0 - 2, base - 10, text.length * LETTER + 4, 13);
  ctx.fillStyle = paint.ink;
  ctx.fillText(text, left0, base);
}
// A mark of fixed size: a square with D for a driver, a disc with R for a reader or with a stop's number. Close by it is in the corner of its block.
function writeMark(ctx, t, block, isDriver, label = isDriver ? 'D' : 'R') {
  const [x, y, width, height] = box(t, block), isLarge = width * view.zoom > 34;
  const a = isLarge ? windowX(x + width) - 10 : windowX(x + width / 2), b = isLarge ? windowY(y) - 10 : windowY(y + height / 2);
  if (!isInWindow(a, b)) return;
  ctx.beginPath();
  if (isDriver) ctx.rect(a - 8, b - 8, 16, 16); else ctx.ellipse(a, b, Math.max(7, LETTER * label.length / 2 + 2), 7, 0, 0, 7);
  ctx.fillStyle = isDriver ? paint.driver : paint.reader;
  ctx.fill();
  ctx.lineWidth = 2;
  ctx.strokeStyle = paint.paper;
  ctx.stroke();
  ctx.fillStyle = paint.paper;
  ctx.fillText(label, a - LETTER * label.length / 2, b + 4);
}
// Straight dashed lines from the driver of a net without wires to its readers.
function writeFlight(ctx, t, net) {
  if (net.wires.size || !t.blocks[net.driver]) return;
  const [x, y] = middle(t, t.blocks[net.driver]);
  ctx.beginPath();
  for (const i of net.readers) {
    if (!t.blocks[i]) continue;
    const [u, v] = middle(t, t.blocks[i]);
    ctx.moveTo(windowX(x), windowY(y));
    ctx.lineTo(windowX(u), windowY(v));
  }
  ctx.setLineDash([6, 4]);
  ctx.lineWidth = 2;
  ctx.strokeStyle = paint.picked;
  ctx.stroke();
  ctx.setLineDash([]);
}
// The numbers of a path's stops; the last stop that is in a block stands.
function writeStops(ctx, t) {
  t.path.forEach((stop, i) => {
    const block = stopBlock(t, stop), isFirst = stop.word === 'from';
    if (block) writeMark(ctx, t, block, isFirst, isFirst ? 'D' : String(i));
  });
}
// Writes the names that fit, and the marks of the picked net or of the path, onto the scene.
function writeNames(t) {
  const ctx = scene.pen, net = t.nets[picked];
  ctx.setTransform(ratio(), 0, 0, ratio(), 0, 0);
  ctx.font = '10px monospace';
  ctx.fillStyle = paint.ink;
  const hasWires = showsWires();
  eachTile(t, tilesInWindow(t), tile => {
    for (const i of tile.blocks) if (t.blocks[i].kind === 'clb') writeCluster(ctx, t, t.blocks[i]); else writePad(ctx, t, t.blocks[i]);
    if (!hasWires) for (const channel of tile.channels) writeUse(ctx, t, channel);
  });
  ctx.font = 'bold 10px monospace';
  if (onPath) writeStops(ctx, t);
  if (!net) return;
  writeFlight(ctx, t, net);
  for (const i of net.readers) if (t.blocks[i]) writeMark(ctx, t, t.blocks[i], false);
  if (t.blocks[net.driver]) writeMark(ctx, t, t.blocks[net.driver], true);
}
// Of a tenancy without places: what is missing.
function writeMissing(t) {
  pen.setTransform(ratio(), 0, 0, ratio(), 0, 0);
  pen.fillStyle = paint.soft;
  pen.font = '14px sans-serif';
  pen.fillText(t.name + ': ' + missingText(t), 30, 40);
}
// The numbers of columns below and of rows on the left, in steps that fit.
function writeRulers(t) {
  const step = [1, 2, 5, 10, 20, 50, 100].find(n => n * pitch(t) * view.zoom >= 28) || 200, wide = canvas.clientWidth, high = canvas.clientHeight;
  pen.setTransform(ratio(), 0, 0, ratio(), 0, 0);
  pen.fillStyle = paint.panel;
  pen.fillRect(0, 0, 26, high);
  pen.fillRect(0, high - 16, wide, 16);
  pen.fillStyle = paint.soft;
  pen.font = '10px monospace';
  pen.textAlign = 'center';
  for (let x = step; x <= t.size.columns; x += step) if (windowX(left(t, x) + 0.5) > 30) pen.fillText(x, windowX(left(t, x) + 0.5), high - 4);
  for (let y = step; y <= t.size.rows; y += step) if (windowY(left(t, y) + 0.5) < high - 20) pen.fillText(y, 13, windowY(left(t, y) + 0.5) + 4);
  pen.textAlign = 'left';
}
"#)
    };
}

pub(crate) use names_text;
