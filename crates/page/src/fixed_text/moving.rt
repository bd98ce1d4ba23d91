//! The script on moving: it draws in frames, zooms, and brings a box into the window.

/// The texts before it, this one, and those that the further macros add.
macro_rules! moving_text {
    (($next:ident $($rest:ident)*) $($before:literal)*) => {
        $next!(($($rest)*) $($before)* r#"
// The view moves at once, by moving the scene that is there; it is painted anew at once if that is quick, or else when the view rests.
// The longer a painting takes, the longer it waits.
const QUICK = 20, REST = 80, MOST_REST = 1000;
let framePending = false, restTimer = 0, isStale = true;
const isPainted = () => !isStale && scene.view && scene.view.x === view.x && scene.view.y === view.y && scene.view.zoom === view.zoom;
function showScene() {
  const scale = view.zoom / scene.view.zoom, z = view.zoom * ratio();
  const x = (scene.view.x - view.x) * z, y = canvas.height - (scene.view.y - view.y) * z - scene.high * scale;
  pen.setTransform(1, 0, 0, 1, 0, 0);
  pen.fillStyle = paint.paper;
  pen.fillRect(0, 0, canvas.width, canvas.height);
  pen.drawImage(scene.canvas, x, y, scene.wide * scale, scene.high * scale);
  if (now && now.isPlaced) writeRulers(now); else if (now) writeMissing(now);
}
function paintNow() {
  clearTimeout(restTimer);
  paintScene();
  isStale = false;
}
function frame() {
  framePending = false;
  if (!isPainted()) {
    if (isStale || scene.cost < QUICK) paintNow();
    else {
      clearTimeout(restTimer);
      restTimer = setTimeout(redraw, Math.min(MOST_REST, Math.max(REST, 2 * scene.cost)));
    }
  }
  showScene();
}
// Draws in the next frame.
function draw() {
  if (framePending) return;
  framePending = true;
  requestAnimationFrame(frame);
}
// Draws what has changed otherwise than by a move.
function redraw() {
  isStale = true;
  draw();
}
const MOST_ZOOM = 400;
// The zoom at which a box of the strip fills the window.
const fitting = (width, height) => Math.min((canvas.clientWidth - 40) / width, (canvas.clientHeight - 30) / height);
function clampZoom(zoom) {
  const least = now ? 0.5 * fitting(left(now, now.size.columns + 2), left(now, now.size.rows + 2)) : 1;
  return Math.max(Math.min(least, MOST_ZOOM), Math.min(MOST_ZOOM, zoom));
}
// Zooms so that the point at these pixels of the window stays there.
function zoomAt(x, y, factor) {
  const high = canvas.clientHeight, a = view.x + x / view.zoom, b = view.y + (high - y) / view.zoom;
  view.zoom = clampZoom(view.zoom * factor);
  view.x = a - x / view.zoom;
  view.y = b - (high - y) / view.zoom;
  draw();
}
const zoomBy = factor => zoomAt(canvas.clientWidth / 2, canvas.clientHeight / 2, factor);
// Moves the view by pixels of the window.
function moveBy(x, y) {
  view.x += x / view.zoom;
  view.y -= y / view.zoom;
  draw();
}
// Shows a box in the middle of the window.
function showBox(x0, y0, x1, y1, mostZoom) {
  view.zoom = clampZoom(Math.min(mostZoom, fitting(x1 - x0, y1 - y0)));
  view.x = (x0 + x1 - (canvas.clientWidth + 26) / view.zoom) / 2;
  view.y = (y0 + y1 - (canvas.clientHeight + 16) / view.zoom) / 2;
  draw();
}
// The whole strip, with room for the names of its pads.
function whole() {
  const t = now;
  if (!t) return;
  const x1 = left(t, t.size.columns) + 1 + gap(t), y1 = left(t, t.size.rows + 1) + 1;
  const names = Math.min(100, 0.12 * canvas.clientHeight) / fitting(x1 - left(t, 0) - 1, y1);
  showBox(left(t, 0) + 1, -names, x1, y1 + names, MOST_ZOOM);
}
// The box of what is picked, or null.
function pickedBox() {
  const t = now, points = [];
  if (!t || !t.isPlaced) return null;
  const reach = { line(x0, y0, x1, y1) { points.push([x0, y0], [x1, y1]); }, dot() {} };
  const add = block => { if (block) { const [x, y, width, height] = box(t, block); points.push([x, y], [x + width, y + height]); } };
  if (t.nets[picked]) {
    const net = t.nets[picked];
    add(t.blocks[net.driver]);
    for (const i of net.readers) add(t.blocks[i]);
    traceNet(t, net, reach);
  }
  if (onPath) {
    for (const stop of t.path) add(stopBlock(t, stop));
    for (const way of onPath) traceNet(t, way, reach);
  }
  add(t.blocks[chosen]);
  if (!points.length) return null;
  const found = [Infinity, Infinity, -Infinity, -Infinity];
  for (const [x, y] of points) {
    [found[0], found[1]] = [Math.min(found[0], x), Math.min(found[1], y)];
    [found[2], found[3]] = [Math.max(found[2], x), Math.max(found[3], y)];
  }
  return found;
}
function frameNow() {
  const found = pickedBox(), edge = now ? 0.6 * pitch(now) : 0;
  if (found) showBox(found[0] - edge, found[1] - edge, found[2] + edge, found[3] + edge, 80);
}
"#)
    };
}

pub(crate) use moving_text;
