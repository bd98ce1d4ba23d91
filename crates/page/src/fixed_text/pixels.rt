//! The script on pixels: the scene is a picture of what is in the window, made of boxes of pixels.

/// The texts before it, this one, and those that the further macros add.
macro_rules! pixels_text {
    (($next:ident $($rest:ident)*) $($before:literal)*) => {
        $next!(($($rest)*) $($before)* r#"
// The scene is a picture of what is in the window, made of boxes of pixels, with names and marks on it.
const canvas = $('c'), pen = canvas.getContext('2d');
const scene = { canvas: document.createElement('canvas'), image: null, pixels: null, wide: 0, high: 0, scale: 1, view: null, cost: 0 };
scene.pen = scene.canvas.getContext('2d', { willReadFrequently: true });
// What is shown: the point at the window's lower left corner, and the pixels of a unit.
let view = { x: 0, y: 0, zoom: 10 };
const ratio = () => window.devicePixelRatio || 1;
// The colours of the style sheet: as they are written, and as the number of a pixel.
const paint = {}, ink = {};
function readColours() {
  const style = getComputedStyle(document.documentElement);
  const names = ['ink', 'soft', 'paper', 'panel', 'edge', 'empty', 'cluster', 'input', 'output', 'outline', 'chosen', 'dim', 'picked', 'driver',
    'reader', 'net0', 'net1', 'net2', 'net3', 'net4', 'net5', 'use0', 'use1', 'use2', 'use3', 'use4'];
  for (const name of names) {
    paint[name] = style.getPropertyValue('--' + name).trim();
    const number = parseInt(paint[name].slice(1), 16);
    ink[name] = (0xff000000 | (number & 0xff) << 16 | number & 0xff00 | number >> 16) >>> 0;
  }
  ink.nets = [ink.net0, ink.net1, ink.net2, ink.net3, ink.net4, ink.net5];
  ink.use = [ink.use0, ink.use1, ink.use2, ink.use3, ink.use4];
}
// Makes the scene as large as the window, and finds the pixels of a unit.
function sizeScene() {
  scene.scale = view.zoom * ratio();
  const wide = Math.max(1, Math.round(canvas.clientWidth * ratio())), high = Math.max(1, Math.round(canvas.clientHeight * ratio()));
  if (scene.image && scene.wide === wide && scene.high === high) return;
  [scene.wide, scene.high] = [wide, high];
  [scene.canvas.width, scene.canvas.height] = [canvas.width, canvas.height] = [wide, high];
  scene.image = scene.pen.createImageData(wide, high);
  scene.pixels = new Uint32Array(scene.image.data.buffer);
}
// Fills the pixels from x0 and y0 on to before x1 and y1, as far as they are in the window.
function fillPixels(x0, y0, x1, y1, colour) {
  const from = Math.max(0, x0), to = Math.min(scene.wide, x1), last = Math.min(scene.high, y1);
  if (from >= to) return;
  const pixels = scene.pixels;
  for (let y = Math.max(0, y0); y < last; y++) {
    if (to - from > 24) pixels.fill(colour, y * scene.wide + from, y * scene.wide + to);
    else for (let i = y * scene.wide + from; i < y * scene.wide + to; i++) pixels[i] = colour;
  }
}
// The frame of a box, so many pixels wide.
function framePixels(x0, y0, x1, y1, width, colour) {
  fillPixels(x0, y0, x1, y0 + width, colour);
  fillPixels(x0, y1 - width, x1, y1, colour);
  fillPixels(x0, y0, x0 + width, y1, colour);
  fillPixels(x1 - width, y0, x1, y1, colour);
}
// From a place to its pixel.
const pixelX = x => Math.round((x - view.x) * scene.scale);
const pixelY = y => scene.high - Math.round((y - view.y) * scene.scale);
function fillBox(x, y, width, height, colour) {
  fillPixels(pixelX(x), pixelY(y + height), pixelX(x + width), pixelY(y), colour);
}
function frameBox(x, y, width, height, thick, colour) {
  framePixels(pixelX(x), pixelY(y + height), pixelX(x + width), pixelY(y), thick, colour);
}
// A line along an axis, so many pixels wide.
function drawLine(x0, y0, x1, y1, width, colour) {
  const half = width >> 1, a = pixelX(x0) - half, b = pixelY(y1) - half;
  fillPixels(a, b, pixelX(x1) - half + width, pixelY(y0) - half + width, colour);
}
"#)
    };
}

pub(crate) use pixels_text;
