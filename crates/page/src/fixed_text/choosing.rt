//! The script on choosing: what is picked, the search, and the address of what is shown.

/// The texts before it, this one, and those that the further macros add.
macro_rules! choosing_text {
    (($next:ident $($rest:ident)*) $($before:literal)*) => {
        $next!(($($rest)*) $($before)* r#"
const say = text => { $('said').textContent = text; };
// Where the page is: the tenancy, and what of it is picked.
function addressNow() {
  if (!now) return '';
  if (onPath) return pathAddress();
  if (now.nets[picked]) return netAddress(now.nets[picked].name);
  return now.blocks[chosen] ? blockAddress(now.blocks[chosen].name) : address(now.name);
}
// Writes the address of what is picked; the first one is no step back.
function setAddress() {
  const hash = addressNow();
  if (location.hash === hash) return;
  if (location.hash) location.hash = hash; else location.replace(hash);
}
function titleNow() {
  if (!now) return columns ? 'fpgad: device of ' + count(columns, 'column') : 'fpgad';
  const net = now.nets[picked], block = now.blocks[chosen];
  return 'fpgad: ' + now.name + (onPath ? ', longest path' : net ? ', net ' + net.name : block ? ', ' + blockText(block) : '');
}
const choose = (net, block) => { [picked, chosen, onPath, spot, found] = [net, block, null, null, null]; };
// Shows what has been chosen, in its frame if that is asked for.
function showChosen(isFramed) {
  $('framed').disabled = !now.nets[picked] && !now.blocks[chosen] && !onPath;
  document.title = titleNow();
  canvas.setAttribute('aria-label', 'layout of ' + document.title.slice('fpgad: '.length));
  tell();
  if (isFramed) frameNow();
  redraw();
  setAddress();
}
// Picks a net or a block by its number, or nothing by -1. It is framed unless it was picked in the drawing.
function pick(net, block, isFramed) {
  choose(net, block);
  const item = now.nets[net] || now.blocks[block];
  $('q').value = item ? item.name : '';
  say(now.nets[net] ? 'net found' : item ? 'block found' : '');
  showChosen(item && isFramed);
}
// Finds a net, a block or a BLE by its name; or lists the nets and blocks that have the text.
function search(text) {
  const t = now;
  if (!t) return;
  if (!text || t.byName.has(text)) return pick(text ? t.byName.get(text) : -1, -1, true);
  const block = t.blocks.findIndex(other => other.name === text || other.bles.includes(text));
  if (block >= 0) return pick(-1, block, true);
  const nets = t.nets.filter(net => net.name.includes(text));
  const blocks = t.blocks.filter(other => other.name.includes(text) || other.bles.some(name => name.includes(text)));
  if (!nets.length && !blocks.length) return say('nothing has this name');
  if (nets.length === 1 && !blocks.length) return pick(t.byName.get(nets[0].name), -1, true);
  if (blocks.length === 1 && !nets.length) return pick(-1, t.blocks.indexOf(blocks[0]), true);
  found = { nets, blocks };
  say(count(nets.length, 'net') + ' and ' + count(blocks.length, 'block') + ' have this text');
  tell();
}
// Shows a tenancy, with nothing picked.
function show(i) {
  if (now) now.grid = null;
  now = tenancies[i];
  now.grid = buildGrid(now);
  choose(-1, -1);
  $('tenancy').value = String(i);
  for (const button of $('device').querySelectorAll('button')) button.setAttribute('aria-pressed', String(button.dataset.name === now.name));
  const names = new Set([...now.nets, ...now.blocks].map(item => item.name));
  $('names').replaceChildren(...[...names].map(name => {
    const option = document.createElement('option');
    option.value = name;
    return option;
  }));
  whole();
}
const decode = part => {
  try { return decodeURIComponent(part); } catch { return part; }
};
// Opens what an address names: `#TENANCY`, `#TENANCY/NET`, `#TENANCY/block/BLOCK` or `#TENANCY/path/longest`.
function openAddress(hash) {
  const parts = hash.slice(1).split('/'), i = tenancies.findIndex(t => t.name === decode(parts[0]));
  if (i < 0) return say(parts[0] ? 'no tenancy is called ' + decode(parts[0]) : '');
  if (now !== tenancies[i]) show(i);
  if (parts.length === 3 && parts[1] === 'block') {
    const block = now.blocks.findIndex(other => other.name === decode(parts[2]));
    if (block >= 0) return pick(-1, block, true);
  }
  if (parts.length === 3 && parts[1] === 'path' && now.path.length) return showPath();
  const name = parts.slice(1).map(decode).join('/');
  if (!name) pick(-1, -1, false); else if (now.byName.has(name)) pick(now.byName.get(name), -1, true); else findLater(name);
}
// Searches a name that is no net's, after the tenancy has been shown with nothing picked.
function findLater(name) {
  pick(-1, -1, false);
  $('q').value = name;
  search(name);
}
const go = hash => { if (location.hash === hash) openAddress(hash); else location.hash = hash; };
"#)
    };
}

pub(crate) use choosing_text;
