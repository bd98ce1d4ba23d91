//! The end of the script: it joins the controls to what they do, and opens what the address names.

/// The texts before it, this one, and those that the further macros add.
macro_rules! start_text {
    (($next:ident $($rest:ident)*) $($before:literal)*) => {
        $next!(($($rest)*) $($before)* r#"
// The first tenancy; what was said of the address stays.
function showFirst() {
  const said = $('said').textContent;
  show(0);
  pick(-1, -1, false);
  say(said);
}
// The controls, and the first tenancy or the one that the address names.
$('q').onchange = () => search($('q').value.trim());
$('heat').onclick = toggleHeat;
$('closer').onclick = () => zoomBy(1.25);
$('farther').onclick = () => zoomBy(0.8);
$('home').onclick = whole;
$('framed').onclick = frameNow;
tenancies.forEach((t, i) => {
  const option = make('option', t.state ? t.name + ' ' + t.state.word : t.name);
  option.value = String(i);
  $('tenancy').append(option);
});
$('tenancy').onchange = () => go(address(tenancies[Number($('tenancy').value)].name));
$('tenancy').hidden = tenancies.length < 2;
window.onhashchange = () => { if (location.hash !== addressNow()) openAddress(location.hash); };
new ResizeObserver(redraw).observe($('view'));
matchMedia('(prefers-color-scheme: dark)').onchange = () => { readColours(); redraw(); };
$('legend').open = matchMedia('(min-width: 1100px)').matches;
readColours();
tellDevice();
if (tenancies.length) {
  openAddress(location.hash);
  if (!now) showFirst();
} else {
  $('view').append(make('p', 'No tenancy has present files.', 'advice'));
  document.title = titleNow();
  tell();
}
</script>
"#)
    };
}

pub(crate) use start_text;
