//! A picture as SVG.

ghost use Rattle.std.specs.Prelude.{◌≡◌, ◌≤◌, ◌^◌, ◌++◌, IfOk, OnOk};
ghost use Rattle.std.specs.Fmt.{decimal};
ghost use Rattle.std.specs.List.{flat_map};
ghost use Rattle.pb_draw_picture.specs.Svg as spec;

use crate::picture::{Label, LabelKind, Picture, Rect, RectKind, Size, Tick, TickKind, Wait};
use pb_base::NoMemory;
use pb_base::writing::{put, put_number};
use std::alloc::Global;

/// Returns the word for what a rectangle stands for.
fn rect_word(kind: RectKind) -> &'static [u8]
    ensures { result.now ≡ spec.rect_word kind }
{
    match kind {
        RectKind::Gap => b"gap",
        RectKind::Going => b"going",
        RectKind::Short => b"short",
        RectKind::KeptBack => b"kept",
        RectKind::Hold(_) => b"hold",
        RectKind::Cash(_) => b"cash",
        RectKind::Level => b"level",
    }
}

/// Returns the word for what a text stands for.
fn label_word(kind: LabelKind) -> &'static [u8]
    ensures { result.now ≡ spec.label_word kind }
{
    match kind {
        LabelKind::Name => b"name",
        LabelKind::Again => b"again",
        LabelKind::Number => b"number",
        LabelKind::Silent => b"silent",
        LabelKind::Bundle => b"bundle",
        LabelKind::Amount => b"amount",
        LabelKind::Note => b"note",
        LabelKind::Deadlock => b"deadlock",
    }
}

/// Returns the word for what a mark stands for.
fn tick_word(kind: TickKind) -> &'static [u8]
    ensures { result.now ≡ spec.tick_word kind }
{
    match kind {
        TickKind::Grant => b"grant",
        TickKind::Return => b"return",
        TickKind::Print => b"print",
        TickKind::Fault => b"fault",
        TickKind::End => b"end",
        TickKind::Read => b"read",
        TickKind::Assign => b"assign",
    }
}

/// Returns the outline of a mark, from its place on.
fn outline(kind: TickKind) -> &'static [u8]
    ensures { result.now ≡ spec.outline kind }
{
    match kind {
        TickKind::Grant => b"m0-6v12l7-6z",
        TickKind::Return => b"m0-6v12l-7-6z",
        TickKind::Print => b"m-4 0a4 4 0 1 0 8 0a4 4 0 1 0-8 0z",
        TickKind::Fault => b"m-5-5l10 10m0-10l-10 10",
        TickKind::End => b"m-4-4h8v8h-8z",
        TickKind::Read => b"m-4 0l4-4l4 4l-4 4z",
        TickKind::Assign => b"m-4 0l4-4l4 4l-4 4z",
    }
}

/// Appends the word for the colour of a rectangle to `text`, if it has one.
fn put_colour(text: &mut Vec<u8>, kind: RectKind) -> Result<(), NoMemory>
    ensures { OnOk result (text.new.items ≡ text.old.items ++ spec.colour_text kind) }
{
    match kind {
        RectKind::Hold(resource) => put_number(text, b" r", resource % COLOURS),
        RectKind::Cash(resource) => put_number(text, b" r", resource % COLOURS),
        RectKind::Gap => Ok(()),
        RectKind::Going => Ok(()),
        RectKind::Short => Ok(()),
        RectKind::KeptBack => Ok(()),
        RectKind::Level => Ok(()),
    }
}

/// Appends a rectangle to `text`.
fn put_shape(text: &mut Vec<u8>, rect: &Rect) -> Result<(), NoMemory>
    ensures { OnOk result (text.new.items ≡ text.old.items ++ spec.rect_shape rect.now) }
{
    let word = rect_word(rect.kind);
    put(text, b"<rect class=\"")?;
    put(text, word)?;
    put_colour(text, rect.kind)?;
    put_number(text, b"\" x=\"", rect.x)?;
    put_number(text, b"\" y=\"", rect.y)?;
    put_number(text, b"\" width=\"", rect.width)?;
    put_number(text, b"\" height=\"", rect.height)?;
    put(text, b"\"/>")?;
    Ok(())
}

/// Appends the line of a rectangle to `text`.
fn put_rect(text: &mut Vec<u8>, rect: &Rect) -> Result<(), NoMemory>
    ensures { OnOk result (text.new.items ≡ text.old.items ++ spec.rect_text rect.now) }
{
    put_shape(text, rect)?;
    put(text, b"\n")
}

/// Appends the line of an arm that is kept back to `text`.
fn put_wait(text: &mut Vec<u8>, wait: &Wait) -> Result<(), NoMemory>
    ensures { OnOk result (text.new.items ≡ text.old.items ++ spec.wait_text wait.now) }
{
    let why = wait.title.as_slice();
    let label = wait.label.as_slice();
    put(text, b"<g class=\"wait\"><title>")?;
    put(text, why)?;
    put(text, b"</title>")?;
    put_shape(text, &wait.rect)?;
    put_number(text, b"<text x=\"", wait.label_x)?;
    put_number(text, b"\" y=\"", wait.label_y)?;
    put(text, b"\">")?;
    put(text, label)?;
    put(text, b"</text></g>\n")?;
    Ok(())
}

/// Appends a label to `text`.
fn put_label(text: &mut Vec<u8>, label: &Label) -> Result<(), NoMemory>
    ensures { OnOk result (text.new.items ≡ text.old.items ++ spec.label_text label.now) }
{
    let word = label_word(label.kind);
    let said = label.text.as_slice();
    put(text, b"<text class=\"")?;
    put(text, word)?;
    put_number(text, b"\" x=\"", label.x)?;
    put_number(text, b"\" y=\"", label.y)?;
    put(text, b"\">")?;
    put(text, said)?;
    put(text, b"</text>\n")?;
    Ok(())
}

/// Appends the mark of an event to `text`.
fn put_tick(text: &mut Vec<u8>, tick: &Tick) -> Result<(), NoMemory>
    ensures { OnOk result (text.new.items ≡ text.old.items ++ spec.tick_text tick.now) }
{
    let word = tick_word(tick.kind);
    let title = tick.title.as_slice();
    let path = outline(tick.kind);
    let label = tick.label.as_slice();
    put(text, b"<g class=\"")?;
    put(text, word)?;
    put(text, b"\"><title>")?;
    put(text, title)?;
    put_number(text, b"</title><path d=\"M", tick.x)?;
    put_number(text, b" ", tick.y)?;
    put(text, path)?;
    put_number(text, b"\"/><text x=\"", tick.label_x)?;
    put_number(text, b"\" y=\"", tick.label_y)?;
    put(text, b"\">")?;
    put(text, label)?;
    put(text, b"</text></g>\n")?;
    Ok(())
}

/// Returns what each kind of shape looks like.
fn style() -> &'static [u8]
    ensures { result.now ≡ spec.style }
{
    STYLE
}

/// Returns how wide a picture is shown.
fn shown_width(size: Size, picture: &Picture) -> u128
    ensures width { result ≡ spec.shown_width size picture.now }
    ensures near { result ≤ 2 ^ 61 }
{
    let width = match size.width {
        Some(width) => u64::from(width),
        None => picture.width,
    };
    u128::from(width) * u128::from(size.scale) / 100
}

/// Returns how high a picture is shown.
fn shown_height(size: Size, picture: &Picture) -> u128
    ensures { result ≡ spec.shown_height size picture.now }
{
    u128::from(picture.height) * shown_width(size, picture) / u128::from(picture.width.max(1))
}

/// Appends words and then a number to `text`.
fn put_wide(text: &mut Vec<u8>, words: &[u8], number: u128) -> Result<(), NoMemory>
    ensures { OnOk result (text.new.items ≡ text.old.items ++ (words.now ++ decimal number)) }
{
    put_number(text, words, number)
}

/// Appends what a picture that is shown so wide and so high begins with to `text`.
fn put_head_for(
    text: &mut Vec<u8>,
    width: u128,
    height: u128,
    picture: &Picture,
) -> Result<(), NoMemory>
    ensures { OnOk result (text.new.items ≡ text.old.items ++ spec.head_for width height picture.now) }
{
    let looks = style();
    put_wide(
        text,
        b"<svg xmlns=\"http://www.w3.org/2000/svg\" width=\"",
        width,
    )?;
    put_wide(text, b"\" height=\"", height)?;
    put_number(text, b"\" viewBox=\"0 0 ", picture.width)?;
    put_number(text, b" ", picture.height)?;
    put(text, looks)?;
    Ok(())
}

/// Appends what a picture begins with to `text`.
fn put_head(text: &mut Vec<u8>, size: Size, picture: &Picture) -> Result<(), NoMemory>
    ensures { OnOk result (text.new.items ≡ text.old.items ++ spec.head_text size picture.now) }
{
    let width = shown_width(size, picture);
    let height = shown_height(size, picture);
    put_head_for(text, width, height, picture)
}

/// How many colours there are: the first eight resources differ, and the ninth has the colour of the first. They are
/// those of Okabe and Ito (Color Universal Design, 2008), lighter or darker, which differ to colour-blind eyes too.
const COLOURS: usize = 8;

/// What each kind of shape looks like.
const STYLE: &[u8] =
    b"\">\n<title>A run, pick by pick</title>\n<style>\ntext{font:11px monospace;fill:#000}\npath{fill:#000}\n.name{font-weight:bold}\n.number,.silent,.note,.again,.wait text{fill:#555;font-size:10px}\n.amount{font-size:10px}\n.paper{fill:#fff}\n.gap{fill:#eee}\n.going{fill:#999}\n.short{fill:url(#hatch);stroke:#000;stroke-width:.5}\n.kept{fill:url(#dots);stroke:#000;stroke-width:.5}\n.hatch{stroke:#000}\n.deadlock{fill:#c00;font-weight:bold}\n.hold{stroke:#000;stroke-width:.5}\n.level{fill:#333}\n.r0{fill:#bfe1f6}\n.r1{fill:#f7dca3}\n.r2{fill:#a3dccb}\n.r3{fill:#edcbdd}\n.r4{fill:#f9f5b9}\n.r5{fill:#8fb8dc}\n.r6{fill:#f1c4a6}\n.r7{fill:#d9d9d9}\n.print path{fill:#fff;stroke:#000;stroke-width:1.5}\n.fault path{stroke:#c00;stroke-width:2.5}\n.read path{fill:#fff;stroke:#000}\n@media (prefers-color-scheme:dark){\ntext{fill:#eee}\npath{fill:#eee}\n.number,.silent,.note,.again,.wait text{fill:#aaa}\n.paper{fill:#1b1b1b}\n.gap{fill:#333}\n.going{fill:#888}\n.short,.kept{stroke:#eee}\n.hatch{stroke:#eee}\n.deadlock{fill:#f66}\n.hold{stroke:#eee}\n.level{fill:#ddd}\n.r0{fill:#1f5f86}\n.r1{fill:#7a5600}\n.r2{fill:#00604a}\n.r3{fill:#74405d}\n.r4{fill:#6b6600}\n.r5{fill:#00436a}\n.r6{fill:#7d3800}\n.r7{fill:#555}\n.print path,.read path{fill:#1b1b1b;stroke:#eee}\n.fault path{stroke:#f66}\n}\n</style>\n<defs><pattern id=\"hatch\" width=\"5\" height=\"5\" patternUnits=\"userSpaceOnUse\"><path class=\"hatch\" d=\"M0 5L5 0\"/></pattern><pattern id=\"dots\" width=\"8\" height=\"8\" patternUnits=\"userSpaceOnUse\"><path d=\"M2 4a2 2 0 1 0 4 0a2 2 0 1 0-4 0z\"/></pattern></defs>\n<rect class=\"paper\" width=\"100%\" height=\"100%\"/>\n";

/// Appends rectangles to `text`.
fn put_rects(text: &mut Vec<u8>, rects: &[Rect]) -> Result<(), NoMemory>
    ensures { OnOk result (text.new.items ≡ text.old.items ++ flat_map spec.rect_text rects.now) }
{
    for i in 0..rects.len() {
        put_rect(text, &rects[i])?;
    }
    Ok(())
}

/// Appends the lines of arms that are kept back to `text`.
fn put_waits(text: &mut Vec<u8>, waits: &[Wait]) -> Result<(), NoMemory>
    ensures { OnOk result (text.new.items ≡ text.old.items ++ flat_map spec.wait_text waits.now) }
{
    for i in 0..waits.len() {
        put_wait(text, &waits[i])?;
    }
    Ok(())
}

/// Appends labels to `text`.
fn put_labels(text: &mut Vec<u8>, labels: &[Label]) -> Result<(), NoMemory>
    ensures { OnOk result (text.new.items ≡ text.old.items ++ flat_map spec.label_text labels.now) }
{
    for i in 0..labels.len() {
        put_label(text, &labels[i])?;
    }
    Ok(())
}

/// Appends the marks of events to `text`.
fn put_ticks(text: &mut Vec<u8>, ticks: &[Tick]) -> Result<(), NoMemory>
    ensures { OnOk result (text.new.items ≡ text.old.items ++ flat_map spec.tick_text ticks.now) }
{
    for i in 0..ticks.len() {
        put_tick(text, &ticks[i])?;
    }
    Ok(())
}

/// Returns a picture as SVG, shown at a size: a line for each shape, the rectangles first, then the lines of arms that are kept
/// back, then the labels, and then the marks of events.
pub fn write_svg(alloc: Global, size: Size, picture: &Picture) -> Result<Vec<u8>, NoMemory>
    ensures { IfOk result (λ text. text.items ≡ spec.svg size picture.now) }
{
    let mut text = Vec::new(alloc);
    put_head(&mut text, size, picture)?;
    put_rects(&mut text, picture.rects.as_slice())?;
    put_waits(&mut text, picture.waits.as_slice())?;
    put_labels(&mut text, picture.labels.as_slice())?;
    put_ticks(&mut text, picture.ticks.as_slice())?;
    put(&mut text, b"</svg>\n")?;
    Ok(text)
}
